//! What an event sent, once more: from the state that it left and its record, as `undo` of `tw_handlers` does it, but into a
//! list that has room.

ghost use Rattle.std.specs.Prelude.{◌≡◌, ◌+◌, ◌<◌, ◌≤◌, ◌++◌, length, IsTrue, vec_capacity, vec_len};
ghost use Rattle.tw_model.specs.declared.limits.TheConstants.{LATEST, LONGEST_DELAY, MOST_COUNTED, MOST_LINKS};
ghost use Rattle.tw_model.specs.Effect.{fits, update_to, updates, ups};
ghost use Rattle.tw_model.specs.Net.{hops_of};
ghost use Rattle.tw_model.specs.State.{has_peer, slot as slot_of};
ghost use Rattle.tw_handlers.specs.Undo.{sends_again, sends_of_repair, sends_of_settling};

use tw_event::{Body, Event, PathNo};
use tw_handlers::UndoRecord;
use tw_instance::Instance;
use tw_model::{Hop, Row};
use tw_router::Router;

/// What the updates of an event have in common: sender, time of the event and path.
#[derive(Clone, Copy)]
struct News {
    src: u32,
    time: u64,
    path: PathNo,
}

impl News {
    /// The update to one neighbour.
    fn update(self, seq: u64, hop: Hop, row: Row) -> Event
        requires time { self.time ≤ LATEST }
        requires delay { hop.delay ≤ LONGEST_DELAY }
        ensures { result ≡ update_to self.src self.time self.path seq hop row }
    {
        Event {
            time: self.time + hop.delay,
            dst: hop.peer,
            src: self.src,
            seq,
            body: Body::Update {
                path: self.path,
                session: row.session,
            },
        }
    }
}

/// Puts what the event had sent behind `sends`. The instance is the router's own, and the record is the answer of
/// handling the event.
pub(crate) fn send_again(
    instance: &Instance,
    router: &Router<'_>,
    event: &Event,
    note: UndoRecord,
    sends: &mut Vec<Event>,
)
    requires own { instance.now ≡ router.now.net }
    requires fits { IsTrue (fits router.now.net router.now.node event.now) }
    requires room { vec_len sends.old + MOST_LINKS ≤ vec_capacity sends.old }
    ensures capacity { vec_capacity sends.old ≤ vec_capacity sends.new }
    ensures sends { sends.new.items
        ≡ sends.old.items ++ sends_again router.now.net router.now.node router.now.state event.now event.now.body note }
{
    match event.body {
        Body::Start => send_settled(instance, router, event, note, sends),
        Body::Fail(_) => send_settled(instance, router, event, note, sends),
        Body::Restore(peer) => {
            if note.took_effect {
                send_restored(instance, router, event, peer, sends);
            }
        }
        Body::Swap(_, _) => send_settled(instance, router, event, note, sends),
        Body::Forbid(_) => send_settled(instance, router, event, note, sends),
        Body::Allow(_) => send_settled(instance, router, event, note, sends),
        Body::Update { .. } => send_settled(instance, router, event, note, sends),
    }
}

/// Puts the updates of the present path behind `sends`, where the event had changed it.
fn send_settled(
    instance: &Instance,
    router: &Router<'_>,
    event: &Event,
    note: UndoRecord,
    sends: &mut Vec<Event>,
)
    requires own { instance.now ≡ router.now.net }
    requires time { event.now.time ≤ LATEST }
    requires room { vec_len sends.old + MOST_LINKS ≤ vec_capacity sends.old }
    ensures capacity { vec_capacity sends.old ≤ vec_capacity sends.new }
    ensures sends { sends.new.items
        ≡ sends.old.items ++ sends_of_settling router.now.net router.now.node event.now.time router.now.state note }
{
    if !note.changed {
        return;
    }
    let count = count_up(instance, router);
    let first = router.counters().sent.saturating_sub(count);
    push_updates(instance, router, event.time, router.rib(), first, sends);
}

/// Puts the update to the neighbour whose link had been restored behind `sends`.
fn send_restored(
    instance: &Instance,
    router: &Router<'_>,
    event: &Event,
    peer: u32,
    sends: &mut Vec<Event>,
)
    requires own { instance.now ≡ router.now.net }
    requires time { event.now.time ≤ LATEST }
    requires neighbour { IsTrue (has_peer router.now.net router.now.node peer) }
    requires room { vec_len sends.old + MOST_LINKS ≤ vec_capacity sends.old }
    ensures capacity { vec_capacity sends.old ≤ vec_capacity sends.new }
    ensures sends { sends.new.items
        ≡ sends.old.items ++ sends_of_repair router.now.net router.now.node event.now.time router.now.state peer }
{
    let src = router.node();
    let slot = slot_of_peer(instance, src, peer);
    let hops = instance.hops(src);
    let seq = router.counters().sent.saturating_sub(1);
    let news = News {
        src,
        time: event.time,
        path: router.rib(),
    };
    sends.push_reserved(news.update(seq, hops[slot], router.row(slot)));
}

/// The slot of a neighbour.
fn slot_of_peer(instance: &Instance, node: u32, peer: u32) -> usize
    requires { IsTrue (has_peer instance.now node peer) }
    ensures value { result ≡ slot_of instance.now node peer }
    ensures within { result < length (hops_of instance.now node) }
{
    instance.slot(node, peer).unwrap()
}

/// How many neighbours of the router have a link that is up.
fn count_up(instance: &Instance, router: &Router<'_>) -> u64
    requires { instance.now ≡ router.now.net }
    ensures value { result ≡ length (ups router.now.net router.now.node router.now.state) }
    ensures few { result ≤ MOST_LINKS }
{
    let hops = instance.hops(router.node());
    hops.iter()
        .zip(router.rows())
        .filter(|(_, row)| row.up)
        .count() as u64
}

/// Puts an update of the path to each neighbour whose link is up behind `sends`, numbered from `first`.
fn push_updates(
    instance: &Instance,
    router: &Router<'_>,
    time: u64,
    path: PathNo,
    first: u64,
    sends: &mut Vec<Event>,
)
    requires own { instance.now ≡ router.now.net }
    requires time { time ≤ LATEST }
    requires number { first + length (ups router.now.net router.now.node router.now.state) ≤ MOST_COUNTED }
    requires room { vec_len sends.old + length (ups router.now.net router.now.node router.now.state) ≤ vec_capacity sends.old }
    ensures capacity { vec_capacity sends.old ≤ vec_capacity sends.new }
    ensures sends { sends.new.items
        ≡ sends.old.items ++ updates router.now.net router.now.node time path first router.now.state }
{
    let news = News {
        src: router.node(),
        time,
        path,
    };
    let hops = instance.hops(news.src);
    let rows = router.rows();
    let mut seq = first;
    for (slot, row) in rows.iter().enumerate() {
        if !row.up {
            continue;
        }
        sends.push_reserved(news.update(seq, hops[slot], *row));
        seq += 1;
    }
}

/// Puts events behind `sends`, which has room for them.
#[inline(always)]
pub(crate) fn put_behind(sends: &mut Vec<Event>, events: &[Event])
    requires { vec_len sends.old + length events.now ≤ vec_capacity sends.old }
    ensures capacity { vec_capacity sends.old ≤ vec_capacity sends.new }
    ensures items { sends.new.items ≡ sends.old.items ++ events.now }
{
    for event in events {
        sends.push_reserved(*event);
    }
}
