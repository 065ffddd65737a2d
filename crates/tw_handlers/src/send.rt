//! The updates that an event leads to.

ghost use Rattle.std.specs.Prelude.{◌≡◌, ◌+◌, ◌≤◌, ◌++◌, length};
ghost use Rattle.smallvec.specs.SmallVec.{HasRoomFor};
ghost use Rattle.tw_model.specs.declared.limits.TheConstants.{LATEST, LONGEST_DELAY, MOST_COUNTED, MOST_LINKS};
ghost use Rattle.tw_model.specs.Effect.{update_to, updates, ups};

use smallvec::SmallVec;
use tw_event::{Body, Event, PathNo};
use tw_instance::Instance;
use tw_model::{Hop, Row};
use tw_router::Router;

/// What the updates that an event leads to have in common: sender, time of the event and path.
#[derive(Clone, Copy)]
pub(crate) struct News {
    pub(crate) src: u32,
    pub(crate) time: u64,
    pub(crate) path: PathNo,
}

impl News {
    /// The update to one neighbour.
    pub(crate) fn update(self, seq: u64, hop: Hop, row: Row) -> Event
        requires time { self.time ≤ LATEST }
        requires delay { hop.delay ≤ LONGEST_DELAY }
        ensures { result ≡ update_to self.src self.time self.path seq hop row }
    {
        Event {
            time: self.time + hop.delay,
            dst: hop.peer,
            src: self.src,
            seq,
            body: Body::Update {
                path: self.path,
                session: row.session,
            },
        }
    }
}

/// How many neighbours of the router have a link that is up.
#[inline(never)]
pub(crate) fn count_up(instance: &Instance, router: &Router<'_>) -> u64
    requires { instance.now ≡ router.now.net }
    ensures value { result ≡ length (ups router.now.net router.now.node router.now.state) }
    ensures few { result ≤ MOST_LINKS }
{
    let hops = instance.hops(router.node());
    hops.iter()
        .zip(router.rows())
        .filter(|(_, row)| row.up)
        .count() as u64
}

/// Adds an update of the path to each neighbour whose link is up, numbered from `first`. Answers the
/// number after theirs.
#[inline(never)]
pub(crate) fn push_updates(
    instance: &Instance,
    router: &Router<'_>,
    time: u64,
    path: PathNo,
    first: u64,
    sends: &mut SmallVec<Event, 8>,
) -> u64
    requires own { instance.now ≡ router.now.net }
    requires time { time ≤ LATEST }
    requires number { first + length (ups router.now.net router.now.node router.now.state) ≤ MOST_COUNTED }
    requires room { HasRoomFor sends.old (length (ups router.now.net router.now.node router.now.state)) }
    ensures next { result ≡ first + length (ups router.now.net router.now.node router.now.state) }
    ensures sends { sends.new.items
        ≡ sends.old.items ++ updates router.now.net router.now.node time path first router.now.state }
{
    let news = News {
        src: router.node(),
        time,
        path,
    };
    let hops = instance.hops(news.src);
    let rows = router.rows();
    let mut seq = first;
    for (slot, row) in rows.iter().enumerate() {
        if !row.up {
            continue;
        }
        sends.push_reserved(news.update(seq, hops[slot], *row));
        seq += 1;
    }
    seq
}
