//! Undoing an event: the router as it was, and what it had sent.

ghost use Rattle.std.specs.Prelude.{◌≡◌, ◌≤◌, ◌++◌, length, IsOk, IsTrue, OnErr, OnOk};
ghost use Rattle.smallvec.specs.SmallVec.{HasRoomFor};
ghost use Rattle.tw_model.specs.declared.limits.TheConstants.{LATEST};
ghost use Rattle.tw_model.specs.Net.{IsPath};
ghost use Rattle.tw_model.specs.State.{IsState, State as AState, has_peer, slot as slot_of};
ghost use Rattle.tw_model.specs.Effect.{effect, fits};
ghost use Rattle.tw_handlers.specs.Record.{CameFrom};
ghost use Rattle.tw_handlers.specs.Undo.{counters_before as counters_before_of, counters_without_settling as counters_without_settling_of};
ghost use Rattle.tw_handlers.specs.Undo.{sends_again, sends_of_repair, sends_of_settling, state_before, with_body_undone, with_failure_undone, with_repair_undone};

use crate::fit::slot_of_peer;
use crate::send::{News, count_up, push_updates};
use smallvec::SmallVec;
use std::alloc::AllocError;
use tw_event::{Body, Event, UndoRecord};
use tw_instance::Instance;
use tw_model::{Counters, Row};
use tw_router::Router;

/// Undoes the event that the router handled last, and adds what it had sent to `sends`, in that order.
///
/// The instance is the router's own, and the record is the answer of handling the event. Where there is
/// no memory, the router and the list are as they were. It cannot fail where the list has room for what
/// the event had sent.
pub fn undo(
    instance: &Instance,
    router: &mut Router<'_>,
    event: &Event,
    note: UndoRecord,
    sends: &mut SmallVec<Event, 8>,
) -> Result<(), AllocError>
    requires own { instance.now ≡ router.old.net }
    requires handled { (s : AState) × CameFrom router.old event.now note s }
    ensures state { (s : AState) → CameFrom router.old event.now note s
        → OnOk result (router.new ≡ record router.old { state = s }) }
    ensures sends { (s : AState) → CameFrom router.old event.now note s
        → OnOk result (sends.new.items ≡ sends.old.items ++ (effect router.old.net router.old.node s event.now).sends) }
    ensures succeeds { (s : AState) → CameFrom router.old event.now note s
        → HasRoomFor sends.old (length (effect router.old.net router.old.node s event.now).sends) → IsOk result }
    ensures err { OnErr result (router.new ≡ router.old) }
    ensures unsent { OnErr result (sends.new.items ≡ sends.old.items) }
{
    send_again(instance, router, event, note, sends)?;
    take_back(instance, router, event, note);
    Ok(())
}

/// Adds what the event had sent.
fn send_again(
    instance: &Instance,
    router: &Router<'_>,
    event: &Event,
    note: UndoRecord,
    sends: &mut SmallVec<Event, 8>,
) -> Result<(), AllocError>
    requires own { instance.now ≡ router.now.net }
    requires fits { IsTrue (fits router.now.net router.now.node event.now) }
    ensures ok { OnOk result (sends.new.items
        ≡ sends.old.items ++ sends_again router.now.net router.now.node router.now.state event.now event.now.body note) }
    ensures succeeds { HasRoomFor sends.old (length (sends_again router.now.net router.now.node router.now.state event.now event.now.body note))
        → IsOk result }
    ensures err { OnErr result (sends.new.items ≡ sends.old.items) }
{
    match event.body {
        Body::Restore(peer) => {
            if note.took_effect {
                send_restored(instance, router, event, peer, sends)
            } else {
                Ok(())
            }
        }
        _ => send_settled(instance, router, event, note, sends),
    }
}

/// Adds the updates of the present path, where the event had changed it.
fn send_settled(
    instance: &Instance,
    router: &Router<'_>,
    event: &Event,
    note: UndoRecord,
    sends: &mut SmallVec<Event, 8>,
) -> Result<(), AllocError>
    requires own { instance.now ≡ router.now.net }
    requires time { event.now.time ≤ LATEST }
    ensures ok { OnOk result (sends.new.items
        ≡ sends.old.items ++ sends_of_settling router.now.net router.now.node event.now.time router.now.state note) }
    ensures succeeds { HasRoomFor sends.old (length (sends_of_settling router.now.net router.now.node event.now.time router.now.state note))
        → IsOk result }
    ensures err { OnErr result (sends.new.items ≡ sends.old.items) }
{
    if !note.changed {
        return Ok(());
    }
    let count = count_up(instance, router);
    sends.reserve(count as usize)?;
    let first = router.counters().sent.saturating_sub(count);
    let _ = push_updates(instance, router, event.time, router.rib(), first, sends);
    Ok(())
}

/// Adds the update to the neighbour whose link had been restored.
fn send_restored(
    instance: &Instance,
    router: &Router<'_>,
    event: &Event,
    peer: u32,
    sends: &mut SmallVec<Event, 8>,
) -> Result<(), AllocError>
    requires own { instance.now ≡ router.now.net }
    requires time { event.now.time ≤ LATEST }
    requires neighbour { IsTrue (has_peer router.now.net router.now.node peer) }
    ensures ok { OnOk result (sends.new.items
        ≡ sends.old.items ++ sends_of_repair router.now.net router.now.node event.now.time router.now.state peer) }
    ensures succeeds { HasRoomFor sends.old 1 → IsOk result }
    ensures err { OnErr result (sends.new.items ≡ sends.old.items) }
{
    let src = router.node();
    let slot = slot_of_peer(instance, src, peer);
    let hops = instance.hops(src);
    let seq = router.counters().sent.saturating_sub(1);
    let news = News {
        src,
        time: event.time,
        path: router.rib(),
    };
    sends.reserve(1)?;
    sends.push_reserved(news.update(seq, hops[slot], router.row(slot)));
    Ok(())
}

/// Takes back the event that the router handled last, as `undo` does, but for what the event had sent. This
/// cannot fail.
///
/// The instance is the router's own, and the record is the answer of handling the event.
pub fn take_back(instance: &Instance, router: &mut Router<'_>, event: &Event, note: UndoRecord)
    requires own { instance.now ≡ router.old.net }
    requires handled { (s : AState) × CameFrom router.old event.now note s }
    ensures { (s : AState) → CameFrom router.old event.now note s → router.new ≡ record router.old { state = s } }
{
    let counters = counters_before(instance, router, event, note);
    if note.changed {
        router.set_rib(note.rib);
    }
    move_back(instance, router, event, note);
    router.set_counters(counters);
}

/// Writes the row, the order or the bar as they were before the event.
fn move_back(instance: &Instance, router: &mut Router<'_>, event: &Event, note: UndoRecord)
    requires own { instance.now ≡ router.old.net }
    requires fits { IsTrue (fits router.old.net router.old.node event.now) }
    requires heard { IsPath router.old.net note.heard }
    ensures { router.new
        ≡ record router.old { state = with_body_undone router.old.net router.old.node router.old.state event.now event.now.body note } }
{
    let node = router.node();
    match event.body {
        Body::Start => {}
        Body::Swap(first, second) => router.swap(instance, first, second),
        Body::Fail(peer) => {
            if note.took_effect {
                undo_failure(instance, router, peer, note);
            }
        }
        Body::Restore(peer) => {
            if note.took_effect {
                undo_repair(instance, router, peer);
            }
        }
        Body::Forbid(line) => {
            if note.took_effect {
                router.set_barred(instance, line, false);
            }
        }
        Body::Allow(line) => {
            if note.took_effect {
                router.set_barred(instance, line, true);
            }
        }
        Body::Update { .. } => {
            if note.took_effect {
                let slot = slot_of_peer(instance, node, event.src);
                router.set_heard(instance, slot, note.heard);
            }
        }
    }
}

/// Writes the row of a neighbour as it was before its link failed.
fn undo_failure(instance: &Instance, router: &mut Router<'_>, peer: u32, note: UndoRecord)
    requires own { instance.now ≡ router.old.net }
    requires neighbour { IsTrue (has_peer router.old.net router.old.node peer) }
    requires heard { IsPath router.old.net note.heard }
    ensures { router.new
        ≡ record router.old { state = with_failure_undone router.old.state (slot_of router.old.net router.old.node peer) note } }
{
    let slot = slot_of_peer(instance, router.node(), peer);
    let repaired = Row {
        heard: note.heard,
        up: true,
        ..router.row(slot)
    };
    router.set_row(instance, slot, repaired);
}

/// Writes the row of a neighbour as it was before its link was repaired.
fn undo_repair(instance: &Instance, router: &mut Router<'_>, peer: u32)
    requires own { instance.now ≡ router.old.net }
    requires neighbour { IsTrue (has_peer router.old.net router.old.node peer) }
    ensures { router.new
        ≡ record router.old { state = with_repair_undone router.old.state (slot_of router.old.net router.old.node peer) } }
{
    let slot = slot_of_peer(instance, router.node(), peer);
    let row = router.row(slot);
    let failed = Row {
        up: false,
        session: row.session.saturating_sub(1),
        ..row
    };
    router.set_row(instance, slot, failed);
}

/// The counters before the event.
fn counters_before(
    instance: &Instance,
    router: &Router<'_>,
    event: &Event,
    note: UndoRecord,
) -> Counters
    requires { instance.now ≡ router.now.net }
    ensures { result ≡ counters_before_of router.now.net router.now.node router.now.state event.now.body note }
{
    let counters = router.counters();
    let handled = counters.handled.saturating_sub(1);
    match event.body {
        Body::Restore(_) => {
            let sent = if note.took_effect {
                counters.sent.saturating_sub(1)
            } else {
                counters.sent
            };
            Counters {
                sent,
                handled,
                ..counters
            }
        }
        Body::Update { .. } => {
            if note.took_effect {
                counters_without_settling(instance, router, note)
            } else {
                Counters {
                    handled,
                    dropped: counters.dropped.saturating_sub(1),
                    ..counters
                }
            }
        }
        Body::Start => counters_without_settling(instance, router, note),
        Body::Fail(_) => counters_without_settling(instance, router, note),
        Body::Swap(_, _) => counters_without_settling(instance, router, note),
        Body::Forbid(_) => counters_without_settling(instance, router, note),
        Body::Allow(_) => counters_without_settling(instance, router, note),
    }
}

fn counters_without_settling(instance: &Instance, router: &Router<'_>, note: UndoRecord) -> Counters
    requires { instance.now ≡ router.now.net }
    ensures { result ≡ counters_without_settling_of router.now.net router.now.node router.now.state note }
{
    let counters = router.counters();
    let handled = counters.handled.saturating_sub(1);
    if !note.changed {
        return Counters {
            handled,
            ..counters
        };
    }
    let count = count_up(instance, router);
    Counters {
        sent: counters.sent.saturating_sub(count),
        handled,
        dropped: counters.dropped,
        changed: counters.changed.saturating_sub(1),
    }
}
