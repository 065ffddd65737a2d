//! Handling an event: its effect on the router, and what it sends.

ghost use Rattle.std.specs.Prelude.{◌≡◌, ◌+◌, ◌≤◌, ◌<◌, ◌↔◌, ◌++◌, false, length, IfOk, IsErrOf, IsTrue, OnErr, OnOk};
ghost use Rattle.tw_model.specs.declared.limits.TheConstants.{MOST_COUNTED};
ghost use Rattle.tw_model.specs.declared.memory.OrMemory.TheVariants as or_memory;
ghost use Rattle.tw_model.specs.Net.{IsPath};
ghost use Rattle.tw_model.specs.State.{has_peer};
ghost use Rattle.tw_model.specs.Effect.{fits, with_dropped, with_handled};
ghost use Rattle.tw_handlers.specs.Calls.{CanReact, Reacts, after_event, counter_full, effect_at, is_full_at};
ghost use Rattle.tw_handlers.specs.Record.{IsHandled, record_at};

use crate::fault::{CounterFull, Fault};
use crate::fit::{does_fit, slot_of_peer};
use crate::send::News;
use crate::settle::{count_handled, settle, settle_with_bar, settle_with_heard, settle_with_row};
use smallvec::SmallVec;
use tw_event::{Body, Event, PathNo, UndoRecord};
use tw_instance::Instance;
use tw_model::limits::MOST_COUNTED;
use tw_model::{Counters, OrMemory, Row};
use tw_router::Router;

/// Handles an event at its router, and adds what the router sends to `sends`.
///
/// The instance is the router's own. The answer is what undoing the event needs. After an error the
/// router and the list are as they were; an event that is not for this router is `Foreign`, also where
/// a counter is full. Callers who know that the event fits use `handle_fitting`.
pub fn handle(
    instance: &Instance,
    router: &mut Router<'_>,
    event: &Event,
    sends: &mut SmallVec<Event, 8>,
) -> Result<UndoRecord, OrMemory<Fault>>
    requires { instance.now ≡ router.old.net }
    ensures state { OnOk result (router.new ≡ after_event router.old event.now) }
    ensures sends { OnOk result (sends.new.items ≡ sends.old.items ++ (effect_at router.old event.now).sends) }
    ensures handled { IfOk result
        (λ note. IsHandled router.old.net router.old.node router.old.state event.now note router.new.state) }
    ensures err { OnErr result (router.new ≡ router.old) }
    ensures unsent { OnErr result (sends.new.items ≡ sends.old.items) }
    ensures foreign { IsErrOf result (or_memory.Fault Fault.Foreign) ↔ (fits router.old.net router.old.node event.now ≡ false) }
    ensures full { IsErrOf result (or_memory.Fault Fault.CounterFull)
        ↔ (IsTrue (fits router.old.net router.old.node event.now) × IsTrue (is_full_at router.old event.now)) }
{
    if !does_fit(instance, router.node(), event) {
        return Err(OrMemory::Fault(Fault::Foreign));
    }
    match handle_fitting(instance, router, event, sends) {
        Ok(note) => Ok(note),
        Err(OrMemory::Fault(full)) => Err(OrMemory::Fault(Fault::from(full))),
        Err(OrMemory::Memory) => Err(OrMemory::Memory),
    }
}

/// Handles an event that fits its router, and adds what the router sends to `sends`.
///
/// The instance is the router's own; `does_fit` tells whether an event fits. The answer is what undoing
/// the event needs. After an error the router and the list are as they were.
#[inline(always)]
pub fn handle_fitting(
    instance: &Instance,
    router: &mut Router<'_>,
    event: &Event,
    sends: &mut SmallVec<Event, 8>,
) -> Result<UndoRecord, OrMemory<CounterFull>>
    requires own { instance.now ≡ router.old.net }
    requires fits { IsTrue (fits router.old.net router.old.node event.now) }
    ensures state { OnOk result (router.new ≡ after_event router.old event.now) }
    ensures sends { OnOk result (sends.new.items ≡ sends.old.items ++ (effect_at router.old event.now).sends) }
    ensures handled { IfOk result
        (λ note. IsHandled router.old.net router.old.node router.old.state event.now note router.new.state) }
    ensures err { OnErr result (router.new ≡ router.old) }
    ensures unsent { OnErr result (sends.new.items ≡ sends.old.items) }
    ensures full { IsErrOf result (or_memory.Fault counter_full) ↔ IsTrue (is_full_at router.old event.now) }
{
    let counters = router.counters();
    if counters.handled >= MOST_COUNTED {
        return Err(OrMemory::Fault(CounterFull));
    }
    // Nearly all events are updates, so these are told from the others by one test.
    if let Body::Update { path, session } = event.body {
        return handle_update(instance, router, event, path, session, sends);
    }
    handle_any(instance, router, event, sends)
}

/// Handles an event of any kind that fits its router.
#[inline(never)]
fn handle_any(
    instance: &Instance,
    router: &mut Router<'_>,
    event: &Event,
    sends: &mut SmallVec<Event, 8>,
) -> Result<UndoRecord, OrMemory<CounterFull>>
    requires reaction { CanReact instance.now router.old event.now.time }
    requires fits { IsTrue (fits router.old.net router.old.node event.now) }
    ensures reaction { Reacts router.old router.new sends.old.items sends.new.items (effect_at router.old event.now) result }
    ensures note { IfOk result (λ note. note ≡ record_at router.old event.now) }
{
    // Opens what is known of the router's order.
    let _ = router.counters();
    match event.body {
        Body::Start => handle_start(instance, router, event, sends),
        Body::Fail(peer) => handle_fail(instance, router, event, peer, sends),
        Body::Restore(peer) => handle_restore(instance, router, event, peer, sends),
        Body::Swap(first, second) => handle_swap(instance, router, event, first, second, sends),
        Body::Forbid(line) => handle_forbid(instance, router, event, line, sends),
        Body::Allow(line) => handle_allow(instance, router, event, line, sends),
        Body::Update { path, session } => {
            handle_update(instance, router, event, path, session, sends)
        }
    }
}

#[inline(never)]
fn handle_start(
    instance: &Instance,
    router: &mut Router<'_>,
    event: &Event,
    sends: &mut SmallVec<Event, 8>,
) -> Result<UndoRecord, OrMemory<CounterFull>>
    requires reaction { CanReact instance.now router.old event.now.time }
    requires body { event.now.body ≡ Body.Start }
    ensures reaction { Reacts router.old router.new sends.old.items sends.new.items (effect_at router.old event.now) result }
    ensures note { IfOk result (λ note. note ≡ record_at router.old event.now) }
{
    let rib = router.rib();
    let changed = settle(instance, router, event.time, sends)?;
    Ok(UndoRecord::of_effect(changed, rib, PathNo::EMPTY))
}

#[inline(never)]
fn handle_fail(
    instance: &Instance,
    router: &mut Router<'_>,
    event: &Event,
    peer: u32,
    sends: &mut SmallVec<Event, 8>,
) -> Result<UndoRecord, OrMemory<CounterFull>>
    requires reaction { CanReact instance.now router.old event.now.time }
    requires body { event.now.body ≡ Body.Fail peer }
    requires neighbour { IsTrue (has_peer router.old.net router.old.node peer) }
    ensures reaction { Reacts router.old router.new sends.old.items sends.new.items (effect_at router.old event.now) result }
    ensures note { IfOk result (λ note. note ≡ record_at router.old event.now) }
{
    let slot = slot_of_peer(instance, router.node(), peer);
    let (row, rib) = (router.row(slot), router.rib());
    if !row.up {
        count_handled(router);
        return Ok(UndoRecord::without_effect(rib, row.heard));
    }
    let failed = Row {
        heard: PathNo::EMPTY,
        up: false,
        ..row
    };
    let changed = settle_with_row(instance, router, slot, failed, event.time, sends)?;
    Ok(UndoRecord::of_effect(changed, rib, row.heard))
}

#[inline(never)]
fn handle_restore(
    instance: &Instance,
    router: &mut Router<'_>,
    event: &Event,
    peer: u32,
    sends: &mut SmallVec<Event, 8>,
) -> Result<UndoRecord, OrMemory<CounterFull>>
    requires reaction { CanReact instance.now router.old event.now.time }
    requires body { event.now.body ≡ Body.Restore peer }
    requires neighbour { IsTrue (has_peer router.old.net router.old.node peer) }
    ensures reaction { Reacts router.old router.new sends.old.items sends.new.items (effect_at router.old event.now) result }
    ensures note { IfOk result (λ note. note ≡ record_at router.old event.now) }
{
    let node = router.node();
    let slot = slot_of_peer(instance, node, peer);
    let (row, rib, counters) = (router.row(slot), router.rib(), router.counters());
    if row.up {
        count_handled(router);
        return Ok(UndoRecord::without_effect(rib, PathNo::EMPTY));
    }
    if counters.sent >= MOST_COUNTED {
        return Err(OrMemory::Fault(CounterFull));
    }
    sends.reserve(1)?;
    let news = News {
        src: node,
        time: event.time,
        path: rib,
    };
    let repaired = Row {
        up: true,
        session: row.session + 1,
        ..row
    };
    let hops = instance.hops(node);
    sends.push_reserved(news.update(counters.sent, hops[slot], repaired));
    router.set_counters(Counters {
        sent: counters.sent + 1,
        handled: counters.handled + 1,
        ..counters
    });
    router.set_row(instance, slot, repaired);
    Ok(UndoRecord::of_effect(false, rib, PathNo::EMPTY))
}

#[inline(never)]
fn handle_swap(
    instance: &Instance,
    router: &mut Router<'_>,
    event: &Event,
    first: u32,
    second: u32,
    sends: &mut SmallVec<Event, 8>,
) -> Result<UndoRecord, OrMemory<CounterFull>>
    requires reaction { CanReact instance.now router.old event.now.time }
    requires body { event.now.body ≡ Body.Swap first second }
    requires first_place { 0 < first }
    requires first_within { first ≤ length router.old.state.order }
    requires second_place { 0 < second }
    requires second_within { second ≤ length router.old.state.order }
    ensures reaction { Reacts router.old router.new sends.old.items sends.new.items (effect_at router.old event.now) result }
    ensures note { IfOk result (λ note. note ≡ record_at router.old event.now) }
{
    let rib = router.rib();
    router.swap(instance, first, second);
    match settle(instance, router, event.time, sends) {
        Ok(changed) => Ok(UndoRecord::of_effect(changed, rib, PathNo::EMPTY)),
        Err(error) => {
            router.swap(instance, first, second);
            Err(error)
        }
    }
}

#[inline(never)]
fn handle_forbid(
    instance: &Instance,
    router: &mut Router<'_>,
    event: &Event,
    line: u32,
    sends: &mut SmallVec<Event, 8>,
) -> Result<UndoRecord, OrMemory<CounterFull>>
    requires reaction { CanReact instance.now router.old event.now.time }
    requires body { event.now.body ≡ Body.Forbid line }
    requires first { 0 < line }
    requires within { line ≤ length router.old.state.barred }
    ensures reaction { Reacts router.old router.new sends.old.items sends.new.items (effect_at router.old event.now) result }
    ensures note { IfOk result (λ note. note ≡ record_at router.old event.now) }
{
    let rib = router.rib();
    if router.is_barred(line) {
        count_handled(router);
        return Ok(UndoRecord::without_effect(rib, PathNo::EMPTY));
    }
    let changed = settle_with_bar(instance, router, line, true, event.time, sends)?;
    Ok(UndoRecord::of_effect(changed, rib, PathNo::EMPTY))
}

#[inline(never)]
fn handle_allow(
    instance: &Instance,
    router: &mut Router<'_>,
    event: &Event,
    line: u32,
    sends: &mut SmallVec<Event, 8>,
) -> Result<UndoRecord, OrMemory<CounterFull>>
    requires reaction { CanReact instance.now router.old event.now.time }
    requires body { event.now.body ≡ Body.Allow line }
    requires first { 0 < line }
    requires within { line ≤ length router.old.state.barred }
    ensures reaction { Reacts router.old router.new sends.old.items sends.new.items (effect_at router.old event.now) result }
    ensures note { IfOk result (λ note. note ≡ record_at router.old event.now) }
{
    let rib = router.rib();
    if !router.is_barred(line) {
        count_handled(router);
        return Ok(UndoRecord::without_effect(rib, PathNo::EMPTY));
    }
    let changed = settle_with_bar(instance, router, line, false, event.time, sends)?;
    Ok(UndoRecord::of_effect(changed, rib, PathNo::EMPTY))
}

#[inline(always)]
fn handle_update(
    instance: &Instance,
    router: &mut Router<'_>,
    event: &Event,
    path: PathNo,
    session: u64,
    sends: &mut SmallVec<Event, 8>,
) -> Result<UndoRecord, OrMemory<CounterFull>>
    requires reaction { CanReact instance.now router.old event.now.time }
    requires body { event.now.body ≡ Body.Update path session }
    requires neighbour { IsTrue (has_peer router.old.net router.old.node event.now.src) }
    requires path { IsPath router.old.net path }
    ensures reaction { Reacts router.old router.new sends.old.items sends.new.items (effect_at router.old event.now) result }
    ensures note { IfOk result (λ note. note ≡ record_at router.old event.now) }
{
    let slot = slot_of_peer(instance, router.node(), event.src);
    let (row, rib) = (router.row(slot), router.rib());
    if !row.up || row.session != session {
        count_dropped(router);
        return Ok(UndoRecord::without_effect(rib, row.heard));
    }
    let changed = settle_with_heard(instance, router, slot, path, event.time, sends)?;
    Ok(UndoRecord::of_effect(changed, rib, row.heard))
}

/// Counts an event as handled and dropped.
fn count_dropped(router: &mut Router<'_>)
    requires { router.old.state.counters.handled < MOST_COUNTED }
    ensures { router.new ≡ record router.old { state = with_handled (with_dropped router.old.state) } }
{
    let counters = router.counters();
    router.set_counters(Counters {
        handled: counters.handled + 1,
        dropped: counters.dropped + 1,
        ..counters
    });
}
