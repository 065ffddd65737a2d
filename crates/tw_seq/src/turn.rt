//! One event of a run.

ghost use Rattle.std.specs.Prelude.{◌≡◌, ◌≤◌, ◌<◌, [], ◌++◌, length, slice_set, IfOk, OnErr, OnOk, IsErrOf, IsTrue, not, ◌==◌, ◌↔◌};
ghost use Rattle.tw_event.specs.Order.{event_before};
ghost use Rattle.tw_model.specs.Case.{opening_events};
ghost use Rattle.tw_model.specs.declared.memory.OrMemory.TheVariants as or_memory;
ghost use Rattle.tw_model.specs.Effect.{fits};
ghost use Rattle.tw_sim.specs.Ordered.{insert_all};
ghost use Rattle.tw_handlers.specs.Calls.{after_event, counter_full, effect_at, is_full_at};
ghost use Rattle.tw_handlers.specs.Record.{IsHandled};
ghost use Rattle.tw_ordered.specs.Queue.{AreFor};
ghost use Rattle.tw_seq.specs.Turn.{receiver};

use smallvec::SmallVec;
use std::alloc::{AllocError, Global};
use tw_calendar::EventList;
use tw_event::Event;
use tw_handlers::{CounterFull, UndoRecord, handle_fitting, take_back};
use tw_instance::{Case, Instance};
use tw_model::OrMemory;
use tw_router::Router;

/// Handles an event at its router, puts what it sends at the end of `sends`, and answers what undoing it
/// needs. An error leaves all unchanged.
#[inline(always)]
pub(crate) fn handle_at(
    instance: &Instance,
    routers: &mut [Router<'_>],
    event: &Event,
    sends: &mut SmallVec<Event, 8>,
) -> Result<UndoRecord, OrMemory<CounterFull>>
    requires within { event.now.dst < length routers.old }
    requires net { (receiver routers.old event.now).net ≡ instance.now }
    requires fits { let router = receiver routers.old event.now in IsTrue (fits router.net router.node event.now) }
    ensures routers { OnOk result
        (routers.new ≡ slice_set routers.old event.now.dst (after_event (receiver routers.old event.now) event.now)) }
    ensures sends { OnOk result
        (sends.new.items ≡ sends.old.items ++ (effect_at (receiver routers.old event.now) event.now).sends) }
    ensures handled { let router = receiver routers.old event.now in IfOk result
        (λ note. IsHandled router.net router.node router.state event.now note (after_event router event.now).state) }
    ensures changed { let router = receiver routers.old event.now in IfOk result
        (λ note. note.changed ≡ not (router.state.rib.0 == (after_event router event.now).state.rib.0)) }
    ensures err { OnErr result (routers.new ≡ routers.old) }
    ensures unsent { OnErr result (sends.new.items ≡ sends.old.items) }
    ensures full { IsErrOf result (or_memory.Fault counter_full) ↔ IsTrue (is_full_at (receiver routers.old event.now) event.now) }
{
    let router = &mut routers[event.dst as usize];
    handle_fitting(instance, router, event, sends)
}

/// Why an event is not handled at its router where there is no memory for that: a full counter, or want of
/// memory. It leaves all routers as they were.
pub(crate) fn fault_at(
    alloc: Global,
    instance: &Instance,
    routers: &mut [Router<'_>],
    event: &Event,
) -> OrMemory<CounterFull>
    requires within { event.now.dst < length routers.old }
    requires net { (receiver routers.old event.now).net ≡ instance.now }
    requires fits { let router = receiver routers.old event.now in IsTrue (fits router.net router.node event.now) }
    ensures same { routers.new ≡ routers.old }
    ensures full { result ≡ or_memory.Fault counter_full ↔ IsTrue (is_full_at (receiver routers.old event.now) event.now) }
{
    let router = &mut routers[event.dst as usize];
    let mut sends: SmallVec<Event, 8> = SmallVec::new(alloc);
    match handle_fitting(instance, router, event, &mut sends) {
        Ok(note) => {
            take_back(instance, router, event, note);
            OrMemory::Memory
        }
        Err(fault) => fault,
    }
}

/// Adds events for which there is room, each in its place.
#[inline(always)]
pub(crate) fn insert_each(pending: &mut EventList, events: &[Event])
    requires homes { AreFor pending.old.routers events.now }
    requires room { length events.now ≤ pending.old.room }
    ensures events { pending.new.events ≡ insert_all event_before events.now pending.old.events }
    ensures routers { pending.new.routers ≡ pending.old.routers }
{
    for event in events {
        pending.insert(event).unwrap();
    }
}

/// Takes events for which there is room out of `sends`, and adds each in its place.
#[inline(always)]
pub(crate) fn move_each(pending: &mut EventList, sends: &mut SmallVec<Event, 8>)
    requires homes { AreFor pending.old.routers sends.old.items }
    requires room { length sends.old.items ≤ pending.old.room }
    ensures events { pending.new.events ≡ insert_all event_before sends.old.items pending.old.events }
    ensures routers { pending.new.routers ≡ pending.old.routers }
    ensures sends { sends.new.items ≡ [] }
{
    // Most events lead to no other.
    if sends.is_empty() {
        return;
    }
    insert_each(pending, sends);
    sends.clear();
}

/// The opening events of a case.
pub(crate) fn opening_queue(alloc: Global, case: &Case) -> Result<EventList, AllocError>
    ensures events { IfOk result
        (λ pending. pending.events ≡ insert_all event_before (opening_events case.now.scenes) []) }
    ensures routers { IfOk result (λ pending. pending.routers ≡ case.now.net.nodes) }
{
    let events = case.openings();
    let mut pending = EventList::new(alloc, case.instance().nodes())?;
    pending.reserve(events.len())?;
    insert_each(&mut pending, events);
    Ok(pending)
}
