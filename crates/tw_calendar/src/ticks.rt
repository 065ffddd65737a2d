//! The events of several ticks.

ghost use Rattle.std.specs.Prelude.{◌≡◌, ◌==◌, ◌+◌, ◌++◌, ◌<◌, ◌≤◌, [], IfOk, OnOk, filter, length};
ghost use Rattle.std.specs.Bool.{OnTrue};
ghost use Rattle.std.specs.List.{All, list_any};
ghost use Rattle.tw_event.specs.declared.event.Event.{Event as AnEvent};
ghost use Rattle.tw_event.specs.Order.{event_same};
ghost use Rattle.tw_ordered.specs.Buckets.{together};
ghost use Rattle.tw_ordered.specs.InOrder.{least_with};
ghost use Rattle.tw_ordered.specs.Queue.{is_before};
ghost use Rattle.tw_calendar.specs.Update.{events_at};
ghost use Rattle.tw_sim.specs.Ordered.{times};

use crate::tick::Tick;
use crate::update::{End, Update};
use std::alloc::{AllocError, Global};
use tw_event::Event;

/// Puts the events of ticks at the end of a list.
pub(crate) fn append_all(ticks: &[Tick], events: &mut Vec<Event>) -> Result<(), AllocError>
    ensures { OnOk result (events.new.items ≡ events.old.items ++ together ticks.now) }
{
    for tick in ticks {
        append_tick(tick, events)?;
    }
    Ok(())
}

// Puts the events of a tick at the end of a list.
#[inline(always)]
fn append_tick(tick: &Tick, events: &mut Vec<Event>) -> Result<(), AllocError>
    ensures { OnOk result (events.new.items ≡ events.old.items ++ tick.now) }
{
    // Most ticks of a ring have none.
    if tick.len() == 0 {
        return Ok(());
    }
    tick.append_from(0, events)
}

/// So many ticks, without events.
pub(crate) fn empty_ticks(alloc: Global, count: u64) -> Result<Vec<Tick>, AllocError>
    ensures number { IfOk result (λ ticks. length ticks.items ≡ count) }
    ensures empty { IfOk result (λ ticks. All (λ events. events ≡ []) ticks.items) }
{
    let mut ticks = Vec::new(alloc);
    for number in 0..count {
        ticks.push(Tick::new(alloc))?;
    }
    Ok(ticks)
}

/// Whether one of the events of ticks is for a router and before a limit, in ticks.
pub(crate) fn any_in_ticks(ticks: &[Tick], router: u32, limit: u64) -> bool
    ensures { result ≡ list_any (λ events. list_any (is_before router limit) events) ticks.now }
{
    ticks.iter().any(|tick| tick.has_before(0, router, limit))
}

/// The least of an event, if there is one, and of those events of ticks that are for a router.
pub(crate) fn least_of_all(ticks: &[Tick], router: u32, first: Option<Event>) -> Option<Event>
    ensures { result ≡ least_with first (filter (λ e. e.dst == router) (together ticks.now)) }
{
    let mut least = first;
    for tick in ticks {
        least = tick.least_at(0, router, least);
    }
    least
}

/// Puts the updates of ticks at the end of a list of updates of this time, and tells whether it did: not where
/// one of theirs is of another time, nor where memory is refused.
pub(crate) fn gather(time: u64, ticks: &[Tick], updates: &mut Vec<Update>) -> bool
    ensures { OnTrue result (events_at time updates.new.items ≡ events_at time updates.old.items ++ together ticks.now) }
{
    for tick in ticks {
        if !tick.append_updates(time, updates) {
            return false;
        }
    }
    true
}

/// Puts the events of each tick in order.
pub(crate) fn sort_each(ticks: &mut [Tick])
    ensures { (e : AnEvent) → times event_same e (together ticks.new) ≡ times event_same e (together ticks.old) }
{
    for place in 0..ticks.len() {
        ticks[place].sort();
    }
}

/// Takes all events out of ticks.
pub(crate) fn clear_all(ticks: &mut [Tick])
    ensures { together ticks.new ≡ [] }
{
    for place in 0..ticks.len() {
        ticks[place].clear();
    }
}

/// Puts each update of a time at the end of the list of its router at one end, and tells whether each went in: not
/// where one is for no router of these, nor where memory is refused.
#[inline(always)]
pub(crate) fn put_by(end: End, time: u64, updates: &[Update], routers: &mut [Tick]) -> bool
    ensures { OnTrue result ((e : AnEvent)
        → times event_same e (together routers.new) ≡ times event_same e (events_at time updates.now) + times event_same e (together routers.old)) }
{
    for update in updates {
        let router = update.router_at(end) as usize;
        if router >= routers.len() {
            return false;
        }
        if !routers[router].push(time, update) {
            return false;
        }
    }
    true
}
