//! A calendar and the rest of the events together: what is first in both, and what goes in and comes out.

ghost use Rattle.std.specs.Prelude.{◌≡◌, ◌↔◌, ◌⊎◌, ◌+◌, ◌<◌, ◌≤◌, ◌==◌, IfNone, IfSome, IsTrue, None, Some};
ghost use Rattle.std.specs.Prelude.{[], if◌then◌else◌, drop, length, slice_get, true};
ghost use Rattle.std.specs.Bool.{OnFalse, OnTrue};
ghost use Rattle.tw_event.specs.declared.event.Event.{Event as AnEvent};
ghost use Rattle.tw_event.specs.Order.{event_before, event_same};
ghost use Rattle.tw_queue.specs.Pending.{together_with};
ghost use Rattle.tw_ordered.specs.Queue.{AreFor};
ghost use Rattle.tw_ordered.specs.Times.{first_time};
ghost use Rattle.tw_sim.specs.Ordered.{insert, take_out, times};

use crate::by_router::ByRouter;
use tw_calendar::Calendar;
use tw_event::Event;
use tw_ordered::comes_before;

/// Adds an event to the calendar, where events are kept by time and it takes the event, and tells whether it did.
#[inline(always)]
pub(crate) fn insert_by_time(calendar: &mut Calendar, by_time: bool, event: &Event) -> bool
    ensures added { OnTrue result (calendar.new ≡ insert event_before event.now calendar.old) }
    ensures by_time { OnTrue result (by_time ≡ true) }
    ensures same { OnFalse result (calendar.new ≡ calendar.old) }
{
    by_time && (calendar.insert(event) || insert_late(calendar, event))
}

// Adds an event that is not after the calendar's tick at hand, where the calendar can go back, and tells whether it did.
#[inline(never)]
fn insert_late(calendar: &mut Calendar, event: &Event) -> bool
    ensures added { OnTrue result (calendar.new ≡ insert event_before event.now calendar.old) }
    ensures same { OnFalse result (calendar.new ≡ calendar.old) }
{
    calendar.step_back(event.time);
    calendar.insert(event)
}

/// The least event of a calendar and of the rest.
pub(crate) fn least_of_both(calendar: &Calendar, rest: &ByRouter, rest_time: u64) -> Option<Event>
    requires { rest_time ≡ first_time rest.now.events }
    ensures { result ≡ slice_get (together_with calendar.now rest.now) 0 }
{
    let mut event = Event::default();
    if copy_first(calendar, rest, rest_time, &mut event) {
        Some(event)
    } else {
        None
    }
}

/// Copies the least event of a calendar and of the rest where it is before a limit, in ticks, and tells whether it did.
/// For that the calendar's next tick is put at hand where it is needed.
#[inline(always)]
pub(crate) fn copy_before(
    calendar: &mut Calendar,
    rest: &ByRouter,
    rest_time: u64,
    limit: u64,
    event: &mut Event,
) -> bool
    requires { rest_time ≡ first_time rest.now.events }
    ensures some { OnTrue result (Some event.new ≡ slice_get (together_with calendar.old rest.now) 0) }
    ensures before { OnTrue result (event.new.time < limit) }
    ensures none { OnFalse result ((e : AnEvent) → slice_get (together_with calendar.old rest.now) 0 ≡ Some e → limit ≤ e.time) }
    ensures unchanged { OnFalse result (event.new ≡ event.old) }
    ensures same { calendar.new ≡ calendar.old }
{
    calendar.are_in_order();
    let _ = rest.len();
    calendar.begin_tick(limit.saturating_sub(1).min(rest_time));
    // Of most calls this is the answer, and costs little.
    if calendar.copy_hand(limit.min(rest_time), event) {
        return true;
    }
    copy_first_before(calendar, rest, rest_time, limit, event)
}

// Copies the least event of a calendar and of the rest where it is before a limit, in ticks, and tells whether it did.
#[inline(never)]
fn copy_first_before(
    calendar: &Calendar,
    rest: &ByRouter,
    rest_time: u64,
    limit: u64,
    event: &mut Event,
) -> bool
    requires { rest_time ≡ first_time rest.now.events }
    ensures some { OnTrue result (Some event.new ≡ slice_get (together_with calendar.now rest.now) 0) }
    ensures before { OnTrue result (event.new.time < limit) }
    ensures none { OnFalse result ((e : AnEvent) → slice_get (together_with calendar.now rest.now) 0 ≡ Some e → limit ≤ e.time) }
    ensures unchanged { OnFalse result (event.new ≡ event.old) }
{
    calendar.are_in_order();
    let _ = rest.len();
    // The least time itself may have to be sought.
    if calendar.soonest().min(rest_time) >= limit {
        return false;
    }
    if calendar.least_time().min(rest_time) >= limit {
        return false;
    }
    copy_first(calendar, rest, rest_time, event)
}

// Copies the least event of a calendar and of the rest, where there is one, and tells whether there is.
fn copy_first(calendar: &Calendar, rest: &ByRouter, rest_time: u64, event: &mut Event) -> bool
    requires { rest_time ≡ first_time rest.now.events }
    ensures some { OnTrue result (Some event.new ≡ slice_get (together_with calendar.now rest.now) 0) }
    ensures beyond { OnFalse result (slice_get (together_with calendar.now rest.now) 0 ≡ None) }
    ensures unchanged { OnFalse result (event.new ≡ event.old) }
{
    match first_of_rest(calendar, rest, rest_time) {
        None => calendar.copy_least(event),
        Some(first) => {
            *event = first;
            true
        }
    }
}

// The least event of all, where it is in the rest and not in the calendar.
fn first_of_rest(calendar: &Calendar, rest: &ByRouter, rest_time: u64) -> Option<Event>
    requires { rest_time ≡ first_time rest.now.events }
    ensures rest { IfSome result (λ e. slice_get (together_with calendar.now rest.now) 0 ≡ Some e) }
    ensures there { IfSome result (λ e. slice_get rest.now.events 0 ≡ Some e) }
    ensures calendar { IfNone result (slice_get (together_with calendar.now rest.now) 0 ≡ slice_get calendar.now 0) }
{
    calendar.are_in_order();
    let _ = rest.len();
    if calendar.least_time() < rest_time {
        return None;
    }
    first_by_search(calendar, rest)
}

// The least event of all, where it is in the rest and not in the calendar, sought in both.
#[inline(never)]
fn first_by_search(calendar: &Calendar, rest: &ByRouter) -> Option<Event>
    ensures rest { IfSome result (λ e. slice_get (together_with calendar.now rest.now) 0 ≡ Some e) }
    ensures there { IfSome result (λ e. slice_get rest.now.events 0 ≡ Some e) }
    ensures calendar { IfNone result (slice_get (together_with calendar.now rest.now) 0 ≡ slice_get calendar.now 0) }
{
    calendar.are_in_order();
    let first = match rest.least() {
        None => return None,
        Some(first) => first,
    };
    let mut least = Event::default();
    if !calendar.copy_least(&mut least) {
        return Some(first);
    }
    if comes_before(&first, &least) {
        Some(first)
    } else {
        None
    }
}

/// Takes the least event of a calendar and of the rest out, where there is one, and keeps the rest's least time.
#[inline(always)]
pub(crate) fn skip_first(calendar: &mut Calendar, rest: &mut ByRouter, rest_time: &mut u64)
    requires { rest_time.old ≡ first_time rest.old.events }
    ensures events { together_with calendar.new rest.new ≡ drop 1 (together_with calendar.old rest.old) }
    ensures calendar { (calendar.new ≡ calendar.old) ⊎ (calendar.new ≡ drop 1 calendar.old) }
    ensures time { rest_time.new ≡ first_time rest.new.events }
    ensures routers { rest.new.routers ≡ rest.old.routers }
    ensures room { rest.old.room ≤ rest.new.room }
{
    calendar.are_in_order();
    let _ = rest.len();
    // Of most calls this is all, and costs little.
    if calendar.skip_hand(*rest_time) {
        return;
    }
    skip_by_search(calendar, rest, rest_time);
}

// Takes the least event of a calendar and of the rest out, where there is one, sought in both.
#[inline(never)]
fn skip_by_search(calendar: &mut Calendar, rest: &mut ByRouter, rest_time: &mut u64)
    requires { rest_time.old ≡ first_time rest.old.events }
    ensures events { together_with calendar.new rest.new ≡ drop 1 (together_with calendar.old rest.old) }
    ensures calendar { (calendar.new ≡ calendar.old) ⊎ (calendar.new ≡ drop 1 calendar.old) }
    ensures time { rest_time.new ≡ first_time rest.new.events }
    ensures routers { rest.new.routers ≡ rest.old.routers }
    ensures room { rest.old.room ≤ rest.new.room }
{
    match first_of_rest(calendar, rest, *rest_time) {
        None => calendar.skip_least(),
        Some(first) => {
            remove_from(rest, rest_time, &first);
            calendar.go_to(first.time);
        }
    }
}

/// Takes one event that equals `event` out of a calendar or else out of the rest, tells whether there was one, and
/// keeps the rest's least time.
pub(crate) fn take_from(
    calendar: &mut Calendar,
    rest: &mut ByRouter,
    rest_time: &mut u64,
    event: &Event,
) -> bool
    requires { rest_time.old ≡ first_time rest.old.events }
    ensures found { IsTrue result ↔ (0 < times event_same event.now (together_with calendar.old rest.old)) }
    ensures events { together_with calendar.new rest.new ≡ take_out event_same event.now (together_with calendar.old rest.old) }
    ensures len { length calendar.new + length rest.new.events + (if result then 1 else 0) ≡ length calendar.old + length rest.old.events }
    ensures homes { AreFor rest.old.routers calendar.old → AreFor rest.new.routers calendar.new }
    ensures empty { calendar.old ≡ [] → calendar.new ≡ [] }
    ensures time { rest_time.new ≡ first_time rest.new.events }
    ensures routers { rest.new.routers ≡ rest.old.routers }
    ensures room { rest.old.room ≤ rest.new.room }
{
    if calendar.remove(event) {
        return true;
    }
    remove_from(rest, rest_time, event)
}

// Takes one event that equals `event` out of the rest, tells whether there was one, and keeps the least time.
fn remove_from(rest: &mut ByRouter, rest_time: &mut u64, event: &Event) -> bool
    requires { rest_time.old ≡ first_time rest.old.events }
    ensures found { IsTrue result ↔ (0 < times event_same event.now rest.old.events) }
    ensures events { rest.new.events ≡ take_out event_same event.now rest.old.events }
    ensures time { rest_time.new ≡ first_time rest.new.events }
    ensures routers { rest.new.routers ≡ rest.old.routers }
    ensures room { rest.old.room ≤ rest.new.room }
{
    let removed = rest.remove_one(event);
    // Only where the least event goes, another may be the least.
    if event.time == *rest_time {
        *rest_time = time_of(rest);
    }
    removed
}

// The time of the least event, in ticks, and `u64::MAX` where there is none.
fn time_of(rest: &ByRouter) -> u64
    ensures { result ≡ first_time rest.now.events }
{
    match rest.least() {
        Some(event) => event.time,
        None => u64::MAX,
    }
}
