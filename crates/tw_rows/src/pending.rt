//! Pending events by calls.

ghost use Rattle.std.specs.Prelude.{◌≡◌, ◌<◌, IfOk};

use crate::events::update;
use std::alloc::{AllocError, Global};
use tw_event::{Event, PathNo};
use tw_queue::Pending;

/// The time, the router and the number of an event that the origin sends.
pub(crate) type Offer = (u64, u32, u64);

/// The event of an offer: an update of the origin's.
fn event_of(offered: Offer) -> Event
    ensures { result.dst ≡ offered.1 }
{
    update(offered.0, offered.1, 0, offered.2, PathNo::ORIGIN)
}

/// Pending events of three routers, none yet, which may be kept by time.
fn made(alloc: Global, by_time: bool) -> Result<Pending, AllocError>
    ensures { IfOk result (λ pending. pending.routers ≡ 3) }
{
    let mut pending = Pending::new(alloc, 3)?;
    if by_time {
        pending.keep_by_time()?;
    }
    Ok(pending)
}

/// The same, made once more where memory was refused.
pub(crate) fn nothing(alloc: Global, by_time: bool) -> Result<Pending, AllocError>
    ensures { IfOk result (λ pending. pending.routers ≡ 3) }
{
    match made(alloc, by_time) {
        Err(_) => made(alloc, by_time),
        pending => pending,
    }
}

/// Inserts the event, once more where memory was refused.
fn insert(pending: &mut Pending, event: Event) -> Result<(), AllocError>
    requires { event.dst < pending.old.routers }
    ensures { pending.new.routers ≡ pending.old.routers }
{
    match pending.insert(event) {
        Err(_) => pending.insert(event),
        done => done,
    }
}

/// Takes the least event out, and tells whether it was this one.
fn takes(pending: &mut Pending, event: Event) -> bool
    ensures { pending.new.routers ≡ pending.old.routers }
{
    let least = pending.least();
    pending.skip_least();
    least == Some(event)
}

/// Whether the event is the least and before the limit, and is taken out.
fn comes_before(pending: &mut Pending, limit: u64, event: Event) -> bool
    ensures { pending.new.routers ≡ pending.old.routers }
{
    let mut least = Event::default();
    let copied = pending.copy_least_before(limit, &mut least);
    pending.skip_least();
    copied && least == event
}

/// Whether no event is pending before the limit.
fn has_none_before(pending: &mut Pending, limit: u64) -> bool
    ensures { pending.new.routers ≡ pending.old.routers }
{
    let mut least = Event::default();
    !pending.copy_least_before(limit, &mut least) && least == Event::default()
}

/// How many events of one router make its queue take to buckets, and more.
const MANY: u64 = 300;

/// Inserts many events of router 1, all at the first tick.
fn insert_many(pending: &mut Pending) -> Result<(), AllocError>
    requires { pending.old.routers ≡ 3 }
    ensures { pending.new.routers ≡ 3 }
{
    for seq in 0..MANY {
        insert(pending, event_of((0, 1, seq)))?;
    }
    Ok(())
}

/// Takes out as many events as were inserted, and tells whether each was the least, in the order of their numbers.
fn takes_many(pending: &mut Pending) -> bool
    requires { pending.old.routers ≡ 3 }
    ensures { pending.new.routers ≡ 3 }
{
    for seq in 0..MANY {
        if !takes(pending, event_of((0, 1, seq))) {
            return false;
        }
    }
    true
}

/// What is done with pending events, or what they are. An event is given as an offer of the origin.
#[derive(Clone, Copy)]
pub(crate) enum Line<'a> {
    /// The event is inserted.
    Insert(Offer),
    /// Many events of router 1 are inserted.
    InsertMany,
    /// The event is removed, and whether it was there.
    Remove(Offer, bool),
    /// The event is the least, and taken.
    Take(Offer),
    /// As many events come in order as many are.
    TakeMany,
    /// The event is the least and before the limit, and is taken out.
    Before(u64, Offer),
    /// No event is pending before the limit.
    NoneBefore(u64),
    /// The event is pending so often.
    Counts(Offer, usize),
    /// So many events are pending.
    Length(usize),
    /// None is pending.
    Empty,
    /// The time of the least event.
    LeastTime(u64),
    /// The least event.
    Least(Offer),
    /// The least event of a router.
    LeastAt(u32, Option<Offer>),
    /// Whether an event of a router is before a limit.
    HasBefore(u32, u64, bool),
    /// These events are pending.
    Lists(&'a [Offer]),
}

/// Whether a line holds that changes what is pending, or is shown by it.
pub(crate) fn holds_on(pending: &mut Pending, line: Line<'_>) -> bool
    requires { pending.old.routers ≡ 3 }
    ensures { pending.new.routers ≡ 3 }
{
    match line {
        Line::Insert(offered) => offered.1 < 3 && insert(pending, event_of(offered)).is_ok(),
        Line::InsertMany => insert_many(pending).is_ok(),
        Line::Remove(offered, there) => pending.remove_one(&event_of(offered)) == there,
        Line::Take(offered) => takes(pending, event_of(offered)),
        Line::TakeMany => takes_many(pending),
        Line::Before(limit, offered) => comes_before(pending, limit, event_of(offered)),
        Line::NoneBefore(limit) => has_none_before(pending, limit),
        line => shows(pending, line),
    }
}

/// Whether what is pending is as a line says, which changes nothing.
fn shows(pending: &Pending, line: Line<'_>) -> bool {
    match line {
        Line::Counts(offered, count) => pending.count(&event_of(offered)) == count,
        Line::Length(length) => pending.len() == length,
        Line::Empty => pending.is_empty(),
        Line::LeastTime(time) => pending.least_time() == Some(time),
        Line::Least(offered) => pending.least() == Some(event_of(offered)),
        Line::LeastAt(router, offered) => pending.least_at(router) == offered.map(event_of),
        Line::HasBefore(router, limit, has) => pending.has_before(router, limit) == has,
        Line::Lists(offers) => lists(pending, offers),
        _ => false,
    }
}

/// Whether the lines hold one after the other.
pub(crate) fn goes_by(pending: &mut Pending, lines: &[Line<'_>]) -> bool
    requires { pending.old.routers ≡ 3 }
    ensures { pending.new.routers ≡ 3 }
{
    for line in lines {
        if !holds_on(pending, *line) {
            return false;
        }
    }
    true
}

/// Whether these are the events of the offers.
fn are_these(events: &[Event], offers: &[Offer]) -> bool {
    for (event, offered) in events.iter().zip(offers) {
        if *event != event_of(*offered) {
            return false;
        }
    }
    events.len() == offers.len()
}

/// All that is pending, listed once more where memory was refused.
fn list(pending: &Pending) -> Result<Vec<Event>, AllocError> {
    match pending.list() {
        Err(_) => pending.list(),
        listed => listed,
    }
}

/// Whether these events are pending.
fn lists(pending: &Pending, offers: &[Offer]) -> bool {
    let Ok(events) = list(pending) else {
        return false;
    };
    pending.len() == offers.len() && are_these(&events, offers)
}

/// An event is counted as often as it was inserted, and events are taken in their order.
const COUNTED: [Line<'static>; 16] = [
    Line::Insert((1, 1, 0)),
    Line::Insert((1, 1, 0)),
    Line::Insert((5, 2, 1)),
    Line::Counts((1, 1, 0), 2),
    Line::Length(3),
    Line::LeastTime(1),
    Line::Least((1, 1, 0)),
    Line::LeastAt(2, Some((5, 2, 1))),
    Line::LeastAt(0, None),
    Line::HasBefore(2, 5, false),
    Line::HasBefore(2, 6, true),
    Line::Remove((1, 1, 0), true),
    Line::Remove((1, 1, 0), true),
    Line::Remove((1, 1, 0), false),
    Line::Take((5, 2, 1)),
    Line::Empty,
];

/// Events of near ticks and a far one.
pub(crate) const NEAR_AND_FAR: [Line<'static>; 4] = [
    Line::Insert((5, 1, 0)),
    Line::Insert((100, 1, 3)),
    Line::Insert((5, 2, 1)),
    Line::Insert((3, 1, 2)),
];

/// After these, events by time come before their limits alone, a late one between two of the tick at hand.
const LIMITED: [Line<'static>; 16] = [
    Line::NoneBefore(3),
    Line::HasBefore(2, 5, false),
    Line::HasBefore(2, 6, true),
    Line::Before(4, (3, 1, 2)),
    Line::Before(6, (5, 1, 0)),
    Line::HasBefore(1, 100, false),
    Line::HasBefore(1, 101, true),
    Line::Insert((4, 2, 4)),
    Line::Before(6, (4, 2, 4)),
    Line::LeastAt(2, Some((5, 2, 1))),
    Line::Remove((5, 2, 1), true),
    Line::Remove((5, 2, 1), false),
    Line::NoneBefore(100),
    Line::LeastTime(100),
    Line::Before(101, (100, 1, 3)),
    Line::Empty,
];

/// After these, events of a bucket and of the tick at hand are removed, and one that was removed is there no more.
const REMOVED: [Line<'static>; 7] = [
    Line::Remove((5, 1, 0), true),
    Line::Remove((5, 1, 0), false),
    Line::Counts((5, 2, 1), 1),
    Line::Counts((5, 1, 0), 0),
    Line::Before(10, (3, 1, 2)),
    Line::NoneBefore(5),
    Line::Lists(&[(5, 2, 1), (100, 1, 3)]),
];

/// Two events of one bucket, a whole turn of the buckets apart, come out one after the other.
const APART: [Line<'static>; 9] = [
    Line::InsertMany,
    Line::Insert((1029, 1, 51)),
    Line::Insert((5, 1, 50)),
    Line::TakeMany,
    Line::LeastTime(5),
    Line::Remove((5, 1, 50), true),
    Line::LeastTime(1029),
    Line::Remove((1029, 1, 51), true),
    Line::Empty,
];

/// What holds of pending events.
struct Row {
    name: &'static str,
    /// Whether they are kept by time.
    by_time: bool,
    /// What was done before.
    before: &'static [Line<'static>],
    /// What holds then.
    lines: &'static [Line<'static>],
}

/// What holds of pending events.
const ROWS: [Row; 4] = [
    Row {
        name: "counted",
        by_time: false,
        before: &[],
        lines: &COUNTED,
    },
    Row {
        name: "limited",
        by_time: true,
        before: &NEAR_AND_FAR,
        lines: &LIMITED,
    },
    Row {
        name: "removed",
        by_time: true,
        before: &NEAR_AND_FAR,
        lines: &REMOVED,
    },
    Row {
        name: "a turn apart",
        by_time: false,
        before: &[],
        lines: &APART,
    },
];

/// Whether a row holds of events of which none is pending yet.
fn holds(alloc: Global, row: &Row) -> bool {
    let Ok(mut pending) = nothing(alloc, row.by_time) else {
        return false;
    };
    let holds = goes_by(&mut pending, row.before) && goes_by(&mut pending, row.lines);
    drop(pending);
    holds
}

#[test]
fn events_are_pending_until_they_are_taken(rt: HostRuntime) {
    for row in &ROWS {
        assert!(rt; holds(rt.alloc(), row), "{}", row.name);
    }
}

/// Inserts events of router 1 at times up to three turns of the buckets, in no order, and puts them into a list.
fn scatter(pending: &mut Pending, events: &mut Vec<Event>) -> Result<(), AllocError>
    requires { pending.old.routers ≡ 3 }
    ensures { pending.new.routers ≡ 3 }
{
    for seq in 0..600 {
        let event = event_of((seq * 769 % 3079, 1, seq));
        insert(pending, event)?;
        if events.push(event).is_err() {
            events.push(event)?;
        }
    }
    Ok(())
}

/// Whether the events that are pending come out in order, every third of them removed first.
fn comes_in_order(pending: &mut Pending, events: &mut [Event]) -> bool {
    events.sort_unstable();
    removes_thirds(pending, events) && takes_others(pending, events) && pending.is_empty()
}

/// Takes out the events whose numbers 3 divides, and tells whether each was there.
fn removes_thirds(pending: &mut Pending, events: &[Event]) -> bool {
    for event in events {
        if event.seq % 3 == 0 && !pending.remove_one(event) {
            return false;
        }
    }
    true
}

/// Takes out as many events as the list has others, and tells whether they came in its order.
fn takes_others(pending: &mut Pending, events: &[Event]) -> bool {
    for event in events {
        if event.seq % 3 != 0 && !takes(pending, *event) {
            return false;
        }
    }
    true
}

/// Whether many events of a router come out as from a list of them.
fn many_come(alloc: Global, by_time: bool) -> bool {
    let Ok(mut pending) = nothing(alloc, by_time) else {
        return false;
    };
    let mut events = Vec::new(alloc);
    let come = scatter(&mut pending, &mut events).is_ok()
        && comes_in_order(&mut pending, &mut events);
    drop(events);
    drop(pending);
    come
}

#[test]
fn many_events_come_out_as_from_a_list(rt: HostRuntime) {
    for by_time in &[false, true] {
        assert!(rt; many_come(rt.alloc(), *by_time), "{by_time}");
    }
}
