//! Held sends by calls.

ghost use Rattle.std.specs.Prelude.{◌≡◌, ◌<◌, ◌≤◌};

use crate::events::update;
use std::alloc::{AllocError, Global};
use tw_event::{Event, PathNo};
use tw_held::HeldSends;
use tw_sim::Signed;

/// Inserts the event, once more where memory was refused.
fn insert(held: &mut HeldSends, event: Event) -> Result<(), AllocError>
    requires { event.src < held.old.routers }
    ensures { held.new.routers ≡ held.old.routers }
{
    match held.insert(event) {
        Err(_) => held.insert(event),
        done => done,
    }
}

/// Makes room for four events, once more where memory was refused.
fn make_room(held: &mut HeldSends) -> Result<(), AllocError>
    ensures { held.new.routers ≡ held.old.routers }
{
    match held.reserve(4) {
        Err(_) => held.reserve(4),
        done => done,
    }
}

/// The time, the sender and the number of an update for router 0.
type Sent = (u64, u32, u64);

/// The update that was sent.
fn event_of(sent: Sent) -> Event
    ensures { result.src ≡ sent.1 }
{
    update(sent.0, 0, sent.1, sent.2, PathNo::EMPTY)
}

/// What is done with held sends, or what they are.
#[derive(Clone, Copy)]
enum Line {
    /// There is room for four events.
    Room,
    /// The event is inserted.
    Insert(Sent),
    /// The event is inserted at the first call.
    InsertAtOnce(Sent),
    /// The event is removed, and whether it was there.
    Remove(Sent, bool),
    /// So many are held.
    Length(usize),
    /// Some are held.
    Some,
    /// The least time.
    LeastTime(u64),
    /// The least time of a sender.
    LeastTimeOf(u32, Option<u64>),
    /// A sender has so many.
    Counts(u32, usize),
}

/// Whether a line holds that changes what is held, or is shown by it.
fn holds_on(held: &mut HeldSends, line: Line) -> bool
    requires { held.old.routers ≡ 3 }
    ensures { held.new.routers ≡ 3 }
{
    match line {
        Line::Room => make_room(held).is_ok(),
        Line::Insert(update) => update.1 < 3 && insert(held, event_of(update)).is_ok(),
        Line::InsertAtOnce(update) => update.1 < 3 && held.insert(event_of(update)).is_ok(),
        Line::Remove(update, there) => held.remove_one(&event_of(update)) == there,
        line => shows(held, line),
    }
}

/// Whether what is held is as a line says, which changes nothing.
fn shows(held: &HeldSends, line: Line) -> bool {
    match line {
        Line::Length(length) => held.len() == length,
        Line::Some => !held.is_empty(),
        Line::LeastTime(time) => held.least_time() == Some(time),
        Line::LeastTimeOf(sender, time) => held.least_time_of(sender) == time,
        Line::Counts(sender, count) => held.count_of_sender(sender) == count,
        _ => false,
    }
}

/// Whether the lines hold one after the other.
fn goes_by(held: &mut HeldSends, lines: &[Line]) -> bool
    requires { held.old.routers ≡ 3 }
    ensures { held.new.routers ≡ 3 }
{
    for line in lines {
        if !holds_on(held, *line) {
            return false;
        }
    }
    true
}

/// An antimessage of this update.
fn back(update: Sent) -> Signed<Event> {
    Signed {
        plus: false,
        event: event_of(update),
    }
}

/// Releases what a router has sent, where there is room for it.
fn release(held: &mut HeldSends, sender: u32, outgoing: &mut Vec<Signed<Event>>) -> bool {
    if outgoing.capacity() - outgoing.len() < held.count_of_sender(sender) {
        return false;
    }
    held.release(sender, outgoing);
    true
}

/// Whether these are the antimessages of the updates.
fn are_back(outgoing: &[Signed<Event>], updates: &[Sent]) -> bool {
    for (message, update) in outgoing.iter().zip(updates) {
        if *message != back(*update) {
            return false;
        }
    }
    outgoing.len() == updates.len()
}

/// A list with room for so many messages, made once more where memory was refused.
fn room_for(alloc: Global, count: usize) -> Result<Vec<Signed<Event>>, AllocError> {
    match Vec::with_capacity(alloc, count) {
        Err(_) => Vec::with_capacity(alloc, count),
        made => made,
    }
}

/// Whether these events, by sender and then in their order, are all that is held; none is then.
fn gives(alloc: Global, held: &mut HeldSends, updates: &[Sent]) -> bool {
    let Ok(mut outgoing) = room_for(alloc, updates.len()) else {
        return false;
    };
    release(held, 0, &mut outgoing)
        && release(held, 1, &mut outgoing)
        && release(held, 2, &mut outgoing)
        && are_back(&outgoing, updates)
        && held.is_empty()
}

/// What routers 1 and 2 have sent: router 2 twice at time 6, and at time 10, router 1 at time 8.
const SOME_HELD: [Line; 4] = [
    Line::Insert((10, 2, 1)),
    Line::Insert((8, 1, 0)),
    Line::Insert((6, 2, 0)),
    Line::Insert((6, 2, 0)),
];

/// After these, what is held is counted and found by its sender, as often as it was inserted.
const FOUND: [Line; 9] = [
    Line::Length(4),
    Line::Some,
    Line::LeastTime(6),
    Line::LeastTimeOf(0, None),
    Line::LeastTimeOf(1, Some(8)),
    Line::LeastTimeOf(2, Some(6)),
    Line::Counts(0, 0),
    Line::Counts(1, 1),
    Line::Counts(2, 3),
];

/// After these, what is sent again comes out once for each time, and nothing else does.
const SENT_AGAIN: [Line; 5] = [
    Line::Remove((6, 2, 0), true),
    Line::Remove((6, 2, 0), true),
    Line::Remove((6, 2, 0), false),
    Line::Remove((10, 1, 1), false),
    Line::LeastTime(8),
];

/// What there is room for is held at the first call, whatever is refused then.
const WITH_ROOM: [Line; 8] = [
    Line::Room,
    Line::InsertAtOnce((10, 2, 1)),
    Line::InsertAtOnce((8, 1, 0)),
    Line::InsertAtOnce((6, 2, 0)),
    Line::InsertAtOnce((6, 2, 0)),
    Line::LeastTimeOf(2, Some(6)),
    Line::Counts(2, 3),
    Line::Remove((10, 2, 1), true),
];

/// What holds of held sends.
struct Row {
    name: &'static str,
    /// What was done before.
    before: &'static [Line],
    /// What holds then.
    lines: &'static [Line],
    /// What is held at last, by sender.
    left: &'static [Sent],
}

/// What holds of held sends.
const ROWS: [Row; 3] = [
    Row {
        name: "found by its sender",
        before: &SOME_HELD,
        lines: &FOUND,
        left: &[(8, 1, 0), (6, 2, 0), (6, 2, 0), (10, 2, 1)],
    },
    Row {
        name: "sent again",
        before: &SOME_HELD,
        lines: &SENT_AGAIN,
        left: &[(8, 1, 0), (10, 2, 1)],
    },
    Row {
        name: "with room",
        before: &[],
        lines: &WITH_ROOM,
        left: &[(8, 1, 0), (6, 2, 0), (6, 2, 0)],
    },
];

/// Whether a row holds where nothing is held yet.
fn holds(alloc: Global, row: &Row) -> bool {
    let mut held = HeldSends::new(alloc, 3);
    let holds = goes_by(&mut held, row.before)
        && goes_by(&mut held, row.lines)
        && gives(alloc, &mut held, row.left);
    drop(held);
    holds
}

#[test]
fn what_is_sent_is_held(rt: HostRuntime) {
    for row in &ROWS {
        assert!(rt; holds(rt.alloc(), row), "{}", row.name);
    }
}

/// Whether router 2's sends are taken back in the order of events, behind what was there, and router 1's stay.
fn is_released(alloc: Global, held: &mut HeldSends, outgoing: &mut Vec<Signed<Event>>) -> bool {
    let there = Signed {
        plus: true,
        event: event_of((3, 1, 0)),
    };
    let (first, last) = (back((6, 2, 0)), back((10, 2, 1)));
    outgoing.push(there).is_ok()
        && release(held, 2, outgoing)
        && outgoing.as_slice() == &[there, first, first, last][..]
        && gives(alloc, held, &[(8, 1, 0)])
}

/// The same of some held sends.
fn are_released(alloc: Global) -> bool {
    let Ok(mut outgoing) = room_for(alloc, 4) else {
        return false;
    };
    let mut held = HeldSends::new(alloc, 3);
    let is_so = goes_by(&mut held, &SOME_HELD) && is_released(alloc, &mut held, &mut outgoing);
    drop(held);
    is_so
}

#[test]
fn what_is_released_goes_out_as_antimessages_in_order(rt: HostRuntime) {
    assert!(rt; are_released(rt.alloc()));
}

/// Hands over what a router has sent, once more where memory was refused.
fn hand_over(held: &mut HeldSends, router: u32, to: &mut HeldSends) -> Result<(), AllocError>
    requires { held.old.routers ≤ to.old.routers }
{
    match held.hand_over(router, to) {
        Err(_) => held.hand_over(router, to),
        done => done,
    }
}

/// What is left and what is given, each by sender, where a router's sends go to held sends with one of router 2 at time 7.
struct HandOver {
    router: u32,
    left: &'static [Sent],
    given: &'static [Sent],
}

/// What is left and what is given where a router's sends go to others.
const GIVEN: [HandOver; 3] = [
    HandOver {
        router: 0,
        left: &[(8, 1, 0), (6, 2, 0), (6, 2, 0), (10, 2, 1)],
        given: &[(7, 2, 4)],
    },
    HandOver {
        router: 1,
        left: &[(6, 2, 0), (6, 2, 0), (10, 2, 1)],
        given: &[(8, 1, 0), (7, 2, 4)],
    },
    HandOver {
        router: 2,
        left: &[(8, 1, 0)],
        given: &[(6, 2, 0), (6, 2, 0), (7, 2, 4), (10, 2, 1)],
    },
];

/// Whether what the router has sent goes over, and the others are left.
fn is_given(alloc: Global, held: &mut HeldSends, to: &mut HeldSends, row: &HandOver) -> bool
    requires first { held.old.routers ≡ 3 }
    requires second { to.old.routers ≡ 3 }
{
    goes_by(held, &SOME_HELD)
        && holds_on(to, Line::Insert((7, 2, 4)))
        && hand_over(held, row.router, to).is_ok()
        && gives(alloc, held, row.left)
        && gives(alloc, to, row.given)
}

/// The same where nothing is held yet.
fn goes_to_another(alloc: Global, row: &HandOver) -> bool {
    let (mut held, mut to) = (HeldSends::new(alloc, 3), HeldSends::new(alloc, 3));
    let is_given = is_given(alloc, &mut held, &mut to, row);
    drop(to);
    drop(held);
    is_given
}

#[test]
fn what_a_router_has_sent_goes_to_other_held_sends(rt: HostRuntime) {
    for row in &GIVEN {
        assert!(rt; goes_to_another(rt.alloc(), row), "router {}", row.router);
    }
}
