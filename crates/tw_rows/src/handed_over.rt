//! Pending events that go from one list to another, by calls.

ghost use Rattle.std.specs.Prelude.{◌≡◌, ◌≤◌};

use crate::pending::{Line, NEAR_AND_FAR, goes_by, holds_on, nothing};
use std::alloc::{AllocError, Global};
use tw_queue::Pending;

/// Hands over what is pending for a router, once more where memory was refused.
fn hand_over(pending: &mut Pending, router: u32, to: &mut Pending) -> Result<(), AllocError>
    requires { pending.old.routers ≤ to.old.routers }
    ensures first { pending.new.routers ≡ pending.old.routers }
    ensures second { to.new.routers ≡ to.old.routers }
{
    match pending.hand_over(router, to) {
        Err(_) => pending.hand_over(router, to),
        done => done,
    }
}

/// One event of router 1 twice, and one of router 2.
const TWO_AND_ONE: [Line<'static>; 3] = [
    Line::Insert((5, 2, 1)),
    Line::Insert((1, 1, 0)),
    Line::Insert((1, 1, 0)),
];

/// One event of router 1, at time 3.
const ONE: [Line<'static>; 1] = [Line::Insert((3, 1, 2))];

/// What a router has goes from one list to another.
struct HandOver {
    name: &'static str,
    /// Whether both are kept by time.
    by_time: bool,
    /// What was done with the first list.
    before: &'static [Line<'static>],
    /// What was done with the other.
    own: &'static [Line<'static>],
    router: u32,
    /// What then holds of the first list.
    left: Line<'static>,
    /// What then holds of the other.
    given: Line<'static>,
}

/// What a router has goes from one list to another: first from events of which router 0 has none, router 1 one twice and
/// router 2 one; then events by time, one of the tick at hand and a far one among them; and many, which stand in buckets,
/// and come out there in order.
const ROWS: [HandOver; 5] = [
    HandOver {
        name: "none of router 0",
        by_time: false,
        before: &TWO_AND_ONE,
        own: &ONE,
        router: 0,
        left: Line::Lists(&[(1, 1, 0), (1, 1, 0), (5, 2, 1)]),
        given: Line::Lists(&[(3, 1, 2)]),
    },
    HandOver {
        name: "two of router 1",
        by_time: false,
        before: &TWO_AND_ONE,
        own: &ONE,
        router: 1,
        left: Line::Lists(&[(5, 2, 1)]),
        given: Line::Lists(&[(1, 1, 0), (1, 1, 0), (3, 1, 2)]),
    },
    HandOver {
        name: "one of router 2",
        by_time: false,
        before: &TWO_AND_ONE,
        own: &ONE,
        router: 2,
        left: Line::Lists(&[(1, 1, 0), (1, 1, 0)]),
        given: Line::Lists(&[(3, 1, 2), (5, 2, 1)]),
    },
    HandOver {
        name: "by time",
        by_time: true,
        before: &NEAR_AND_FAR,
        own: &[],
        router: 1,
        left: Line::Lists(&[(5, 2, 1)]),
        given: Line::Lists(&[(3, 1, 2), (5, 1, 0), (100, 1, 3)]),
    },
    HandOver {
        name: "many",
        by_time: false,
        before: &[Line::InsertMany],
        own: &[],
        router: 1,
        left: Line::Empty,
        given: Line::TakeMany,
    },
];

/// Whether what is pending for the router goes to the other list, and leaves the others.
fn is_given(pending: &mut Pending, to: &mut Pending, row: &HandOver) -> bool
    requires first { pending.old.routers ≡ 3 }
    requires second { to.old.routers ≡ 3 }
{
    goes_by(pending, row.before)
        && goes_by(to, row.own)
        && hand_over(pending, row.router, to).is_ok()
        && holds_on(pending, row.left)
        && holds_on(to, row.given)
}

/// The same of two lists with no event yet.
fn goes_to_another(alloc: Global, row: &HandOver) -> bool {
    let Ok(mut pending) = nothing(alloc, row.by_time) else {
        return false;
    };
    let Ok(mut to) = nothing(alloc, row.by_time) else {
        drop(pending);
        return false;
    };
    let is_given = is_given(&mut pending, &mut to, row);
    drop(to);
    drop(pending);
    is_given
}

#[test]
fn what_is_pending_for_a_router_goes_to_another_list(rt: HostRuntime) {
    for row in &ROWS {
        assert!(rt; goes_to_another(rt.alloc(), row), "{}", row.name);
    }
}
