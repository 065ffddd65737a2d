//! A shard by calls: the routers of DISAGREE, each the only one of its worker.

ghost use Rattle.std.specs.Prelude.{◌<◌};

use crate::calls::{Answer, Call, Line, Standing, goes_by};
use crate::messages::{
    EARLY_NOT_TO_1, EARLY_NOT_TO_ORIGIN, EARLY_TO_1, EARLY_TO_ORIGIN, ONE_TO_2, ONE_TO_ORIGIN,
    ORIGIN_NOT_TO_1, ORIGIN_NOT_TO_2, ORIGIN_TO_1, ORIGIN_TO_2, TWO_TO_1, TWO_TO_ORIGIN,
};
use std::alloc::{AllocError, Global};
use tw_event::PathNo;
use tw_instance::Case;
use tw_rows::cases::case;
use tw_rows::texts::DISAGREE;
use tw_shard::{OrMemory, Refusal, Rejection, Returned, Shard};

/// A router that is not there, and one for which nothing waits, have nothing to handle.
const NOTHING_IS_HANDLED: [Line<'static>; 2] = [
    Line::Asks(Call::Handle(1), Answer::Refused(Refusal::NotMine)),
    Line::Asks(Call::Handle(2), Answer::Refused(Refusal::Nothing)),
];

/// Router 2 hears the origin first, and offers its path by that link.
const ORIGIN_IS_HEARD: [Line<'static>; 4] = [
    Line::Asks(Call::Receive(ORIGIN_TO_2), Answer::Done),
    Line::Asks(Call::Handle(2), Answer::Done),
    Line::TakesOut(&[EARLY_TO_ORIGIN, EARLY_TO_1]),
    Line::Reports(None),
];

/// The earlier offer of router 1 comes, and the router takes back what it has sent.
const ROUTER_IS_ROLLED_BACK: [Line<'static>; 5] = [
    Line::Asks(Call::Receive(ONE_TO_2), Answer::Done),
    Line::TakesOut(&[EARLY_NOT_TO_ORIGIN, EARLY_NOT_TO_1]),
    Line::Reports(Some(2)),
    Line::HasPending(ORIGIN_TO_2, 1),
    Line::HasPending(ONE_TO_2, 1),
];

/// It handles that offer first, and offers the path through router 1. What is then committed is not undone.
const ROUTER_1_IS_HEARD: [Line<'static>; 5] = [
    Line::Asks(Call::Handle(2), Answer::Done),
    Line::TakesOut(&[TWO_TO_ORIGIN, TWO_TO_1]),
    Line::RaisesBound(3),
    Line::Asks(Call::Commit(2), Answer::Done),
    Line::Asks(Call::Undo(2), Answer::Refused(Refusal::Committed)),
];

/// What lies before the bound comes back.
const LATE_IS_RETURNED: [Line<'static>; 1] = [Line::Asks(
    Call::Receive(ONE_TO_2),
    Answer::Returned(Returned {
        message: ONE_TO_2,
        why: OrMemory::Fault(Rejection::Late { bound: 3 }),
    }),
)];

/// Router 2 has handled the offer of the origin alone, and tells so.
const IS_HANDLED: [Line<'static>; 6] = [
    Line::IsWithout(1),
    Line::HasChosen(2, PathNo(5)),
    Line::HasHandledAlone(2, ORIGIN_TO_2),
    Line::Stands(
        2,
        Standing {
            committed: 0,
            ahead: 1,
            bound: 0,
        },
    ),
    Line::NonePending,
    Line::NoneKept,
];

/// Router 2 has committed the offer of router 1, and tells so.
const IS_COMMITTED: [Line<'static>; 6] = [
    Line::IsWithout(1),
    Line::HasChosen(2, PathNo(4)),
    Line::HasHandledAlone(2, ONE_TO_2),
    Line::Stands(
        2,
        Standing {
            committed: 1,
            ahead: 0,
            bound: 3,
        },
    ),
    Line::PendingCount(1),
    Line::Reports(Some(5)),
];

/// The origin takes back what it has sent, and sends it again.
const IS_SENT_AGAIN: [Line<'static>; 4] = [
    Line::Asks(Call::Handle(0), Answer::Done),
    Line::Asks(Call::Undo(0), Answer::Done),
    Line::Asks(Call::Handle(0), Answer::Done),
    Line::HasSent(&[
        ORIGIN_TO_1,
        ORIGIN_TO_2,
        ORIGIN_NOT_TO_1,
        ORIGIN_NOT_TO_2,
        ORIGIN_TO_1,
        ORIGIN_TO_2,
    ]),
];

/// An event that is pending twice is handled once, and the other vanishes with its antimessage.
const IS_HANDLED_ONCE: [Line<'static>; 8] = [
    Line::Asks(Call::Receive(ORIGIN_TO_1), Answer::Done),
    Line::Asks(Call::Receive(ORIGIN_TO_1), Answer::Done),
    Line::HasPending(ORIGIN_TO_1, 2),
    Line::Asks(Call::Handle(1), Answer::Done),
    Line::Asks(Call::Handle(1), Answer::Refused(Refusal::Double)),
    Line::Asks(Call::Receive(ORIGIN_NOT_TO_1), Answer::Done),
    Line::NonePending,
    Line::HasSent(&[ONE_TO_ORIGIN, ONE_TO_2]),
];

/// An antimessage that comes first is kept, and vanishes with its message.
const ANTIMESSAGE_IS_FIRST: [Line<'static>; 6] = [
    Line::Asks(Call::Receive(EARLY_NOT_TO_1), Answer::Done),
    Line::HasKept(EARLY_TO_1, 1),
    Line::Reports(Some(6)),
    Line::Asks(Call::Receive(EARLY_TO_1), Answer::Done),
    Line::NoneKept,
    Line::NonePending,
];

/// The origin sends behind what is lent to it.
const IS_SENT_BEHIND: [Line<'static>; 1] = [Line::SendsBehind(
    &[ONE_TO_ORIGIN, ONE_TO_2],
    0,
    &[ONE_TO_ORIGIN, ONE_TO_2, ORIGIN_TO_1, ORIGIN_TO_2],
)];

/// The offer of the origin is handled as the least of all events, but not before its time. Then the earlier offer of
/// router 1 rolls the router back, and is the least.
const LEAST_IS_FIRST: [Line<'static>; 9] = [
    Line::Asks(Call::OrderByTime, Answer::Done),
    Line::Asks(Call::Welcome(ORIGIN_TO_2), Answer::Done),
    Line::Asks(Call::HandleLeast(5), Answer::Refused(Refusal::Nothing)),
    Line::Asks(Call::HandleLeast(6), Answer::Handled(5)),
    Line::TakesOut(&[EARLY_TO_ORIGIN, EARLY_TO_1]),
    Line::Asks(Call::Welcome(ONE_TO_2), Answer::Done),
    Line::Asks(Call::HandleLeast(20), Answer::Handled(2)),
    Line::Reports(Some(5)),
    Line::HasSent(&[EARLY_NOT_TO_ORIGIN, EARLY_NOT_TO_1, TWO_TO_ORIGIN, TWO_TO_1]),
];

/// What holds of the shard of one worker.
struct Row {
    name: &'static str,
    worker: u32,
    /// The lines, in groups.
    groups: &'static [&'static [Line<'static>]],
}

/// What holds of the shard of one worker.
const ROWS: [Row; 8] = [
    Row {
        name: "rolled back",
        worker: 2,
        groups: &[
            &NOTHING_IS_HANDLED,
            &ORIGIN_IS_HEARD,
            &ROUTER_IS_ROLLED_BACK,
            &ROUTER_1_IS_HEARD,
            &LATE_IS_RETURNED,
        ],
    },
    Row {
        name: "handled",
        worker: 2,
        groups: &[&ORIGIN_IS_HEARD, &IS_HANDLED],
    },
    Row {
        name: "committed",
        worker: 2,
        groups: &[
            &ORIGIN_IS_HEARD,
            &ROUTER_IS_ROLLED_BACK,
            &ROUTER_1_IS_HEARD,
            &IS_COMMITTED,
        ],
    },
    Row {
        name: "sent again",
        worker: 0,
        groups: &[&IS_SENT_AGAIN],
    },
    Row {
        name: "an event sent twice",
        worker: 1,
        groups: &[&IS_HANDLED_ONCE],
    },
    Row {
        name: "antimessage first",
        worker: 1,
        groups: &[&ANTIMESSAGE_IS_FIRST],
    },
    Row {
        name: "behind what is lent",
        worker: 0,
        groups: &[&IS_SENT_BEHIND],
    },
    Row {
        name: "the least first",
        worker: 2,
        groups: &[&LEAST_IS_FIRST],
    },
];

/// What one worker of three has of a case, made once more where memory was refused.
fn shard<'a>(alloc: Global, case: &'a Case, worker: u32) -> Result<Shard<'a>, AllocError>
    requires { worker < 3 }
{
    match Shard::open(alloc, case, worker, 3, true) {
        Err(_) => Shard::open(alloc, case, worker, 3, true),
        made => made,
    }
}

/// Whether the lines of all groups hold, one after the other.
fn goes_by_all(alloc: Global, shard: &mut Shard<'_>, groups: &[&[Line<'_>]]) -> bool {
    for lines in groups {
        if !goes_by(alloc, shard, lines) {
            return false;
        }
    }
    true
}

/// Whether a row holds of a case.
fn holds_of(alloc: Global, case: &Case, row: &Row) -> bool {
    if row.worker >= 3 {
        return false;
    }
    let Ok(mut shard) = shard(alloc, case, row.worker) else {
        return false;
    };
    let holds = goes_by_all(alloc, &mut shard, row.groups);
    drop(shard);
    holds
}

/// Whether a row holds as DISAGREE begins.
fn holds(alloc: Global, row: &Row) -> bool {
    let Ok(case) = case(alloc, DISAGREE) else {
        return false;
    };
    let holds = holds_of(alloc, &case, row);
    drop(case);
    holds
}

#[test]
fn a_shard_goes_on_and_back(rt: HostRuntime) {
    for row in &ROWS {
        assert!(rt; holds(rt.alloc(), row), "{}", row.name);
    }
}
