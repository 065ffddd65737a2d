//! Routers that go from one shard to another, by calls: as DISAGREE begins, routers 0 and 1 are worker 0's, and
//! router 2 is worker 1's.

ghost use Rattle.std.specs.Prelude.{◌≡◌, ◌<◌, IfSome};

use crate::calls::{Amounts, Answer, Call, Line, holds_on};
use crate::messages::{
    EARLY_NOT_TO_1, EARLY_TO_1, ONE_NOT_TO_2, ONE_NOT_TO_ORIGIN, ONE_TO_2, ONE_TO_ORIGIN,
    ORIGIN_TO_1, TWO_TO_1,
};
use std::alloc::Global;
use tw_event::PathNo;
use tw_instance::Case;
use tw_rows::cases::case;
use tw_rows::texts::DISAGREE;
use tw_shard::{OrMemory, Refusal, Shard};
use tw_sim::Cancel;

/// Which worker has each router.
const OWNERS: [u32; 3] = [0, 0, 1];

/// What one of two workers has of a case of three routers, by the list of their owners.
fn shard<'a>(alloc: Global, case: &'a Case, worker: u32, cancel: Cancel) -> Option<Shard<'a>>
    requires { worker < 2 }
    ensures { IfSome result (λ s. s.terms.case ≡ case.now) }
{
    if case.instance().nodes() != 3 {
        return None;
    }
    Shard::open_owned(alloc, case, worker, 2, &OWNERS, true, cancel).ok()
}

/// The same, made once more where memory was refused.
fn retried<'a>(alloc: Global, case: &'a Case, worker: u32, cancel: Cancel) -> Option<Shard<'a>>
    requires { worker < 2 }
    ensures { IfSome result (λ s. s.terms.case ≡ case.now) }
{
    match shard(alloc, case, worker, cancel) {
        None => shard(alloc, case, worker, cancel),
        made => made,
    }
}

/// What happens to two shards.
#[derive(Clone, Copy)]
enum Move<'a> {
    /// A line holds of the first.
    Here(Line<'a>),
    /// A line holds of the second.
    There(Line<'a>),
    /// The first hands a router over to the second, and this is the answer. Where it is refused nothing has changed.
    HandsOver(u32, Result<(), OrMemory<Refusal>>),
}

/// Hands a router over; `None` where that may not be asked for.
fn hand_over<'a>(
    from: &mut Shard<'a>,
    router: u32,
    to: &mut Shard<'a>,
) -> Option<Result<(), OrMemory<Refusal>>>
    requires { to.old.terms.case ≡ from.old.terms.case }
    ensures from { from.new.terms.case ≡ from.old.terms.case }
    ensures to { to.new.terms.case ≡ to.old.terms.case }
{
    if to.owns(router) || from.retains() != to.retains() || from.cancel() != to.cancel() {
        return None;
    }
    Some(from.hand_over(router, to))
}

/// Whether this is the answer where a router is to go over, asked for once more where memory was refused. Nothing has
/// changed where it does not go.
fn goes_over<'a>(
    from: &mut Shard<'a>,
    router: u32,
    to: &mut Shard<'a>,
    due: Result<(), OrMemory<Refusal>>,
) -> bool
    requires { to.old.terms.case ≡ from.old.terms.case }
    ensures { to.new.terms.case ≡ from.new.terms.case }
{
    let (here, there) = (Amounts::of(from), Amounts::of(to));
    let answer = hand_over(from, router, to);
    let is_kept = Amounts::of(from) == here && Amounts::of(to) == there;
    if answer == Some(Err(OrMemory::Memory)) {
        return is_kept && hand_over(from, router, to) == Some(due);
    }
    answer == Some(due) && (due.is_ok() || is_kept)
}

/// Whether what happens to two shards is so.
fn is_so<'a>(alloc: Global, from: &mut Shard<'a>, to: &mut Shard<'a>, next: Move<'_>) -> bool
    requires { to.old.terms.case ≡ from.old.terms.case }
    ensures { to.new.terms.case ≡ from.new.terms.case }
{
    match next {
        Move::Here(line) => holds_on(alloc, from, line),
        Move::There(line) => holds_on(alloc, to, line),
        Move::HandsOver(router, due) => goes_over(from, router, to, due),
    }
}

/// Whether all that happens to two shards is so, one after the other.
fn goes_by<'a>(alloc: Global, from: &mut Shard<'a>, to: &mut Shard<'a>, moves: &[Move<'_>]) -> bool
    requires { to.old.terms.case ≡ from.old.terms.case }
{
    for next in moves {
        if !is_so(alloc, from, to, *next) {
            return false;
        }
    }
    true
}

/// The routers are dealt out by the list, and the origin's start is pending where the origin is.
const DEALT_OUT: [Move<'static>; 4] = [
    Move::Here(Line::HasRouters(&[0, 1])),
    Move::There(Line::HasRouters(&[2])),
    Move::Here(Line::PendingCount(1)),
    Move::There(Line::NonePending),
];

/// A router that neither has is refused.
const REFUSED: [Move<'static>; 1] = [Move::HandsOver(3, Err(OrMemory::Fault(Refusal::NotMine)))];

/// The origin offers its path to router 1, which handles that; for router 1 a later offer waits, and an antimessage
/// whose message has not come. It goes over with its history and all that waits for it, has the path that it had
/// chosen, undoes and handles that event again, and its antimessage meets its message.
const WITH_WHAT_WAITS: [Move<'static>; 15] = [
    Move::Here(Line::RaisesBound(1)),
    Move::Here(Line::Asks(Call::Receive(ORIGIN_TO_1), Answer::Done)),
    Move::Here(Line::Asks(Call::Handle(1), Answer::Done)),
    Move::Here(Line::Asks(Call::Receive(TWO_TO_1), Answer::Done)),
    Move::Here(Line::Asks(Call::Receive(EARLY_NOT_TO_1), Answer::Done)),
    Move::HandsOver(1, Ok(())),
    Move::Here(Line::Has(Amounts {
        routers: 1,
        pending: 1,
        kept: 0,
        held: 0,
        sent: 2,
        bound: 1,
    })),
    Move::There(Line::Has(Amounts {
        routers: 2,
        pending: 1,
        kept: 1,
        held: 0,
        sent: 0,
        bound: 1,
    })),
    Move::There(Line::HasChosen(1, PathNo(3))),
    Move::There(Line::Asks(Call::Undo(1), Answer::Done)),
    Move::There(Line::Asks(Call::Handle(1), Answer::Done)),
    Move::There(Line::HasSent(&[ONE_NOT_TO_ORIGIN, ONE_NOT_TO_2, ONE_TO_ORIGIN, ONE_TO_2])),
    Move::There(Line::Asks(Call::Receive(EARLY_TO_1), Answer::Done)),
    Move::There(Line::NoneKept),
    Move::There(Line::PendingCount(1)),
];

/// The origin goes over with what its undone start had sent, which it sends again there.
const WITH_WHAT_IS_HELD: [Move<'static>; 7] = [
    Move::Here(Line::Asks(Call::Handle(0), Answer::Done)),
    Move::Here(Line::Asks(Call::Undo(0), Answer::Done)),
    Move::HandsOver(0, Ok(())),
    Move::Here(Line::HasHeld(0, None)),
    Move::There(Line::HasHeld(0, Some(1))),
    Move::There(Line::Asks(Call::Handle(0), Answer::Done)),
    Move::There(Line::Has(Amounts {
        routers: 2,
        pending: 0,
        kept: 0,
        held: 0,
        sent: 0,
        bound: 0,
    })),
];

/// What happens to two shards.
struct Row {
    name: &'static str,
    cancel: Cancel,
    moves: &'static [Move<'static>],
}

/// What happens to two shards.
const ROWS: [Row; 4] = [
    Row {
        name: "dealt out by a list",
        cancel: Cancel::Aggressive,
        moves: &DEALT_OUT,
    },
    Row {
        name: "a router of no shard",
        cancel: Cancel::Aggressive,
        moves: &REFUSED,
    },
    Row {
        name: "what waits",
        cancel: Cancel::Aggressive,
        moves: &WITH_WHAT_WAITS,
    },
    Row {
        name: "what is held",
        cancel: Cancel::Lazy,
        moves: &WITH_WHAT_IS_HELD,
    },
];

/// Whether all this happens to the two shards of a case.
fn happens_to(alloc: Global, case: &Case, row: &Row) -> bool {
    let Some(mut from) = retried(alloc, case, 0, row.cancel) else {
        return false;
    };
    let Some(mut to) = retried(alloc, case, 1, row.cancel) else {
        drop(from);
        return false;
    };
    let is_so = goes_by(alloc, &mut from, &mut to, row.moves);
    drop(to);
    drop(from);
    is_so
}

/// Whether all this happens as DISAGREE begins.
fn happens(alloc: Global, row: &Row) -> bool {
    let Ok(case) = case(alloc, DISAGREE) else {
        return false;
    };
    let is_so = happens_to(alloc, &case, row);
    drop(case);
    is_so
}

#[test]
fn a_router_goes_from_one_shard_to_another(rt: HostRuntime) {
    for row in &ROWS {
        assert!(rt; happens(rt.alloc(), row), "{}", row.name);
    }
}
