//! All processes take their turns, each share of them in a thread.

ghost use Rattle.std.specs.Prelude.{ℕ, ◌≡◌, ◌*◌, ◌<◌, List, [], length};
ghost use Rattle.std.specs.Fork.{slice_chunk};
ghost use Rattle.tw_rounds.specs.Turns.{HaveTurned, MayTurn};
ghost use denote.Param.Send.{IsSend, IsSync};
ghost use Rattle.tw_rounds.specs.declared.turning.Round.{Round as ARound};

use crate::member::Member;
use crate::share::take_turn;
use std::alloc::Global;
use std::thread::{Threads, join_mut};
use tw_process::ProcessModel;

/// What is to be done in a round.
#[derive(Clone, Copy)]
pub(crate) struct Round {
    /// What gives memory.
    pub(crate) alloc: Global,
    /// The bound, in ticks: nothing that comes is before it.
    pub(crate) bound: u64,
    /// Events are handled before this time.
    pub(crate) limit: u64,
    /// The stop of the run.
    pub(crate) stop: u64,
}

/// What takes a turn in a round with others beside it, as a thread knows it.
pub(crate) trait Turn {
    ghost may_turn: { ARound → ℕ → List Self → Type 0 };

    ghost has_turned: { ARound → ℕ → List Self → List Self → Type 0 };

    /// Those of a share take their turn, which begins at this number.
    fn turn(share: &mut [Self], start: usize, round: Round)
        requires some { 0 < length share.old }
        requires may { may_turn round start share.old }
        ensures { has_turned round start share.old share.new };
}

impl<'a, M: ProcessModel> Turn for Member<'a, M> {
    ghost use Rattle.std.specs.Prelude.{[]};
    ghost use Rattle.tw_rounds.specs.Shares.{HasTurned, IsShare};

    ghost may_turn = { λ round start xs. IsShare M.Event.parts M.Event.cmp M.behaviour round start xs [] };

    ghost has_turned = { λ round start xs ys. HasTurned M.Event.parts M.Event.cmp M.behaviour round start xs ys };

    fn turn(share: &mut [Self], start: usize, round: Round) {
        take_turn(share, start, round);
    }
}

/// Each share, of so many, takes its turn, in a thread of its own where one can be made.
///
/// The thread that makes these takes no turn itself: a new thread often begins on the processor of the one that made it,
/// and would wait for the end of that one's turn.
pub(crate) fn turn_all<W: Turn + Send, R: Threads + Sync>(
    rt: &R,
    all: &mut [W],
    size: usize,
    round: Round,
)
    requires size { 0 < size }
    requires may { (n : ℕ) → n * size < length all.old → W.may_turn round (n * size) (slice_chunk all.old size n) }
    ensures count { length all.new ≡ length all.old }
    ensures turned { (n : ℕ) → n * size < length all.old → W.has_turned round (n * size) (slice_chunk all.old size n) (slice_chunk all.new size n) }
{
    turn_from(rt, round, 0, size, usize::MAX, all);
}

/// At most so many shares, from this number on, take their turns: one in this thread, and each of several in a thread of
/// its own, but for the last that may be.
#[cycle(turns)]
fn turn_from<W: Turn + Send, R: Threads + Sync>(
    rt: &R,
    round: Round,
    start: usize,
    size: usize,
    count: usize,
    shares: &mut [W],
)
    requires { MayTurn W.may_turn round start size count shares.old }
    ensures { HaveTurned W.has_turned round start size shares.old shares.new }
{
    if shares.is_empty() {
        return;
    }
    if count == 1 {
        W::turn(shares, start, round);
        return;
    }
    let first = size.min(shares.len());
    let (share, others) = shares.split_at_mut(first);
    turn_both(
        rt,
        round,
        size,
        start,
        1,
        share,
        start + first,
        count - 1,
        others,
    );
}

/// One share takes its turn in a thread of its own, and this thread goes on with the others.
// The two closures capture alike, which a proof of functions that call one another asks for: so 1 has a name.
#[cycle(turns)]
fn turn_both<W: Turn + Send, R: Threads + Sync>(
    rt: &R,
    round: Round,
    size: usize,
    start: usize,
    one: usize,
    share: &mut [W],
    next: usize,
    count: usize,
    others: &mut [W],
)
    requires share { MayTurn W.may_turn round start size one share.old }
    requires others { MayTurn W.may_turn round next size count others.old }
    ensures share { HaveTurned W.has_turned round start size share.old share.new }
    ensures others { HaveTurned W.has_turned round next size others.old others.new }
{
    let mut front = ||
        requires { IsSync R.row × IsSend W.row × MayTurn W.may_turn round start size one share.now }
        ensures { HaveTurned W.has_turned round start size share.entry.now share.exit.now }
    { turn_from(rt, round, start, size, one, share) };
    let mut back = ||
        requires { IsSync R.row × IsSend W.row × MayTurn W.may_turn round next size count others.now }
        ensures { HaveTurned W.has_turned round next size others.entry.now others.exit.now }
    { turn_from(rt, round, next, size, count, others) };
    join_mut(rt, &mut front, &mut back);
}
