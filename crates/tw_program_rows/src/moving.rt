//! Routers that move between the workers of a parallel run.

use crate::parallel::{outcome, sim};
use crate::runs::{left_by, logged_run, run_to};
use crate::threads::{goes_on_to_20, is_settled_with, run_on};
use std::alloc::{AllocError, Global};
use std::sync::Wait;
use std::thread::Threads;
use tw_instance::Case;
use tw_parallel::{
    EndCause, Ended, OpenGate, Options, OrMemory, Outcome, Sim, UnfitOwners, run_until,
};
use tw_rows::cases::case;
use tw_rows::texts::{DISAGREE, FORBIDDEN_PATH, RANK_EXCHANGE};
use tw_seq::LoggedRun;
use tw_sim::Cancel;

/// Moves the routers of a run, once more where memory was refused.
fn move_routers(sim: &mut Sim<'_>, owners: &[u32]) -> Result<(), OrMemory<UnfitOwners>> {
    match sim.move_to(owners) {
        Err(OrMemory::Memory) => sim.move_to(owners),
        answer => answer,
    }
}

/// Whether routers stay where a list has too few workers, or one that is not of the run.
fn refuses_to_move(sim: &mut Sim<'_>) -> bool {
    let unfit = Err(OrMemory::Fault(UnfitOwners));
    move_routers(sim, &[0, 1]) == unfit && move_routers(sim, &[0, 1, 2]) == unfit
}

/// Whether a run that has come to stop 3 moves all its routers to worker 1.
fn moves_at_3(sim: &mut Sim<'_>) -> bool {
    move_routers(sim, &[1, 1, 1]) == Ok(()) && is_settled_with(sim, 4)
}

/// Whether a run goes on to stop 3, moves its routers there, and goes on to stop 20.
fn goes_on_moved<X: Threads + Wait + Sync>(rt: &X, sim: Sim<'_>) -> bool {
    let Ok(mut sim) = run_on(rt, sim, 3) else {
        return false;
    };
    let has_moved = moves_at_3(&mut sim);
    goes_on_to_20(rt, sim) && has_moved
}

/// Whether the run of a case moves its routers between two stops.
fn moves_between<X: Threads + Wait + Sync>(rt: &X, alloc: Global, case: &Case) -> bool {
    let Ok(mut sim) = sim(alloc, case) else {
        return false;
    };
    let stay = refuses_to_move(&mut sim);
    goes_on_moved(rt, sim) && stay
}

/// Numbers each of which follows from the one before.
#[derive(Drop)]
struct Draws {
    last: u64,
}

impl Draws {
    /// A number below `end`, and 0 where that is 0.
    fn below(&mut self, end: u32) -> u32 {
        // Multiplier and increment are those of Knuth's MMIX. The low bits of such numbers repeat soon.
        self.last = self
            .last
            .wrapping_mul(6_364_136_223_846_793_005)
            .wrapping_add(1_442_695_040_888_963_407);
        ((self.last >> 33) % u64::from(end.max(1))) as u32
    }

    /// One of so many workers for each of three routers.
    fn owners(&mut self, workers: u32) -> [u32; 3] {
        [
            self.below(workers),
            self.below(workers),
            self.below(workers),
        ]
    }
}

/// A run that ended for want of memory or of a thread goes on to a stop, once its routers have moved.
fn go_on_moved<'a, X: Threads + Wait + Sync>(
    rt: &X,
    ended: Ended<'a>,
    stop: u64,
    owners: &[u32],
) -> Option<Sim<'a>> {
    let (mut sim, cause) = (ended.sim, ended.cause);
    let is_refused = cause == EndCause::Memory || cause == EndCause::NoThread;
    if !is_refused || move_routers(&mut sim, owners).is_err() {
        drop(sim);
        return None;
    }
    run_on(rt, sim, stop).ok()
}

/// Runs on to a stop. Where memory or a thread is refused, the routers move once more, and the run goes on
/// from there.
fn run_on_moved<'a, X: Threads + Wait + Sync>(
    rt: &X,
    sim: Sim<'a>,
    stop: u64,
    owners: &[u32],
) -> Option<Sim<'a>> {
    match run_until(rt, sim, stop, Options { batch: 64 }, &OpenGate) {
        Ok(sim) => Some(sim),
        Err(ended) => go_on_moved(rt, ended, stop, owners),
    }
}

/// Moves the routers of a run, and runs on to a stop.
fn move_and_run<'a, X: Threads + Wait + Sync>(
    rt: &X,
    sim: Sim<'a>,
    stop: u64,
    workers: u32,
    draws: &mut Draws,
) -> Option<Sim<'a>> {
    let mut sim = sim;
    if move_routers(&mut sim, &draws.owners(workers)).is_err() {
        drop(sim);
        return None;
    }
    run_on_moved(rt, sim, stop, &draws.owners(workers))
}

/// Runs to stop 20, and before each tick the routers move to workers, of so many, that are drawn.
fn run_to_20<'a, X: Threads + Wait + Sync>(
    rt: &X,
    sim: Sim<'a>,
    workers: u32,
    draws: &mut Draws,
) -> Option<Sim<'a>> {
    let mut sim = sim;
    for stop in 1..=20 {
        sim = move_and_run(rt, sim, stop, workers, draws)?;
    }
    Some(sim)
}

/// What a run leaves at stop 20.
fn left_at_20(run: &mut LoggedRun<'_>) -> Option<Outcome> {
    if !run_to(run, 20) {
        return None;
    }
    left_by(run).ok()
}

/// What the run of a case on one thread leaves at stop 20.
fn left_by_one_thread(alloc: Global, case: &Case) -> Option<Outcome> {
    let mut run = logged_run(alloc, case).ok()?;
    let left = left_at_20(&mut run);
    drop(run);
    left
}

/// Whether two runs left the same events, routers and pending events.
fn is_same(left: &Outcome, other: &Outcome) -> bool {
    left.stop == other.stop
        && left.events.as_slice() == other.events.as_slice()
        && left.routers.as_slice() == other.routers.as_slice()
        && left.pending.as_slice() == other.pending.as_slice()
}

/// Whether a run that retains its events has left just this.
fn has_left(sim: &Sim<'_>, expected: &Outcome) -> bool {
    if !sim.retains_events() {
        return false;
    }
    let Ok(left) = outcome(sim) else {
        return false;
    };
    let is_so = is_same(&left, expected);
    drop(left);
    is_so
}

/// How many workers take a case, which are one at least, and when they take back what they have sent.
#[derive(Clone, Copy)]
struct Crew {
    workers: u32,
    cancel: Cancel,
}

/// The run of a case as it begins, with these workers, asked for once more where memory was refused.
fn sim_with<'a>(alloc: Global, case: &'a Case, crew: Crew) -> Result<Sim<'a>, AllocError> {
    let workers = crew.workers.max(1);
    match Sim::open_with(alloc, case, workers, true, crew.cancel) {
        Err(_) => Sim::open_with(alloc, case, workers, true, crew.cancel),
        made => made,
    }
}

/// Whether so many workers, between whom routers move at each tick, leave at stop 20 what one thread leaves.
fn ends_as<X: Threads + Wait + Sync>(
    rt: &X,
    sim: Sim<'_>,
    workers: u32,
    draws: &mut Draws,
    expected: &Outcome,
) -> bool {
    let Some(sim) = run_to_20(rt, sim, workers, draws) else {
        return false;
    };
    let has_left = has_left(&sim, expected);
    drop(sim);
    has_left
}

/// Those who take each case, one after the other.
const CREWS: [Crew; 4] = [
    Crew {
        workers: 3,
        cancel: Cancel::Aggressive,
    },
    Crew {
        workers: 5,
        cancel: Cancel::Aggressive,
    },
    Crew {
        workers: 3,
        cancel: Cancel::Lazy,
    },
    Crew {
        workers: 5,
        cancel: Cancel::Lazy,
    },
];

/// Whether 3 workers and 5 end so on a case, whenever they take back what they have sent.
fn all_end_as<X: Threads + Wait + Sync>(
    rt: &X,
    alloc: Global,
    case: &Case,
    expected: &Outcome,
) -> bool {
    let mut draws = Draws { last: 38 };
    for crew in &CREWS {
        let Ok(sim) = sim_with(alloc, case, *crew) else {
            return false;
        };
        if !ends_as(rt, sim, crew.workers, &mut draws, expected) {
            return false;
        }
    }
    true
}

/// Whether they end as one thread on a case.
fn ends_as_on_one_thread<X: Threads + Wait + Sync>(rt: &X, alloc: Global, case: &Case) -> bool {
    let Some(expected) = left_by_one_thread(alloc, case) else {
        return false;
    };
    let end = all_end_as(rt, alloc, case, &expected);
    drop(expected);
    end
}

/// What is asked of the runs of a case.
#[derive(Clone, Copy)]
enum Asked {
    /// Routers move between two stops.
    MovesBetween,
    /// Where routers move at random, they end as one thread.
    EndsAsOnOneThread,
}

/// Whether it holds of the case of a text.
fn holds<X: Threads + Wait + Sync>(rt: &X, alloc: Global, text: &str, asked: Asked) -> bool {
    let Ok(case) = case(alloc, text) else {
        return false;
    };
    let holds = match asked {
        Asked::MovesBetween => moves_between(rt, alloc, &case),
        Asked::EndsAsOnOneThread => ends_as_on_one_thread(rt, alloc, &case),
    };
    drop(case);
    holds
}

#[test]
fn routers_move_to_other_workers_between_runs(rt: HostRuntime) {
    assert!(rt; holds(&rt, rt.alloc(), DISAGREE, Asked::MovesBetween));
}

#[test]
fn routers_that_move_at_random_run_as_on_one_thread(rt: HostRuntime) {
    for text in &[DISAGREE, RANK_EXCHANGE, FORBIDDEN_PATH] {
        assert!(rt;
            holds(&rt, rt.alloc(), text, Asked::EndsAsOnOneThread),
            "{text}"
        );
    }
}
