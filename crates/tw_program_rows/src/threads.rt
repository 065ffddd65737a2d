//! Parallel runs by threads.

ghost use Rattle.std.specs.Prelude.{◌≡◌, false};

use crate::events::events;
use crate::parallel::{committed, sim};
use std::alloc::Global;
use std::sync::Wait;
use std::sync::atomic::{AtomicBool, AtomicU64, Ordering};
use std::thread::{self, Threads};
use tw_event::Event;
use tw_instance::Case;
use tw_parallel::{EndCause, Ended, Gate, OpenGate, Options, Sim, run_until};
use tw_rows::cases::case;
use tw_rows::texts::DISAGREE;
use tw_sim::Cancel;
use tw_table::Seat;

/// Runs on to a stop, once more where memory or a thread was refused.
pub(crate) fn run_on<'a, X: Threads + Wait + Sync>(
    rt: &X,
    sim: Sim<'a>,
    stop: u64,
) -> Result<Sim<'a>, Ended<'a>> {
    let options = Options { batch: 64 };
    match run_until(rt, sim, stop, options, &OpenGate) {
        Err(
            Ended {
                sim,
                cause: EndCause::Memory | EndCause::NoThread,
                ..
            },
        ) => run_until(rt, sim, stop, options, &OpenGate),
        ended => ended,
    }
}

/// What a run has committed, asked for once more where memory was refused; `None` where that may not be asked for.
fn committed_by(sim: &Sim<'_>) -> Option<Vec<Event>> {
    if !sim.retains_events() {
        return None;
    }
    committed(sim).ok()
}

/// Whether the first events of the run, so many, are committed.
fn has_committed(sim: &Sim<'_>, count: usize) -> bool {
    let Some(found) = committed_by(sim) else {
        return false;
    };
    events().get(..count) == Some(found.as_slice())
}

/// Whether these are some events of the run, in their order, each of them below the bound.
fn are_below(committed: &[Event], bound: u64) -> bool {
    let events = events();
    let mut rest: &[Event] = &events;
    for event in committed {
        let Some(place) = rest.iter().position(|next| next == event) else {
            return false;
        };
        rest = rest.get(place + 1..).unwrap_or(&[]);
        if event.time >= bound {
            return false;
        }
    }
    true
}

/// Whether what is committed is of the run, and below the bound.
fn has_committed_some(sim: &Sim<'_>, bound: u64) -> bool {
    let Some(found) = committed_by(sim) else {
        return false;
    };
    are_below(&found, bound)
}

/// Whether a run is settled with its first events, so many, committed.
pub(crate) fn is_settled_with(sim: &Sim<'_>, count: usize) -> bool {
    sim.is_settled() && has_committed(sim, count)
}

/// Whether a run to a stop below its own ended for that, and is as it was at stop 20.
fn is_kept_at_20(ended: &Ended<'_>) -> bool {
    ended.cause == EndCause::StopLower
        && ended.bound == 20
        && ended.sim.stop() == 20
        && has_committed(&ended.sim, 7)
}

/// Whether a run to a stop below its own ends, and is kept as it was at stop 20.
fn refuses_19<X: Threads + Wait + Sync>(rt: &X, sim: Sim<'_>) -> bool {
    match run_on(rt, sim, 19) {
        Ok(sim) => {
            drop(sim);
            false
        }
        Err(ended) => {
            let is_kept = is_kept_at_20(&ended);
            drop(ended);
            is_kept
        }
    }
}

/// The run at a later stop, where it is settled there with its first events, so many.
fn settled_at<'a, X: Threads + Wait + Sync>(
    rt: &X,
    sim: Sim<'a>,
    stop: u64,
    count: usize,
) -> Option<Sim<'a>> {
    let Ok(sim) = run_on(rt, sim, stop) else {
        return None;
    };
    if is_settled_with(&sim, count) {
        return Some(sim);
    }
    drop(sim);
    None
}

/// Whether the run of a case goes on to later stops, and then to no earlier one.
fn goes_on<X: Threads + Wait + Sync>(rt: &X, sim: Sim<'_>) -> bool {
    let mut run = sim;
    for (stop, count) in &[(3, 4), (7, 6), (20, 7)] {
        match settled_at(rt, run, *stop, *count) {
            Some(sim) => run = sim,
            None => return false,
        }
    }
    refuses_19(rt, run)
}

/// Whether a run was refused memory or a thread, and what it has committed is of the run, and below its bound.
fn is_refused_on_its_way(ended: &Ended<'_>) -> bool {
    (ended.cause == EndCause::Memory || ended.cause == EndCause::NoThread)
        && has_committed_some(&ended.sim, ended.bound)
}

/// Whether a run is settled at stop 20 with all its events.
fn is_settled_at_20(sim: &Sim<'_>) -> bool {
    sim.bound() == 20 && is_settled_with(sim, 7)
}

/// Whether a run goes on to stop 20, and has all its events there.
pub(crate) fn goes_on_to_20<X: Threads + Wait + Sync>(rt: &X, sim: Sim<'_>) -> bool {
    let Ok(sim) = run_on(rt, sim, 20) else {
        return false;
    };
    let is_settled = is_settled_at_20(&sim);
    drop(sim);
    is_settled
}

/// Whether a run to stop 20, and once more from where it ended, comes there.
fn comes_to_20<X: Threads + Wait + Sync>(rt: &X, sim: Sim<'_>) -> bool {
    match run_until(rt, sim, 20, Options { batch: 64 }, &OpenGate) {
        Ok(sim) => goes_on_to_20(rt, sim),
        Err(ended) => {
            let is_refused = is_refused_on_its_way(&ended);
            goes_on_to_20(rt, ended.sim) && is_refused
        }
    }
}

/// How often a worker looks for another before it goes on without it.
const MOST_LOOKS: u32 = 1_000_000;

/// Whether a flag is raised while it is looked at.
fn is_raised(flag: &AtomicBool) -> bool {
    for _ in 0..MOST_LOOKS {
        if flag.load(Ordering::SeqCst) {
            return true;
        }
        thread::yield_now();
    }
    false
}

/// What two workers show one another, and the bounds that their seats showed last; and the bound of worker 1 after its
/// first turn.
#[derive(Default, Drop)]
struct Shown {
    has_come_0: AtomicBool,
    has_come_1: AtomicBool,
    has_missed: AtomicBool,
    last_of_0: AtomicU64,
    last_of_1: AtomicU64,
    first_of_1: AtomicU64,
}

impl Shown {
    fn wait_for(&self, flag: &AtomicBool) {
        if !is_raised(flag) {
            self.has_missed.store(true, Ordering::SeqCst);
        }
    }

    fn meet(&self, own: &AtomicBool, other: &AtomicBool) {
        own.store(true, Ordering::SeqCst);
        self.wait_for(other);
    }

    fn note(&self, seat: &Seat, turn: u64) {
        let bound = seat.bound();
        if seat.worker() == 0 {
            self.last_of_0.store(bound, Ordering::SeqCst);
            return;
        }
        self.last_of_1.store(bound, Ordering::SeqCst);
        if turn == 1 {
            self.first_of_1.store(bound, Ordering::SeqCst);
        }
    }

    /// Whether neither worker has waited in vain, and both were shown this bound last.
    fn ended_at(&self, stop: u64) -> bool {
        !self.has_missed.load(Ordering::SeqCst)
            && self.last_of_0.load(Ordering::SeqCst) == stop
            && self.last_of_1.load(Ordering::SeqCst) == stop
    }
}

/// Worker 0 before it takes the table for the second time and worker 1 before it does for the first wait
/// for each other there.
#[derive(Default, Drop)]
struct Crossing(Shown);

impl Gate for Crossing {
    fn handling<R: Wait>(&self, _rt: &R, _worker: u32, _turn: u64) {}

    fn enter<R: Wait>(&self, _rt: &R, worker: u32, turn: u64) {
        match (worker, turn) {
            (0, 2) => self.0.meet(&self.0.has_come_0, &self.0.has_come_1),
            (1, 1) => self.0.meet(&self.0.has_come_1, &self.0.has_come_0),
            _ => {}
        }
    }

    fn turned(&self, seat: &Seat, turn: u64) {
        self.0.note(seat, turn);
    }
}

/// Worker 0 handles nothing before worker 1 has had its second turn, and worker 1 nothing before worker 0
/// is about to.
#[derive(Default, Drop)]
struct Overtaking(Shown);

impl Gate for Overtaking {
    fn handling<R: Wait>(&self, _rt: &R, worker: u32, turn: u64) {
        match (worker, turn) {
            (0, 1) => self.0.meet(&self.0.has_come_0, &self.0.has_come_1),
            (1, 1) => self.0.wait_for(&self.0.has_come_0),
            _ => {}
        }
    }

    fn enter<R: Wait>(&self, _rt: &R, _worker: u32, _turn: u64) {}

    fn turned(&self, seat: &Seat, turn: u64) {
        self.0.note(seat, turn);
        if seat.worker() == 1 && turn == 2 {
            self.0.has_come_1.store(true, Ordering::SeqCst);
        }
    }
}

/// What a run that ended early tells: that it has failed, or `None` where memory or a thread was refused.
fn told_by(cause: EndCause) -> Option<bool> {
    if cause == EndCause::Memory || cause == EndCause::NoThread {
        return None;
    }
    Some(false)
}

/// Whether a run comes to stop 20 at this gate; `None` where memory or a thread was refused.
fn comes_through<G: Gate + Sync, X: Threads + Wait + Sync>(
    rt: &X,
    sim: Sim<'_>,
    gate: &G,
) -> Option<bool> {
    match run_until(rt, sim, 20, Options { batch: 64 }, gate) {
        Ok(sim) => {
            let is_there = sim.bound() == 20;
            drop(sim);
            Some(is_there)
        }
        Err(ended) => {
            let cause = ended.cause;
            drop(ended);
            told_by(cause)
        }
    }
}

/// Whether two workers take a case to stop 20 at this gate; `None` where memory or a thread was refused.
fn passes<G: Gate + Sync, X: Threads + Wait + Sync>(
    rt: &X,
    alloc: Global,
    case: &Case,
    gate: &G,
) -> Option<bool> {
    comes_through(rt, Sim::open(alloc, case, 2, true).ok()?, gate)
}

/// Whether two workers overlap on a case, the table's bound being 1 after the first turn of worker 1; `None` where
/// memory or a thread was refused.
fn overlap<X: Threads + Wait + Sync>(rt: &X, alloc: Global, case: &Case) -> Option<bool> {
    let gate = Crossing::default();
    let has_passed = passes(rt, alloc, case, &gate)?;
    Some(has_passed && gate.0.ended_at(20) && gate.0.first_of_1.load(Ordering::SeqCst) == 1)
}

/// Whether one worker overtakes another that handles an event; `None` where memory or a thread was refused.
fn overtake<X: Threads + Wait + Sync>(rt: &X, alloc: Global, case: &Case) -> Option<bool> {
    let gate = Overtaking::default();
    let has_passed = passes(rt, alloc, case, &gate)?;
    Some(has_passed && gate.0.ended_at(20))
}

/// What is asked of the run of a case by two workers.
#[derive(Clone, Copy)]
enum Asked {
    /// It goes on to later stops, and to no earlier one.
    GoesOn,
    /// It comes to stop 20, also from where it ended early.
    ComesTo20,
    /// Its workers overlap.
    Overlaps,
    /// One worker overtakes another that handles an event.
    Overtakes,
}

/// Whether it holds of the run of a case; `None` where memory or a thread was refused to one at a gate.
fn told<X: Threads + Wait + Sync>(
    rt: &X,
    alloc: Global,
    case: &Case,
    asked: Asked,
) -> Option<bool> {
    match asked {
        Asked::GoesOn => Some(goes_on(rt, sim(alloc, case).ok()?)),
        Asked::ComesTo20 => Some(comes_to_20(rt, sim(alloc, case).ok()?)),
        Asked::Overlaps => overlap(rt, alloc, case),
        Asked::Overtakes => overtake(rt, alloc, case),
    }
}

/// Whether it holds of DISAGREE, whose run is tried once more where memory or a thread was refused.
fn holds<X: Threads + Wait + Sync>(rt: &X, alloc: Global, asked: Asked) -> bool {
    let Ok(case) = case(alloc, DISAGREE) else {
        return false;
    };
    let told = match told(rt, alloc, &case, asked) {
        None => told(rt, alloc, &case, asked),
        told => told,
    };
    drop(case);
    told == Some(true)
}

#[test]
fn a_run_goes_on_to_later_stops_and_to_no_earlier_one(rt: HostRuntime) {
    assert!(rt; holds(&rt, rt.alloc(), Asked::GoesOn));
}

#[test]
fn a_run_that_ended_early_goes_on_from_there(rt: HostRuntime) {
    assert!(rt; holds(&rt, rt.alloc(), Asked::ComesTo20));
}

#[test]
fn workers_overlap(rt: HostRuntime) {
    assert!(rt; holds(&rt, rt.alloc(), Asked::Overlaps));
}

#[test]
fn handling_happens_off_the_table(rt: HostRuntime) {
    assert!(rt; holds(&rt, rt.alloc(), Asked::Overtakes));
}
