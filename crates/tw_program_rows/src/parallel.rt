//! A parallel run by calls, before its workers have taken a turn.

ghost use Rattle.std.specs.Prelude.{◌≡◌, IfOk};
ghost use Rattle.tw_parallel.specs.Sim.{RetainsEvents};

use std::alloc::{AllocError, Global};
use tw_event::{Event, PathNo};
use tw_instance::Case;
use tw_model::{Counters, Outcome, RouterEnd};
use tw_parallel::{NotSettled, OrMemory, Sim, StopLower};
use tw_rows::cases::case;
use tw_rows::events::START;
use tw_rows::texts::DISAGREE;

/// The run of a case as it begins, with two workers.
pub(crate) fn sim<'a>(alloc: Global, case: &'a Case) -> Result<Sim<'a>, AllocError>
    ensures { IfOk result (λ sim. sim.case ≡ case.now) }
{
    match Sim::open(alloc, case, 2, true) {
        Err(_) => Sim::open(alloc, case, 2, true),
        made => made,
    }
}

/// What a run leaves that retains its events, asked for once more where memory was refused.
pub(crate) fn outcome(sim: &Sim<'_>) -> Result<Outcome, OrMemory<NotSettled>>
    requires { RetainsEvents sim.now }
{
    match sim.outcome(true) {
        Err(OrMemory::Memory) => sim.outcome(true),
        left => left,
    }
}

/// What a run has committed that retains its events, asked for once more where memory was refused.
pub(crate) fn committed(sim: &Sim<'_>) -> Result<Vec<Event>, AllocError>
    requires { RetainsEvents sim.now }
{
    match sim.committed() {
        Err(_) => sim.committed(),
        committed => committed,
    }
}

/// Whether nothing is handled, and only the origin's start is pending.
fn begins_so(outcome: &Outcome) -> bool {
    let untouched = RouterEnd {
        counters: Counters {
            sent: 0,
            handled: 0,
            dropped: 0,
            changed: 0,
        },
        rib: PathNo::EMPTY,
    };
    outcome.stop == 0
        && outcome.events.is_empty()
        && outcome.routers.as_slice() == &[untouched, untouched, untouched][..]
        && outcome.pending.as_slice() == &[START][..]
}

/// Whether a run refuses to tell what it leaves, or its shape.
fn is_refused(sim: &Sim<'_>) -> bool {
    sim.outcome(false).err() == Some(OrMemory::Fault(NotSettled))
        && sim.shape().err() == Some(OrMemory::Fault(NotSettled))
}

/// Whether a run has two workers, of which none is ahead, and its bound and stop are 0.
fn is_at_0(sim: &Sim<'_>) -> bool {
    sim.workers() == 2 && [sim.bound(), sim.stop()] == [0, 0] && sim.ahead() == 0
}

/// Whether a run that retains its events leaves what it began with.
fn leaves_what_it_begins_with(sim: &Sim<'_>) -> bool
    requires { RetainsEvents sim.now }
{
    let Ok(left) = outcome(sim) else {
        return false;
    };
    let begins = begins_so(&left);
    drop(left);
    begins
}

/// Whether a run is settled at stop 0, with its events kept, and as it begins.
fn is_settled_as_it_begins(sim: &Sim<'_>) -> bool {
    is_at_0(sim) && sim.is_settled() && sim.retains_events() && leaves_what_it_begins_with(sim)
}

/// Whether the run of a case begins settled at stop 0, with its events kept.
fn begins_settled(alloc: Global, case: &Case) -> bool {
    let Ok(sim) = sim(alloc, case) else {
        return false;
    };
    let is_settled = is_settled_as_it_begins(&sim);
    drop(sim);
    is_settled
}

/// Whether a run refuses each of these as its stop, which stays 20.
fn keeps_its_stop(sim: &mut Sim<'_>, stops: &[u64]) -> bool {
    for stop in stops {
        if sim.raise_stop(*stop) != Err(StopLower) || sim.stop() != 20 {
            return false;
        }
    }
    true
}

/// Whether the stop of a run rises to 20 and to no less, nor past its limit, and is then still to be reached.
fn raises_its_stop(sim: &mut Sim<'_>) -> bool {
    sim.raise_stop(20) == Ok(())
        && [sim.stop(), sim.bound()] == [20, 0]
        && keeps_its_stop(sim, &[19, 1_000_000_001])
        && is_refused(sim)
}

/// Whether a run has stop 20 still to be reached.
fn is_on_its_way_to_20(sim: &Sim<'_>) -> bool {
    sim.stop() == 20 && !sim.is_settled()
}

/// Whether a run, once it was taken apart and put together, has stop 20 still to be reached.
fn is_put_together(sim: Sim<'_>) -> bool {
    let sim = Sim::of_parts(sim.into_parts());
    let is_on_its_way = is_on_its_way_to_20(&sim);
    drop(sim);
    is_on_its_way
}

/// Whether the run of a case raises its stop, which is still to be reached once it was taken apart.
fn is_to_be_reached(alloc: Global, case: &Case) -> bool {
    let Ok(mut sim) = sim(alloc, case) else {
        return false;
    };
    let rises = raises_its_stop(&mut sim);
    is_put_together(sim) && rises
}

/// What is asked of a case.
#[derive(Clone, Copy)]
enum Asked {
    /// Its run begins settled.
    BeginsSettled,
    /// A stop to which its run is raised is still to be reached.
    IsToBeReached,
}

/// Whether it holds of DISAGREE.
fn holds(alloc: Global, asked: Asked) -> bool {
    let Ok(case) = case(alloc, DISAGREE) else {
        return false;
    };
    let holds = match asked {
        Asked::BeginsSettled => begins_settled(alloc, &case),
        Asked::IsToBeReached => is_to_be_reached(alloc, &case),
    };
    drop(case);
    holds
}

#[test]
fn a_run_that_begins_is_settled_at_stop_0(rt: HostRuntime) {
    assert!(rt; holds(rt.alloc(), Asked::BeginsSettled));
}

#[test]
fn a_stop_that_rises_is_still_to_be_reached(rt: HostRuntime) {
    assert!(rt; holds(rt.alloc(), Asked::IsToBeReached));
}
