//! PHOLD by both engines.

ghost use Rattle.std.specs.Prelude.{◌≡◌, ◌<◌};

use std::alloc::Global;
use std::sync::Wait;
use std::thread::Threads;
use std::time::Clock;
use tw_phold::Phold;
use tw_rounds::TimeWarp;
use tw_sequential::Sequential;

/// Whether both engines leave the same states at this stop, the parallel one by so many threads: to a time in rounds, and
/// then as it chooses.
fn agree<R: Threads + Wait + Clock + Sync>(
    rt: &R,
    alloc: Global,
    phold: &Phold,
    workers: u32,
    change: u64,
    stop: u64,
) -> Option<bool>
    requires change { change < 1000 }
    requires stop { stop < 1000 }
{
    let mut one = Sequential::open(alloc, phold).ok()?;
    one.run_to(stop).ok()?;
    let phold = one.model();
    let mut several = TimeWarp::open(alloc, phold).ok()?;
    several.run_in_rounds(rt, workers, change).ok()?;
    several.run_to(rt, workers, stop).ok()?;
    Some(are_same(phold, &one, &several))
}

/// Whether the states of both runs are the same.
fn are_same(phold: &Phold, one: &Sequential<'_, Phold>, several: &TimeWarp<'_, Phold>) -> bool
    requires one { one.now.model ≡ phold.now }
    requires several { several.now.model ≡ phold.now }
{
    for process in 0..phold.processes {
        if one.state(process) != several.state(process) {
            return false;
        }
    }
    true
}

/// Whether both engines leave the same states of 2,048 processes, the parallel one by so many threads.
fn agree_by<R: Threads + Wait + Clock + Sync>(
    rt: &R,
    alloc: Global,
    workers: u32,
    change: u64,
) -> Option<bool>
    requires { change < 1000 }
{
    let phold = Phold::new(2048, 16, 1, 20, 1000, 7)?;
    agree(rt, alloc, &phold, workers, change, 10)
}

#[test]
fn phold_by_one_thread(rt: HostRuntime) {
    assert!(rt; agree_by(&rt, rt.alloc(), 1, 0) == Some(true));
}

#[test]
fn phold_by_three_threads_in_rounds(rt: HostRuntime) {
    assert!(rt; agree_by(&rt, rt.alloc(), 3, 10) == Some(true));
}

#[test]
fn phold_by_three_threads_and_then_by_one(rt: HostRuntime) {
    assert!(rt; agree_by(&rt, rt.alloc(), 3, 5) == Some(true));
}
