//! An epidemic by the parallel engine. Where each contact takes one tick, the cells that n steps lead to are infected
//! after n ticks: 2n^2 + 2n + 1 of them, a centred square number.

ghost use Rattle.std.specs.Prelude.{◌<◌};

use std::alloc::Global;
use std::sync::Wait;
use std::thread::Threads;
use tw_epidemic::Epidemic;
use tw_rounds::TimeWarp;

/// How many cells are infected before this stop, by so many threads.
fn infected<R: Threads + Wait + Sync>(
    rt: &R,
    alloc: Global,
    epidemic: &Epidemic,
    workers: u32,
    stop: u64,
) -> Option<u32>
    requires { stop < 1000 }
{
    let mut run = TimeWarp::open(alloc, epidemic).ok()?;
    run.run_in_rounds(rt, workers, stop).ok()?;
    Some(count_infected(&run))
}

/// How many cells of a run are infected.
fn count_infected(run: &TimeWarp<'_, Epidemic>) -> u32 {
    let mut count: u32 = 0;
    for cell in 0..run.model().cells {
        if run.state(cell).infected {
            count = count.saturating_add(1);
        }
    }
    count
}

/// How many of 40 by 25 cells are infected ten steps from one in the middle, by four threads.
fn infected_in_ten_steps<R: Threads + Wait + Sync>(rt: &R, alloc: Global) -> Option<u32> {
    let epidemic = Epidemic::new(1000, 40, 1, 500)?;
    infected(rt, alloc, &epidemic, 4, 12)
}

#[test]
fn ten_steps_by_four_threads(rt: HostRuntime) {
    assert!(rt; infected_in_ten_steps(&rt, rt.alloc()) == Some(221));
}
