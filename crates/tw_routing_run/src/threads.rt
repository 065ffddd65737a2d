//! A run of a case in threads, and its routers.

ghost use Rattle.std.specs.Prelude.{◌≡◌, ◌≤◌, ◌<◌, IfOk, IsErrOf};
ghost use Rattle.tw_model.specs.Case.{simulation};
ghost use Rattle.tw_model.specs.declared.limits.TheConstants.{LATEST};
ghost use Rattle.tw_process.specs.declared.refused.Refused.TheVariants.{CounterFull};
ghost use Rattle.tw_routing_run.specs.Ending.{IsComplete, IsHeldUp};
ghost use Rattle.tw_sim.specs.Seq.{at};

use std::alloc::Global;
use std::sync::Wait;
use std::thread::Threads;
use tw_process::Refused;
use tw_rounds::TimeWarp;
use tw_router::Router;
use tw_routing::Routing;
use tw_routing::laws::routing_is_simulation;

/// The run of a case to a stop, which is at most 1,000,000,000 ticks, by routers that run ahead of one another, in at most
/// so many threads: all events before it are handled.
///
/// # Errors
///
/// `CounterFull` where the next event of a router is at the bound of the run and would pass a counter's limit; else want of
/// memory.
pub fn run_case_by<'r, 'a, R: Threads + Wait + Sync>(
    rt: &R,
    alloc: Global,
    routing: &'r Routing<'a>,
    workers: u32,
    stop: u64,
) -> Result<TimeWarp<'r, Routing<'a>>, Refused>
    requires { stop ≤ LATEST }
    ensures ok { IfOk result (λ run. IsComplete routing.now stop run) }
    ensures full { IsErrOf result CounterFull → IsHeldUp routing.now stop }
{
    routing_is_simulation(routing);
    let Ok(mut run) = TimeWarp::open(alloc, routing) else {
        return Err(Refused::Memory);
    };
    match run.run_in_rounds(rt, workers, stop) {
        Ok(()) => Ok(run),
        Err(refused) => Err(refused),
    }
}

/// A router as a run in threads has it.
pub fn router_in<'r, 'a>(run: &'r TimeWarp<'_, Routing<'a>>, number: u32) -> &'r Router<'a>
    requires { number < run.now.model.net.nodes }
    ensures { run.now.bound ≡ run.now.stop → result.now.state ≡ at (simulation run.now.model) run.now.stop number }
{
    routing_is_simulation(run.model());
    run.state(number)
}
