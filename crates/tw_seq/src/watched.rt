//! A run whose shapes are shown to a watch at its checkpoints.

ghost use Rattle.std.specs.Prelude.{◌≡◌, ◌≤◌, ◌<◌, ◌/◌, IfOk, OnOk, IsErrOf};
ghost use Rattle.tw_model.specs.declared.limits.TheConstants.{LATEST};
ghost use Rattle.tw_model.specs.declared.memory.OrMemory.TheVariants as or_memory;
ghost use Rattle.tw_handlers.specs.Calls.{counter_full};
ghost use Rattle.tw_seq.specs.Run.{GetsStuck, complete_run, opening_run};
ghost use Rattle.tw_shape.specs.Verdict.{finding};

use crate::running::Running;
use std::alloc::Global;
use tw_handlers::CounterFull;
use tw_model::OrMemory;
use tw_shape::Watch;

/// Handles all events of a run before `stop`, in ticks, and shows a watch the shapes at the multiples of
/// `every` up to the stop. The run is at its beginning.
///
/// Where nothing is handled between checkpoints, they are shown at once. Once something is found, no further
/// checkpoint is shown, since the first finding decides.
pub fn run_watched<R: Running>(
    alloc: Global,
    run: &mut R,
    stop: u64,
    every: u64,
) -> Result<Watch, OrMemory<CounterFull>>
    requires opening { R.run run.old ≡ opening_run (R.run run.old).case }
    requires stop { stop ≤ LATEST }
    requires some { 0 < every }
    requires most { every ≤ LATEST }
    ensures ok { OnOk result (R.run run.new ≡ complete_run (R.run run.old).case stop) }
    ensures found { IfOk result (λ watch. watch.found ≡ finding (R.run run.old).case every (stop / every)) }
    ensures case { (R.run run.new).case ≡ (R.run run.old).case }
    ensures full { IsErrOf result (or_memory.Fault counter_full) → GetsStuck (R.run run.old).case stop }
{
    let mut watch = Watch::new(alloc, every)?;
    let last = stop / every;
    let mut seen = 0;
    while seen < last && watch.finding().is_none() {
        let time = (seen + 1) * every;
        run.run_to(time)?;
        let shape = run.shape()?;
        seen += watch.push(time, shape, last - seen);
    }
    run.run_to(stop)?;
    Ok(watch)
}
