//! A lap of a run on one thread, and the clocks that tell what it took.
ghost use Rattle.std.specs.Prelude.{◌≡◌, ◌≤◌, ℕ, IfOk, IsErrOf};
ghost use Rattle.tw_handlers.specs.Calls.{counter_full};
ghost use Rattle.tw_model.specs.declared.limits.TheConstants.{LATEST};
ghost use Rattle.tw_model.specs.declared.memory.OrMemory.TheVariants as or_memory;
ghost use Rattle.tw_seq.specs.Run.{GetsStuck, complete_run};

use std::io;
use std::time::{Clock, CpuClock, Duration};
use tw_model::OrMemory;
use tw_pace::Alone;
use tw_seq::{CounterFull, Running, TracedRun};

/// A run goes on by one thread to a time, in ticks.
pub(crate) fn go_on_to<X: Clock + CpuClock>(
    clock: &X,
    run: &mut TracedRun<'_>,
    end: u64,
    alone: Alone,
) -> Result<Alone, OrMemory<CounterFull>>
    requires begun { run.old.run.stop ≤ end }
    requires latest { end ≤ LATEST }
    ensures run { IfOk result (λ _. run.new.run ≡ complete_run run.old.run.case end) }
    ensures ticks { IfOk result (λ later. later.ticks ≡ end) }
    ensures full { (stop : ℕ) → end ≤ stop → IsErrOf result (or_memory.Fault counter_full) → GetsStuck run.old.run.case stop }
{
    let (start, used) = (micros(clock), thread_micros(clock));
    run.run_to(end)?;
    let took = micros(clock).saturating_sub(start);
    let worked = thread_micros(clock).saturating_sub(used);
    Ok(alone.lap(end, took, took.saturating_sub(worked)))
}

/// What a clock shows, in microseconds.
pub(crate) fn micros(clock: &impl Clock) -> u64 {
    shown(clock.monotonic())
}

/// How long this thread has had processors so far, in microseconds.
pub(crate) fn thread_micros(clock: &impl CpuClock) -> u64 {
    shown(clock.thread_cpu_time())
}

/// The time that a clock shows, in microseconds; a clock that cannot be read stands still.
fn shown(time: io::Result<Duration>) -> u64 {
    match time {
        Ok(time) => u64::try_from(time.as_micros()).unwrap_or(u64::MAX),
        Err(_) => 0,
    }
}
