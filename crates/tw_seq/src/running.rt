//! What every kind of run does.

ghost use Rattle.std.specs.Prelude.{◌≡◌, ◌≤◌, length, max, IfOk, OnOk, IsErrOf};
ghost use Rattle.tw_model.specs.declared.limits.TheConstants.{LATEST};
ghost use Rattle.tw_model.specs.declared.memory.OrMemory.TheVariants as or_memory;
ghost use Rattle.tw_handlers.specs.Calls.{counter_full};
ghost use Rattle.tw_seq.specs.Run.{Continues, IsBegun, IsStuck, Run, complete_run};
ghost use Rattle.tw_shape.specs.Shape.{shape as shape_at};

use std::alloc::AllocError;
use tw_handlers::CounterFull;
use tw_model::OrMemory;
use tw_shape::Shape;

/// The sequential run of a case, as far as it has come: again and again the least pending event is
/// handled at its router, and what it sends becomes pending.
pub trait Running {
    /// How far the run has come.
    ghost run: { Self → Run };

    /// Handles all events before `stop`, in ticks, and before each stop asked for earlier. A stop is at
    /// most 1,000,000,000.
    ///
    /// After a fault the events before the refused one stand handled, and nothing else has changed; a
    /// later call goes on from there. It is `CounterFull` exactly where handling the least pending event
    /// would pass a counter's limit, and want of memory else.
    fn run_to(&mut self, stop: u64) -> Result<(), OrMemory<CounterFull>>
        requires { stop ≤ LATEST }
        ensures ok { OnOk result (run self.new ≡ complete_run (run self.old).case (max (run self.old).stop stop)) }
        ensures case { (run self.new).case ≡ (run self.old).case }
        ensures stop { (run self.new).stop ≡ max (run self.old).stop stop }
        ensures goes_on { Continues (run self.old) (run self.new) }
        ensures begun { IsBegun (run self.new) }
        ensures full { IsErrOf result (or_memory.Fault counter_full) → IsStuck (run self.new) }
        ensures stuck { IsStuck (run self.new) → IsErrOf result (or_memory.Fault counter_full) };

    /// How many events the run has handled.
    fn count_events(&self) -> u64
        ensures { result ≡ length (run self.now).events };

    /// The shape of the run at its stop, when all events before it are handled.
    fn shape(&self) -> Result<Shape, AllocError>
        requires { run self.now ≡ complete_run (run self.now).case (run self.now).stop }
        ensures { IfOk result (λ shape. shape ≡ shape_at (run self.now).case (run self.now).stop) };
}
