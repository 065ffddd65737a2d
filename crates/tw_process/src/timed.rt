//! What the engine asks of events.

ghost use Rattle.std.specs.Prelude.{◌≡◌, ◌≤◌, ℕ};
ghost use Rattle.std.specs.declared.cmp.Ordering.TheVariants.{Equal, Less};
ghost use Rattle.tw_process.specs.Parts.{Parts};
ghost use Rattle.tw_process.specs.Order.{event_parts};
ghost use Rattle.tw_process.specs.Exact.{event_exact, event_timely};

use crate::body::Body;
use crate::event::Event;

/// Something that a process handles, at a time in ticks. Events are handled in their order.
pub trait Timed: Ord + Copy {
    /// Its time, its receiver, its sender, and the sender's number for it.
    ghost parts: { Parts Self };

    /// When it happens, in ticks.
    fn time(&self) -> u64
        ensures { result ≡ parts.time self.now };

    /// The process that handles it.
    fn dst(&self) -> u32
        ensures { result ≡ parts.dst self.now };

    /// Events that compare alike are one.
    ghost exact: { (d e : Self) → Self.cmp d e ≡ Equal → d ≡ e };

    /// An event is no later than those that it comes before.
    ghost timely: { (d e : Self) → Self.cmp d e ≡ Less → parts.time d ≤ parts.time e };
}

impl<B: Body> Timed for Event<B> {
    ghost parts = { event_parts };

    ghost exact = { event_exact B.cmp B.exact };

    ghost timely = { event_timely B.cmp };

    fn time(&self) -> u64 {
        self.time
    }

    fn dst(&self) -> u32 {
        self.dst
    }
}
