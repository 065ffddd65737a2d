//! Routing's events, as events of any kind.

ghost use Rattle.tw_process.specs.Routing.{routing_exact, routing_parts, routing_timely};

use crate::timed::Timed;
use tw_event::Event;

impl Timed for Event {
    ghost parts = { routing_parts };

    ghost exact = { routing_exact };

    ghost timely = { routing_timely };

    #[inline(always)]
    fn time(&self) -> u64 {
        self.time
    }

    #[inline(always)]
    fn dst(&self) -> u32 {
        self.dst
    }
}
