//! When a run began and when it was over. No promise rests on it.

use crate::figures::Figures;
use crate::tally::Tally;
use std::cell::Cell;
use std::time::Clock;

/// When a run began and when it was over, by a clock, and what it has done.
#[derive(Drop)]
pub(crate) struct Meter<'r, R> {
    clock: &'r R,
    begun: u64,
    ran: Cell<u64>,
    tally: Cell<Tally>,
}

impl<'r, R: Clock> Meter<'r, R> {
    /// A run begins now.
    pub(crate) fn new(clock: &'r R) -> Meter<'r, R> {
        let begun = nanos(clock);
        Meter {
            clock,
            begun,
            ran: Cell::new(begun),
            tally: Cell::new(Tally::default()),
        }
    }

    /// The run is at its stop, and has done this.
    pub(crate) fn has_run(&self, tally: Tally) {
        self.ran.set(nanos(self.clock));
        self.tally.set(tally);
    }

    /// What was counted, now that the report is written.
    pub(crate) fn figures(&self) -> Figures {
        let ran = self.ran.get();
        Figures {
            tally: self.tally.get(),
            running: ran.saturating_sub(self.begun),
            writing: nanos(self.clock).saturating_sub(ran),
        }
    }
}

/// What a clock shows, in nanoseconds; a clock that cannot be read stands still.
fn nanos(clock: &impl Clock) -> u64 {
    match clock.monotonic() {
        Ok(time) => u64::try_from(time.as_nanos()).unwrap_or(u64::MAX),
        Err(_) => 0,
    }
}
