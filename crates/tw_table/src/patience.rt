//! How a worker waits for the exchange. No promise rests on it.

use crossbeam_utils::Backoff;
use std::hint;

/// So often a worker looks again at once, before it gives way to others: who has the exchange mostly gives it back soon.
const QUICK_LOOKS: u32 = 64;

/// The patience of a worker that waits.
#[derive(Drop)]
pub(crate) struct Patience {
    looks: u32,
    backoff: Backoff,
}

impl Patience {
    /// It has not waited yet.
    pub(crate) fn new() -> Patience {
        Patience {
            looks: 0,
            backoff: Backoff::new(),
        }
    }

    /// Waits for a moment, and for longer ones once it has looked often, in which others get the processor.
    pub(crate) fn wait(&mut self) {
        if self.looks < QUICK_LOOKS {
            self.looks += 1;
            hint::spin_loop();
        } else {
            self.backoff.snooze();
        }
    }
}
