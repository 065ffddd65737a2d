//! How long a worker that has nothing to do looks for news before it sleeps, and how long it sleeps.

use crate::numbers::{
    FEW_LOOKS, FIRST_SHORT_RESTS, LONG_NAP_MICROS, MANY_LOOKS, MOST_SHORT_RESTS, NAP_MICROS,
    RESTS_OF_A_CALM,
};
use std::cmp;

/// How long a worker with so many routers sleeps at most between two looks, in microseconds.
pub fn longest_nap(routers: usize) -> u64 {
    if routers == 0 {
        LONG_NAP_MICROS
    } else {
        NAP_MICROS
    }
}

/// How long an idle worker looks before it sleeps: for so many rounds at most, and so many microseconds by the clock.
#[derive(Clone, Copy)]
pub struct Looks {
    /// Rounds, of `LOOKS_OF_A_ROUND` looks each.
    pub rounds: u32,
    /// Microseconds by a clock, where there is one.
    pub micros: u64,
}

impl Looks {
    /// Whether they have lasted long enough, where a clock showed `then` as they began and shows `now`, in microseconds.
    /// Where there is no clock, or it stands still or goes back, their number ends them.
    pub fn are_over(&self, then: Option<u64>, now: Option<u64>) -> bool {
        match (then, now) {
            (Some(then), Some(now)) => now.saturating_sub(then) >= self.micros,
            _ => false,
        }
    }
}

/// How often a worker slept lately, and so whether it looks for long or shortly.
#[derive(Clone, Copy)]
pub(crate) struct Rests {
    // For how many rests more it looks shortly.
    short: u32,
    // And for how many after the next time that it looked often in vain.
    next_short: u32,
    // How many rests with many looks since then were not in vain.
    calm: u32,
}

impl Rests {
    pub(crate) const NONE: Rests = Rests {
        short: 0,
        next_short: FIRST_SHORT_RESTS,
        calm: 0,
    };

    pub(crate) fn looks(&self) -> Looks {
        if self.short > 0 {
            FEW_LOOKS
        } else {
            MANY_LOOKS
        }
    }

    /// A rest is over in which the worker slept so often.
    pub(crate) fn add(&mut self, naps: u32) {
        if self.short > 0 {
            self.short -= 1;
        } else if naps > 0 {
            self.short = self.next_short;
            self.next_short = cmp::min(MOST_SHORT_RESTS, self.next_short.saturating_mul(2));
            self.calm = 0;
        } else {
            self.count_calm();
        }
    }

    fn count_calm(&mut self) {
        self.calm = self.calm.saturating_add(1);
        if self.calm >= RESTS_OF_A_CALM {
            self.next_short = cmp::max(FIRST_SHORT_RESTS, self.next_short / 2);
            self.calm = 0;
        }
    }
}
