//! What a process of PHOLD knows.

ghost use Rattle.std.specs.Prelude.{◌≡◌};
ghost use Rattle.tw_phold.specs.Phold.{mixed_in};

use crate::random::word;

/// A process: its generator's state, and how many jobs it has handled.
#[derive(Clone, Copy, PartialEq, Eq, Debug)]
pub struct State {
    /// The state of the generator.
    pub random: u64,
    /// How many jobs it has handled, at most 2^63.
    pub handled: u64,
}

/// How many jobs a process handles at most.
pub const MOST_HANDLED: u64 = 1 << 63;

impl State {
    /// The checksum of some states and this one behind them, where `sum` is that of those, or 0 where there are none.
    pub fn mix_into(&self, sum: u64) -> u64
        ensures { result ≡ mixed_in sum self.now }
    {
        word((sum ^ self.random).wrapping_add(self.handled))
    }
}
