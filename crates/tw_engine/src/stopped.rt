//! Why a call of a logical process does nothing.

ghost use Rattle.std.specs.Prelude.{◌≡◌};
ghost use Rattle.tw_engine.specs.declared.stopped.Stopped.TheVariants.{Memory};

use std::alloc::AllocError;
use tw_core::Refusal;

/// Why a logical process does not do what it is asked to. It is then as it was before.
#[derive(Clone, Copy, PartialEq, Eq, Debug)]
pub enum Stopped {
    /// The machine refuses the step.
    Refused(Refusal),
    /// There is no memory for it.
    Memory,
}

impl From<AllocError> for Stopped {
    ghost from_gives = { λ _ e. e ≡ Memory };

    fn from(_: AllocError) -> Stopped {
        Stopped::Memory
    }
}
