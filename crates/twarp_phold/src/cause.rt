//! How the program ends, and why it stops.

ghost use Rattle.std.specs.Prelude.{◌≡◌};
ghost use Rattle.twarp_phold.specs.Cause.{cause_of};
ghost use Rattle.twarp_phold.specs.declared.cause.Cause.TheVariants.{Device, Memory};

use std::alloc::AllocError;
use thiserror::Error;
use tw_device::Failed;
use tw_process::Refused;

/// Why the program stopped before its answer was written.
#[derive(Clone, Copy, PartialEq, Eq, Debug, Error)]
pub(crate) enum Cause {
    /// Memory was refused.
    #[error("stopped memory")]
    Memory,
    /// A counter would have passed its limit.
    #[error("stopped counter")]
    CounterFull,
    /// The sink failed.
    #[error("stopped device")]
    Device,
}

impl From<AllocError> for Cause {
    ghost from_gives = { λ _ cause. cause ≡ Memory };

    fn from(_: AllocError) -> Cause {
        Cause::Memory
    }
}

impl From<Failed> for Cause {
    ghost from_gives = { λ _ cause. cause ≡ Device };

    fn from(_: Failed) -> Cause {
        Cause::Device
    }
}

impl From<Refused> for Cause {
    ghost from_gives = { λ refused cause. cause ≡ cause_of refused };

    fn from(refused: Refused) -> Cause {
        match refused {
            Refused::CounterFull => Cause::CounterFull,
            Refused::Memory => Cause::Memory,
        }
    }
}

/// How the program ended where its answer was written.
#[derive(Clone, Copy, PartialEq, Eq)]
pub(crate) enum Status {
    /// What was asked was done.
    Done,
    /// An option was refused.
    Refused,
}
