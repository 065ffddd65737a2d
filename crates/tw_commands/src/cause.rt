//! Why a program stops before its answer is written.

ghost use Rattle.std.specs.Prelude.{◌≡◌};
ghost use Rattle.tw_commands.specs.declared.cause.Cause.TheVariants.{Memory, Device};
ghost use Rattle.tw_commands.specs.Cause.{read_cause, run_cause};

use crate::no_memory::NoMemory;
use std::alloc::AllocError;
use thiserror::Error;
use tw_device::Failed;
use tw_handlers::CounterFull;
use tw_model::OrMemory;

/// Why a program stopped before its answer was written.
#[derive(Clone, Copy, PartialEq, Eq, Debug, Error)]
pub enum Cause {
    /// Memory was refused.
    #[error("stopped memory")]
    Memory,
    /// A counter of a router would have passed its limit.
    #[error("stopped counter")]
    CounterFull,
    /// A thread could not be started.
    #[error("stopped thread")]
    NoThread,
    /// The source or the sink failed.
    #[error("stopped device")]
    Device,
}

impl From<AllocError> for Cause {
    ghost from_gives = { λ _ cause. cause ≡ Memory };

    fn from(_: AllocError) -> Cause {
        Cause::Memory
    }
}

impl From<NoMemory> for Cause {
    ghost from_gives = { λ _ cause. cause ≡ Memory };

    fn from(_: NoMemory) -> Cause {
        Cause::Memory
    }
}

impl From<Failed> for Cause {
    ghost from_gives = { λ _ cause. cause ≡ Device };

    fn from(_: Failed) -> Cause {
        Cause::Device
    }
}

impl From<OrMemory<Failed>> for Cause {
    ghost from_gives = { λ fault cause. cause ≡ read_cause fault };

    fn from(fault: OrMemory<Failed>) -> Cause {
        match fault {
            OrMemory::Fault(_) => Cause::Device,
            OrMemory::Memory => Cause::Memory,
        }
    }
}

impl From<OrMemory<CounterFull>> for Cause {
    ghost from_gives = { λ fault cause. cause ≡ run_cause fault };

    fn from(fault: OrMemory<CounterFull>) -> Cause {
        match fault {
            OrMemory::Fault(_) => Cause::CounterFull,
            OrMemory::Memory => Cause::Memory,
        }
    }
}

/// How a program ended whose answer was written.
#[derive(Clone, Copy, PartialEq, Eq, Debug)]
pub enum Status {
    /// What was asked was done.
    Done,
    /// The input, or an option, was refused.
    Refused,
}
