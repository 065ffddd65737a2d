//! Why a logical process does not receive a message.

ghost use Rattle.std.specs.Prelude.{◌≡◌};
ghost use Rattle.tw_engine.specs.declared.rejection.Unreceived.TheVariants.{Memory};

use std::alloc::AllocError;
use thiserror::Error;

/// Why a message is refused. The process is then as it was before.
#[derive(Clone, Copy, PartialEq, Eq, Debug, Error)]
pub enum Rejection {
    /// Its receiver is another process.
    #[error("the receiver is another process")]
    NotMine,
    /// It lies before the bound.
    #[error("the message lies before the bound, {bound}")]
    Late {
        /// The bound, in ticks.
        bound: u64,
    },
    /// It does not suit its receiver.
    #[error("the event does not suit its receiver")]
    Foreign,
}

/// Why a message was not received.
#[derive(Clone, Copy, PartialEq, Eq, Debug)]
pub enum Unreceived {
    /// It is refused.
    Rejected(Rejection),
    /// There is no memory for it. The process may have undone some events that are not before it.
    Memory,
}

impl From<AllocError> for Unreceived {
    ghost from_gives = { λ _ e. e ≡ Memory };

    fn from(_: AllocError) -> Unreceived {
        Unreceived::Memory
    }
}
