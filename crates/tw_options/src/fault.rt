//! Why a command line is not accepted.

ghost use Rattle.std.specs.Prelude.{◌≡◌};
ghost use Rattle.tw_options.specs.Fault.{IsToldAs};
ghost use Rattle.tw_options.specs.declared.fault.CommandLineFault.TheVariants.{Memory};

use clap::error::ErrorKind;
use std::alloc::AllocError;
use thiserror::Error;

/// Why the words of a command line are not a command to run.
#[derive(Debug, Drop, Error)]
pub enum CommandLineFault {
    /// They ask for help or for the version, which is the text of this error.
    #[error(transparent)]
    Help(clap::Error),
    /// They are refused; the error's text says why.
    #[error(transparent)]
    Bad(clap::Error),
    /// Memory was refused.
    #[error("memory was refused")]
    Memory,
}

impl From<AllocError> for CommandLineFault {
    ghost from_gives = { λ _ fault. fault ≡ Memory };

    fn from(_error: AllocError) -> CommandLineFault {
        CommandLineFault::Memory
    }
}

impl From<clap::Error> for CommandLineFault {
    ghost from_gives = { IsToldAs };

    fn from(error: clap::Error) -> CommandLineFault {
        match error.kind() {
            ErrorKind::OutOfMemory => CommandLineFault::Memory,
            ErrorKind::DisplayHelp | ErrorKind::DisplayVersion => CommandLineFault::Help(error),
            _ => CommandLineFault::Bad(error),
        }
    }
}
