//! The error of a device.

ghost use Rattle.std.specs.Prelude.{◌≡◌};
ghost use Rattle.tw_model.specs.declared.memory.OrMemory.TheVariants.{Fault};

use thiserror::Error;
use tw_model::OrMemory;

/// A device answered with an error.
#[derive(Clone, Copy, PartialEq, Eq, Debug, Error)]
#[error("a device failed")]
pub struct Failed;

impl From<Failed> for OrMemory<Failed> {
    ghost from_gives = { λ failed fault. fault ≡ Fault failed };

    fn from(failed: Failed) -> OrMemory<Failed> {
        OrMemory::Fault(failed)
    }
}
