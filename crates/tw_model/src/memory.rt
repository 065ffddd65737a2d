//! A fault, or want of memory.

ghost use Rattle.std.specs.Prelude.{◌≡◌};
ghost use Rattle.tw_model.specs.declared.memory.OrMemory.TheVariants.{Memory};
ghost use Rattle.tw_model.specs.Memory.{fault_words};

use std::alloc::AllocError;
use std::fmt::{self, Display, Formatter};

/// Why a call that takes memory did not do what was asked: a fault of its own, or that memory was
/// refused. It is only answered as `Memory` where a growth was refused.
#[derive(Clone, Copy, PartialEq, Eq, Debug)]
pub enum OrMemory<E> {
    /// The call's own fault.
    Fault(E),
    /// Memory was refused.
    Memory,
}

impl<E> From<AllocError> for OrMemory<E> {
    ghost from_gives = { λ _ fault. fault ≡ Memory };

    fn from(_: AllocError) -> OrMemory<E> {
        OrMemory::Memory
    }
}

impl<E: Display> Display for OrMemory<E> {
    ghost output = { fault_words E.output };

    fn fmt<W: fmt::Write>(&self, f: &mut Formatter<W>) -> fmt::Result {
        match self {
            OrMemory::Fault(fault) => write!(f, "{fault}"),
            OrMemory::Memory => write!(f, "memory was refused"),
        }
    }
}
