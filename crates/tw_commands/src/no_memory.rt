//! Want of memory, as commands tell it.

use std::alloc::AllocError;
use tw_device::Failed;
use tw_warp::RunFault;

/// Memory was refused, for what a command does or for the page that tells of it.
#[derive(Clone, Copy)]
pub(crate) struct NoMemory;

impl From<AllocError> for NoMemory {
    fn from(_: AllocError) -> NoMemory {
        NoMemory
    }
}

impl From<Failed> for NoMemory {
    fn from(_: Failed) -> NoMemory {
        NoMemory
    }
}

impl From<RunFault> for NoMemory {
    fn from(_: RunFault) -> NoMemory {
        NoMemory
    }
}
