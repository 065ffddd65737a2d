//! Which of the program's devices failed, and how.

use std::fmt::{self, Display, Formatter};
use std::io::{self, ErrorKind};

/// A device of the program that failed, with what the system says of it.
#[derive(Clone, Copy)]
pub(crate) enum Device {
    Input(io::Error),
    Output(io::Error),
}

impl Device {
    /// Whether it is standard output, a pipe that nobody reads any more.
    pub(crate) fn is_closed_pipe(&self) -> bool {
        match self {
            Device::Input(_) => false,
            Device::Output(error) => error.kind() == ErrorKind::BrokenPipe,
        }
    }
}

impl Display for Device {
    fn fmt<W: fmt::Write>(&self, f: &mut Formatter<W>) -> fmt::Result {
        match self {
            Device::Input(error) => write!(f, "standard input: {error}"),
            Device::Output(error) => write!(f, "standard output: {error}"),
        }
    }
}
