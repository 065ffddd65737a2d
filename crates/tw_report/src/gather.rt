//! Lines gathered in a piece of memory of one size, so that each is put at once.

ghost use Rattle.std.specs.Prelude.{◌≡◌, false, [], Some};
ghost use Rattle.tw_device.specs.Sink.{Device};

use arrayvec::ArrayVec;
use std::marker::Model;
use tw_device::{Failed, Sink};

/// How many bytes are gathered at most. Only a line with a long path or name has more.
const ROOM: usize = 256;

/// A sink that gathers bytes, and fails where there is no room for them. It takes no memory.
#[derive(Drop)]
pub(crate) struct Gathered {
    bytes: ArrayVec<u8, ROOM>,
    failed: bool,
}

impl Model for Gathered {
    ghost Value = { Device };

    ghost view = { λ g. record { written = Some g.bytes.items; failed = g.failed } };
}

impl Gathered {
    /// A sink that has gathered nothing yet.
    pub(crate) fn new() -> Gathered
        ensures { result ≡ record { written = Some []; failed = false } }
    {
        Gathered {
            bytes: ArrayVec::new(),
            failed: false,
        }
    }

    /// What it has gathered.
    pub(crate) fn bytes(&self) -> &[u8]
        ensures { self.now.written ≡ Some result.now }
    {
        self.bytes.as_slice()
    }
}

impl Sink for Gathered {
    ghost written = { λ g. g.written };

    ghost failed = { λ g. g.failed };

    fn put(&mut self, bytes: &[u8]) -> Result<usize, Failed> {
        self.failed = self.bytes.try_extend_from_slice(bytes).is_err();
        if self.failed {
            Err(Failed)
        } else {
            Ok(bytes.len())
        }
    }

    fn has_failed(&self) -> bool {
        self.failed
    }
}
