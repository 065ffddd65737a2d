//! A sink in memory.

ghost use Rattle.std.specs.Prelude.{◌≡◌, false, [], Some};
ghost use Rattle.tw_device.specs.Sink.{Device};

use crate::failed::Failed;
use crate::sink::Sink;
use std::alloc::Global;
use std::marker::Model;

/// A sink in memory. It fails where memory is refused.
#[derive(Drop)]
pub struct Page {
    bytes: Vec<u8>,
    failed: bool,
}

impl Model for Page {
    ghost Value = { Device };

    ghost view = { λ p. record { written = Some p.bytes.items; failed = p.failed } };
}

impl Page {
    /// A page with nothing on it.
    pub fn new(alloc: Global) -> Page
        ensures { result ≡ record { written = Some []; failed = false } }
    {
        Page {
            bytes: Vec::new(alloc),
            failed: false,
        }
    }

    /// What stands on it.
    pub fn bytes(&self) -> &[u8]
        ensures { self.now.written ≡ Some result.now }
    {
        &self.bytes
    }
}

impl Sink for Page {
    ghost written = { λ p. p.written };

    ghost failed = { λ p. p.failed };

    fn put(&mut self, bytes: &[u8]) -> Result<usize, Failed> {
        match self.bytes.extend_from_slice(bytes) {
            Ok(()) => Ok(bytes.len()),
            Err(_) => {
                self.failed = true;
                Err(Failed)
            }
        }
    }

    fn has_failed(&self) -> bool {
        self.failed
    }
}
