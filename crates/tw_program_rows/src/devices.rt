//! Sources and sinks over memory that fail where a test says.

ghost use Rattle.std.specs.Prelude.{◌≡◌, false, Some, None, IfOk};

use std::alloc::{AllocError, Global};
use tw_device::{Failed, Sink, Source};

/// More bytes than any text of the tests.
pub(crate) const AMPLE: usize = 4096;

/// A sink that takes so many bytes in all, at most so many in one call, and then fails.
#[derive(Drop)]
pub(crate) struct ShortPage {
    held: Vec<u8>,
    room: usize,
    most: usize,
    failed: bool,
}

impl ShortPage {
    /// A sink that takes `room` bytes, at most `most` in one call.
    pub(crate) fn new(alloc: Global, room: usize, most: usize) -> Result<ShortPage, AllocError>
        ensures { IfOk result (λ page. page.failed ≡ false) }
    {
        Ok(ShortPage {
            held: Vec::with_capacity(alloc, AMPLE)?,
            room,
            most,
            failed: false,
        })
    }

    /// The bytes that it took.
    pub(crate) fn bytes(&self) -> &[u8] {
        &self.held
    }
}

impl Sink for ShortPage {
    ghost written = { λ s. Some s.held.items };

    ghost failed = { λ s. s.failed };

    fn put(&mut self, bytes: &[u8]) -> Result<usize, Failed> {
        let left = self.room.saturating_sub(self.held.len());
        let taken = bytes.len().min(self.most).min(left);
        if (taken > 0 || bytes.is_empty()) && self.held.extend_from_slice(&bytes[..taken]).is_ok() {
            return Ok(taken);
        }
        self.failed = true;
        Err(Failed)
    }

    fn has_failed(&self) -> bool {
        self.failed
    }
}

/// A source that gives a text, and fails after so many bytes.
#[derive(Clone, Copy)]
pub(crate) struct Tape<'a> {
    rest: &'a [u8],
    left: usize,
    failed: bool,
}

impl<'a> Tape<'a> {
    /// A source of these bytes that fails once it gave `left` of them.
    pub(crate) fn new(text: &'a [u8], left: usize) -> Tape<'a>
        ensures { result.failed ≡ false }
    {
        Tape {
            rest: text,
            left,
            failed: false,
        }
    }
}

impl Source for Tape<'_> {
    ghost remaining = { λ s. None };

    ghost failed = { λ s. s.failed };

    fn get(&mut self, into: &mut [u8]) -> Result<usize, Failed> {
        let given = into.len().min(self.rest.len()).min(self.left);
        if given == 0 && !self.rest.is_empty() {
            self.failed = true;
            return Err(Failed);
        }
        into[..given].copy_from_slice(&self.rest[..given]);
        self.rest = &self.rest[given..];
        self.left -= given;
        Ok(given)
    }

    fn has_failed(&self) -> bool {
        self.failed
    }
}

/// A source that gives line ends without end, and counts them.
#[derive(Drop)]
pub(crate) struct Endless {
    given: usize,
}

impl Endless {
    /// A source that has given nothing yet.
    pub(crate) fn new() -> Endless {
        Endless { given: 0 }
    }

    /// How many bytes it gave.
    pub(crate) fn given(&self) -> usize {
        self.given
    }
}

impl Source for Endless {
    ghost remaining = { λ s. None };

    ghost failed = { λ s. false };

    fn get(&mut self, into: &mut [u8]) -> Result<usize, Failed> {
        into.fill(b'\n');
        self.given = self.given.saturating_add(into.len());
        Ok(into.len())
    }

    fn has_failed(&self) -> bool {
        false
    }
}
