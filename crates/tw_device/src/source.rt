//! Devices that give bytes.

ghost use Rattle.std.specs.Prelude.{◌≡◌, ℕ, ◌<◌, ◌≤◌, Bool, false, true, List, length, Option, is_some, IfOk, IfErr, OnOk, OnErr};
ghost use Rattle.std.specs.Io.KnownBytes.{ReadConsumes};
ghost use Rattle.tw_device.specs.Source.{IsCauseOf, IsInput, LosesInput, Reader, TakesInput};

use crate::failed::Failed;
use std::alloc::Global;
use std::io::{self, ErrorKind, Read};
use std::marker::Model;
use tw_model::OrMemory;
use tw_model::limits::MOST_INPUT;

/// How many bytes are asked for at once.
const CHUNK: usize = 16_384;

/// A device that gives bytes until it is at its end or fails. From then on it is not to be used.
pub trait Source {
    /// The bytes that it will give, where they are known.
    ghost remaining: { Self → Option (List ℕ) };

    /// Whether it has failed.
    ghost failed: { Self → Bool };

    /// Puts bytes at the front of `into` and answers how many: one at least before the end.
    fn get(&mut self, into: &mut [u8]) -> Result<usize, Failed>
        requires open { failed self.old ≡ false }
        requires room { 0 < length into.old }
        ensures count { IfOk result (λ n. n ≤ length into.new) }
        ensures bytes { ReadConsumes (remaining self.old) (remaining self.new) result into.new }
        ensures ok { OnOk result (failed self.new ≡ false) }
        ensures err { OnErr result (failed self.new ≡ true) };

    /// Whether it has failed.
    fn has_failed(&self) -> bool
        ensures { result ≡ failed self.now };

    /// Is handed the text that was read of it, where that is refused, so that a person can be shown the line. It
    /// lets the text go where nothing else is said of it.
    fn take_back(&mut self, _text: Vec<u8>)
        ensures remaining { remaining self.new ≡ remaining self.old }
        ensures failed { failed self.new ≡ failed self.old }
    {}
}

/// The first `MOST_INPUT` bytes of what the source gives, or all where there are no more.
///
/// Answers `Memory` where memory was refused, and the source's failure where it failed. In any case the
/// source has given `MOST_INPUT` bytes at most.
pub fn read_all<R: Source>(alloc: Global, source: &mut R) -> Result<Vec<u8>, OrMemory<Failed>>
    requires open { R.failed source.old ≡ false }
    ensures input { IfOk result (λ v. IsInput (R.remaining source.old) v.items) }
    ensures taken { OnOk result (LosesInput (R.remaining source.old) (R.remaining source.new)) }
    ensures most { TakesInput (R.remaining source.old) (R.remaining source.new) }
    ensures ok { OnOk result (R.failed source.new ≡ false) }
    ensures err { IfErr result (λ fault. IsCauseOf fault (R.failed source.new)) }
{
    let mut bytes = Vec::new(alloc);
    let mut chunk = [0; CHUNK];
    while bytes.len() < MOST_INPUT {
        let room = CHUNK.min(MOST_INPUT - bytes.len());
        let taken = source.get(&mut chunk[..room])?;
        if taken == 0 {
            return Ok(bytes);
        }
        bytes.extend_from_slice(&chunk[..taken])?;
    }
    Ok(bytes)
}

/// A reader as a `Source`. A read that is interrupted is tried again; any other error is a failure.
#[derive(Drop)]
pub struct OverRead<R: Read> {
    reader: R,
    failure: Option<io::Error>,
    refused: Option<Vec<u8>>,
}

impl<R: Read> Model for OverRead<R> {
    ghost Value = { Reader };

    ghost view = { λ s. record { remaining = R.remaining s.reader; failed = is_some s.failure } };
}

impl<R: Read> OverRead<R> {
    /// A source that gives the reader's bytes.
    pub fn new(reader: R) -> OverRead<R>
        ensures { result ≡ record { remaining = R.remaining reader; failed = false } }
    {
        OverRead {
            reader,
            failure: None,
            refused: None,
        }
    }

    /// What it met, if it has failed.
    pub fn failure(&self) -> Option<io::Error>
        ensures { is_some result ≡ self.now.failed }
    {
        self.failure
    }

    /// The text that was read of it, if that was refused.
    pub fn refused(&self) -> Option<&[u8]> {
        self.refused.as_deref()
    }
}

impl<R: Read> Source for OverRead<R> {
    ghost remaining = { λ s. s.remaining };

    ghost failed = { λ s. s.failed };

    fn get(&mut self, into: &mut [u8]) -> Result<usize, Failed> {
        let mut failure = io::Error::from(ErrorKind::Interrupted);
        for _ in 0..u64::MAX {
            match self.reader.read(into) {
                Ok(taken) => return Ok(taken),
                Err(e) if e.kind() == ErrorKind::Interrupted => {}
                Err(e) => {
                    failure = e;
                    break;
                }
            }
        }
        self.failure = Some(failure);
        Err(Failed)
    }

    fn has_failed(&self) -> bool {
        self.failure.is_some()
    }

    fn take_back(&mut self, text: Vec<u8>) {
        self.refused = Some(text);
    }
}
