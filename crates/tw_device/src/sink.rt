//! Devices that take bytes.

ghost use Rattle.std.specs.Prelude.{◌≡◌, ℕ, ◌<◌, ◌≤◌, Bool, false, true, List, length, Option, is_some, IfOk, OnOk, OnErr};
ghost use Rattle.std.specs.Io.KnownBytes.{WriteAppends};
ghost use Rattle.tw_device.specs.Sink.{Device, Puts};

use crate::failed::Failed;
use std::io::{self, ErrorKind, Write};
use std::marker::Model;

/// A device that takes bytes until it fails. From then on it is not to be used.
pub trait Sink {
    /// The bytes that it holds, where they are known.
    ghost written: { Self → Option (List ℕ) };

    /// Whether it has failed.
    ghost failed: { Self → Bool };

    /// Takes a prefix of the bytes, one at least where there is one, and answers how many.
    fn put(&mut self, bytes: &[u8]) -> Result<usize, Failed>
        requires open { failed self.old ≡ false }
        ensures count { IfOk result (λ n. n ≤ length bytes.now) }
        ensures some { IfOk result (λ n. 0 < length bytes.now → 0 < n) }
        ensures bytes { WriteAppends (written self.old) (written self.new) result bytes.now }
        ensures ok { OnOk result (failed self.new ≡ false) }
        ensures err { OnErr result (failed self.new ≡ true) };

    /// Whether it has failed.
    fn has_failed(&self) -> bool
        ensures { result ≡ failed self.now };
}

/// Puts all of the bytes. After an error the sink holds a prefix of them, after what
/// it held before.
pub fn put_all<S: Sink>(sink: &mut S, bytes: &[u8]) -> Result<(), Failed>
    requires open { S.failed sink.old ≡ false }
    ensures { Puts result (S.written sink.old) (S.written sink.new) (S.failed sink.new) bytes.now }
{
    let mut rest = bytes;
    while !rest.is_empty() {
        let taken = sink.put(rest)?;
        rest = &rest[taken..];
    }
    Ok(())
}

/// A writer as a `Sink`. A write that is interrupted is tried again; any other error, and a write
/// that takes nothing, is a failure.
#[derive(Drop)]
pub struct OverWrite<W: Write> {
    writer: W,
    failure: Option<io::Error>,
}

impl<W: Write> Model for OverWrite<W> {
    ghost Value = { Device };

    ghost view = { λ s. record { written = W.contents s.writer; failed = is_some s.failure } };
}

impl<W: Write> OverWrite<W> {
    /// A sink that hands its bytes to the writer.
    pub fn new(writer: W) -> OverWrite<W>
        ensures { result ≡ record { written = W.contents writer; failed = false } }
    {
        OverWrite {
            writer,
            failure: None,
        }
    }

    /// What it met, if it has failed.
    pub fn failure(&self) -> Option<io::Error>
        ensures { is_some result ≡ self.now.failed }
    {
        self.failure
    }

    /// The writer, with what it took.
    pub fn into_writer(self) -> W
        ensures { W.contents result ≡ self.written }
    {
        self.writer
    }
}

impl<W: Write> Sink for OverWrite<W> {
    ghost written = { λ s. s.written };

    ghost failed = { λ s. s.failed };

    fn put(&mut self, bytes: &[u8]) -> Result<usize, Failed> {
        let mut failure = io::Error::from(ErrorKind::Interrupted);
        for _ in 0..u64::MAX {
            match self.writer.write(bytes) {
                Ok(taken) if 0 < taken || bytes.is_empty() => return Ok(taken),
                Ok(_) => {
                    failure = io::Error::from(ErrorKind::WriteZero);
                    break;
                }
                Err(e) if e.kind() == ErrorKind::Interrupted => {}
                Err(e) => {
                    failure = e;
                    break;
                }
            }
        }
        self.failure = Some(failure);
        Err(Failed)
    }

    fn has_failed(&self) -> bool {
        self.failure.is_some()
    }
}
