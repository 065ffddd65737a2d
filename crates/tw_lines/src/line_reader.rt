//! What readers of lines have in common.

ghost use Rattle.std.specs.Prelude.{◌≡◌};
ghost use Rattle.tw_model.specs.Memory.{IsUnlessMemory, map_fault};
ghost use Rattle.tw_lines.specs.LineReader.{TextReader, left_by};
ghost use Rattle.tw_lines.specs.Reading.{fault_at, finishes, read_from, whole_at};

use crate::text_fault::{LineFault, TextFault};
use crate::words::line_end;
use std::alloc::Global;
use tw_model::OrMemory;

/// What the lines of a text so far have given, for one kind of text.
pub trait LineReader: Drop {
    /// What a whole text gives.
    type Whole;

    /// How the text is read.
    ghost reader: { TextReader Self Self.Whole };

    /// Adds one more line, or answers the lowest fault of the line. `ended` says whether the line has
    /// its end.
    fn read_line(
        &mut self,
        alloc: Global,
        line: &[u8],
        ended: bool,
    ) -> Result<(), OrMemory<LineFault>>
        ensures { IsUnlessMemory (left_by result self.new) (reader.step self.old line.now ended) };

    /// What all lines have given, where none is missing.
    fn whole(self) -> Option<Self::Whole>
        ensures { result ≡ reader.whole self };
}

/// What a text gives, line by line, or its first line that has a fault, with the lowest fault of
/// that line.
pub fn read_text<D: LineReader>(
    alloc: Global,
    mut draft: D,
    text: &[u8],
) -> Result<D::Whole, OrMemory<TextFault>>
    ensures { IsUnlessMemory result (read_from D.reader draft text.now) }
{
    let mut line = 1;
    let mut rest = text;
    while let Some(end) = line_end(rest) {
        if let Err(fault) = draft.read_line(alloc, &rest[..end], true) {
            return Err(at_line(fault, line));
        }
        rest = &rest[end + 1..];
        line += 1;
    }
    finish(alloc, draft, rest, line)
}

/// What the text gives, where this follows its last line end: the beginning of a line, or nothing.
fn finish<D: LineReader>(
    alloc: Global,
    mut draft: D,
    rest: &[u8],
    line: usize,
) -> Result<D::Whole, OrMemory<TextFault>>
    ensures { IsUnlessMemory result (finishes D.reader draft line rest.now) }
{
    if rest.is_empty() {
        return Ok(whole_at(draft, line)?);
    }
    match draft.read_line(alloc, rest, false) {
        Ok(()) => Err(OrMemory::Fault(end_fault(line))),
        Err(fault) => Err(at_line(fault, line)),
    }
}

/// What the lines have given, where none is missing.
fn whole_at<D: LineReader>(draft: D, line: usize) -> Result<D::Whole, TextFault>
    ensures { result ≡ whole_at line (D.reader.whole draft) }
{
    match draft.whole() {
        Some(whole) => Ok(whole),
        None => Err(end_fault(line)),
    }
}

/// The fault of a line that is missing or is not ended.
fn end_fault(line: usize) -> TextFault
    ensures { result ≡ fault_at line LineFault.End }
{
    TextFault {
        line,
        fault: LineFault::End,
    }
}

/// The fault of this line.
fn at_line(fault: OrMemory<LineFault>, line: usize) -> OrMemory<TextFault>
    ensures { result ≡ map_fault (fault_at line) fault }
{
    match fault {
        OrMemory::Fault(fault) => OrMemory::Fault(TextFault { line, fault }),
        OrMemory::Memory => OrMemory::Memory,
    }
}
