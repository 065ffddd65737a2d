//! One more line of a case text.

ghost use Rattle.std.specs.List.{list_all};
ghost use Rattle.std.specs.Prelude.{◌≡◌, map, false, true};
ghost use Rattle.tw_model.specs.Memory.{IsUnlessMemory};
ghost use Rattle.tw_lines.specs.LineReader.{left_by};
ghost use Rattle.tw_lines.specs.Words.{is_plain, words};
ghost use Rattle.tw_text.specs.Drafts.{result_items, step_said};
ghost use Rattle.tw_text.specs.FaultTable.{draft_after, is_start, version_in};
ghost use Rattle.tw_text.specs.Statements.{keyword_before, keyword_of, numbers_of, statement_of};
ghost use Rattle.tw_text.specs.Versions.{version_of};

use crate::draft::{Draft, take_statement};
use crate::keyword::Keyword;
use std::alloc::Global;
use tw_lines::{LineFault, is_plain_line, number_of, split_words};
use tw_model::OrMemory;

/// Adds one more line, or answers the lowest fault of the line. `ended` says whether the line has
/// its end.
pub(crate) fn read_line(
    alloc: Global,
    draft: &mut Draft,
    line: &[u8],
    ended: bool,
) -> Result<(), OrMemory<LineFault>>
    ensures { IsUnlessMemory (left_by result draft.new) (draft_after draft.old line.now ended) }
{
    if !is_plain_line(line) {
        return Err(OrMemory::Fault(LineFault::Byte));
    }
    match draft {
        Draft::Start => {
            *draft = read_header(line, ended)?;
            Ok(())
        }
        _ => read_later(alloc, draft, line, ended),
    }
}

/// What line 1 gives.
fn read_header(line: &[u8], ended: bool) -> Result<Draft, LineFault>
    requires { list_all is_plain line.now ≡ true }
    ensures { result ≡ draft_after Draft.Start line.now ended }
{
    match version_of(line) {
        Some(version) if ended => Ok(Draft::Header(version)),
        Some(_) => Err(LineFault::End),
        None => Err(LineFault::Header),
    }
}

/// The version of which the line is the header, if it is one.
fn version_of(line: &[u8]) -> Option<u32>
    ensures { result ≡ version_of line.now }
{
    if line == b"spp 1".as_slice() {
        Some(1)
    } else if line == b"spp 2".as_slice() {
        Some(2)
    } else {
        None
    }
}

/// Adds a line from the second on.
fn read_later(
    alloc: Global,
    draft: &mut Draft,
    line: &[u8],
    ended: bool,
) -> Result<(), OrMemory<LineFault>>
    requires plain { list_all is_plain line.now ≡ true }
    requires later { is_start draft.old ≡ false }
    ensures { IsUnlessMemory (left_by result draft.new) (draft_after draft.old line.now ended) }
{
    let words = split_words(alloc, line)?;
    read_words(alloc, draft, &words, ended)
}

#[tactic(auto, unfolding(crate::specs::Statements::statement_of))]
fn read_words(
    alloc: Global,
    draft: &mut Draft,
    words: &[&[u8]],
    ended: bool,
) -> Result<(), OrMemory<LineFault>>
    ensures { IsUnlessMemory (left_by result draft.new) (step_said draft.old (statement_of (version_in draft.old) (map (λ w. w.now) words.now)) ended) }
{
    let [word, arguments @ ..] = words else {
        return Err(OrMemory::Fault(LineFault::Word));
    };
    let keyword = keyword_before(draft.version(), word, arguments)?;
    let numbers = numbers_of(alloc, arguments)?;
    take_statement(alloc, draft, keyword, &numbers, ended)
}

/// The keyword that a word is in a version of the text, where these words may follow it.
fn keyword_before(version: u32, word: &[u8], arguments: &[&[u8]]) -> Result<Keyword, LineFault>
    ensures { result ≡ keyword_before (keyword_of version word.now) (map (λ w. w.now) arguments.now) }
{
    let keyword = Keyword::from_word(version, word).ok_or(LineFault::Word)?;
    if keyword.takes_words(arguments) {
        Ok(keyword)
    } else {
        Err(LineFault::Word)
    }
}

/// The numbers that the words are.
fn numbers_of(alloc: Global, words: &[&[u8]]) -> Result<Vec<u64>, OrMemory<LineFault>>
    ensures { IsUnlessMemory (result_items result) (numbers_of (map (λ w. w.now) words.now)) }
{
    let mut numbers = Vec::with_capacity(alloc, words.len())?;
    for word in words {
        numbers.push_reserved(number_of(word)?);
    }
    Ok(numbers)
}
