//! The words of output lines.

ghost use Rattle.std.specs.Prelude.{◌≡◌, false, map};
ghost use Rattle.std.specs.Fmt.{decimal};
ghost use Rattle.std.specs.List.{flat_map};
ghost use Rattle.tw_device.specs.Sink.{Puts};
ghost use Rattle.tw_report.specs.Words.{line, path_text, with_spaces, spaced_number, spaced_word, word_text};

use crate::gather::Gathered;
use itoa::Buffer;
use tw_device::{Failed, Sink, put_all};

/// A word of an output line.
#[derive(Clone, Copy)]
pub enum Word<'a> {
    /// Letters, as they are.
    Name(&'a str),
    /// A number in decimal.
    Number(u64),
    /// A number of things that several lists have together, in decimal.
    Count(u128),
    /// A path in parentheses, as `(1 2 0)`; the empty path is `()`.
    Path(&'a [u32]),
}

/// Puts a line of these words, with a space between each two and LF at its end. Takes no memory.
pub fn put_line<S: Sink>(sink: &mut S, words: &[Word<'_>]) -> Result<(), Failed>
    requires open { S.failed sink.old ≡ false }
    ensures { Puts result (S.written sink.old) (S.written sink.new) (S.failed sink.new) (line (map word_text words.now)) }
{
    let mut line = Gathered::new();
    match put_in_pieces(&mut line, words) {
        Ok(()) => put_all(sink, line.bytes()),
        Err(_) => put_in_pieces(sink, words),
    }
}

/// Puts a line of these words piece by piece.
fn put_in_pieces<S: Sink>(sink: &mut S, words: &[Word<'_>]) -> Result<(), Failed>
    requires open { S.failed sink.old ≡ false }
    ensures { Puts result (S.written sink.old) (S.written sink.new) (S.failed sink.new) (line (map word_text words.now)) }
{
    put_words(sink, words)?;
    put_all(sink, b"\n")
}

/// Puts words with a space between each two.
fn put_words<S: Sink>(sink: &mut S, words: &[Word<'_>]) -> Result<(), Failed>
    requires open { S.failed sink.old ≡ false }
    ensures { Puts result (S.written sink.old) (S.written sink.new) (S.failed sink.new) (with_spaces (map word_text words.now)) }
{
    let [first, more @ ..] = words else {
        return Ok(());
    };
    put_word(sink, *first)?;
    put_more(sink, more)
}

/// Puts each word with a space before it.
fn put_more<S: Sink>(sink: &mut S, words: &[Word<'_>]) -> Result<(), Failed>
    requires open { S.failed sink.old ≡ false }
    ensures { Puts result (S.written sink.old) (S.written sink.new) (S.failed sink.new) (flat_map spaced_word words.now) }
{
    for word in words {
        put_next(sink, *word)?;
    }
    Ok(())
}

/// Puts a space and a word.
fn put_next<S: Sink>(sink: &mut S, word: Word<'_>) -> Result<(), Failed>
    requires open { S.failed sink.old ≡ false }
    ensures { Puts result (S.written sink.old) (S.written sink.new) (S.failed sink.new) (spaced_word word.entry) }
{
    put_all(sink, b" ")?;
    put_word(sink, word)
}

fn put_word<S: Sink>(sink: &mut S, word: Word<'_>) -> Result<(), Failed>
    requires open { S.failed sink.old ≡ false }
    ensures { Puts result (S.written sink.old) (S.written sink.new) (S.failed sink.new) (word_text word.entry) }
{
    match word {
        Word::Name(name) => put_all(sink, name.as_bytes()),
        Word::Number(number) => put_number(sink, number),
        Word::Count(count) => put_all(sink, Buffer::new().format(count).as_bytes()),
        Word::Path(nodes) => put_path(sink, nodes),
    }
}

fn put_number<S: Sink>(sink: &mut S, number: u64) -> Result<(), Failed>
    requires open { S.failed sink.old ≡ false }
    ensures { Puts result (S.written sink.old) (S.written sink.new) (S.failed sink.new) (decimal number) }
{
    let mut buffer = Buffer::new();
    put_all(sink, buffer.format(number).as_bytes())
}

fn put_path<S: Sink>(sink: &mut S, nodes: &[u32]) -> Result<(), Failed>
    requires open { S.failed sink.old ≡ false }
    ensures { Puts result (S.written sink.old) (S.written sink.new) (S.failed sink.new) (path_text nodes.now) }
{
    put_all(sink, b"(")?;
    put_nodes(sink, nodes)?;
    put_all(sink, b")")
}

/// Puts numbers with a space between each two.
fn put_nodes<S: Sink>(sink: &mut S, nodes: &[u32]) -> Result<(), Failed>
    requires open { S.failed sink.old ≡ false }
    ensures { Puts result (S.written sink.old) (S.written sink.new) (S.failed sink.new) (with_spaces (map decimal nodes.now)) }
{
    let [first, more @ ..] = nodes else {
        return Ok(());
    };
    put_number(sink, u64::from(*first))?;
    put_more_nodes(sink, more)
}

/// Puts each number with a space before it.
fn put_more_nodes<S: Sink>(sink: &mut S, nodes: &[u32]) -> Result<(), Failed>
    requires open { S.failed sink.old ≡ false }
    ensures { Puts result (S.written sink.old) (S.written sink.new) (S.failed sink.new) (flat_map spaced_number nodes.now) }
{
    for node in nodes {
        put_next_number(sink, u64::from(*node))?;
    }
    Ok(())
}

/// Puts a space and a number.
fn put_next_number<S: Sink>(sink: &mut S, number: u64) -> Result<(), Failed>
    requires open { S.failed sink.old ≡ false }
    ensures { Puts result (S.written sink.old) (S.written sink.new) (S.failed sink.new) (spaced_number number) }
{
    put_all(sink, b" ")?;
    put_number(sink, number)
}
