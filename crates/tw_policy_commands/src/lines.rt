//! The lines of routers with the paths that they have left, and of the pivots of a dispute wheel.

ghost use Rattle.std.specs.Prelude.{◌≡◌, ◌<◌, false, length, map, IfOk};
ghost use Rattle.std.specs.List.{All, flat_map, range_with_len};
ghost use Rattle.tw_device.specs.Sink.{Puts};
ghost use Rattle.tw_elimination.specs.Rounds.{left_in, rounds_of};
ghost use Rattle.tw_elimination.specs.Wheel.{pivot_of, wheel_of};
ghost use Rattle.tw_model.specs.Net.{IsPath};
ghost use Rattle.tw_policy_commands.specs.Safe.{head_words, left_words, texts, wheel_words};
ghost use Rattle.tw_report.specs.Words.{line, word_text};

use std::alloc::{AllocError, Global};
use tw_device::{Failed, Sink};
use tw_elimination::{Elimination, Pivot};
use tw_event::PathNo;
use tw_instance::Instance;
use tw_report::Word::{self, Name, Number, Path};
use tw_report::put_line;

/// Of each router, in ascending order, the words of its line.
pub(crate) fn router_lines<'a>(
    alloc: Global,
    elimination: &Elimination<'a>,
) -> Result<Vec<Vec<Word<'a>>>, AllocError>
    ensures { let e = elimination.now in IfOk result
        (λ lines. texts lines.items ≡ map (λ v. left_words e.case.net v (left_in e.case e.rounds v)) (range_with_len 0 e.case.net.nodes)) }
{
    let instance = elimination.case().instance();
    let mut lines = Vec::new(alloc);
    for node in 0..instance.nodes() {
        lines.push(words_at(alloc, instance, node, elimination.left(node))?)?;
    }
    Ok(lines)
}

/// The words of the line of a router that has these paths left.
fn words_at<'a>(
    alloc: Global,
    instance: &'a Instance,
    node: u32,
    left: &[PathNo],
) -> Result<Vec<Word<'a>>, AllocError>
    requires { All (IsPath instance.now) left.now }
    ensures { IfOk result (λ words. map word_text words.items ≡ left_words instance.now node left.now) }
{
    let mut words = first_words(alloc, node, left.len())?;
    for path in left {
        words.push(Path(instance.path(*path)))?;
    }
    Ok(words)
}

/// The words before the paths, where there are so many.
fn first_words<'a>(alloc: Global, node: u32, count: usize) -> Result<Vec<Word<'a>>, AllocError>
    ensures { IfOk result (λ words. map word_text words.items ≡ head_words node count) }
{
    let number = Number(u64::from(node));
    let mut words = Vec::new(alloc);
    words.push(Name("router"))?;
    words.push(number)?;
    if count == 1 {
        words.push(Name("uses"))?;
    } else {
        words.push(Name("may"))?;
        words.push(Name("use"))?;
    }
    Ok(words)
}

/// Of each pivot of the wheel that is told, in the order of the ring, the words of its line.
pub(crate) fn wheel_lines<'a>(
    alloc: Global,
    elimination: &Elimination<'a>,
) -> Result<Vec<Vec<Word<'a>>>, AllocError>
    requires { elimination.now.rounds ≡ rounds_of elimination.now.case }
    ensures { let e = elimination.now in IfOk result
        (λ lines. texts lines.items ≡ map (wheel_words e.case.net) (wheel_of e.case e.rounds)) }
{
    let pivots = elimination.wheel(alloc)?;
    pivot_lines(alloc, elimination.case().instance(), &pivots)
}

/// Of each of these pivots the words of its line.
fn pivot_lines<'a>(
    alloc: Global,
    instance: &'a Instance,
    pivots: &[Pivot],
) -> Result<Vec<Vec<Word<'a>>>, AllocError>
    requires { All (λ p. IsPath instance.now p.spoke × IsPath instance.now p.rim) pivots.now }
    ensures { IfOk result (λ lines. texts lines.items ≡ map (λ p. wheel_words instance.now (pivot_of p)) pivots.now) }
{
    let mut lines = Vec::new(alloc);
    for pivot in pivots {
        lines.push(pivot_words(alloc, instance, pivot)?)?;
    }
    Ok(lines)
}

/// The words of the line of a pivot.
fn pivot_words<'a>(
    alloc: Global,
    instance: &'a Instance,
    pivot: &Pivot,
) -> Result<Vec<Word<'a>>, AllocError>
    requires { IsPath instance.now pivot.now.spoke × IsPath instance.now pivot.now.rim }
    ensures { IfOk result (λ words. map word_text words.items ≡ wheel_words instance.now (pivot_of pivot.now)) }
{
    let mut words = Vec::new(alloc);
    words.push(Name("wheel"))?;
    words.push(Number(u64::from(pivot.router)))?;
    words.push(Path(instance.path(pivot.spoke)))?;
    words.push(Path(instance.path(pivot.rim)))?;
    Ok(words)
}

/// Puts a line of each of these lists of words.
pub(crate) fn put_lines<S: Sink>(sink: &mut S, lines: &[Vec<Word<'_>>]) -> Result<(), Failed>
    requires { S.failed sink.old ≡ false }
    ensures { Puts result (S.written sink.old) (S.written sink.new) (S.failed sink.new) (flat_map line (texts lines.now)) }
{
    for words in lines {
        put_line(sink, words)?;
    }
    Ok(())
}
