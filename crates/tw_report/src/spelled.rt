//! Numbers, paths and other pieces of text, written onto a page one after the other.
//!
//! Each of these writes at a place, leaves what stands before it, and answers the place after it.

ghost use Rattle.std.specs.Prelude.{◌≡◌, ◌+◌, ◌*◌, ◌≤◌, ◌++◌, length, take, map};
ghost use Rattle.std.specs.Fmt.{decimal};
ghost use Rattle.std.specs.List.{flat_map};
ghost use Rattle.tw_report.specs.Words.{path_text, with_spaces, spaced_number};

use crate::numerals::Numerals;
use crate::short_numbers::{spell_short, spell_up_to_eight};
use itoa::Buffer;

/// How many bytes a page has: enough that few calls of the system write a long report.
pub const PAGE: usize = 65_536;

/// Writes these bytes.
#[inline(always)]
pub fn spell(page: &mut [u8; PAGE], at: usize, text: &[u8]) -> usize
    requires room { at + length text.now ≤ length page.old }
    ensures end { result ≡ at + length text.now }
    ensures text { take result page.new ≡ take at page.old ++ text.now }
{
    let end = at + text.len();
    page[at..end].copy_from_slice(text);
    end
}

/// Writes a number in decimal, which has 20 digits at most.
pub fn spell_number(page: &mut [u8; PAGE], at: usize, number: u64) -> usize
    requires room { at + 20 ≤ length page.old }
    ensures end { result ≤ at + 20 }
    ensures text { take result page.new ≡ take at page.old ++ decimal number }
{
    if number < 10_000 {
        spell_short(page, at, number)
    } else if number < 100_000_000 {
        spell_up_to_eight(page, at, number)
    } else {
        spell_long(page, at, number)
    }
}

/// Writes a number of any length in decimal. It is apart, so that the short ones need no buffer.
#[inline(never)]
fn spell_long(page: &mut [u8; PAGE], at: usize, number: u64) -> usize
    requires room { at + 20 ≤ length page.old }
    ensures end { result ≤ at + 20 }
    ensures text { take result page.new ≡ take at page.old ++ decimal number }
{
    spell(page, at, Buffer::new().format(number).as_bytes())
}

/// Writes a space and a number.
#[inline(always)]
pub fn spell_next(page: &mut [u8; PAGE], at: usize, numerals: &Numerals, number: u64) -> usize
    requires room { at + 21 ≤ length page.old }
    ensures end { result ≤ at + 21 }
    ensures text { take result page.new ≡ take at page.old ++ spaced_number number }
{
    page[at] = b' ';
    numerals.spell(page, at + 1, number)
}

/// Writes a path in parentheses.
pub fn spell_path(page: &mut [u8; PAGE], at: usize, numerals: &Numerals, nodes: &[u32]) -> usize
    requires room { at + 2 + 21 * length nodes.now ≤ length page.old }
    ensures end { result ≤ at + 2 + 21 * length nodes.now }
    ensures text { take result page.new ≡ take at page.old ++ path_text nodes.now }
{
    page[at] = b'(';
    let end = spell_nodes(page, at + 1, numerals, nodes);
    page[end] = b')';
    end + 1
}

/// Writes numbers with a space between each two.
fn spell_nodes(page: &mut [u8; PAGE], at: usize, numerals: &Numerals, nodes: &[u32]) -> usize
    requires room { at + 21 * length nodes.now ≤ length page.old }
    ensures end { result ≤ at + 21 * length nodes.now }
    ensures text { take result page.new ≡ take at page.old ++ with_spaces (map decimal nodes.now) }
{
    let [first, more @ ..] = nodes else {
        return at;
    };
    let end = numerals.spell(page, at, u64::from(*first));
    spell_more_nodes(page, end, numerals, more)
}

/// Writes each number with a space before it.
fn spell_more_nodes(page: &mut [u8; PAGE], at: usize, numerals: &Numerals, nodes: &[u32]) -> usize
    requires room { at + 21 * length nodes.now ≤ length page.old }
    ensures end { result ≤ at + 21 * length nodes.now }
    ensures text { take result page.new ≡ take at page.old ++ flat_map spaced_number nodes.now }
{
    let mut end = at;
    for node in nodes {
        end = spell_next(page, end, numerals, u64::from(*node));
    }
    end
}
