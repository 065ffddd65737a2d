//! The words of a line.

ghost use Rattle.std.specs.Char.{is_ascii_digit};
ghost use Rattle.std.specs.List.{list_all, position};
ghost use Rattle.std.specs.Prelude.{◌≡◌, ◌≤◌, ◌==◌, length, map, Some, None, IfOk, if◌then◌else◌};
ghost use Rattle.std.specs.Str.Parse.{digits_value};
ghost use Rattle.tw_lines.specs.Words.{is_plain, line_feed, number_of, words};

use crate::text_fault::LineFault;
use memchr::memchr;
use std::alloc::{AllocError, Global};
use tw_model::limits::MOST_DIGITS;

/// Whether each byte of the line is a space, a letter a to z, or a digit.
pub fn is_plain_line(line: &[u8]) -> bool
    ensures { result ≡ list_all is_plain line.now }
{
    line.iter().all(|byte| is_plain(*byte))
}

fn is_plain(byte: u8) -> bool
    ensures { result ≡ is_plain byte }
{
    matches!(byte, b' ' | b'a'..=b'z' | b'0'..=b'9')
}

/// What stands between the spaces of a line.
pub fn split_words(alloc: Global, line: &[u8]) -> Result<Vec<&[u8]>, AllocError>
    ensures { IfOk result (λ v. map (λ x. x.now) v.items ≡ words line.now) }
{
    line.split(|byte| *byte == b' ').collect(alloc)
}

/// Where the first line end of a text stands, if there is one.
pub(crate) fn line_end(text: &[u8]) -> Option<usize>
    ensures { result ≡ position (λ b. b == line_feed) text.now }
{
    memchr(b'\n', text)
}

/// The number that a word is: at most ten digits, with no zero in front.
pub fn number_of(word: &[u8]) -> Result<u64, LineFault>
    ensures { result ≡ number_of word.now }
{
    if word.is_empty() || word.len() > MOST_DIGITS || (word.len() > 1 && word[0] == b'0') {
        return Err(LineFault::Number);
    }
    digits_value(word).ok_or(LineFault::Number)
}

fn digits_value(digits: &[u8]) -> Option<u64>
    requires { length digits.now ≤ MOST_DIGITS }
    ensures { result ≡ (if list_all is_ascii_digit digits.now then Some (digits_value 10 digits.now) else None) }
{
    let mut value: u64 = 0;
    for digit in digits {
        if !digit.is_ascii_digit() {
            return None;
        }
        value = value * 10 + u64::from(*digit - b'0');
    }
    Some(value)
}
