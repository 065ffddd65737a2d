//! Path lines, of which a long text has most: their numbers in one pass over the bytes.

ghost use Rattle.std.specs.Char.{is_ascii_digit};
ghost use Rattle.std.specs.List.{list_all};
ghost use Rattle.std.specs.Prelude.{◌≡◌, ◌≤◌, ◌<◌, ◌^◌, length, take, true, IfOk, IfSome};
ghost use Rattle.std.specs.Str.Parse.{digits_value};
ghost use Rattle.tw_text.specs.PathLine.{AreNumbers, BeginsWith, IsPathLine};

use arrayvec::ArrayVec;
use std::alloc::{AllocError, Global};
use tw_model::PermittedPath;
use tw_model::limits::MOST_NODES;

/// How many numbers a path line has at most: those of the owner and of the nodes.
const MOST_NUMBERS: usize = 1 + MOST_NODES;

/// How many digits are read of a number. Each number of so few digits is a `u32`.
const SHORT: usize = 9;

/// The path that a path line says. Where it answers `None`, the line says something else, or has a
/// fault, or a number or a path is too long to be one of an instance.
pub(crate) fn path_in(alloc: Global, line: &[u8]) -> Result<Option<PermittedPath>, AllocError>
    ensures { IfOk result (λ found. IfSome found (λ path. IsPathLine line.now path)) }
{
    let Some(text) = line.strip_prefix(b"path ".as_slice()) else {
        return Ok(None);
    };
    let Some(numbers) = numbers_in(text) else {
        return Ok(None);
    };
    match numbers.as_slice() {
        [owner, nodes @ ..] if nodes.len() >= 1 => {
            let owner = *owner;
            let nodes = Vec::from_slice(alloc, nodes)?;
            Ok(Some(PermittedPath { owner, nodes }))
        }
        _ => Ok(None),
    }
}

/// The numbers that the words of a text are, if they are and there is room for them.
#[inline(always)]
fn numbers_in(text: &[u8]) -> Option<ArrayVec<u32, MOST_NUMBERS>>
    ensures { IfSome result (λ numbers. AreNumbers text.now numbers.items) }
{
    let mut numbers = ArrayVec::new();
    let mut rest = text;
    while let Some((number, end)) = first_number(rest) {
        let Ok(()) = numbers.try_push(number) else {
            return None;
        };
        if end == rest.len() {
            return Some(numbers);
        }
        rest = &rest[end + 1..];
    }
    None
}

/// The number that is the first word of a text, if it is a short one, and where it ends.
#[inline(always)]
fn first_number(text: &[u8]) -> Option<(u32, usize)>
    ensures { IfSome result (λ found. BeginsWith text.now found.0 found.1) }
{
    let (value, end) = leading_digits(text);
    if end == 0 || (end > 1 && text[0] == b'0') {
        return None;
    }
    if end < text.len() && text[end] != b' ' {
        return None;
    }
    Some((value, end))
}

/// What the digits at the front of a text say, as many as are read, and how many they are.
#[inline(always)]
fn leading_digits(text: &[u8]) -> (u32, usize)
    ensures value { result.0 ≡ digits_value 10 (take result.1 text.now) }
    ensures digits { list_all is_ascii_digit (take result.1 text.now) ≡ true }
    ensures most { result.1 ≤ SHORT }
    ensures within { result.1 ≤ length text.now }
{
    let mut value: u32 = 0;
    let mut end = 0;
    while end < text.len() && end < SHORT && text[end].is_ascii_digit() {
        value = value * 10 + u32::from(text[end] - b'0');
        end += 1;
    }
    (value, end)
}
