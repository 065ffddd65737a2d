//! Numbers of at most eight digits, as most numbers of events are, written onto a page.

ghost use Rattle.std.specs.Prelude.{◌≡◌, ◌+◌, ◌/◌, ◌%◌, ◌<◌, ◌≤◌, [], ◌∷◌, ◌++◌, length, take};
ghost use Rattle.std.specs.Fmt.{decimal};

use crate::spelled::PAGE;

/// Writes a number below 10,000 in decimal.
pub fn spell_short(page: &mut [u8; PAGE], at: usize, number: u64) -> usize
    requires number { number < 10000 }
    requires room { at + 4 ≤ length page.old }
    ensures end { result ≤ at + 4 }
    ensures text { take result page.new ≡ take at page.old ++ decimal number }
{
    if number < 100 {
        return spell_first(page, at, number);
    }
    let end = spell_first(page, at, number / 100);
    spell_pair(page, end, number % 100);
    end + 2
}

/// Writes a number of five to eight digits in decimal.
#[inline(never)]
pub fn spell_up_to_eight(page: &mut [u8; PAGE], at: usize, number: u64) -> usize
    requires least { 10000 ≤ number }
    requires number { number < 100000000 }
    requires room { at + 8 ≤ length page.old }
    ensures end { result ≤ at + 8 }
    ensures text { take result page.new ≡ take at page.old ++ decimal number }
{
    let last_four = number % 10_000;
    let end = spell_short(page, at, number / 10_000);
    spell_pair(page, end, last_four / 100);
    spell_pair(page, end + 2, last_four % 100);
    end + 4
}

/// Writes a number below 100 in decimal.
#[inline(always)]
fn spell_first(page: &mut [u8; PAGE], at: usize, number: u64) -> usize
    requires number { number < 100 }
    requires room { at + 2 ≤ length page.old }
    ensures end { result ≤ at + 2 }
    ensures text { take result page.new ≡ take at page.old ++ decimal number }
{
    if number < 10 {
        page[at] = b'0' + number as u8;
        return at + 1;
    }
    spell_pair(page, at, number);
    at + 2
}

/// Writes two digits, the first of which may be 0.
#[inline(always)]
fn spell_pair(page: &mut [u8; PAGE], at: usize, pair: u64)
    requires pair { pair < 100 }
    requires room { at + 2 ≤ length page.old }
    ensures text { take (at + 2) page.new ≡ take at page.old ++ ((48 + pair / 10) ∷ (48 + pair % 10) ∷ []) }
{
    page[at] = b'0' + (pair / 10) as u8;
    page[at + 1] = b'0' + (pair % 10) as u8;
}
