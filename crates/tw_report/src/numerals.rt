//! Numerals that are spelled once and then written onto a page as they stand.

ghost use Rattle.std.specs.Prelude.{◌≡◌, ◌+◌, ◌<◌, ◌≤◌, ◌++◌, length, take};
ghost use Rattle.std.specs.Fmt.{decimal};
ghost use Rattle.tw_report.specs.Numerals.{IsNumeral};

use crate::short_numbers::spell_short;
use crate::spelled::{PAGE, spell, spell_number};
use std::marker::Model;

/// How many numerals are kept: each router's number has one.
const KEPT: usize = 1_024;

/// The digits of a number below 10,000, and how many they are.
#[derive(Clone, Copy)]
struct Numeral {
    bytes: [u8; 4],
    count: u32,
}

impl Numeral {
    /// The numeral of a number, spelled on this page, which is written over.
    fn of(page: &mut [u8; PAGE], number: u64) -> Numeral
        requires number { number < 10000 }
        ensures { IsNumeral number result }
    {
        let count = spell_short(page, 0, number) as u32;
        let mut bytes = [0; 4];
        bytes.copy_from_slice(&page[..4]);
        Numeral { bytes, count }
    }

    /// Writes it.
    #[inline(always)]
    fn spell(&self, page: &mut [u8; PAGE], at: usize) -> usize
        requires count { self.now.count ≤ length self.now.bytes }
        requires room { at + length self.now.bytes ≤ length page.old }
        ensures end { result ≡ at + self.now.count }
        ensures text { take result page.new ≡ take at page.old ++ take self.now.count self.now.bytes }
    {
        // All four bytes, of which the next piece covers those behind the last digit.
        spell(page, at, &self.bytes);
        at + self.count as usize
    }
}

/// The numerals of the numbers below 1,024, which most numbers of a line are.
#[derive(Drop)]
pub struct Numerals {
    kept: [Numeral; KEPT],
}

impl Model for Numerals {
    ghost use Rattle.tw_report.specs.Numerals.{AreNumerals};

    ghost Value = { Unit {0} };

    ghost view = { λ n. tt };

    ghost invariant = { λ n. AreNumerals n.kept };
}

impl Numerals {
    /// The numerals, spelled on this page, which is written over.
    pub fn new(page: &mut [u8; PAGE]) -> Numerals {
        let mut kept = [Numeral {
            bytes: [0; 4],
            count: 0,
        }; KEPT];
        for number in 0..KEPT {
            kept[number] = Numeral::of(page, number as u64);
        }
        Numerals { kept }
    }

    /// Writes a number in decimal.
    #[inline(always)]
    pub fn spell(&self, page: &mut [u8; PAGE], at: usize, number: u64) -> usize
        requires room { at + 20 ≤ length page.old }
        ensures end { result ≤ at + 20 }
        ensures text { take result page.new ≡ take at page.old ++ decimal number }
    {
        match self.kept.get(number as usize) {
            Some(numeral) => numeral.spell(page, at),
            None => spell_number(page, at, number),
        }
    }
}
