//! Which buckets of a wheel hold something, as words of bits.

ghost use Rattle.std.specs.Bool.{OnFalse, OnTrue};
ghost use Rattle.std.specs.Int.{bit_at};
ghost use Rattle.std.specs.Prelude.{ℕ, ◌≡◌, ◌≢◌, ◌<◌, ◌≤◌, ◌+◌, ◌*◌, ◌%◌, IfNone, IfSome, length};
ghost use Rattle.tw_calendar.specs.Turn.{IsFirstMark, mark_at};

use std::marker::Model;

/// How many buckets a turn of a wheel has.
pub(crate) const BUCKETS: u64 = 1024;

/// How many places a word of marks has.
pub(crate) const PLACES: usize = 64;

/// How many words of marks there are.
pub(crate) const WORDS: usize = 16;

/// A mark for each bucket, set or not.
#[derive(Drop)]
pub(crate) struct Marks {
    words: [u64; 16],
}

impl Model for Marks {
    ghost use Rattle.std.specs.Prelude.{ℕ, ◌≡◌, List, length};

    ghost Value = { List ℕ };

    ghost view = { λ a. a.words };

    ghost invariant = { λ a. length a.words ≡ 16 };
}

impl Marks {
    /// No marks.
    pub(crate) fn new() -> Marks
        ensures { (i : ℕ) → mark_at result i ≡ 0 }
    {
        Marks { words: [0; 16] }
    }

    /// Marks a place, or takes its mark away.
    #[inline(always)]
    pub(crate) fn set(&mut self, place: usize, is_marked: bool)
        requires { place < 1024 }
        ensures marked { OnTrue is_marked (mark_at self.new place ≡ 1) }
        ensures clear { OnFalse is_marked (mark_at self.new place ≡ 0) }
        ensures others { (i : ℕ) → i < 1024 → i ≢ place → mark_at self.new i ≡ mark_at self.old i }
    {
        let word = place / PLACES;
        self.words[word] = marked_as(self.words[word], place % PLACES, is_marked);
    }

    /// The first marked place after that of a base, round all places; any place where none is marked.
    #[inline(always)]
    pub(crate) fn first_after(&self, base: u64) -> usize
        ensures { IsFirstMark self.now base result }
    {
        first_mark(&self.words, slot_of(base % BUCKETS + 1))
    }

    /// Whether one of the places of a word may be marked.
    #[inline(always)]
    pub(crate) fn has_any(&self, word: usize) -> bool
        requires { word < 16 }
        ensures { OnFalse result ((i : ℕ) → i < 64 → mark_at self.now (word * 64 + i) ≡ 0) }
    {
        self.words[word] != 0
    }
}

// This word with the mark of a place as it is told.
#[inline(always)]
fn marked_as(word: u64, place: usize, is_marked: bool) -> u64
    requires { place < 64 }
    ensures marked { OnTrue is_marked (bit_at result place ≡ 1) }
    ensures clear { OnFalse is_marked (bit_at result place ≡ 0) }
    ensures others { (i : ℕ) → i < 64 → i ≢ place → bit_at result i ≡ bit_at word i }
{
    if is_marked {
        word | 1 << place
    } else {
        word & !(1 << place)
    }
}

// The first marked place from a place on, round all places; any place where none is marked.
#[inline(always)]
fn first_mark(words: &[u64; 16], from: usize) -> usize
    requires number { length words.now ≡ 16 }
    requires from { from < 1024 }
    ensures { (base : ℕ) → (base + 1) % 1024 ≡ from → IsFirstMark words.now base result }
{
    if let Some(place) = first_bit(words[from / PLACES], from % PLACES) {
        return from / PLACES * PLACES + place;
    }
    for step in 1..WORDS + 1 {
        let word = (from / PLACES + step) % WORDS;
        if let Some(place) = first_bit(words[word], 0) {
            return word * PLACES + place;
        }
    }
    from
}

// The first place of a word that is marked, from a place on.
#[inline(always)]
fn first_bit(word: u64, from: usize) -> Option<usize>
    requires { from < 64 }
    ensures within { IfSome result (λ place. place < 64) }
    ensures on { IfSome result (λ place. from ≤ place) }
    ensures marked { IfSome result (λ place. bit_at word place ≡ 1) }
    ensures clear { IfSome result (λ place. (i : ℕ) → from ≤ i → i < place → bit_at word i ≡ 0) }
    ensures none { IfNone result ((i : ℕ) → from ≤ i → i < 64 → bit_at word i ≡ 0) }
{
    let rest = word >> from;
    if rest == 0 {
        return None;
    }
    Some(from + rest.trailing_zeros() as usize)
}

/// The place of a bucket for a key.
#[inline(always)]
pub(crate) fn slot_of(key: u64) -> usize
    ensures { result ≡ key % 1024 }
{
    (key % BUCKETS) as usize
}

/// Whether a key is one of the 1,024 after a base, so that no other of them has its bucket.
#[inline(always)]
pub(crate) fn is_ahead(key: u64, base: u64) -> bool
    ensures { OnTrue result ((base < key) × (key ≤ base + 1024)) }
{
    base < key && key - base <= BUCKETS
}
