//! The greatest of a row of ranks, and the first place of one.

ghost use Rattle.std.specs.Prelude.{◌≡◌, ◌==◌, ◌<◌, ◌≤◌, ◌+◌, All, Contains, drop, fold, length, max, not, position, replicate};
ghost use Rattle.std.specs.List.{list_any, position_or_len, prefix_len};
ghost use Rattle.std.specs.Simd.Lanes.{zip2};

use std::simd::prelude::*;

/// The greatest of the ranks, and 0 where there are none.
pub fn best_rank(ranks: &[u32]) -> u32
    ensures value { result ≡ fold max 0 ranks.now }
    ensures bound { All (λ rank. rank ≤ result) ranks.now }
    ensures reached { 0 < length ranks.now → Contains ranks.now result }
{
    let (chunks, rest) = ranks.as_chunks::<8>();
    let best = greatest_by_lane(chunks);
    greatest(greatest(0, best.as_array()), rest)
}

// In each lane the greatest of the chunks' ranks at its place.
fn greatest_by_lane(chunks: &[[u32; 8]]) -> u32x8
    ensures { result ≡ fold (zip2 max) (replicate 8 0) chunks.now }
{
    chunks.iter().fold(u32x8::splat(0), greater_lanes)
}

// The greater of each lane and the rank at its place.
fn greater_lanes(best: u32x8, chunk: &[u32; 8]) -> u32x8
    ensures { result ≡ zip2 max best chunk.now }
{
    best.simd_max(u32x8::from_array(*chunk))
}

// The greatest of a rank and some more.
fn greatest(first: u32, ranks: &[u32]) -> u32
    ensures { result ≡ fold max first ranks.now }
{
    ranks.iter().fold(first, |best, rank| best.max(*rank))
}

/// The first place that holds the rank, and `None` where none does.
pub fn first_equal(ranks: &[u32], rank: u32) -> Option<usize>
    ensures { result ≡ position (λ other. other == rank) ranks.now }
{
    let start = skip_len(ranks, rank);
    let place = first_one_by_one(&ranks[start..], rank)?;
    Some(start + place)
}

// How many ranks stand in the chunks before the first that holds the rank.
fn skip_len(ranks: &[u32], rank: u32) -> usize
    ensures within { result ≤ length ranks.now }
    ensures past { position_or_len (λ other. other == rank) ranks.now ≡ result + position_or_len (λ other. other == rank) (drop result ranks.now) }
{
    let (chunks, _) = ranks.as_chunks::<8>();
    8 * chunks_without(chunks, rank)
}

// The first place that holds the rank, looked for one by one.
fn first_one_by_one(ranks: &[u32], rank: u32) -> Option<usize>
    ensures { result ≡ position (λ other. other == rank) ranks.now }
{
    ranks.iter().position(|other| *other == rank)
}

// How many chunks come before the first that holds the rank: all of them where none does.
fn chunks_without(chunks: &[[u32; 8]], rank: u32) -> usize
    ensures { result ≡ prefix_len (λ chunk. not (list_any (λ other. other == rank) chunk)) chunks.now }
{
    chunks
        .iter()
        .take_while(|chunk| !has_rank(chunk, rank))
        .count()
}

// Whether one of eight ranks is this one.
fn has_rank(chunk: &[u32; 8], rank: u32) -> bool
    ensures { result ≡ list_any (λ other. other == rank) chunk.now }
{
    let equal = u32x8::from_array(*chunk).simd_eq(u32x8::splat(rank));
    equal.to_bitmask() != 0
}
