//! The least of a row of times, and how many lie below one.

ghost use Rattle.std.specs.Prelude.{◌≡◌, ◌^◌, ◌<◌, ◌≤◌, All, Contains, IfSome, count_by, fold, min, nat_lt, replicate};
ghost use Rattle.std.specs.List.{reduce, sum_by};
ghost use Rattle.std.specs.Simd.Lanes.{zip2};

use std::simd::prelude::*;

/// The least of the times, in ticks, and `None` where there are none.
pub fn least_time(times: &[u64]) -> Option<u64>
    ensures value { result ≡ reduce min times.now }
    ensures bound { IfSome result (λ least. All (λ time. least ≤ time) times.now) }
    ensures reached { IfSome result (λ least. Contains times.now least) }
{
    let (first, others) = times.split_first()?;
    let (chunks, rest) = others.as_chunks::<8>();
    let least = least_by_lane(*first, chunks);
    Some(least_of(least_of(*first, least.as_array()), rest))
}

// In each lane the least of a time and the chunks' times at its place.
fn least_by_lane(first: u64, chunks: &[[u64; 8]]) -> u64x8
    ensures { result ≡ fold (zip2 min) (replicate 8 first) chunks.now }
{
    chunks.iter().fold(u64x8::splat(first), lesser_lanes)
}

// The lesser of each lane and the time at its place.
fn lesser_lanes(least: u64x8, chunk: &[u64; 8]) -> u64x8
    ensures { result ≡ zip2 min least chunk.now }
{
    least.simd_min(u64x8::from_array(*chunk))
}

// The least of a time and some more.
fn least_of(first: u64, times: &[u64]) -> u64
    ensures { result ≡ fold min first times.now }
{
    times.iter().fold(first, |least, time| least.min(*time))
}

/// How many of the times are below the limit.
pub fn count_below(times: &[u64], limit: u64) -> usize
    ensures { result ≡ count_by (λ time. nat_lt time limit) times.now }
{
    let (chunks, rest) = times.as_chunks::<8>();
    below_in_chunks(chunks, limit) + below_one_by_one(rest, limit)
}

// How many of the times are below the limit, counted one by one.
fn below_one_by_one(times: &[u64], limit: u64) -> usize
    ensures { result ≡ count_by (λ time. nat_lt time limit) times.now }
{
    times.iter().filter(|time| **time < limit).count()
}

// How many of the chunks' times are below the limit.
fn below_in_chunks(chunks: &[[u64; 8]], limit: u64) -> usize
    requires { sum_by (count_by (λ time. nat_lt time limit)) chunks.now < 2 ^ 64 }
    ensures { result ≡ sum_by (count_by (λ time. nat_lt time limit)) chunks.now }
{
    chunks
        .iter()
        .map(|chunk| below_in_lanes(chunk, limit))
        .sum()
}

// How many of eight times are below the limit.
fn below_in_lanes(chunk: &[u64; 8], limit: u64) -> usize
    ensures { result ≡ count_by (λ time. nat_lt time limit) chunk.now }
{
    let below = u64x8::from_array(*chunk).simd_lt(u64x8::splat(limit));
    below.to_bitmask().count_ones() as usize
}
