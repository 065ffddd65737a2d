//! Passes over a slice, of which none takes memory.

ghost use Rattle.std.specs.Prelude.{◌<◌, ◌≤◌};

use tw_lanes::{best_rank, count_below, first_equal, least_time};

/// Whether the greatest rank is found where all stand in whole chunks, and where some stand after them.
fn finds_the_best() -> bool {
    best_rank(&[]) == 0
        && best_rank(&[7]) == 7
        && best_rank(&[1, 2, 3, 4, 5, 6, 7, 8]) == 8
        && best_rank(&[1, 2, 3, 4, 5, 6, 7, 8, 9]) == 9
        && best_rank(&[0; 9]) == 0
}

/// Whether the first place of a rank, the least time and the times below a limit are found.
fn finds_the_first_and_the_least() -> bool {
    first_equal(&[0, 5, 5], 5) == Some(1)
        && first_equal(&[], 0) == None
        && least_time(&[]) == None
        && least_time(&[9, 8, 7, 6, 5, 4, 3, 2, 1]) == Some(1)
        && count_below(&[3, 5, 5, 9], 5) == 1
}

#[test]
fn a_pass_finds_what_it_looks_for(rt: HostRuntime) {
    assert!(rt; finds_the_best());
    assert!(rt; finds_the_first_and_the_least());
}

/// Whether each pass finds the extreme that stands at one place among so many values.
fn finds_the_extreme(place: usize, length: usize) -> bool
    requires inside { place < length }
    requires most { length ≤ 200 }
{
    let mut ranks = [4; 200];
    let mut times = [4; 200];
    ranks[place] = 6;
    times[place] = 2;
    let (ranks, times) = (&ranks[..length], &times[..length]);
    best_rank(ranks) == 6
        && first_equal(ranks, 6) == Some(place)
        && least_time(times) == Some(2)
        && count_below(times, 4) == 1
}

#[test]
fn an_extreme_at_each_place_of_each_length_is_found(rt: HostRuntime) {
    for length in 0..=200 {
        for place in 0..length {
            assert!(rt; finds_the_extreme(place, length), "{place} of {length}");
        }
    }
}
