//! The policy, by figures.

use crate::numbers::ALL_TIME;
use crate::pace::Pace;
use crate::rests::{Looks, longest_nap};

/// So many events are handled, all of tick 7.
fn handle(pace: &mut Pace, events: u32) {
    for _ in 0..events {
        pace.count_handled(7);
    }
}

/// So many turns of 64 events, of which so many are undone.
fn take_turns(pace: &mut Pace, turns: u32, undone: u64, at_window: bool) {
    for _ in 0..turns {
        handle(pace, 64);
        pace.count_undone(undone);
        pace.adapt(at_window);
        pace.begin_turn(None);
    }
}

/// So many rests in which it slept so often.
fn rest(pace: &mut Pace, rests: u32, naps: u32) {
    for _ in 0..rests {
        pace.begin_turn(Some(naps));
    }
}

/// Where it stops that knows the bound 1,000.
fn end(pace: &Pace) -> u64 {
    pace.limit(1_000, 1_000_000)
}

#[test]
fn a_window_doubles_until_it_falls(rt: HostRuntime) {
    let mut pace = Pace::new(10);
    take_turns(&mut pace, 15, 0, true);
    assert!(rt; end(&pace) == 1_010 && pace.has_least_window());
    take_turns(&mut pace, 1, 0, true);
    assert!(rt; end(&pace) == 1_020 && !pace.has_least_window());
    // Of 16 turns of 64 events, each turn worth 40 more, a twentieth are 83.
    take_turns(&mut pace, 16, 5, true);
    assert!(rt; end(&pace) == 1_040);
    take_turns(&mut pace, 16, 6, true);
    assert!(rt; end(&pace) == 1_020);
}

#[test]
fn a_window_stays_where_nothing_ends_at_it_or_is_handled(rt: HostRuntime) {
    let mut pace = Pace::new(10);
    take_turns(&mut pace, 64, 0, false);
    assert!(rt; end(&pace) == 1_010);
    for _ in 0..64 {
        pace.adapt(true);
        pace.begin_turn(None);
    }
    assert!(rt; end(&pace) == 1_010);
}

#[test]
fn a_window_is_never_below_the_least(rt: HostRuntime) {
    let mut pace = Pace::new(10);
    take_turns(&mut pace, 160, 64, true);
    assert!(rt; end(&pace) == 1_010);
}

/// One that has fallen to 20 ticks.
fn fallen() -> Pace {
    let mut pace = Pace::new(10);
    take_turns(&mut pace, 32, 0, true);
    take_turns(&mut pace, 16, 64, true);
    pace
}

#[test]
fn after_its_fall_a_window_moves_by_a_part(rt: HostRuntime) {
    let mut pace = fallen();
    assert!(rt; end(&pace) == 1_020);
    // By a 32nd of 20 ticks, which is less than one, and of what it is then.
    take_turns(&mut pace, 16, 0, true);
    assert!(rt; end(&pace) == 1_020);
    take_turns(&mut pace, 16, 0, true);
    assert!(rt; end(&pace) == 1_021);
    let mut pace = fallen();
    take_turns(&mut pace, 16, 64, true);
    assert!(rt; end(&pace) == 1_019);
    let mut pace = fallen();
    take_turns(&mut pace, 64, 0, false);
    assert!(rt; end(&pace) == 1_020);
}

#[test]
fn a_single_span_does_not_turn_the_mean(rt: HostRuntime) {
    let mut pace = fallen();
    take_turns(&mut pace, 16, 0, true);
    take_turns(&mut pace, 16, 0, true);
    // A span of which one event in 34 is undone, turns counted, after two without: one of 92 in the mean.
    take_turns(&mut pace, 16, 3, true);
    assert!(rt; end(&pace) == 1_021);
    take_turns(&mut pace, 16, 0, true);
    assert!(rt; end(&pace) == 1_022);
}

#[test]
fn a_worker_that_has_all_routers_has_no_window(rt: HostRuntime) {
    let pace = Pace::new(ALL_TIME);
    assert!(rt; pace.limit(3, 1_000) == 1_000 && pace.until_meeting(64) == 512);
    assert!(rt; pace.until_meeting(u32::MAX) == u32::MAX);
    let pace = Pace::new(10);
    assert!(rt; pace.limit(995, 1_000) == 1_000 && pace.until_meeting(64) == 64);
    assert!(rt; pace.bound_before(25) == 15 && pace.bound_before(4) == 0);
}

#[test]
fn a_turn_is_what_was_done_since_the_meeting(rt: HostRuntime) {
    let mut pace = Pace::new(10);
    handle(&mut pace, 5);
    pace.count_undone(2);
    let turn = pace.turn();
    assert!(rt; turn.handled == 5 && turn.undone == 2);
    assert!(rt; pace.end_of_tick() == 8 && pace.handled() == 5);
    pace.begin_turn(None);
    let turn = pace.turn();
    assert!(rt; turn.handled == 0 && turn.undone == 0 && pace.handled() == 5);
}

#[test]
fn a_worker_commits_now_and_then_and_at_the_end(rt: HostRuntime) {
    let mut pace = Pace::new(10);
    handle(&mut pace, 4_095);
    assert!(rt; !pace.is_commit_due(8, 9) && pace.is_commit_due(9, 9));
    handle(&mut pace, 1);
    assert!(rt; pace.is_commit_due(8, 9));
    pace.count_commit();
    assert!(rt; !pace.is_commit_due(8, 9));
}

#[test]
fn who_slept_looks_shortly_for_a_while(rt: HostRuntime) {
    let mut pace = Pace::new(10);
    assert!(rt; pace.looks().micros == 500 && pace.looks().rounds == 1_024);
    rest(&mut pace, 1, 1);
    assert!(rt; pace.looks().micros == 12 && pace.looks().rounds == 64);
    rest(&mut pace, 1, 0);
    assert!(rt; pace.looks().micros == 500);
    // The next time for 2 rests.
    rest(&mut pace, 2, 1);
    assert!(rt; pace.looks().micros == 12);
    rest(&mut pace, 1, 0);
    assert!(rt; pace.looks().micros == 500);
    // After a calm of 256 for 2 again, and not for 4.
    rest(&mut pace, 256, 0);
    rest(&mut pace, 2, 1);
    assert!(rt; pace.looks().micros == 12);
    rest(&mut pace, 1, 0);
    assert!(rt; pace.looks().micros == 500);
}

#[test]
fn looks_end_by_a_clock_that_goes_on(rt: HostRuntime) {
    let looks = Looks {
        rounds: 1_024,
        micros: 500,
    };
    assert!(rt;
        !looks.are_over(Some(1_000), Some(1_499)) && looks.are_over(Some(1_000), Some(1_500))
    );
    assert!(rt; !looks.are_over(Some(1_000), Some(900)) && !looks.are_over(None, Some(1_500)));
    assert!(rt; !looks.are_over(Some(1_000), None));
}

#[test]
fn a_worker_without_routers_sleeps_longer(rt: HostRuntime) {
    assert!(rt; longest_nap(1) == 20 && longest_nap(0) == 250);
}
