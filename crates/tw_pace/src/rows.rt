//! The policy, by figures.

use crate::pace::{Alone, Course, have_processors};

/// A run of forty laps of 80 ticks, each of which took 500 microseconds.
fn steady() -> Alone {
    let mut alone = Alone::new();
    for lap in 1_u64..41 {
        alone = alone.lap(80 * lap, 500, 0);
    }
    alone
}

/// Workers have taken it over, 200 events to a tick; to begin took 900 microseconds, 300 of them for the threads.
fn opened() -> Course {
    Course::new(steady(), 640_000, 900, 300)
}

#[test]
fn a_run_with_few_events_stays_on_one_thread(rt: HostRuntime) {
    let alone = Alone::new().lap(1, 5, 0).lap(3, 9, 0).lap(7, 11, 0);
    assert!(rt; alone.next_end(20) == 15);
    assert!(rt; alone.next_end(10) == 10);
    assert!(rt; !alone.is_trial_due(1_000_000_000));
    // Some 39,993 microseconds are left, and then 40,000.
    assert!(rt; !steady().is_trial_due(3_200 + 6_399));
    assert!(rt; steady().is_trial_due(3_200 + 6_400));
}

/// Their first six stretches, which took 7,000 microseconds; one thread takes 100, 200, 400, 800, 1,600 and 3,200.
fn tried() -> Course {
    opened()
        .stretch(3_216, 643_200, 400)
        .stretch(3_248, 649_600, 500)
        .stretch(3_312, 662_400, 700)
        .stretch(3_440, 688_000, 1_000)
        .stretch(3_696, 739_200, 1_600)
        .stretch(4_208, 841_600, 2_800)
}

/// They have won their trial, in 12,400 microseconds, of which the last stretch took 5,400, 300 of them for threads; one
/// thread takes 12,700, and 6,400 of them for that stretch.
fn won() -> Course {
    tried().stretch(5_232, 1_046_400, 5_400)
}

#[test]
fn several_go_on_where_the_trial_took_a_twentieth_less(rt: HostRuntime) {
    assert!(rt; opened().next_end(10_000) == Some(3_216));
    assert!(rt; tried().next_end(10_000) == Some(5_232));
    assert!(rt; !tried().is_over());
    // A twentieth less than the 6,400 of the last stretch are 6,080, and 300 more start its threads.
    assert!(rt; !tried().stretch(5_232, 1_046_400, 6_379).is_over());
    assert!(rt; tried().stretch(5_232, 1_046_400, 6_380).is_over());
}

#[test]
fn a_stretch_in_which_nothing_happens_tells_nothing(rt: HostRuntime) {
    let idle = opened().stretch(3_216, 640_000, 300);
    assert!(rt; !idle.is_over());
    assert!(rt; idle.next_end(10_000) == Some(3_248));
}

#[test]
fn beside_other_work_a_trial_ends_with_a_stretch(rt: HostRuntime) {
    // One thread takes 100 microseconds; workers whose memory is new, up to 8,000 more, and the 900 that they began in.
    assert!(rt; !opened().stretch(3_216, 643_200, 9_000).is_over());
    let lost = opened().stretch(3_216, 643_200, 9_001);
    assert!(rt; lost.is_over());
    // It lost 8,901 microseconds, 900 to begin and 99 to end: 198,000 is twenty times as much.
    let alone = lost.go_on_alone(99);
    assert!(rt; !alone.lap(3_232, 197_999, 0).is_trial_due(1_000_000));
    assert!(rt; alone.lap(3_232, 198_000, 0).is_trial_due(1_000_000));
    // Two stretches take one thread 300 microseconds.
    let late = opened().stretch(3_216, 643_200, 2_000);
    assert!(rt; !late.stretch(3_248, 649_600, 7_200).is_over());
    assert!(rt; late.stretch(3_248, 649_600, 7_201).is_over());
}

#[test]
fn beside_other_work_there_is_no_trial(rt: HostRuntime) {
    assert!(rt; !Course::new(steady(), 640_000, 3_600, 3_000).is_over());
    let busy = Course::new(steady(), 640_000, 3_600, 3_001);
    assert!(rt; busy.is_over());
    // It is patient for 72 milliseconds: twenty times what was lost.
    let alone = busy.go_on_alone(0);
    assert!(rt; !alone.lap(3_216, 71_999, 0).is_trial_due(1_000_000));
    assert!(rt; alone.lap(3_216, 72_000, 0).is_trial_due(1_000_000));
}

#[test]
fn several_that_could_not_begin_are_tried_much_later(rt: HostRuntime) {
    // Forty laps took 20,000 microseconds: it is patient until 400,000 have gone by.
    let again = steady().again();
    assert!(rt; !again.lap(3_216, 379_999, 0).is_trial_due(1_000_000));
    assert!(rt; again.lap(3_216, 380_000, 0).is_trial_due(1_000_000));
}

#[test]
fn one_thread_that_waits_for_its_processor_goes_on_alone(rt: HostRuntime) {
    // 24,000 microseconds count half, and so does what it waited for: a tenth of 12,000 is 1,200.
    assert!(rt; steady().lap(3_280, 4_000, 2_400).is_trial_due(1_000_000));
    assert!(rt; !steady().lap(3_280, 4_000, 2_402).is_trial_due(1_000_000));
    // It waited for 2,000 of 12,000: a tenth of 20,000.
    let hindered = steady().lap(3_280, 4_000, 4_000);
    assert!(rt; !hindered.is_trial_due(1_000_000));
    assert!(rt; !hindered.lap(4_560, 7_999, 0).is_trial_due(1_000_000));
    assert!(rt; hindered.lap(4_560, 8_000, 0).is_trial_due(1_000_000));
}

#[test]
fn several_threads_have_processors_where_they_miss_little(rt: HostRuntime) {
    assert!(rt; have_processors(4, 6_000, 24_000));
    // A sixteenth of 24,000 is 1,500.
    assert!(rt; have_processors(4, 6_000, 22_500));
    assert!(rt; !have_processors(4, 6_000, 22_499));
    // Beside one that never rests; and beside four, or on two processors.
    assert!(rt; !have_processors(4, 6_000, 21_000));
    assert!(rt; !have_processors(4, 6_000, 12_000));
}

#[test]
fn a_lap_beside_other_threads_takes_some_milliseconds(rt: HostRuntime) {
    // 80 ticks took 500 microseconds, so that 960 take 6,000.
    let alone = steady().lap(3_280, 500, 0);
    assert!(rt; alone.sounding_end(10_000) == 4_240);
    assert!(rt; alone.sounding_end(4_000) == 4_000);
    // It is patient for twenty times as long.
    let hindered = steady().hindered();
    assert!(rt; !hindered.lap(3_216, 119_999, 0).is_trial_due(1_000_000));
    assert!(rt; hindered.lap(3_216, 120_000, 0).is_trial_due(1_000_000));
}

#[test]
fn a_clock_that_stands_still_or_goes_back_leaves_one_thread(rt: HostRuntime) {
    let still = Alone::new().lap(1, 0, 0).lap(3, 0, 0);
    assert!(rt; still.next_end(1_000_000_000) == 7);
    assert!(rt; !still.is_trial_due(1_000_000_000));
    // The clock stops as workers take over.
    assert!(rt;
        Course::new(still, 1_000, 0, 0)
            .stretch(7, 2_000, 0)
            .is_over()
    );
}

#[test]
fn a_phase_that_workers_lose_ends_their_run(rt: HostRuntime) {
    assert!(rt; won().next_end(1_000_000) == Some(7_280));
    // 2,048 ticks take one thread 12,800 microseconds, and them as long.
    let even = won().stretch(7_280, 1_456_000, 12_800);
    assert!(rt; !even.is_over());
    let lost = even.stretch(9_328, 1_865_600, 62_800);
    assert!(rt; lost.is_over());
    // A stretch that took long is followed by one of as many ticks.
    assert!(rt; lost.next_end(1_000_000) == Some(11_376));
    assert!(rt; lost.next_end(10_000) == Some(10_000));
    assert!(rt; lost.next_end(9_328).is_none());
    // The stretch lost 50 milliseconds, besides what it took to begin and to end.
    let alone = lost.go_on_alone(100);
    assert!(rt; !alone.lap(9_344, 1_019_999, 0).is_trial_due(1_000_000));
    assert!(rt; alone.lap(9_344, 1_020_000, 0).is_trial_due(1_000_000));
}

#[test]
fn one_thread_is_tried_again_now_and_then(rt: HostRuntime) {
    assert!(rt; !won().stretch(500_000, 100_000_000, 2_167_599).is_over());
    let long = won().stretch(500_000, 100_000_000, 2_167_600);
    assert!(rt; long.is_over());
    assert!(rt;
        long.go_on_alone(0)
            .lap(500_100, 20_000, 0)
            .is_trial_due(10_000_000)
    );
}
