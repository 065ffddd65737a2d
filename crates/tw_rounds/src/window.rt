//! How far processes run ahead of the bound, and how many threads take part (own). Nothing here changes what is
//! computed, only how soon.

ghost use Rattle.std.specs.Prelude.{◌*◌, ◌<◌, ◌≤◌};

use crate::counts::Counts;
use crate::limits::{
    EVENTS_PER_PROCESS, LEAST_EVENTS, LITTLE, MOST_ALONE, MOST_WINDOW, MUCH, SMALL_ROUNDS,
    WORTH_THREADS,
};

/// The time before which events are handled in a round by so many threads: one alone goes as far as the stop, since
/// nothing comes late to it, and several go as far beyond the bound as the window allows, and at most to the stop.
pub(crate) fn limit_of(threads: usize, bound: u64, window: u64, stop: u64) -> u64
    requires { bound ≤ stop }
    ensures stop { result ≤ stop }
    ensures ahead { bound < stop → bound < result }
{
    if threads < 2 {
        return stop;
    }
    stop.min(bound.saturating_add(window.max(1)))
}

/// How rounds are paced: how far ahead of the bound events are handled, and whether by several threads.
///
/// Several begin. Where they handle little round after round, one thread goes on alone for a round, then for two, four
/// and so on, since trials that are lost are to cost little.
#[derive(Clone, Copy)]
pub(crate) struct Pace {
    /// How far ahead of the bound several threads go, in ticks: the window of optimism.
    pub(crate) window: u64,
    // Rounds by several in a row in which little was handled.
    small: u32,
    // Rounds that one thread is still to go on alone, and those after the next lost trial.
    alone: u32,
    patience: u32,
}

impl Pace {
    /// Of a run before its first round. The window begins at the lookahead.
    pub(crate) fn new(lookahead: u64) -> Pace {
        Pace {
            window: lookahead,
            small: 0,
            alone: 0,
            patience: 1,
        }
    }

    /// How many threads take part in the next round, of so many.
    pub(crate) fn threads(self, workers: u32) -> usize
        ensures { 0 < result }
    {
        if self.alone > 0 {
            return 1;
        }
        (workers as usize).max(1)
    }

    /// After a round by so many threads, in which so much was done.
    pub(crate) fn after(self, threads: usize, lookahead: u64, round: Counts) -> Pace {
        if threads < 2 {
            return Pace {
                alone: self.alone.saturating_sub(1),
                ..self
            };
        }
        let window = next_window(self.window, lookahead, round);
        if round.handled >= WORTH_THREADS {
            return Pace {
                window,
                ..Pace::new(lookahead)
            };
        }
        Pace { window, ..self }.after_little()
    }

    /// After one more round by several threads in which little was handled.
    fn after_little(self) -> Pace {
        if self.small < SMALL_ROUNDS {
            return Pace {
                small: self.small.saturating_add(1),
                ..self
            };
        }
        Pace {
            small: 0,
            alone: self.patience,
            patience: self.patience.saturating_mul(2).min(MOST_ALONE),
            ..self
        }
    }
}

/// The window of optimism after a round by several threads in which so much was done: half as long
/// where much was taken back, an eighth longer where little was, and at least the lookahead, within which nothing is.
fn next_window(window: u64, lookahead: u64, round: Counts) -> u64 {
    if round.antimessages > round.handled / MUCH {
        (window / 2).max(lookahead)
    } else if round.antimessages > round.handled / LITTLE {
        window
    } else {
        window.saturating_add(window / 8 + 1).min(MOST_WINDOW)
    }
}

/// How many of so many processes are a share, where so many threads take part.
pub(crate) fn share_of(processes: usize, threads: usize) -> usize
    requires { 0 < threads }
    ensures some { 0 < result }
    ensures all { processes ≤ result * threads }
{
    processes.div_ceil(threads).max(1)
}

/// How many events a share of so many processes handles in a round at most.
pub(crate) fn most_events(processes: usize) -> u64 {
    LEAST_EVENTS.max((processes as u64).saturating_mul(EVENTS_PER_PROCESS))
}
