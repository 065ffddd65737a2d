//! Which way a run goes on, by one thread alone or in rounds by several, and how far. Nothing here changes what is
//! computed, only how soon.

ghost use Rattle.std.specs.Prelude.{◌≤◌, ◌<◌};

use std::io;
use std::time::{Clock, Duration};
use tw_pace::{Alone as Lone, Course as Together};

/// Which way a run goes on, and what that took so far.
#[derive(Clone, Copy)]
pub(crate) enum Course {
    /// By one thread alone.
    Alone(Lone),
    /// In rounds by several.
    Together(Together),
}

impl Course {
    /// Of a run before its first event.
    pub(crate) fn new() -> Course {
        Course::Alone(Lone::new())
    }

    /// Where the next stretch ends, in ticks: behind where it begins, and not past the stop.
    pub(crate) fn next_end(self, from: u64, stop: u64) -> u64
        requires { from < stop }
        ensures after { from < result }
        ensures within { result ≤ stop }
    {
        let end = match self {
            Course::Alone(alone) if alone.ticks < stop => alone.next_end(stop),
            Course::Together(together) => together.next_end(stop).unwrap_or(stop),
            Course::Alone(_) => stop,
        };
        end.max(from + 1).min(stop)
    }

    /// Behind a stretch that ended there, so many events from the beginning, and took so long, in microseconds.
    pub(crate) fn after(self, end: u64, events: u64, took: u64) -> Course {
        match self {
            Course::Alone(alone) => Course::Alone(alone.lap(end, took, 0)),
            Course::Together(together) => Course::Together(together.stretch(end, events, took)),
        }
    }

    /// Whether one thread is to go on alone, up to this stop.
    pub(crate) fn is_for_one(self, stop: u64) -> bool {
        match self {
            Course::Alone(alone) => !alone.is_trial_due(stop),
            Course::Together(together) => together.is_over(),
        }
    }

    /// All go on in rounds, so many events from the beginning, if they could begin. That took so long, in microseconds.
    pub(crate) fn share(self, has_begun: bool, events: u64, opening: u64) -> Course {
        match self {
            Course::Alone(alone) if has_begun => {
                Course::Together(Together::new(alone, events, opening, 0))
            }
            Course::Alone(alone) => Course::Alone(alone.again()),
            Course::Together(_) => self,
        }
    }

    /// One thread goes on alone, which took so long to begin.
    pub(crate) fn go_alone(self, closing: u64) -> Course {
        match self {
            Course::Alone(_) => self,
            Course::Together(together) => Course::Alone(together.go_on_alone(closing)),
        }
    }
}

/// What a clock shows, in microseconds; one that cannot be read stands still.
pub(crate) fn micros(clock: &impl Clock) -> u64 {
    shown(clock.monotonic())
}

/// A time in microseconds.
fn shown(time: io::Result<Duration>) -> u64 {
    match time {
        Ok(time) => u64::try_from(time.as_micros()).unwrap_or(u64::MAX),
        Err(_) => 0,
    }
}
