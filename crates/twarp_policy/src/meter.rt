//! How far a search for stable assignments is, for a person who waits for it. It stands on standard error, and no promise
//! rests on it.

use std::cell::Cell;
use std::time::Clock;
use tw_policy_options::CommandLine;
use tw_stable::SplitProgress;

/// So many nanoseconds are between two lines at least: no second has more than three.
const BETWEEN_LINES: u64 = 334_000_000;

/// Shows how far a search is by a line that is written over again and again, and is gone when the search is over.
#[derive(Drop)]
pub(crate) struct Meter<'r, R> {
    rt: &'r R,
    /// Whether anything is shown.
    is_shown: bool,
    /// How many splits may be made.
    splits: u64,
    /// When a line was due last, in nanoseconds; none is due at the first split.
    due: Cell<Option<u64>>,
    lines: Cell<u64>,
}

impl<'r, R: Clock + Eprint> Meter<'r, R> {
    pub(crate) fn new(rt: &'r R, is_shown: bool, line: CommandLine) -> Meter<'r, R> {
        Meter {
            rt,
            is_shown,
            splits: match line {
                CommandLine::Safe => 0,
                CommandLine::Stable { splits } => splits,
            },
            due: Cell::new(None),
            lines: Cell::new(0),
        }
    }

    /// Whether a line is due, and the first of all splits was made by then.
    fn is_due(&self, now: u64) -> bool {
        let Some(last) = self.due.get() else {
            self.due.set(Some(now));
            return false;
        };
        let is_due = now.saturating_sub(last) >= BETWEEN_LINES;
        if is_due {
            self.due.set(Some(now));
        }
        is_due
    }
}

impl<R: Clock + Eprint> SplitProgress for Meter<'_, R> {
    fn has_split(&self, splits: u64, found: usize) {
        if self.is_shown && self.is_due(nanos(self.rt)) {
            self.lines.set(self.lines.get().saturating_add(1));
            let made = self.splits.saturating_sub(splits);
            // A line that cannot be written is left out.
            let _ = eprint!(self.rt;
                "\r{made} of {} splits: {found} assignments\x1b[K",
                self.splits
            );
        }
    }

    fn ended(&self) {
        if self.lines.get() > 0 {
            let _ = self.rt.eprint("\r\x1b[K");
        }
    }
}

/// What a clock shows, in nanoseconds; a clock that cannot be read stands still.
fn nanos(clock: &impl Clock) -> u64 {
    match clock.monotonic() {
        Ok(time) => u64::try_from(time.as_nanos()).unwrap_or(u64::MAX),
        Err(_) => 0,
    }
}
