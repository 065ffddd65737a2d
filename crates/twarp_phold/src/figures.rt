//! What `--stats` tells of a run. It stands on standard error, and no promise rests on it.

use crate::tally::Tally;
use std::fmt::{self, Display, Formatter};
use tw_rounds::Counts;

/// Parts of a second.
const NANOS: u64 = 1_000_000_000;

/// Of an efficiency so many parts are told.
const PARTS: u128 = 10_000;

/// What was counted of a run, line by line: a name and a number each. Times are in nanoseconds.
#[derive(Clone, Copy)]
pub(crate) struct Figures {
    pub(crate) tally: Tally,
    pub(crate) running: u64,
    pub(crate) writing: u64,
}

impl Figures {
    /// How many events were committed in a second of running.
    fn per_second(&self) -> u128 {
        let running = u128::from(self.running.max(1));
        u128::from(self.tally.committed).saturating_mul(u128::from(NANOS)) / running
    }
}

impl Display for Figures {
    fn fmt<W: fmt::Write>(&self, f: &mut Formatter<W>) -> fmt::Result {
        let committed = self.tally.committed;
        writeln!(f, "workers {}", self.tally.workers)?;
        match self.tally.counts {
            Some(counts) => put_counts(f, counts, committed)?,
            None => {
                writeln!(f, "handled {committed}")?;
                writeln!(f, "committed {committed}")?;
            }
        }
        writeln!(f, "seconds-running {}", Seconds(self.running))?;
        writeln!(f, "seconds-writing {}", Seconds(self.writing))?;
        writeln!(f, "events-per-second {}", self.per_second())
    }
}

/// What the processes have done that ran ahead of one another.
fn put_counts<W: fmt::Write>(f: &mut Formatter<W>, counts: Counts, committed: u64) -> fmt::Result {
    let handled = counts.handled;
    writeln!(f, "rounds {}", counts.rounds)?;
    writeln!(f, "handled {handled}")?;
    writeln!(f, "undone {}", handled.saturating_sub(committed))?;
    writeln!(f, "committed {committed}")?;
    writeln!(f, "efficiency {}", Efficiency { committed, handled })?;
    writeln!(f, "messages {}", counts.messages)?;
    writeln!(f, "antimessages {}", counts.antimessages)
}

/// Of what was handled, what stays.
#[derive(Clone, Copy)]
struct Efficiency {
    committed: u64,
    handled: u64,
}

impl Display for Efficiency {
    fn fmt<W: fmt::Write>(&self, f: &mut Formatter<W>) -> fmt::Result {
        let all = u128::from(self.handled.max(1));
        let parts = u128::from(self.committed).saturating_mul(PARTS) / all;
        write!(f, "{}.{:04}", parts / PARTS, parts % PARTS)
    }
}

/// Nanoseconds, told in seconds with six places.
#[derive(Clone, Copy)]
struct Seconds(u64);

impl Display for Seconds {
    fn fmt<W: fmt::Write>(&self, f: &mut Formatter<W>) -> fmt::Result {
        let micros = self.0 % NANOS / 1_000;
        write!(f, "{}.{micros:06}", self.0 / NANOS)
    }
}
