//! The lines of `--stats`. They stand on standard error, behind the report. No promise rests on them.

use crate::counts::Counts;
use std::fmt::{self, Display, Formatter};

/// Parts of a second.
const NANOS: u64 = 1_000_000_000;

/// Of an efficiency so many parts are told.
const PARTS: u128 = 10_000;

/// What was counted of a run, line by line: a name and a number each.
#[derive(Drop)]
pub(crate) struct Figures<'s> {
    pub(crate) counts: &'s Counts,
    /// When the report was written, in nanoseconds.
    pub(crate) ended: u64,
}

impl Display for Figures<'_> {
    fn fmt<W: fmt::Write>(&self, f: &mut Formatter<W>) -> fmt::Result {
        self.put_events(f)?;
        self.put_undoing(f)?;
        self.put_times(f)?;
        self.put_workers(f)
    }
}

impl Figures<'_> {
    /// How many events all have handled.
    fn handled(&self) -> u64 {
        let by_workers = self.counts.handled_by_workers();
        by_workers.saturating_add(self.counts.handled_alone())
    }

    /// Who went on, and what they handled.
    fn put_events<W: fmt::Write>(&self, f: &mut Formatter<W>) -> fmt::Result {
        let counts = self.counts;
        let handled = self.handled();
        let committed = counts.committed.get();
        writeln!(f, "workers {}", counts.workers.get())?;
        writeln!(f, "stretches-by-one {}", counts.stretches_by_one.get())?;
        writeln!(f, "stretches-by-all {}", counts.stretches_by_all.get())?;
        writeln!(f, "handled {handled}")?;
        writeln!(f, "undone {}", counts.undone())?;
        writeln!(f, "committed {committed}")?;
        let efficiency = Efficiency { committed, handled };
        writeln!(f, "efficiency {efficiency}")
    }

    /// What came of what was undone, and how often workers met and waited.
    fn put_undoing<W: fmt::Write>(&self, f: &mut Formatter<W>) -> fmt::Result {
        let counts = self.counts;
        let undoing = &counts.undoing;
        writeln!(f, "rollbacks {}", undoing.rollbacks.get())?;
        writeln!(f, "longest-rollback {}", undoing.longest.get())?;
        writeln!(f, "antimessages {}", undoing.antimessages.get())?;
        writeln!(f, "matched {}", undoing.matched.get())?;
        let pending = undoing.annihilated_pending.get();
        writeln!(f, "annihilated-pending {pending}")?;
        let kept = undoing.annihilated_kept.get();
        writeln!(f, "annihilated-kept {kept}")?;
        writeln!(f, "meetings {}", counts.meetings())?;
        writeln!(f, "bounds {}", counts.bounds.rises.get())?;
        writeln!(f, "naps {}", counts.naps())?;
        writeln!(f, "moved {}", undoing.moved.get())
    }

    /// How long it took.
    fn put_times<W: fmt::Write>(&self, f: &mut Formatter<W>) -> fmt::Result {
        let counts = self.counts;
        let (read, ran) = (counts.read.get(), counts.ran.get());
        let reading = Seconds::between(counts.begun, read);
        let running = Seconds::between(read, ran);
        let writing = Seconds::between(ran, self.ended);
        writeln!(f, "seconds-reading {reading}")?;
        writeln!(f, "seconds-running {running}")?;
        writeln!(f, "seconds-writing {writing}")?;
        let rate = running.rate_of(counts.committed.get());
        writeln!(f, "events-per-second {rate}")
    }

    /// Each worker's share. What one thread handled alone is the first worker's.
    fn put_workers<W: fmt::Write>(&self, f: &mut Formatter<W>) -> fmt::Result {
        let mut alone = self.counts.handled_alone();
        let count = self.counts.workers.get() as usize;
        for (number, worker) in self.counts.each.iter().take(count).enumerate() {
            let handled = worker.handled.get().saturating_add(alone);
            let waited = Seconds::between(0, worker.waited.get());
            writeln!(f, "worker-{number}-handled {handled}")?;
            writeln!(f, "worker-{number}-undone {}", worker.undone.get())?;
            writeln!(f, "worker-{number}-waited {waited}")?;
            alone = 0;
        }
        Ok(())
    }
}

/// Of what was handled, what stays.
#[derive(Clone, Copy)]
struct Efficiency {
    committed: u64,
    handled: u64,
}

impl Display for Efficiency {
    fn fmt<W: fmt::Write>(&self, f: &mut Formatter<W>) -> fmt::Result {
        let all = u128::from(self.handled.max(1));
        let parts = u128::from(self.committed).saturating_mul(PARTS) / all;
        write!(f, "{}.{:04}", parts / PARTS, parts % PARTS)
    }
}

/// A time, in nanoseconds, which is told in seconds.
#[derive(Clone, Copy)]
pub(crate) struct Seconds {
    pub(crate) nanos: u64,
}

impl Seconds {
    /// From a time to a later one.
    fn between(from: u64, to: u64) -> Seconds {
        Seconds {
            nanos: to.saturating_sub(from),
        }
    }

    /// How many of so many events come in a second, on average.
    pub(crate) fn rate_of(self, events: u64) -> u128 {
        let nanos = u128::from(self.nanos.max(1));
        u128::from(events).saturating_mul(u128::from(NANOS)) / nanos
    }
}

impl Display for Seconds {
    fn fmt<W: fmt::Write>(&self, f: &mut Formatter<W>) -> fmt::Result {
        let micros = self.nanos % NANOS / 1_000;
        write!(f, "{}.{micros:06}", self.nanos / NANOS)
    }
}
