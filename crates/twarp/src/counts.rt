//! What is counted of a run, by one thread or by several at the same time. No promise rests on it.

use crossbeam_utils::CachePadded;
use std::alloc::{AllocError, Global};
use std::sync::atomic::{AtomicU64, Ordering};
use tw_model::limits::MOST_WORKERS;
use tw_run::Tally;

/// A number that threads count up together.
#[derive(Default, Drop)]
pub(crate) struct Count {
    number: AtomicU64,
}

impl Count {
    /// The number.
    pub(crate) fn get(&self) -> u64 {
        self.number.load(Ordering::Relaxed)
    }

    /// It becomes this.
    pub(crate) fn set(&self, number: u64) {
        self.number.store(number, Ordering::Relaxed);
    }

    /// So many more.
    pub(crate) fn add(&self, count: u64) {
        self.number.fetch_add(count, Ordering::Relaxed);
    }

    /// It becomes the greater of itself and this one. What it was is answered.
    pub(crate) fn raise(&self, number: u64) -> u64 {
        self.number.fetch_max(number, Ordering::Relaxed)
    }
}

/// What is counted of a run. Times are in nanoseconds, by a clock.
#[derive(Drop)]
pub(crate) struct Counts {
    pub(crate) begun: u64,
    pub(crate) read: Count,
    pub(crate) ran: Count,
    /// How many workers went on together, at most.
    pub(crate) workers: Count,
    pub(crate) stretches_by_one: Count,
    pub(crate) stretches_by_all: Count,
    pub(crate) committed: Count,
    pub(crate) undoing: UndoingCounts,
    pub(crate) bounds: CachePadded<BoundCounts>,
    /// As many as there may be.
    pub(crate) each: Vec<CachePadded<WorkerCounts>>,
}

/// What is counted of the bound, at which all workers look.
#[derive(Default, Drop)]
pub(crate) struct BoundCounts {
    // The greatest so far.
    bound: Count,
    /// How often it rose.
    pub(crate) rises: Count,
}

/// What is counted of what workers have undone, and of what came of that, as `Tally` has it.
#[derive(Default, Drop)]
pub(crate) struct UndoingCounts {
    pub(crate) rollbacks: Count,
    pub(crate) longest: Count,
    pub(crate) antimessages: Count,
    pub(crate) matched: Count,
    pub(crate) annihilated_pending: Count,
    pub(crate) annihilated_kept: Count,
    pub(crate) moved: Count,
}

/// What is counted of a worker.
#[derive(Default, Drop)]
pub(crate) struct WorkerCounts {
    pub(crate) handled: Count,
    pub(crate) undone: Count,
    pub(crate) meetings: Count,
    pub(crate) naps: Count,
    /// Since when it waits, in nanoseconds.
    pub(crate) since: Count,
    /// And how long it has waited before.
    pub(crate) waited: Count,
}

impl Counts {
    /// Nothing is counted yet of what begins at this time.
    pub(crate) fn new(alloc: Global, begun: u64) -> Result<Counts, AllocError> {
        Ok(Counts {
            begun,
            read: Count::default(),
            ran: Count::default(),
            workers: Count::default(),
            stretches_by_one: Count::default(),
            stretches_by_all: Count::default(),
            committed: Count::default(),
            undoing: UndoingCounts::default(),
            bounds: CachePadded::default(),
            each: (0..MOST_WORKERS)
                .map(|_| CachePadded::default())
                .collect(alloc)?,
        })
    }

    /// What workers have handled is given up, as if it were undone.
    pub(crate) fn give_up(&self) {
        for worker in &self.each {
            worker.undone.set(worker.handled.get());
        }
    }

    /// What all workers have together of a number.
    fn sum<F: Fn(&WorkerCounts) -> u64>(&self, number: F) -> u64
        requires { F.IsAlwaysCallable number }
    {
        let mut sum: u64 = 0;
        for worker in &self.each {
            sum = sum.saturating_add(number(worker));
        }
        sum
    }

    /// How many events workers have handled.
    pub(crate) fn handled_by_workers(&self) -> u64 {
        self.sum(|worker| worker.handled.get())
    }

    /// How many events workers have undone.
    pub(crate) fn undone(&self) -> u64 {
        self.sum(|worker| worker.undone.get())
    }

    /// How many events one thread has handled in its stretches: those of the run that workers have not.
    pub(crate) fn handled_alone(&self) -> u64 {
        if self.stretches_by_one.get() == 0 {
            return 0;
        }
        let by_workers = self.handled_by_workers().saturating_sub(self.undone());
        self.committed.get().saturating_sub(by_workers)
    }

    /// How often workers have met the others.
    pub(crate) fn meetings(&self) -> u64 {
        self.sum(|worker| worker.meetings.get())
    }

    /// How often workers have slept while they waited.
    pub(crate) fn naps(&self) -> u64 {
        self.sum(|worker| worker.naps.get())
    }
}

impl BoundCounts {
    /// A bound is told. It is counted where it is the greatest so far.
    pub(crate) fn note(&self, bound: u64) {
        if self.bound.get() < bound && self.bound.raise(bound) < bound {
            self.rises.add(1);
        }
    }
}

impl UndoingCounts {
    /// What a worker has undone, and what came of that.
    pub(crate) fn add(&self, tally: &Tally) {
        self.rollbacks.add(tally.rollbacks);
        self.longest.raise(tally.longest);
        self.antimessages.add(tally.antimessages);
        self.matched.add(tally.matched);
        self.annihilated_pending.add(tally.annihilated_pending);
        self.annihilated_kept.add(tally.annihilated_kept);
        self.moved.add(tally.moved);
    }
}
