//! What is told of a run while it goes on, to people who asked for it. No promise rests on it.

use crate::clock::nanos;
use crate::counts::{Counts, WorkerCounts};
use crate::figures::Figures;
use crate::meter::Meter;
use std::alloc::{AllocError, Global};
use std::sync::Wait;
use std::time::Clock;
use tw_commands::{Progress, Stages, count_committed};
use tw_model::Outcome;
use tw_run::{Gate, Seat, Tally};

const NANOS_OF_A_MICRO: u64 = 1_000;

/// Counts what is done in a run, where `--stats` asks for it, and shows how far it is.
#[derive(Drop)]
pub(crate) struct Observer<'r, R> {
    rt: &'r R,
    counts: Option<Counts>,
    meter: Meter<'r, R>,
}

impl<'r, R: Clock + Eprint> Observer<'r, R> {
    /// Nothing is done yet. Where nobody asks, nothing will be counted, and no memory is taken.
    pub(crate) fn new(
        alloc: Global,
        rt: &'r R,
        asks_stats: bool,
        meter: Meter<'r, R>,
    ) -> Result<Observer<'r, R>, AllocError> {
        let counts = asks_stats
            .then(|| Counts::new(alloc, nanos(rt)))
            .transpose()?;
        Ok(Observer { rt, counts, meter })
    }

    /// What was counted, once the report is written.
    pub(crate) fn figures(&self) -> Option<Figures<'_>> {
        let counts = self.counts.as_ref()?;
        Some(Figures {
            counts,
            ended: nanos(self.rt),
        })
    }

    /// What is counted of a worker.
    fn counts_of(&self, worker: u32) -> Option<&WorkerCounts> {
        let counts = self.counts.as_ref()?;
        let own = counts.each.get(worker as usize)?;
        Some(own)
    }
}

impl<R: Clock + Eprint> Stages for Observer<'_, R> {
    fn has_read(&self) {
        if let Some(counts) = &self.counts {
            counts.read.set(nanos(self.rt));
        }
    }

    fn goes_alone(&self) {
        if let Some(counts) = &self.counts {
            counts.workers.raise(1);
            counts.stretches_by_one.add(1);
        }
    }

    fn goes_by_all(&self, workers: u32) {
        if let Some(counts) = &self.counts {
            counts.workers.raise(u64::from(workers));
            counts.stretches_by_all.add(1);
        }
    }

    fn begins_anew(&self) {
        if let Some(counts) = &self.counts {
            counts.give_up();
        }
    }

    fn has_run(&self, outcome: &Outcome) {
        if let Some(counts) = &self.counts {
            counts.ran.set(nanos(self.rt));
            let committed = u64::try_from(count_committed(outcome));
            counts.committed.set(committed.unwrap_or(u64::MAX));
        }
    }
}

impl<R: Clock + Eprint> Gate for Observer<'_, R> {
    fn handling<X: Wait>(&self, _rt: &X, _worker: u32, _turn: u64) {}

    fn micros(&self) -> Option<u64> {
        Some(nanos(self.rt) / NANOS_OF_A_MICRO)
    }

    fn waiting(&self, worker: u32) {
        if let Some(counts) = self.counts_of(worker) {
            counts.since.set(nanos(self.rt));
        }
    }

    fn waited(&self, worker: u32, naps: u32) {
        if let Some(counts) = self.counts_of(worker) {
            let now = nanos(self.rt);
            counts.waited.add(now.saturating_sub(counts.since.get()));
            counts.naps.add(u64::from(naps));
        }
    }

    fn enter<X: Wait>(&self, _rt: &X, _worker: u32, _turn: u64) {}

    fn turned(&self, seat: &Seat, _turn: u64) {
        if let Some(counts) = &self.counts {
            counts.bounds.note(seat.bound());
        }
        if let Some(counts) = self.counts_of(seat.worker()) {
            counts.meetings.add(1);
        }
    }

    fn left(&self, worker: u32, handled: u64, tally: &Tally) {
        if let Some(counts) = &self.counts {
            counts.undoing.add(tally);
        }
        if let Some(counts) = self.counts_of(worker) {
            counts.handled.add(handled);
            counts.undone.add(tally.undone);
        }
    }
}

impl<R: Clock + Eprint> Progress for Observer<'_, R> {
    fn reached(&self, time: u64, stop: u64, events: u64) -> u64 {
        self.meter.reached(time, stop, events)
    }

    fn ended(&self) {
        self.meter.ended();
    }
}
