//! A run on one thread that tells how far it is.

ghost use Rattle.std.specs.Prelude.{◌≡◌, ◌<◌, IfSome};

use crate::progress::Progress;
use std::alloc::AllocError;
use tw_handlers::CounterFull;
use tw_model::OrMemory;
use tw_seq::Running;
use tw_shape::Shape;

/// A run that goes on in pieces, and tells between them how far it is. What it does is what the run does that it has.
#[derive(Drop)]
pub struct Told<'p, R: Drop, P> {
    run: R,
    progress: &'p P,
    stop: u64,
    time: u64,
    due: u64,
}

impl<'p, R: Running + Drop, P: Progress> Told<'p, R, P> {
    /// A run at its beginning, which is on its way to a stop, in ticks.
    pub fn new(run: R, stop: u64, progress: &'p P) -> Told<'p, R, P>
        ensures { result.run ≡ run }
    {
        Told {
            run,
            progress,
            stop,
            time: 0,
            due: 0,
        }
    }

    /// The run, once more told how far it has come.
    pub fn into_run(self) -> R
        ensures { result ≡ self.entry.run }
    {
        let _ = self.tell();
        self.run
    }

    /// Tells how far the run is, and answers after how many ticks it is to be told again.
    fn tell(&self) -> u64 {
        self.progress
            .reached(self.time, self.stop, self.run.count_events())
    }

    /// Where the next piece ends, if it ends before a time, in ticks. It tells how far the run is where that is due.
    fn next_end(&mut self, before: u64) -> Option<u64>
        ensures run { self.new.run ≡ self.old.run }
        ensures time { self.new.time ≡ self.old.time }
        ensures after { IfSome result (λ end. self.old.time < end) }
        ensures before { IfSome result (λ end. end < before) }
    {
        if self.due <= self.time {
            self.due = self.time.saturating_add(self.tell().max(1));
        }
        if self.due < before {
            Some(self.due)
        } else {
            None
        }
    }
}

impl<R: Running + Drop, P: Progress> Running for Told<'_, R, P> {
    ghost run = { λ told. R.run told.run };

    fn run_to(&mut self, stop: u64) -> Result<(), OrMemory<CounterFull>> {
        while let Some(end) = self.next_end(stop) {
            if self.run.run_to(end).is_err() {
                // The same comes of the last piece, which is told the stop that was asked for.
                break;
            }
            self.time = end;
        }
        self.time = stop;
        self.run.run_to(stop)
    }

    fn count_events(&self) -> u64 {
        self.run.count_events()
    }

    fn shape(&self) -> Result<Shape, AllocError> {
        self.run.shape()
    }
}
