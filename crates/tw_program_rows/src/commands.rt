//! The command `run` by threads: what it writes, and what it tells of its workers.

ghost use Rattle.std.specs.Prelude.{◌≡◌, false};

use crate::devices::{AMPLE, ShortPage, Tape};
use crate::texts::DISAGREE_LOG;
use std::alloc::Global;
use std::sync::Wait;
use std::sync::atomic::{AtomicU64, Ordering};
use std::thread::Threads;
use std::time::{Clock, CpuClock};
use tw_commands::{Cause, Progress, Stages, Status, count_committed};
use tw_model::Outcome;
use tw_rows::reports::TO_20;
use tw_rows::texts::DISAGREE;
use tw_run::{Asked, Gate, Report, Seat, Tally, run_io};
use tw_sim::Cancel;

/// What is told of a run.
#[derive(Default, Drop)]
struct Told {
    workers: AtomicU64,
    handled: AtomicU64,
    undone: AtomicU64,
    committed: AtomicU64,
}

impl Told {
    /// Whether two workers went on, committed so many events, and undid all others that they handled.
    fn is_of_two(&self, events: u64) -> bool {
        let handled = self.handled.load(Ordering::SeqCst);
        let undone = self.undone.load(Ordering::SeqCst);
        self.workers.load(Ordering::SeqCst) == 2
            && self.committed.load(Ordering::SeqCst) == events
            && handled.checked_sub(undone) == Some(events)
    }
}

impl Progress for Told {
    fn reached(&self, _time: u64, _stop: u64, _events: u64) -> u64 {
        // It is told after each tick.
        1
    }

    fn ended(&self) {}
}

impl Stages for Told {
    fn goes_by_all(&self, workers: u32) {
        self.workers.store(u64::from(workers), Ordering::SeqCst);
    }

    fn has_run(&self, outcome: &Outcome) {
        if let Ok(committed) = u64::try_from(count_committed(outcome)) {
            self.committed.store(committed, Ordering::SeqCst);
        }
    }
}

impl Gate for Told {
    fn handling<R: Wait>(&self, _rt: &R, _worker: u32, _turn: u64) {}

    fn enter<R: Wait>(&self, _rt: &R, _worker: u32, _turn: u64) {}

    fn turned(&self, _seat: &Seat, _turn: u64) {}

    fn left(&self, _worker: u32, handled: u64, tally: &Tally) {
        self.handled.fetch_add(handled, Ordering::SeqCst);
        self.undone.fetch_add(tally.undone, Ordering::SeqCst);
    }
}

/// How `run` to stop 20 by two workers ends on DISAGREE, with the log on this page.
fn run_by_two<X: Threads + Wait + Sync + Clock + CpuClock>(
    rt: &X,
    alloc: Global,
    page: &mut ShortPage,
    told: &Told,
) -> Result<Status, Cause>
    requires { page.old.failed ≡ false }
{
    let mut tape = Tape::new(DISAGREE.as_bytes(), usize::MAX);
    let asked = Asked {
        report: Report { log: true, ..TO_20 },
        workers: Some(2),
        batch: 64,
        cancel: Cancel::Aggressive,
        blocks: false,
        rotate: false,
    };
    run_io(rt, alloc, &mut tape, page, asked, told)
}

/// Whether `run` by two workers writes the whole log of DISAGREE, and tells that its seven events are committed. It is run
/// once more where memory or a thread was refused and it has written nothing.
fn writes_whole<X: Threads + Wait + Sync + Clock + CpuClock>(rt: &X, alloc: Global) -> bool {
    for _ in 0..2 {
        let Ok(mut page) = ShortPage::new(alloc, AMPLE, AMPLE) else {
            continue;
        };
        let told = Told::default();
        match run_by_two(rt, alloc, &mut page, &told) {
            Err(Cause::Memory | Cause::NoThread) if page.bytes().is_empty() => {}
            ended => {
                return ended == Ok(Status::Done)
                    && page.bytes() == DISAGREE_LOG.as_bytes()
                    && told.is_of_two(7);
            }
        }
    }
    false
}

#[test]
fn a_report_refused_once_is_written_whole_and_told(rt: HostRuntime) {
    assert!(rt; writes_whole(&rt, rt.alloc()));
}
