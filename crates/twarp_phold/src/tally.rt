//! What a run has done. No promise rests on it.

use tw_phold::Phold;
use tw_rounds::{Counts, TimeWarp};

/// What a run has done.
#[derive(Clone, Copy, Default)]
pub(crate) struct Tally {
    /// How many threads handled jobs at the same time, at most.
    pub(crate) workers: u32,
    /// How many events the run has.
    pub(crate) committed: u64,
    /// What its processes have done, where they ran ahead of one another.
    pub(crate) counts: Option<Counts>,
}

impl Tally {
    /// Of a run on one thread that has handled so many events.
    pub(crate) fn of_one_thread(events: u64) -> Tally {
        Tally {
            workers: 1,
            committed: events,
            counts: None,
        }
    }

    /// Of a complete run by so many workers.
    pub(crate) fn of_workers(workers: u32, run: &TimeWarp<'_, Phold>) -> Tally {
        let processes = run.model().processes;
        let mut committed: u64 = 0;
        for number in 0..processes {
            committed = committed.saturating_add(run.state(number).handled);
        }
        Tally {
            workers: workers.min(processes),
            committed,
            counts: Some(run.counts()),
        }
    }
}
