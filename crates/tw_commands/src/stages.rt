//! What is told of a run's course, for people who look at it.

ghost use Rattle.std.specs.Prelude.{◌≡◌};
ghost use Rattle.std.specs.List.{sum_by};

use crate::progress::Untold;
use tw_model::Outcome;

/// What is told of the course of a run, stage by stage. No promise rests on it.
pub trait Stages {
    /// The case is read, and its run begins.
    fn has_read(&self) {}

    /// One thread goes on for a stretch.
    fn goes_alone(&self) {}

    /// So many workers go on together for a stretch.
    fn goes_by_all(&self, _workers: u32) {}

    /// The run begins anew: what workers have handled is given up.
    fn begins_anew(&self) {}

    /// The run has come to its stop, and leaves this.
    fn has_run(&self, _outcome: &Outcome) {}
}

impl Stages for Untold {}

/// How many events a run has handled that leaves this.
pub fn count_committed(outcome: &Outcome) -> u128
    ensures { result ≡ sum_by (λ end. end.counters.handled) outcome.now.routers.items }
{
    let mut count = 0_u128;
    for end in outcome.routers.as_slice() {
        count += u128::from(end.counters.handled);
    }
    count
}
