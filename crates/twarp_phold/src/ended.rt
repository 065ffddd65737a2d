//! Runs of PHOLD that have come to their stop, by whichever engine.

ghost use Rattle.std.specs.Prelude.{ℕ, ◌≡◌, ◌<◌};
ghost use Rattle.tw_phold.specs.Phold.{simulation};
ghost use Rattle.tw_phold.specs.declared.phold.Phold.{Phold as APhold};
ghost use Rattle.tw_sequential.specs.Run.{complete_run};
ghost use Rattle.twarp_phold.specs.Report.{knows};

use tw_phold::{Phold, State};
use tw_rounds::TimeWarp;
use tw_sequential::Sequential;

/// A run of PHOLD.
pub(crate) trait Ended {
    /// Which PHOLD is run.
    ghost phold: { Self → APhold };

    /// The stop that was asked for, in ticks.
    ghost end: { Self → ℕ };

    /// Whether it has come to its stop.
    ghost is_complete: { Self → Type 0 };

    /// The PHOLD that is run.
    fn model(&self) -> &Phold
        ensures { result.now ≡ phold self.now };

    /// The stop that was asked for, in ticks.
    fn stop(&self) -> u64
        ensures { result ≡ end self.now };

    /// What a process knows at the stop.
    fn state(&self, number: u32) -> &State
        requires complete { is_complete self.now }
        requires here { number < (phold self.now).processes }
        ensures { result.now ≡ knows (phold self.now) (end self.now) number };
}

impl Ended for Sequential<'_, Phold> {
    ghost phold = { λ run. run.model };

    ghost end = { λ run. run.stop };

    ghost is_complete = { λ run. run ≡ complete_run (simulation run.model) run.model run.stop };

    fn model(&self) -> &Phold {
        Sequential::model(self)
    }

    fn stop(&self) -> u64 {
        Sequential::stop(self)
    }

    fn state(&self, number: u32) -> &State {
        Sequential::state(self, number)
    }
}

impl Ended for TimeWarp<'_, Phold> {
    ghost phold = { λ run. run.model };

    ghost end = { λ run. run.stop };

    ghost is_complete = { λ run. run.bound ≡ run.stop };

    fn model(&self) -> &Phold {
        TimeWarp::model(self)
    }

    fn stop(&self) -> u64 {
        TimeWarp::stop(self)
    }

    fn state(&self, number: u32) -> &State {
        TimeWarp::state(self, number)
    }
}
