//! What is found at checkpoints, and the verdict.

ghost use Rattle.std.specs.Prelude.{◌≡◌};
ghost use Rattle.tw_model.specs.Summary.{summary_of};
ghost use Rattle.tw_shape.specs.Verdict.{verdict_of};

use tw_model::Outcome;

/// A shape that was seen before, with events pending and none of them an opening event: from a time
/// on the run repeats, so it never comes to rest.
#[derive(Clone, Copy, PartialEq, Eq, Debug)]
pub struct Finding {
    /// The earlier time of that shape, in ticks.
    pub from: u64,
    /// How many ticks later it came again.
    pub period: u64,
}

/// What a run came to.
#[derive(Clone, Copy, PartialEq, Eq, Debug)]
pub enum Verdict {
    /// No event is pending; the last event that changed a router's path was at this time, in ticks.
    Quiet(u64),
    /// Events are pending, and the run repeats for ever.
    Oscillates {
        /// From when, in ticks.
        from: u64,
        /// After how many ticks.
        period: u64,
    },
    /// Events are pending, and no checkpoint has shown that the run repeats.
    Undecided,
}

impl Verdict {
    /// The verdict on a run, by what was found at its checkpoints. It is quiet exactly where no event
    /// is pending, those at or past the stop included.
    pub fn of(outcome: &Outcome, found: Option<Finding>) -> Verdict
        ensures { result ≡ verdict_of (summary_of outcome.now) found }
    {
        if outcome.pending.is_empty() {
            return Verdict::Quiet(outcome.last_change);
        }
        match found {
            Some(Finding { from, period }) => Verdict::Oscillates { from, period },
            None => Verdict::Undecided,
        }
    }
}
