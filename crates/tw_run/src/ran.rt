//! What a run leaves at its stop, and who ran it.
ghost use Rattle.std.specs.Prelude.{◌≡◌, true, IfOk};
ghost use Rattle.tw_commands.specs.Seq.{shown};
ghost use Rattle.tw_model.specs.Summary.{summary_of};
ghost use Rattle.tw_parallel.specs.Settled.{IsSettled};
ghost use Rattle.tw_parallel.specs.Sim.{RetainsEvents};
ghost use Rattle.tw_run.specs.Ran.{IsLeftBy};
ghost use Rattle.tw_seq.specs.Outcome.{outcome_of as outcome_of_run};
ghost use Rattle.tw_seq.specs.Run.{complete_run};

use std::alloc::AllocError;
use std::snapshot::Snapshot;
use tw_model::Outcome;
use tw_parallel::{NotSettled, OrMemory, Sim};
use tw_shape::Finding;

/// What a run leaves at its stop, and who ran it.
#[derive(Drop)]
pub(crate) struct Ran<'a> {
    /// What it leaves, with its events where they are to be logged.
    pub(crate) outcome: Outcome,
    /// What was found at its checkpoints.
    pub(crate) found: Option<Finding>,
    pub(crate) by: By<'a>,
}

/// Who ran a case to its stop.
#[derive(Drop)]
pub(crate) enum By<'a> {
    /// One thread.
    OneThread,
    /// Workers, who have come to the stop so.
    Workers(Snapshot<Sim<'a>>),
    /// One thread, since workers met a full counter and stood so: they run ahead, and may meet it where the
    /// one-thread run never comes to it.
    OneThreadAfter(Snapshot<Sim<'a>>),
}

/// What workers leave who have come to their stop, and what was found on the way; the events only where `log` asks for
/// them, which they keep then. It is what the one-thread run leaves.
pub(crate) fn left_by<'a>(
    sim: Sim<'a>,
    found: Option<Finding>,
    log: bool,
) -> Result<Ran<'a>, AllocError>
    requires settled { IsSettled sim }
    requires log { log ≡ true → RetainsEvents sim }
    ensures outcome { IfOk result (λ ran. summary_of ran.outcome ≡ shown log (outcome_of_run (complete_run sim.entry.case sim.entry.board.stop))) }
    ensures found { IfOk result (λ ran. ran.found ≡ found) }
    ensures by { IfOk result (λ ran. IsLeftBy sim.entry ran.by) }
{
    // What a run keeps is told by a read of it.
    let _ = sim.stop();
    match sim.outcome(log) {
        Ok(outcome) => Ok(Ran {
            outcome,
            found,
            by: By::Workers(Snapshot::of(&sim)),
        }),
        Err(OrMemory::Memory) => Err(AllocError),
        Err(OrMemory::Fault(NotSettled)) => unreachable!(),
    }
}
