//! The command `replay`: steps of the Time Warp machine.

ghost use Rattle.std.specs.Prelude.{◌≡◌, ◌≤◌, ◌<◌, false, OnOk};
ghost use Rattle.tw_commands.specs.Output.{Answers, Leaves};
ghost use Rattle.tw_commands.specs.Replay.{replay_output, steps_replay};
ghost use Rattle.tw_device.specs.Source.{LosesInput, TakesInput};
ghost use Rattle.tw_model.specs.declared.limits.TheConstants.{LATEST};

use crate::cause::{Cause, Status};
use crate::command::{Command, answer_io};
use crate::input::Script;
use crate::played::play;
use std::alloc::Global;
use tw_device::{Sink, Source};
use tw_options::Machine;
use tw_report::write_replay;

/// The command `replay`: takes steps of the Time Warp machine of a case.
impl Command for Machine {
    type Input = Script;

    ghost ready = { λ machine. (machine.stop ≤ LATEST) × (0 < machine.workers) };

    ghost output = { λ machine script. steps_replay machine.stop machine.cancel script };

    ghost stuck = { λ _ _. ⊥ };

    fn answer<W: Sink>(
        &self,
        alloc: Global,
        script: &Script,
        sink: &mut W,
    ) -> Result<Status, Cause> {
        let replay = play(alloc, script.case(), script.steps(), *self)?;
        write_replay(sink, script.case().instance(), &replay)?;
        Ok(Status::Done)
    }
}

/// Reads a case and steps, takes these steps of the Time Warp machine of the case, to the stop, with the routers dealt out
/// to so many workers, one at least; and writes whether each step was done or why it was refused, and what the machine is
/// then. Writes a refusal where the text is refused. What an undone event has sent is taken back at once, or as late as may
/// be; then the counts tell how much is held.
///
/// What is written does not depend on the number of workers.
pub fn replay_io<R: Source, W: Sink>(
    alloc: Global,
    source: &mut R,
    sink: &mut W,
    machine: Machine,
) -> Result<Status, Cause>
    requires source { R.failed source.old ≡ false }
    requires sink { W.failed sink.old ≡ false }
    requires stop { machine.stop ≤ LATEST }
    requires workers { 0 < machine.workers }
    ensures answer { Answers result (replay_output machine.stop machine.cancel) (λ _. ⊥)
        (R.remaining source.old) (W.written sink.old) (W.written sink.new) (R.failed source.new) (W.failed sink.new) }
    ensures read { OnOk result (LosesInput (R.remaining source.old) (R.remaining source.new)) }
    ensures most { TakesInput (R.remaining source.old) (R.remaining source.new) }
{
    answer_io(alloc, &machine, source, sink)
}
