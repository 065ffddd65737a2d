//! What is done for a command line.

ghost use Rattle.std.specs.Prelude.{◌≡◌, false, OnOk};
ghost use Rattle.tw_commands.specs.Output.{Answers};
ghost use Rattle.tw_device.specs.Source.{LosesInput, TakesInput};
ghost use Rattle.twarp_policy.specs.Due.{due_output};

use std::alloc::Global;
use tw_commands::{Cause, Status};
use tw_device::{Sink, Source};
use tw_policy_commands::{safe_io, stable_io};
use tw_policy_options::CommandLine;
use tw_stable::SplitProgress;

/// Does what a command line asks: reads a case from the source and writes the answer that is due to the sink. Each split of
/// a search is told as it is made.
pub(crate) fn perform<R: Source, W: Sink, P: SplitProgress>(
    alloc: Global,
    line: CommandLine,
    source: &mut R,
    sink: &mut W,
    progress: &P,
) -> Result<Status, Cause>
    requires source { R.failed source.old ≡ false }
    requires sink { W.failed sink.old ≡ false }
    ensures answer { Answers result (due_output line) (λ _. ⊥)
        (R.remaining source.old) (W.written sink.old) (W.written sink.new) (R.failed source.new) (W.failed sink.new) }
    ensures read { OnOk result (LosesInput (R.remaining source.old) (R.remaining source.new)) }
    ensures most { TakesInput (R.remaining source.old) (R.remaining source.new) }
{
    match line {
        CommandLine::Safe => safe_io(alloc, source, sink),
        CommandLine::Stable { splits } => stable_io(alloc, splits, progress, source, sink),
    }
}
