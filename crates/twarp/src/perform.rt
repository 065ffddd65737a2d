//! What is done for a command line.

ghost use Rattle.std.specs.Prelude.{◌≡◌, false, OnOk};
ghost use Rattle.tw_device.specs.Source.{LosesInput, TakesInput};
ghost use Rattle.twarp.specs.Due.{IsRunnable, Performs};

use std::alloc::Global;
use std::sync::Wait;
use std::thread::Threads;
use std::time::{Clock, CpuClock};
use tw_commands::{
    Cause, Progress, Stages, Status, check_io, replay_io, seq_io, trail_io, upgrade_io,
};
use tw_device::{Sink, Source};
use tw_options::CommandLine;
use tw_run::{Gate, run_io};

/// Does what a command line asks: reads its input from the source and writes the answer that is due
/// to the sink. Of a run the observer is told each stage as it is reached, how far it is, and what each worker does.
pub(crate) fn perform<
    X: Threads + Wait + Sync + Clock + CpuClock,
    R: Source,
    W: Sink,
    O: Progress + Stages + Gate + Sync,
>(
    rt: &X,
    alloc: Global,
    line: CommandLine,
    source: &mut R,
    sink: &mut W,
    observer: &O,
) -> Result<Status, Cause>
    requires line { IsRunnable line }
    requires source { R.failed source.old ≡ false }
    requires sink { W.failed sink.old ≡ false }
    ensures answer { Performs line result
        (R.remaining source.old) (W.written sink.old) (W.written sink.new) (R.failed source.new) (W.failed sink.new) }
    ensures read { OnOk result (LosesInput (R.remaining source.old) (R.remaining source.new)) }
    ensures most { TakesInput (R.remaining source.old) (R.remaining source.new) }
{
    match line {
        CommandLine::Check => check_io(alloc, source, sink),
        CommandLine::Seq(report) => seq_io(alloc, source, sink, report, observer),
        CommandLine::Run(asked) => run_io(rt, alloc, source, sink, asked, observer),
        CommandLine::Trail(trail) => trail_io(alloc, source, sink, trail),
        CommandLine::Replay(machine) => replay_io(alloc, source, sink, machine),
        CommandLine::Upgrade => upgrade_io(alloc, source, sink),
    }
}
