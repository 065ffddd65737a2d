//! The command `seq`: a run on one thread, and its report.

ghost use Rattle.std.specs.Prelude.{◌≡◌, ◌≤◌, ◌<◌, false, IfOk, IfSome, IsErrOf, OnOk};
ghost use Rattle.tw_commands.specs.Output.{Answers, Leaves};
ghost use Rattle.tw_commands.specs.Seq.{GetsStuckFor, found_to, seq_output, seq_report, shown};
ghost use Rattle.tw_device.specs.Source.{LosesInput, TakesInput};
ghost use Rattle.tw_handlers.specs.Calls.{counter_full};
ghost use Rattle.tw_model.specs.declared.limits.TheConstants.{LATEST};
ghost use Rattle.tw_model.specs.declared.memory.OrMemory.TheVariants as or_memory;
ghost use Rattle.tw_model.specs.Summary.{summary_of};
ghost use Rattle.tw_seq.specs.Outcome.{outcome_of};
ghost use Rattle.tw_seq.specs.Run.{GetsStuck, complete_run, opening_run};

use crate::cause::{Cause, Status};
use crate::command::{Command, answer_io};
use crate::progress::Progress;
use crate::stages::Stages;
use crate::told::Told;
use std::alloc::Global;
use tw_device::{Sink, Source};
use tw_instance::Case;
use tw_model::{OrMemory, Outcome};
use tw_options::Report;
use tw_report::write_report;
use tw_seq::{CounterFull, LoggedRun, OneThread, Running, run_watched};
use tw_shape::{Finding, Verdict};

/// The command `seq`: runs a case on one thread to the stop and reports the run.
#[derive(Drop)]
struct Seq<'o, O> {
    report: Report,
    observer: &'o O,
}

impl<O: Progress + Stages> Command for Seq<'_, O> {
    type Input = Case;

    ghost ready = { λ seq. (seq.report.stop ≤ LATEST) × IfSome seq.report.every (λ every. (0 < every) × (every ≤ LATEST)) };

    ghost output = { λ seq case. seq_report seq.report case };

    ghost stuck = { λ seq case. GetsStuck case seq.report.stop };

    fn answer<W: Sink>(&self, alloc: Global, case: &Case, sink: &mut W) -> Result<Status, Cause> {
        let Seq { report, observer } = *self;
        observer.has_read();
        observer.goes_alone();
        let ran = run_on_one_thread(alloc, case, report, observer);
        observer.ended();
        let (outcome, found) = ran?;
        observer.has_run(&outcome);
        let verdict = Verdict::of(&outcome, found);
        write_report(sink, case.instance(), &outcome, verdict, report.log)?;
        Ok(Status::Done)
    }
}

/// What a run on one thread to the stop leaves, with its events where `log` says so, and what was found at its checkpoints,
/// the multiples of `every`.
///
/// It is refused as `CounterFull` where the run gets stuck before the stop, since a counter of a router would
/// pass its limit.
pub fn run_on_one_thread<P: Progress>(
    alloc: Global,
    case: &Case,
    report: Report,
    progress: &P,
) -> Result<(Outcome, Option<Finding>), OrMemory<CounterFull>>
    requires stop { report.stop ≤ LATEST }
    requires every { IfSome report.every (λ n. (0 < n) × (n ≤ LATEST)) }
    ensures outcome { IfOk result (λ left. summary_of left.0 ≡ shown report.log (outcome_of (complete_run case.now report.stop))) }
    ensures found { IfOk result (λ left. left.1 ≡ found_to case.now report.stop report.every) }
    ensures full { IsErrOf result (or_memory.Fault counter_full) → GetsStuck case.now report.stop }
{
    if report.log {
        let (run, found) = run_told(alloc, LoggedRun::new(alloc, case)?, report, progress)?;
        Ok((run.into_outcome()?, found))
    } else {
        let (run, found) = run_told(alloc, OneThread::new(alloc, case)?, report, progress)?;
        Ok((run.outcome_without_events()?, found))
    }
}

/// The run at the stop, having told how far it was, and what was found at the checkpoints.
fn run_told<R: Running + Drop, P: Progress>(
    alloc: Global,
    run: R,
    report: Report,
    progress: &P,
) -> Result<(R, Option<Finding>), OrMemory<CounterFull>>
    requires opening { R.run run ≡ opening_run (R.run run).case }
    requires stop { report.stop ≤ LATEST }
    requires every { IfSome report.every (λ n. (0 < n) × (n ≤ LATEST)) }
    ensures ok { IfOk result (λ left. R.run left.0 ≡ complete_run (R.run run).case report.stop) }
    ensures found { IfOk result (λ left. left.1 ≡ found_to (R.run run).case report.stop report.every) }
    ensures full { IsErrOf result (or_memory.Fault counter_full) → GetsStuck (R.run run).case report.stop }
{
    let mut told = Told::new(run, report.stop, progress);
    let found = run_to_stop(alloc, &mut told, report)?;
    Ok((told.into_run(), found))
}

/// Runs to the stop, and answers what was found at the checkpoints, the multiples of `every`.
fn run_to_stop<R: Running>(
    alloc: Global,
    run: &mut R,
    report: Report,
) -> Result<Option<Finding>, OrMemory<CounterFull>>
    requires opening { R.run run.old ≡ opening_run (R.run run.old).case }
    requires stop { report.stop ≤ LATEST }
    requires every { IfSome report.every (λ n. (0 < n) × (n ≤ LATEST)) }
    ensures ok { OnOk result (R.run run.new ≡ complete_run (R.run run.old).case report.stop) }
    ensures found { IfOk result (λ found. found ≡ found_to (R.run run.old).case report.stop report.every) }
    ensures full { IsErrOf result (or_memory.Fault counter_full) → GetsStuck (R.run run.old).case report.stop }
{
    match report.every {
        Some(every) => Ok(run_watched(alloc, run, report.stop, every)?.finding()),
        None => {
            run.run_to(report.stop)?;
            Ok(None)
        }
    }
}

/// Reads a case, runs it on one thread to the stop, and writes the report of that run, with a line for each event where
/// `log` says so; or writes where and why the text is refused.
///
/// Where `every` is given, the verdict says from when and with which period the run repeats, if two checkpoints show it; the
/// checkpoints are the multiples of `every`. The observer is told each stage of the run as it is reached, and how far it is.
pub fn seq_io<R: Source, W: Sink, O: Progress + Stages>(
    alloc: Global,
    source: &mut R,
    sink: &mut W,
    report: Report,
    observer: &O,
) -> Result<Status, Cause>
    requires source { R.failed source.old ≡ false }
    requires sink { W.failed sink.old ≡ false }
    requires stop { report.stop ≤ LATEST }
    requires every { IfSome report.every (λ n. (0 < n) × (n ≤ LATEST)) }
    ensures answer { Answers result (seq_output report) (GetsStuckFor report.stop)
        (R.remaining source.old) (W.written sink.old) (W.written sink.new) (R.failed source.new) (W.failed sink.new) }
    ensures read { OnOk result (LosesInput (R.remaining source.old) (R.remaining source.new)) }
    ensures most { TakesInput (R.remaining source.old) (R.remaining source.new) }
{
    answer_io(alloc, &Seq { report, observer }, source, sink)
}
