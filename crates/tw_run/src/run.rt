//! The command `run`: from the text of a case to its report.
ghost use Rattle.std.specs.Prelude.{◌≡◌, ◌<◌, ℕ, false, IfErr, IfOk, IsErrOf, None, OnOk, Some};
ghost use Rattle.tw_commands.specs.Seq.{GetsStuckFor, seq_output, seq_report};
ghost use Rattle.tw_device.specs.Source.{LosesInput, TakesInput};
ghost use Rattle.tw_handlers.specs.Calls.{counter_full};
ghost use Rattle.tw_model.specs.declared.memory.OrMemory.TheVariants as or_memory;
ghost use Rattle.tw_run.specs.Asked.{IsReady};
ghost use Rattle.tw_run.specs.Ran.{HasRunAnew, HasStoppedBy, IsRunBy, IsRunByAny, IsRunOf, MayStop};
ghost use Rattle.tw_run.specs.Threaded.{AnswersThreaded, LeavesThreaded, LeavesThreadedFor};
ghost use Rattle.tw_run.specs.declared.cause.Stopped.TheVariants as stopped;
ghost use Rattle.tw_run.specs.declared.ran.By.TheVariants as by;
ghost use Rattle.tw_seq.specs.Run.{GetsStuck, complete_run};

use crate::cause::Stopped;
use crate::chosen::{Come, run_to_stop};
use crate::dealing::open_dealt;
use crate::ran::{By, Ran, left_by};
use crate::segments::{handled_by, run_through};
use std::alloc::{AllocError, Global};
use std::snapshot::Snapshot;
use std::sync::Wait;
use std::thread::Threads;
use std::time::{Clock, CpuClock};
use tw_commands::{Cause, Progress, Stages, Status, hand_back, refuse, run_on_one_thread};
use tw_device::{Sink, Source, read_all};
use tw_instance::Case;
use tw_model::OrMemory;
use tw_options::Asked;
use tw_parallel::{Gate, Sim};
use tw_report::write_report;
use tw_seq::{CounterFull, TracedRun};
use tw_shape::Verdict;
use tw_text::read_case;

/// Reads a case, runs it to the stop, and writes what `seq_io` writes: the report of the one-thread run, or
/// where and why the text is refused.
///
/// Where a number of workers is told, one at least, that many run the case from its first tick to the stop, each that
/// has routers or messages in a thread; one worker has nobody to meet, and is one thread that runs it as `seq_io` does.
/// Where none is told, one thread begins, and up to four workers go on where a clock tells that they are faster. A worker
/// handles at most `batch` events between two meetings with the others, and what an undone event has sent is taken back
/// at once, or as late as may be. Neither the two numbers nor this, nor which worker has which router, shows in what is
/// written. With `every` the workers come together at checkpoints, and where `observer` asks for it, between them.
pub fn run_io<
    X: Threads + Wait + Sync + Clock + CpuClock,
    R: Source,
    W: Sink,
    O: Progress + Stages + Gate + Sync,
>(
    rt: &X,
    alloc: Global,
    source: &mut R,
    sink: &mut W,
    asked: Asked,
    observer: &O,
) -> Result<Status, Cause>
    requires source { R.failed source.old ≡ false }
    requires sink { W.failed sink.old ≡ false }
    requires ready { IsReady asked }
    ensures answer { AnswersThreaded result (seq_output asked.report) (GetsStuckFor asked.report.stop)
        (R.remaining source.old) (W.written sink.old) (W.written sink.new) (R.failed source.new) (W.failed sink.new) }
    ensures read { OnOk result (LosesInput (R.remaining source.old) (R.remaining source.new)) }
    ensures most { TakesInput (R.remaining source.old) (R.remaining source.new) }
{
    let text = read_all(alloc, source)?;
    let ended = answer_text(rt, alloc, &text, asked, sink, observer);
    hand_back(source, text, &ended);
    ended
}

fn answer_text<
    X: Threads + Wait + Sync + Clock + CpuClock,
    W: Sink,
    O: Progress + Stages + Gate + Sync,
>(
    rt: &X,
    alloc: Global,
    text: &[u8],
    asked: Asked,
    sink: &mut W,
    observer: &O,
) -> Result<Status, Cause>
    requires open { W.failed sink.old ≡ false }
    requires ready { IsReady asked }
    ensures { LeavesThreadedFor text.now result (seq_output asked.report text.now) (GetsStuckFor asked.report.stop text.now)
        (W.written sink.old) (W.written sink.new) (W.failed sink.new) }
{
    match read_case(alloc, text) {
        Ok(case) => answer_case(rt, alloc, &case, asked, sink, observer),
        Err(OrMemory::Fault(fault)) => refuse(sink, fault),
        Err(OrMemory::Memory) => Err(Cause::Memory),
    }
}

/// Runs a case and writes the report.
fn answer_case<
    X: Threads + Wait + Sync + Clock + CpuClock,
    W: Sink,
    O: Progress + Stages + Gate + Sync,
>(
    rt: &X,
    alloc: Global,
    case: &Case,
    asked: Asked,
    sink: &mut W,
    observer: &O,
) -> Result<Status, Cause>
    requires open { W.failed sink.old ≡ false }
    requires ready { IsReady asked }
    ensures { LeavesThreaded result (seq_report asked.report case.now) (GetsStuck case.now asked.report.stop)
        (W.written sink.old) (W.written sink.new) (W.failed sink.new) }
{
    observer.has_read();
    let ended = run_case(rt, alloc, case, asked, observer);
    observer.ended();
    let ran = ended?;
    observer.has_run(&ran.outcome);
    let verdict = Verdict::of(&ran.outcome, ran.found);
    let log = asked.report.log;
    write_report(sink, case.instance(), &ran.outcome, verdict, log)?;
    Ok(Status::Done)
}

/// Runs a case to the stop: by as many workers as were told, where that is more than one, since one worker has nobody to
/// meet, and is one thread. Where none were told, the program chooses.
fn run_case<'a, X: Threads + Wait + Sync + Clock + CpuClock, O: Progress + Stages + Gate + Sync>(
    rt: &X,
    alloc: Global,
    case: &'a Case,
    asked: Asked,
    observer: &O,
) -> Result<Ran<'a>, Stopped<CounterFull>>
    requires ready { IsReady asked }
    ensures ran { IfOk result (λ ran. IsRunOf case.now asked ran) }
    ensures by_workers { (n : ℕ) → asked.workers ≡ Some n → 1 < n → IfOk result (λ ran. IsRunBy case.now asked n ran.by) }
    ensures alone { asked.workers ≡ Some 1 → IfOk result (λ ran. ran.by ≡ by.OneThread) }
    ensures stopped { IfErr result (λ why. MayStop case.now asked why) }
{
    match asked.workers {
        None => Ok(run_chosen(rt, alloc, case, asked, observer)?),
        Some(workers) if workers > 1 => run_by_all(rt, alloc, case, asked, workers, observer),
        Some(_) => Ok(run_alone(alloc, case, asked, observer)?),
    }
}

/// Runs a case to the stop by one thread or by several workers, as its policy chooses; by one thread where checkpoints or
/// the events are asked for, since a check of shapes, or writing events, takes longer than what workers could spare.
fn run_chosen<'a, X: Threads + Wait + Sync + Clock + CpuClock, O: Progress + Stages + Gate + Sync>(
    rt: &X,
    alloc: Global,
    case: &'a Case,
    asked: Asked,
    observer: &O,
) -> Result<Ran<'a>, OrMemory<CounterFull>>
    requires ready { IsReady asked }
    ensures ran { IfOk result (λ ran. IsRunOf case.now asked ran) }
    ensures by { IfOk result (λ ran. IsRunByAny case.now asked ran.by) }
    ensures full { IsErrOf result (or_memory.Fault counter_full) → GetsStuck case.now asked.report.stop }
{
    if asked.report.every.is_some() || asked.report.log {
        return run_alone(alloc, case, asked, observer);
    }
    match run_to_stop(rt, alloc, case, asked, observer)? {
        Come::Alone(run) => Ok(left_at_stop(case, asked, &run)?),
        Come::ByAll(sim) => Ok(left_by(sim, None, asked.report.log)?),
        Come::Ended => {
            observer.begins_anew();
            run_alone(alloc, case, asked, observer)
        }
    }
}

/// What a run of the case on one thread leaves that has come to the stop. Its events are not listed, and nothing was
/// found on the way.
fn left_at_stop<'a>(case: &Case, asked: Asked, run: &TracedRun<'_>) -> Result<Ran<'a>, AllocError>
    requires complete { run.now.run ≡ complete_run case.now asked.report.stop }
    requires log { asked.report.log ≡ false }
    requires every { asked.report.every ≡ None }
    ensures ran { IfOk result (λ ran. IsRunOf case.now asked ran) }
    ensures by { IfOk result (λ ran. ran.by ≡ by.OneThread) }
{
    let outcome = run.run().outcome_without_events()?;
    Ok(Ran {
        outcome,
        found: None,
        by: By::OneThread,
    })
}

/// Runs a case to the stop by so many workers, and on one thread only where these have met a full counter.
fn run_by_all<'a, X: Threads + Wait + Sync, O: Progress + Stages + Gate + Sync>(
    rt: &X,
    alloc: Global,
    case: &'a Case,
    asked: Asked,
    workers: u32,
    observer: &O,
) -> Result<Ran<'a>, Stopped<CounterFull>>
    requires ready { IsReady asked }
    requires some { 0 < workers }
    ensures ran { IfOk result (λ ran. IsRunOf case.now asked ran) }
    ensures by { IfOk result (λ ran. IsRunBy case.now asked workers ran.by) }
    ensures full { IsErrOf result (stopped.Full counter_full) → GetsStuck case.now asked.report.stop }
{
    match run_by_workers(rt, alloc, case, asked, workers, observer) {
        Ok(ran) => Ok(ran),
        Err(Stopped::Full(sim)) => Ok(run_anew(alloc, case, asked, sim, observer)?),
        Err(Stopped::Memory) => Err(Stopped::Memory),
        Err(Stopped::NoThread) => Err(Stopped::NoThread),
    }
}

/// Runs a case to the stop by so many workers.
fn run_by_workers<'a, X: Threads + Wait + Sync, O: Progress + Stages + Gate + Sync>(
    rt: &X,
    alloc: Global,
    case: &'a Case,
    asked: Asked,
    workers: u32,
    observer: &O,
) -> Result<Ran<'a>, Stopped<Sim<'a>>>
    requires ready { IsReady asked }
    requires some { 0 < workers }
    ensures ran { IfOk result (λ ran. IsRunOf case.now asked ran) }
    ensures by { IfOk result (λ ran. IsRunBy case.now asked workers ran.by) }
    ensures stopped { IfErr result (λ why. HasStoppedBy case.now asked workers why) }
{
    let sim = open_dealt(alloc, case, workers, asked)?;
    let (sim, found) = run_through(rt, alloc, sim, asked, observer)?;
    let _ = observer.reached(asked.report.stop, asked.report.stop, handled_by(&sim));
    Ok(left_by(sim, found, asked.report.log)?)
}

/// Runs a case to the stop on one thread, where workers have met a full counter and stand so: they run ahead, and may
/// meet it where the one-thread run never comes to it.
fn run_anew<'a, O: Progress + Stages>(
    alloc: Global,
    case: &'a Case,
    asked: Asked,
    sim: Sim<'a>,
    observer: &O,
) -> Result<Ran<'a>, OrMemory<CounterFull>>
    requires ready { IsReady asked }
    ensures ran { IfOk result (λ ran. IsRunOf case.now asked ran) }
    ensures by { IfOk result (λ ran. HasRunAnew sim.entry ran.by) }
    ensures full { IsErrOf result (or_memory.Fault counter_full) → GetsStuck case.now asked.report.stop }
{
    observer.begins_anew();
    let ran = run_alone(alloc, case, asked, observer)?;
    Ok(Ran {
        by: By::OneThreadAfter(Snapshot::of(&sim)),
        ..ran
    })
}

/// Runs a case to the stop on one thread.
fn run_alone<'a, O: Progress + Stages>(
    alloc: Global,
    case: &'a Case,
    asked: Asked,
    observer: &O,
) -> Result<Ran<'a>, OrMemory<CounterFull>>
    requires ready { IsReady asked }
    ensures ran { IfOk result (λ ran. IsRunOf case.now asked ran) }
    ensures by { IfOk result (λ ran. ran.by ≡ by.OneThread) }
    ensures full { IsErrOf result (or_memory.Fault counter_full) → GetsStuck case.now asked.report.stop }
{
    observer.goes_alone();
    let (outcome, found) = run_on_one_thread(alloc, case, asked.report, observer)?;
    Ok(Ran {
        outcome,
        found,
        by: By::OneThread,
    })
}
