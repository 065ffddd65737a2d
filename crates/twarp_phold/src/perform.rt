//! What is done for a command line.

ghost use Rattle.std.specs.Prelude.{◌≡◌, ◌≤◌, false};
ghost use Rattle.tw_phold_options.specs.declared.command_line.By.TheVariants.{OneThread, Rounds, Workers};
ghost use Rattle.tw_process.specs.declared.limits.TheConstants.{LATEST};
ghost use Rattle.twarp_phold.specs.Due.{AsksForPhold, IsRefused, IsReported, Leaves, Reports};
ghost use Rattle.twarp_phold.specs.Report.{report_text};
ghost use Rattle.twarp_phold.specs.declared.cause.Status.TheVariants.{Done};

use crate::cause::{Cause, Status};
use crate::ended::Ended;
use crate::meter::Meter;
use crate::report::{write_refused, write_report};
use crate::tally::Tally;
use std::alloc::Global;
use std::sync::Wait;
use std::thread::Threads;
use std::time::Clock;
use tw_device::Sink;
use tw_phold::Phold;
use tw_phold_options::{By, CommandLine};
use tw_rounds::TimeWarp;
use tw_sequential::Sequential;

/// Does what a command line asks: runs PHOLD, and writes the report that is due, or why there is none. The meter is
/// told when the run has come to its stop.
pub(crate) fn perform<X: Threads + Wait + Clock + Sync, S: Sink, C: Clock>(
    rt: &X,
    alloc: Global,
    line: CommandLine,
    sink: &mut S,
    meter: &Meter<'_, C>,
) -> Result<Status, Cause>
    requires open { S.failed sink.old ≡ false }
    requires stop { line.stop ≤ LATEST }
    ensures done { AsksForPhold line → IsReported line result (S.written sink.old) (S.written sink.new) (S.failed sink.new) }
    ensures refused { (AsksForPhold line → ⊥) → IsRefused result (S.written sink.old) (S.written sink.new) (S.failed sink.new) }
{
    let asked = Phold::new(
        line.processes,
        line.population,
        line.lookahead,
        line.longest,
        line.remote,
        line.seed,
    );
    match asked {
        Some(phold) => report(rt, alloc, &phold, line.by, line.stop, sink, meter),
        None => refuse(sink),
    }
}

/// Runs PHOLD to a stop as it is asked for, and writes its report.
fn report<X: Threads + Wait + Clock + Sync, S: Sink, C: Clock>(
    rt: &X,
    alloc: Global,
    phold: &Phold,
    by: By,
    stop: u64,
    sink: &mut S,
    meter: &Meter<'_, C>,
) -> Result<Status, Cause>
    requires open { S.failed sink.old ≡ false }
    requires stop { stop ≤ LATEST }
    ensures { Reports result by phold.now stop (S.written sink.old) (S.written sink.new) (S.failed sink.new) }
{
    match by {
        By::OneThread => seq(alloc, phold, stop, sink, meter),
        By::Workers(workers) => run(rt, alloc, phold, workers, stop, sink, meter),
        By::Rounds(workers) => run_in_rounds(rt, alloc, phold, workers, stop, sink, meter),
    }
}

/// Runs PHOLD to a stop on one thread, and writes its report.
fn seq<S: Sink, C: Clock>(
    alloc: Global,
    phold: &Phold,
    stop: u64,
    sink: &mut S,
    meter: &Meter<'_, C>,
) -> Result<Status, Cause>
    requires open { S.failed sink.old ≡ false }
    requires stop { stop ≤ LATEST }
    ensures { Reports result OneThread phold.now stop (S.written sink.old) (S.written sink.new) (S.failed sink.new) }
{
    let mut run = Sequential::open(alloc, phold)?;
    run.run_to(stop)?;
    tell(&run, Tally::of_one_thread(run.count_events()), sink, meter)
}

/// Runs PHOLD to a stop by so many workers, and writes its report.
fn run<X: Threads + Wait + Clock + Sync, S: Sink, C: Clock>(
    rt: &X,
    alloc: Global,
    phold: &Phold,
    workers: u32,
    stop: u64,
    sink: &mut S,
    meter: &Meter<'_, C>,
) -> Result<Status, Cause>
    requires open { S.failed sink.old ≡ false }
    requires stop { stop ≤ LATEST }
    ensures { Reports result (Workers workers) phold.now stop (S.written sink.old) (S.written sink.new) (S.failed sink.new) }
{
    let mut run = TimeWarp::open(alloc, phold)?;
    run.run_to(rt, workers, stop)?;
    tell(&run, Tally::of_workers(workers, &run), sink, meter)
}

/// Runs PHOLD to a stop in rounds by so many workers, and writes its report.
fn run_in_rounds<X: Threads + Wait + Sync, S: Sink, C: Clock>(
    rt: &X,
    alloc: Global,
    phold: &Phold,
    workers: u32,
    stop: u64,
    sink: &mut S,
    meter: &Meter<'_, C>,
) -> Result<Status, Cause>
    requires open { S.failed sink.old ≡ false }
    requires stop { stop ≤ LATEST }
    ensures { Reports result (Rounds workers) phold.now stop (S.written sink.old) (S.written sink.new) (S.failed sink.new) }
{
    let mut run = TimeWarp::open(alloc, phold)?;
    run.run_in_rounds(rt, workers, stop)?;
    tell(&run, Tally::of_workers(workers, &run), sink, meter)
}

/// Writes the report of a complete run, which has done this.
fn tell<E: Ended, S: Sink, C: Clock>(
    run: &E,
    tally: Tally,
    sink: &mut S,
    meter: &Meter<'_, C>,
) -> Result<Status, Cause>
    requires open { S.failed sink.old ≡ false }
    requires complete { E.is_complete run.now }
    ensures { Leaves result Done (report_text (E.phold run.now) (E.end run.now)) ⊥ (S.written sink.old) (S.written sink.new) (S.failed sink.new) }
{
    meter.has_run(tally);
    write_report(sink, run)?;
    Ok(Status::Done)
}

/// Writes that a line asks for no PHOLD.
fn refuse<S: Sink>(sink: &mut S) -> Result<Status, Cause>
    requires { S.failed sink.old ≡ false }
    ensures { IsRefused result (S.written sink.old) (S.written sink.new) (S.failed sink.new) }
{
    write_refused(sink)?;
    Ok(Status::Refused)
}
