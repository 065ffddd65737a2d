//! Workers go on to a stop at once, or from checkpoint to checkpoint, all of them in each segment.
ghost use Rattle.std.specs.Prelude.{◌≡◌, ◌≤◌, ◌<◌, ◌/◌, ℕ, false, IfErr, IfOk, IfSome};
ghost use Rattle.tw_exchange.specs.Board.{workers};
ghost use Rattle.tw_commands.specs.Seq.{found_to};
ghost use Rattle.tw_model.specs.declared.limits.TheConstants.{LATEST};
ghost use Rattle.tw_parallel.specs.Settled.{IsSettled};
ghost use Rattle.tw_parallel.specs.Sim.{GoesOn, HasSameOwners, IsSim};
ghost use Rattle.tw_run.specs.Asked.{IsReady};
ghost use Rattle.tw_run.specs.Dealing.{AreDealtAs, AreDealtToAll};
ghost use Rattle.tw_run.specs.Stopped.{HasStopped};
ghost use Rattle.tw_shape.specs.Shape.{shape as shape_at};
ghost use Rattle.tw_shape.specs.Verdict.{finding};

use crate::cause::Stopped;
use crate::dealing::deal;
use std::alloc::{AllocError, Global};
use std::sync::Wait;
use std::thread::Threads;
use tw_commands::{Progress, Stages};
use tw_options::Asked;
use tw_parallel::{Gate, NotSettled, Options, OrMemory, Sim, run_until};
use tw_shape::{Finding, Shape, Watch};

/// The workers of a run, to all of whom its routers are dealt out, go on to a stop, in ticks, which is not before
/// that of the run.
fn run_on<'a, X: Threads + Wait + Sync, O: Stages + Gate + Sync>(
    rt: &X,
    sim: Sim<'a>,
    stop: u64,
    batch: u32,
    observer: &O,
) -> Result<Sim<'a>, Stopped<Sim<'a>>>
    requires all { AreDealtToAll sim }
    requires stop { sim.board.stop ≤ stop }
    requires latest { stop ≤ LATEST }
    ensures settled { IfOk result (λ s. IsSettled s) }
    ensures sim { IfOk result (λ s. IsSim s) }
    ensures goes_on { IfOk result (λ s. GoesOn sim.entry s) }
    ensures owners { IfOk result (λ s. HasSameOwners sim.entry s) }
    ensures stop { IfOk result (λ s. s.board.stop ≡ stop) }
    ensures stopped { IfErr result (λ why. HasStopped sim.entry why) }
{
    observer.goes_by_all(sim.workers());
    match run_until(rt, sim, stop, Options { batch }, observer) {
        Ok(sim) => Ok(sim),
        Err(ended) => Err(Stopped::of(ended)),
    }
}

/// Runs on to a stop, in ticks, which is not before that of the run, the routers dealt out to all workers as they are
/// to be after so many checkpoints. They are dealt so already where they are not to go from worker to worker.
pub(crate) fn run_to<'a, X: Threads + Wait + Sync, O: Stages + Gate + Sync>(
    rt: &X,
    alloc: Global,
    sim: Sim<'a>,
    asked: Asked,
    checkpoints: u64,
    stop: u64,
    observer: &O,
) -> Result<Sim<'a>, Stopped<Sim<'a>>>
    requires some { 0 < workers sim.board }
    requires dealt { asked.rotate ≡ false → AreDealtAs asked checkpoints sim }
    requires checkpoints { checkpoints ≤ LATEST }
    requires stop { sim.board.stop ≤ stop }
    requires latest { stop ≤ LATEST }
    ensures settled { IfOk result (λ s. IsSettled s) }
    ensures sim { IfOk result (λ s. IsSim s) }
    ensures goes_on { IfOk result (λ s. GoesOn sim.entry s) }
    ensures stop { IfOk result (λ s. s.board.stop ≡ stop) }
    ensures dealt { IfOk result (λ s. AreDealtAs asked checkpoints s) }
    ensures stopped { IfErr result (λ why. HasStopped sim.entry why) }
{
    if !asked.rotate {
        return run_on(rt, sim, stop, asked.batch, observer);
    }
    let mut sim = sim;
    deal(alloc, &mut sim, asked, checkpoints)?;
    run_on(rt, sim, stop, asked.batch, observer)
}

/// Does the same in pieces, and tells between them how far the run is on its way to the stop that was asked for.
fn run_in_pieces<'a, X: Threads + Wait + Sync, O: Progress + Stages + Gate + Sync>(
    rt: &X,
    alloc: Global,
    sim: Sim<'a>,
    asked: Asked,
    checkpoints: u64,
    time: u64,
    observer: &O,
) -> Result<Sim<'a>, Stopped<Sim<'a>>>
    requires some { 0 < workers sim.board }
    requires dealt { asked.rotate ≡ false → AreDealtAs asked checkpoints sim }
    requires checkpoints { checkpoints ≤ LATEST }
    requires time { sim.board.stop ≤ time }
    requires latest { time ≤ LATEST }
    ensures settled { IfOk result (λ s. IsSettled s) }
    ensures sim { IfOk result (λ s. IsSim s) }
    ensures goes_on { IfOk result (λ s. GoesOn sim.entry s) }
    ensures stop { IfOk result (λ s. s.board.stop ≡ time) }
    ensures dealt { IfOk result (λ s. AreDealtAs asked checkpoints s) }
    ensures stopped { IfErr result (λ why. HasStopped sim.entry why) }
{
    let mut run = sim;
    while let Some(end) = end_of_piece(&run, time, asked.report.stop, observer) {
        run = run_to(rt, alloc, run, asked, checkpoints, end, observer)?;
    }
    run_to(rt, alloc, run, asked, checkpoints, time, observer)
}

/// Tells how far a run is on its way to a stop, and answers where its next piece ends, if it ends before a time.
fn end_of_piece<O: Progress>(sim: &Sim<'_>, before: u64, stop: u64, observer: &O) -> Option<u64>
    ensures { IfSome result (λ end. (sim.now.board.stop < end) × (end < before)) }
{
    let time = sim.stop();
    let ticks = observer.reached(time, stop, handled_by(sim)).max(1);
    let end = time.saturating_add(ticks);
    if end < before { Some(end) } else { None }
}

/// How many events the workers of a run have handled.
pub(crate) fn handled_by(sim: &Sim<'_>) -> u64 {
    let mut events: u64 = 0;
    for router in 0..sim.case().instance().nodes() {
        events = events.saturating_add(sim.router(router).counters().handled);
    }
    events
}

/// Runs to the stop that was asked for, and answers what was found at the checkpoints. The run is at its beginning.
pub(crate) fn run_through<'a, X: Threads + Wait + Sync, O: Progress + Stages + Gate + Sync>(
    rt: &X,
    alloc: Global,
    sim: Sim<'a>,
    asked: Asked,
    observer: &O,
) -> Result<(Sim<'a>, Option<Finding>), Stopped<Sim<'a>>>
    requires some { 0 < workers sim.board }
    requires dealt { AreDealtAs asked 0 sim }
    requires opening { sim.board.stop ≡ 0 }
    requires ready { IsReady asked }
    ensures settled { IfOk result (λ left. IsSettled left.0) }
    ensures goes_on { IfOk result (λ left. GoesOn sim.entry left.0) }
    ensures stop { IfOk result (λ left. left.0.board.stop ≡ asked.report.stop) }
    ensures dealt { IfOk result (λ left. (checkpoints : ℕ) × AreDealtAs asked checkpoints left.0) }
    ensures found { IfOk result (λ left. left.1 ≡ found_to sim.entry.case asked.report.stop asked.report.every) }
    ensures stopped { IfErr result (λ why. HasStopped sim.entry why) }
{
    match asked.report.every {
        Some(every) => run_watched(rt, alloc, sim, asked, every, observer),
        None => {
            let run = run_in_pieces(rt, alloc, sim, asked, 0, asked.report.stop, observer)?;
            Ok((run, None))
        }
    }
}

/// Runs to the stop that was asked for, and shows a watch the shapes at the multiples of `every` up to it. The run is at
/// its beginning.
///
/// Workers come together at a checkpoint only where something was handled since the one before it, and at none
/// once something is found, since the first finding decides. Going on from there each router has the worker
/// that is due after all the checkpoints so far.
fn run_watched<'a, X: Threads + Wait + Sync, O: Progress + Stages + Gate + Sync>(
    rt: &X,
    alloc: Global,
    sim: Sim<'a>,
    asked: Asked,
    every: u64,
    observer: &O,
) -> Result<(Sim<'a>, Option<Finding>), Stopped<Sim<'a>>>
    requires workers { 0 < workers sim.board }
    requires dealt { AreDealtAs asked 0 sim }
    requires opening { sim.board.stop ≡ 0 }
    requires stop { asked.report.stop ≤ LATEST }
    requires some { 0 < every }
    requires most { every ≤ LATEST }
    ensures settled { IfOk result (λ left. IsSettled left.0) }
    ensures goes_on { IfOk result (λ left. GoesOn sim.entry left.0) }
    ensures stop { IfOk result (λ left. left.0.board.stop ≡ asked.report.stop) }
    ensures dealt { IfOk result (λ left. (checkpoints : ℕ) × AreDealtAs asked checkpoints left.0) }
    ensures found { IfOk result (λ left. left.1 ≡ finding sim.entry.case every (asked.report.stop / every)) }
    ensures stopped { IfErr result (λ why. HasStopped sim.entry why) }
{
    let mut watch = Watch::new(alloc, every)?;
    let last = asked.report.stop / every;
    let mut run = sim;
    let mut seen = 0;
    while seen < last && watch.finding().is_none() {
        let time = (seen + 1) * every;
        run = run_in_pieces(rt, alloc, run, asked, seen, time, observer)?;
        let shape = shape_of(&run)?;
        seen += watch.push(time, shape, last - seen);
    }
    let run = run_in_pieces(rt, alloc, run, asked, seen, asked.report.stop, observer)?;
    Ok((run, watch.finding()))
}

/// The shape of a run that has come to its stop.
fn shape_of(sim: &Sim<'_>) -> Result<Shape, AllocError>
    requires { IsSettled sim.now }
    ensures { IfOk result (λ shape. shape ≡ shape_at sim.now.case sim.now.board.stop) }
{
    match sim.shape() {
        Ok(shape) => Ok(shape),
        Err(OrMemory::Memory) => Err(AllocError),
        Err(OrMemory::Fault(NotSettled)) => unreachable!(),
    }
}
