//! A run that is told no number of workers: it begins on one thread, and goes on by several where a clock tells that
//! these are faster. Both take it over where the other has come to a time with all events before it.
ghost use Rattle.std.specs.Prelude.{◌≡◌, ◌≤◌, ◌<◌, ℕ, false, IfErr, IfOk, IfSome, IsErrOf};
ghost use Rattle.tw_handlers.specs.Calls.{counter_full};
ghost use Rattle.tw_model.specs.declared.limits.TheConstants.{LATEST};
ghost use Rattle.tw_model.specs.declared.memory.OrMemory.TheVariants as or_memory;
ghost use Rattle.tw_pace.specs.declared.pace.TheConstants.{MOST_WORKERS_CHOSEN};
ghost use Rattle.tw_run.specs.Asked.{IsReady};
ghost use Rattle.tw_run.specs.Ran.{HasComeTo, IsComeTo, IsTried};
ghost use Rattle.tw_seq.specs.Run.{GetsStuck, complete_run};

use crate::dealing::owners;
use crate::laps::{go_on_to, micros};
use crate::segments::{handled_by, run_to};
use crate::sounding::{Sounded, sound};
use std::alloc::Global;
use std::sync::Wait;
use std::thread::Threads;
use std::time::{Clock, CpuClock};
use tw_commands::{Progress, Stages};
use tw_instance::Case;
use tw_model::OrMemory;
use tw_options::Asked;
use tw_pace::{Alone, Course, MOST_WORKERS_CHOSEN};
use tw_parallel::{Gate, Sim};
use tw_seq::{CounterFull, Running, TracedRun};

/// Tells how far a run is on its way to a stop, in ticks.
#[derive(Drop)]
struct Teller<'o, O> {
    observer: &'o O,
    stop: u64,
    due: u64,
}

impl<O: Progress> Teller<'_, O> {
    /// Whether it is to be told that the run has come to a time, in ticks.
    fn is_due(&self, time: u64) -> bool {
        self.due <= time
    }

    /// The run has come to a time, in ticks, and handled so many events.
    fn tell(&mut self, time: u64, events: u64) {
        let ticks = self.observer.reached(time, self.stop, events);
        self.due = time.saturating_add(ticks);
    }
}

/// A run that has come to its stop.
#[derive(Drop)]
pub(crate) enum Come<'a> {
    /// On one thread.
    Alone(TracedRun<'a>),
    /// By several workers.
    ByAll(Sim<'a>),
    /// It has not: workers ended before.
    Ended,
}

/// What became of workers that were tried.
#[derive(Drop)]
enum Tried<'a> {
    /// They have come to the stop.
    Come(Sim<'a>),
    /// One thread goes on from where they have come.
    Over(TracedRun<'a>, Alone),
    /// They ended before their stop.
    Ended,
}

/// Runs a case to the stop on one thread, or by several workers while these are faster.
pub(crate) fn run_to_stop<
    'a,
    X: Threads + Wait + Sync + Clock + CpuClock,
    O: Progress + Stages + Gate + Sync,
>(
    rt: &X,
    alloc: Global,
    case: &'a Case,
    asked: Asked,
    observer: &O,
) -> Result<Come<'a>, OrMemory<CounterFull>>
    requires ready { IsReady asked }
    requires log { asked.report.log ≡ false }
    ensures come { IfOk result (λ come. IsComeTo case.now asked come) }
    ensures full { IsErrOf result (or_memory.Fault counter_full) → GetsStuck case.now asked.report.stop }
{
    let mut run = TracedRun::new(alloc, case, false)?;
    let mut alone = Alone::new();
    let mut teller = Teller {
        observer,
        stop: asked.report.stop,
        due: 0,
    };
    while alone.ticks < asked.report.stop {
        alone = go_on_alone(rt, &mut run, asked.report.stop, alone, &mut teller)?;
        if alone.ticks < asked.report.stop {
            match try_where_free(rt, alloc, run, asked, alone, &mut teller)? {
                Tried::Come(sim) => return Ok(Come::ByAll(sim)),
                Tried::Over(later, from) => {
                    run = later;
                    alone = from;
                }
                Tried::Ended => return Ok(Come::Ended),
            }
        }
    }
    run.run_to(asked.report.stop)?;
    teller.tell(asked.report.stop, run.count_events());
    Ok(Come::Alone(run))
}

/// A run goes on by one thread, lap by lap, until several workers are to be tried; or to the stop.
fn go_on_alone<X: Clock + CpuClock, O: Progress + Stages>(
    clock: &X,
    run: &mut TracedRun<'_>,
    stop: u64,
    alone: Alone,
    teller: &mut Teller<'_, O>,
) -> Result<Alone, OrMemory<CounterFull>>
    requires begun { run.old.run.stop ≤ alone.ticks }
    requires before { alone.ticks < stop }
    requires latest { stop ≤ LATEST }
    ensures run { IfOk result (λ later. run.new.run ≡ complete_run run.old.run.case later.ticks) }
    ensures further { IfOk result (λ later. alone.ticks < later.ticks) }
    ensures within { IfOk result (λ later. later.ticks ≤ stop) }
    ensures full { IsErrOf result (or_memory.Fault counter_full) → GetsStuck run.old.run.case stop }
{
    teller.observer.goes_alone();
    let mut now = go_on_to(clock, run, alone.next_end(stop), alone)?;
    while now.ticks < stop && !now.is_trial_due(stop) {
        if teller.is_due(now.ticks) {
            teller.tell(now.ticks, run.count_events());
        }
        now = go_on_to(clock, run, now.next_end(stop), now)?;
    }
    Ok(now)
}

/// A run goes on by one thread for some milliseconds, and then by several workers where the machine has a processor for
/// each.
fn try_where_free<
    'a,
    X: Threads + Wait + Sync + Clock + CpuClock,
    O: Progress + Stages + Gate + Sync,
>(
    rt: &X,
    alloc: Global,
    run: TracedRun<'a>,
    asked: Asked,
    alone: Alone,
    teller: &mut Teller<'_, O>,
) -> Result<Tried<'a>, OrMemory<CounterFull>>
    requires ready { IsReady asked }
    requires log { asked.report.log ≡ false }
    requires complete { run.run ≡ complete_run run.run.case alone.ticks }
    requires before { alone.ticks < asked.report.stop }
    ensures ok { IfOk result (λ tried. IsTried run.entry.run.case asked alone.ticks tried) }
    ensures full { IsErrOf result (or_memory.Fault counter_full) → GetsStuck run.entry.run.case asked.report.stop }
{
    let threads = workers_for(run.run().case().instance().nodes());
    let end = alone.sounding_end(asked.report.stop);
    let Sounded { run, came, is_free } = sound(rt, run, end, alone, threads);
    let alone = came?;
    if !is_free || alone.ticks >= asked.report.stop {
        return Ok(Tried::Over(run, alone.hindered()));
    }
    Ok(try_all(rt, alloc, run, asked, alone, teller))
}

/// Several workers take over a run that one thread has brought so far. They go on to the stop, or to where one thread is
/// faster.
fn try_all<'a, X: Threads + Wait + Sync + Clock + CpuClock, O: Progress + Stages + Gate + Sync>(
    rt: &X,
    alloc: Global,
    run: TracedRun<'a>,
    asked: Asked,
    alone: Alone,
    teller: &mut Teller<'_, O>,
) -> Tried<'a>
    requires ready { IsReady asked }
    requires log { asked.report.log ≡ false }
    requires complete { run.run ≡ complete_run run.run.case alone.ticks }
    requires within { alone.ticks ≤ asked.report.stop }
    ensures { IsTried run.entry.run.case asked alone.ticks result }
{
    let start = micros(rt);
    let sim = match open_all(alloc, run, asked) {
        Ok(sim) => sim,
        Err(run) => return Tried::Over(run, alone.again()),
    };
    let events = handled_by(&sim);
    let Some((sim, starting)) = go_on(rt, alloc, sim, asked, alone.ticks, teller.observer) else {
        return Tried::Ended;
    };
    let opening = micros(rt).saturating_sub(start);
    let course = Course::new(alone, events, opening, starting);
    go_on_by_all(rt, alloc, sim, asked, course, teller)
}

/// Several workers take over a run on one thread, if there is memory for that.
fn open_all<'a>(alloc: Global, run: TracedRun<'a>, asked: Asked) -> Result<Sim<'a>, TracedRun<'a>>
    requires log { asked.report.log ≡ false }
    requires complete { run.run ≡ complete_run run.run.case run.run.stop }
    ensures ok { IfOk result (λ sim. HasComeTo run.entry.run.stop run.entry.run.case asked sim) }
    ensures err { IfErr result (λ same. same ≡ run.entry) }
{
    let nodes = run.run().case().instance().nodes();
    let workers = workers_for(nodes);
    let Ok(owners) = owners(alloc, asked, workers, nodes, 0) else {
        return Err(run);
    };
    match Sim::of_run(alloc, run, workers, &owners, asked.cancel) {
        Ok(sim) => Ok(sim),
        Err(still) => Err(still.run),
    }
}

/// How many workers are tried where there are so many routers.
fn workers_for(nodes: u32) -> u32
    ensures some { 0 < result }
    ensures few { result ≤ MOST_WORKERS_CHOSEN }
{
    nodes.clamp(1, MOST_WORKERS_CHOSEN)
}

/// Workers go on to the stop, or to where one thread is faster.
fn go_on_by_all<
    'a,
    X: Threads + Wait + Sync + Clock + CpuClock,
    O: Progress + Stages + Gate + Sync,
>(
    rt: &X,
    alloc: Global,
    sim: Sim<'a>,
    asked: Asked,
    course: Course,
    teller: &mut Teller<'_, O>,
) -> Tried<'a>
    requires ready { IsReady asked }
    requires log { asked.report.log ≡ false }
    requires come { HasComeTo course.ticks sim.case asked sim }
    requires within { course.ticks ≤ asked.report.stop }
    ensures { IsTried sim.entry.case asked course.ticks result }
{
    let mut course = course;
    let mut run = sim;
    while let Some(end) = course.next_end(asked.report.stop) {
        if course.is_over() {
            let start = micros(rt);
            match run.into_run() {
                Ok(alone) => {
                    let closing = micros(rt).saturating_sub(start);
                    return Tried::Over(alone, course.go_on_alone(closing));
                }
                Err(still) => run = still.sim,
            }
        }
        let Some((next, took)) = go_on(rt, alloc, run, asked, end, teller.observer) else {
            return Tried::Ended;
        };
        run = next;
        let events = handled_by(&run);
        teller.tell(end, events);
        course = course.stretch(end, events, took);
    }
    Tried::Come(run)
}

/// Workers go on to a time, in ticks; in how many microseconds.
fn go_on<'a, X: Threads + Wait + Sync + Clock + CpuClock, O: Stages + Gate + Sync>(
    rt: &X,
    alloc: Global,
    sim: Sim<'a>,
    asked: Asked,
    end: u64,
    observer: &O,
) -> Option<(Sim<'a>, u64)>
    requires come { HasComeTo sim.board.stop sim.case asked sim }
    requires end { sim.board.stop ≤ end }
    requires latest { end ≤ LATEST }
    ensures { IfSome result (λ later. HasComeTo end sim.entry.case asked later.0) }
{
    let start = micros(rt);
    let Ok(sim) = run_to(rt, alloc, sim, asked, 0, end, observer) else {
        return None;
    };
    Some((sim, micros(rt).saturating_sub(start)))
}
