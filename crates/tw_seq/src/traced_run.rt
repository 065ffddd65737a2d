//! A run that notes of each router what a parallel run asks for that takes it over.

ghost use Rattle.std.specs.Prelude.{◌≡◌, ◌<◌, IfOk, IfSome, OnErr, OnOk, IsErrOf, None, [], is_some, length, option_map, replicate, slice_index_or, slice_set};
ghost use Rattle.tw_model.specs.declared.memory.OrMemory.TheVariants as or_memory;
ghost use Rattle.tw_handlers.specs.Calls.{counter_full};
ghost use Rattle.tw_seq.specs.Run.{IsBegun, IsNext, IsNextRun, IsStuck, opening_run};
ghost use Rattle.tw_seq.specs.Traced.{HasRoom, lists_of, logs_after, no_trace, noted, push_at, retained, traces_after};

use crate::one_thread::OneThread;
use crate::running::Running;
use std::alloc::{AllocError, Global};
use std::marker::Model;
use tw_event::Event;
use tw_handlers::CounterFull;
use tw_instance::Case;
use tw_model::OrMemory;
use tw_shape::Shape;

/// What is noted of a router.
#[derive(Clone, Copy, Default, Debug)]
pub struct RouterTrace {
    /// The event that it has handled last.
    pub newest: Option<Event>,
    /// The time of the last event that changed its path, in ticks, or 0.
    pub change: u64,
}

/// A run that notes of each router the event that it has handled last and when its path changed last, and
/// that may keep each router's events, 40 bytes for each.
///
/// A parallel run that goes on where this one stands needs them
/// ([`LoggedRun`](crate::LoggedRun) keeps one list of all events).
#[derive(Drop)]
pub struct TracedRun<'a> {
    run: OneThread<'a>,
    traces: Vec<RouterTrace>,
    logs: Option<Vec<Vec<Event>>>,
}

impl<'a> Model for TracedRun<'a> {
    ghost use Rattle.tw_seq.specs.Traced.{IsTraced, Traced, traced_run};

    ghost Value = { Traced };

    ghost view = { traced_run };

    ghost invariant = { IsTraced };
}

impl<'a> TracedRun<'a> {
    /// The run of this case before its first event, which keeps each router's events or lets them go.
    pub fn new(alloc: Global, case: &'a Case, retains: bool) -> Result<TracedRun<'a>, AllocError>
        ensures value { IfOk result (λ run. run ≡ record { run = opening_run case.now; retains = retains }) }
    {
        let run = OneThread::new(alloc, case)?;
        let nodes = case.instance().nodes();
        let traces = opening_traces(alloc, nodes)?;
        let logs = if retains {
            Some(empty_logs(alloc, nodes)?)
        } else {
            None
        };
        Ok(TracedRun { run, traces, logs })
    }

    /// The run goes on from where it stands, with what is noted of its routers by rising number: of each
    /// its trace, and its events, the oldest first, where they are retained.
    pub fn resume(
        run: OneThread<'a>,
        traces: Vec<RouterTrace>,
        logs: Option<Vec<Vec<Event>>>,
    ) -> TracedRun<'a>
        requires begun { IsBegun run }
        requires traces { traces.items ≡ traces_after run.case run.events }
        requires logs { IfSome logs (λ logs. lists_of logs.items ≡ logs_after run.case run.events) }
        ensures run { result.run ≡ run.entry }
        ensures retains { result.retains ≡ is_some logs }
    {
        TracedRun { run, traces, logs }
    }

    /// The run, each router's trace, and each router's events, the oldest first, where they are retained.
    pub fn into_parts(self) -> (OneThread<'a>, Vec<RouterTrace>, Option<Vec<Vec<Event>>>)
        ensures run { result.0 ≡ self.entry.run }
        ensures traces { result.1.items ≡ traces_after self.entry.run.case self.entry.run.events }
        ensures logs { IfSome result.2
            (λ logs. lists_of logs.items ≡ logs_after self.entry.run.case self.entry.run.events) }
        ensures retains { is_some result.2 ≡ self.entry.retains }
        ensures begun { IsBegun self.entry.run }
    {
        (self.run, self.traces, self.logs)
    }

    /// The run, with its routers and pending events.
    pub fn run(&self) -> &OneThread<'a>
        ensures value { result.now ≡ self.now.run }
        ensures begun { IsBegun self.now.run }
    {
        &self.run
    }

    /// Whether it keeps each router's events.
    pub fn retains(&self) -> bool
        ensures value { result ≡ self.now.retains }
        ensures begun { IsBegun self.now.run }
    {
        self.logs.is_some()
    }

    /// Each router's trace, by rising number.
    pub fn traces(&self) -> &[RouterTrace]
        ensures value { result.now ≡ traces_after self.now.run.case self.now.run.events }
        ensures begun { IsBegun self.now.run }
    {
        &self.traces
    }

    /// Handles the least pending event. An error leaves the run as it was.
    #[inline(always)]
    fn handle_next(&mut self, event: &Event) -> Result<(), OrMemory<CounterFull>>
        requires { IsNext self.old.run event.now }
        ensures ok { OnOk result (IsNextRun self.old.run self.new.run) }
        ensures retains { self.new.retains ≡ self.old.retains }
        ensures err { OnErr result (self.new ≡ self.old) }
        ensures full { IsErrOf result (or_memory.Fault counter_full) → IsStuck self.old.run }
        ensures stuck { IsStuck self.old.run → IsErrOf result (or_memory.Fault counter_full) }
    {
        let Ok(()) = make_room(&mut self.logs, event.dst) else {
            return Err(self.run.fault_at(event));
        };
        let changed = self.run.handle_next(event)?;
        note(&mut self.traces, event, changed);
        add(&mut self.logs, event);
        Ok(())
    }
}

impl Running for TracedRun<'_> {
    ghost run = { λ traced. traced.run };

    fn run_to(&mut self, stop: u64) -> Result<(), OrMemory<CounterFull>> {
        self.run.raise_stop(stop);
        let mut event = Event::default();
        while self.run.copy_next(&mut event) {
            self.handle_next(&event)?;
        }
        Ok(())
    }

    fn count_events(&self) -> u64 {
        self.run.count_events()
    }

    fn shape(&self) -> Result<Shape, AllocError> {
        self.run.shape()
    }
}

/// The traces of so many routers that have handled nothing.
fn opening_traces(alloc: Global, nodes: u32) -> Result<Vec<RouterTrace>, AllocError>
    ensures { IfOk result (λ traces. traces.items ≡ replicate nodes no_trace) }
{
    vec![in alloc; RouterTrace::default(); nodes as usize]
}

/// A list for each of so many routers, with no event.
fn empty_logs(alloc: Global, nodes: u32) -> Result<Vec<Vec<Event>>, AllocError>
    ensures { IfOk result (λ logs. lists_of logs.items ≡ replicate nodes []) }
{
    let mut logs = Vec::new(alloc);
    for _ in 0..nodes {
        logs.push(Vec::new(alloc))?;
    }
    Ok(logs)
}

/// Where events are retained, makes room for one more of a router.
#[inline(always)]
fn make_room(logs: &mut Option<Vec<Vec<Event>>>, router: u32) -> Result<(), AllocError>
    requires { IfSome logs.old (λ logs. router < length logs.items) }
    ensures room { OnOk result (IfSome logs.new (HasRoom router)) }
    ensures same { retained logs.new ≡ retained logs.old }
{
    match logs {
        Some(logs) => {
            logs[router as usize].reserve(1)?;
            Ok(())
        }
        None => Ok(()),
    }
}

/// Where events are retained, puts one at the end of its router's, for which there is room.
#[inline(always)]
fn add(logs: &mut Option<Vec<Vec<Event>>>, event: &Event)
    requires { IfSome logs.old (HasRoom event.now.dst) }
    ensures { retained logs.new ≡ option_map (λ lists. push_at lists event.now) (retained logs.old) }
{
    if let Some(logs) = logs {
        logs[event.dst as usize].push_reserved(*event);
    }
}

/// Notes that a router has handled an event, and whether that changed its path.
#[inline(always)]
fn note(traces: &mut [RouterTrace], event: &Event, changed: bool)
    requires { event.now.dst < length traces.old }
    ensures { traces.new ≡ slice_set traces.old event.now.dst (noted (slice_index_or traces.old event.now.dst no_trace) event.now changed) }
{
    let trace = &mut traces[event.dst as usize];
    trace.newest = Some(*event);
    if changed {
        trace.change = event.time;
    }
}
