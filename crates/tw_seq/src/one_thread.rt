//! A run that keeps no list of its events (docs/DECISIONS.md, 'One thread': its model computes them).

ghost use Rattle.std.specs.Prelude.{◌≡◌, ◌≤◌, ◌<◌, [], max, reverse, IfOk, OnErr, OnOk, IsErrOf};
ghost use Rattle.std.specs.Bool.{OnFalse, OnTrue};
ghost use Rattle.tw_model.specs.Case.{simulation};
ghost use Rattle.tw_model.specs.Quiet.{changes, last_change as last_change_of};
ghost use Rattle.tw_model.specs.Summary.{summary_of};
ghost use Rattle.tw_model.specs.declared.limits.TheConstants.{LATEST};
ghost use Rattle.tw_model.specs.declared.memory.OrMemory.TheVariants as or_memory;
ghost use Rattle.tw_handlers.specs.Calls.{counter_full};
ghost use Rattle.tw_seq.specs.Outcome.{least, outcome_of};
ghost use Rattle.tw_seq.specs.Run.{IsBegun, IsNext, IsNextRun, IsStuck, NoneBefore, complete_run, opening_run, router_after, routers_after};
ghost use Rattle.tw_sim.specs.Seq.{log, rest};

use crate::routers::{count_handled, gather, opening_routers, router_ends};
use crate::running::Running;
use crate::turn::{fault_at, handle_at, move_each, opening_queue};
use smallvec::SmallVec;
use std::alloc::{AllocError, Global};
use std::marker::Model;
use tw_calendar::EventList;
use tw_event::Event;
use tw_handlers::CounterFull;
use tw_instance::Case;
use tw_model::limits::MOST_LINKS;
use tw_model::{OrMemory, Outcome};
use tw_router::Router;
use tw_shape::{Shape, ShapeBuilder};

/// A run that keeps no list of the events handled, so that its memory does not grow with their number.
///
/// [`LoggedRun`](crate::LoggedRun) keeps that list.
#[derive(Drop)]
pub struct OneThread<'a> {
    case: &'a Case,
    stop: u64,
    routers: Vec<Router<'a>>,
    pending: EventList,
    sends: SmallVec<Event, 8>,
    last_change: u64,
}

impl<'a> Model for OneThread<'a> {
    ghost use Rattle.tw_seq.specs.Run.{Run};

    ghost Value = { Run };

    ghost use Rattle.tw_seq.specs.Thread.{IsThread, run_of};

    ghost view = { run_of };

    ghost invariant = { IsThread };
}

impl<'a> OneThread<'a> {
    /// The run of this case before its first event.
    pub fn new(alloc: Global, case: &'a Case) -> Result<OneThread<'a>, AllocError>
        ensures value { IfOk result (λ run. run ≡ opening_run case.now) }
        ensures begun { IfOk result (λ run. IsBegun run) }
    {
        let routers = opening_routers(alloc, case.instance())?;
        let pending = opening_queue(alloc, case)?;
        Ok(OneThread {
            case,
            stop: 0,
            routers,
            pending,
            sends: SmallVec::new(alloc),
            last_change: 0,
        })
    }

    /// The run of this case to a stop, which goes on with its routers and pending events as that run left
    /// them, and with the time of its last event that changed a path, in ticks, or 0. A stop is at most
    /// 1,000,000,000.
    pub fn resume(
        case: &'a Case,
        stop: u64,
        routers: Vec<Router<'a>>,
        pending: EventList,
        last_change: u64,
    ) -> OneThread<'a>
        requires stop { stop ≤ LATEST }
        requires routers { routers.items ≡ routers_after case.now (complete_run case.now stop).events }
        requires pending { pending.events ≡ rest (simulation case.now) stop }
        requires homes { pending.routers ≡ case.now.net.nodes }
        requires change { last_change ≡ last_change_of case.now (log (simulation case.now) stop) }
        ensures value { result ≡ complete_run case.now stop }
        ensures begun { IsBegun result }
    {
        // What a case keeps is told by a read of it.
        let _ = case.instance();
        let alloc = *routers.allocator();
        OneThread {
            case,
            stop,
            routers,
            pending,
            sends: SmallVec::new(alloc),
            last_change,
        }
    }

    /// The case that runs.
    pub fn case(&self) -> &'a Case
        ensures value { result.now ≡ self.now.case }
        ensures begun { IsBegun self.now }
    {
        self.case
    }

    /// The greatest stop that was asked for, in ticks.
    pub fn stop(&self) -> u64
        ensures value { result ≡ self.now.stop }
        ensures most { result ≤ LATEST }
        ensures begun { IsBegun self.now }
    {
        self.stop
    }

    /// The routers by rising number, the pending events, and the time of the last event that changed a
    /// path, in ticks, or 0.
    pub fn into_parts(self) -> (Vec<Router<'a>>, EventList, u64)
        ensures routers { result.0.items ≡ routers_after self.entry.case self.entry.events }
        ensures pending { result.1.events ≡ self.entry.pending }
        ensures homes { result.1.routers ≡ self.entry.case.net.nodes }
        ensures change { result.2 ≡ last_change_of self.entry.case (reverse self.entry.events) }
        ensures begun { IsBegun self.entry }
    {
        (self.routers, self.pending, self.last_change)
    }

    /// A router as the events handled left it.
    pub fn router(&self, router: u32) -> &Router<'a>
        requires { router < self.now.case.net.nodes }
        ensures value { result.now ≡ router_after self.now.case self.now.events router }
        ensures begun { IsBegun self.now }
    {
        &self.routers[router as usize]
    }

    /// The pending events, in their order.
    pub fn pending(&self) -> Result<Vec<Event>, AllocError>
        ensures value { IfOk result (λ events. events.items ≡ self.now.pending) }
        ensures begun { IsBegun self.now }
    {
        self.pending.list()
    }

    /// What the run has left so far, but for the events handled: their list is empty.
    pub fn outcome_without_events(&self) -> Result<Outcome, AllocError>
        ensures value { IfOk result (λ outcome. summary_of outcome ≡ record (outcome_of self.now) { events = [] }) }
        ensures begun { IsBegun self.now }
    {
        let alloc = *self.routers.allocator();
        let routers = router_ends(alloc, &self.routers)?;
        let pending = self.pending.list()?;
        Ok(Outcome {
            stop: self.stop,
            bound: self.bound(),
            events: Vec::new(alloc),
            routers,
            pending,
            last_change: self.last_change,
        })
    }

    /// The least of the stop and of the times pending: all events before it are handled.
    fn bound(&self) -> u64
        ensures { result ≡ least self.now.pending self.now.stop }
    {
        let mut event = Event::default();
        if self.copy_next(&mut event) {
            return event.time;
        }
        self.stop
    }

    /// The stop becomes the greater of itself and `stop`.
    pub(crate) fn raise_stop(&mut self, stop: u64)
        requires { stop ≤ LATEST }
        ensures stop { self.new ≡ record self.old { stop = max self.old.stop stop } }
        ensures begun { IsBegun self.new }
    {
        if self.stop < stop {
            self.stop = stop;
        }
    }

    /// Copies the least pending event, and tells whether it is before the stop.
    #[inline(always)]
    pub(crate) fn copy_next(&self, event: &mut Event) -> bool
        ensures some { OnTrue result (IsNext self.now event.new) }
        ensures none { OnFalse result (NoneBefore self.now.stop self.now.pending) }
        ensures begun { IsBegun self.now }
    {
        if !self.pending.copy_least(event) {
            return false;
        }
        event.time < self.stop
    }

    /// Handles the least pending event, and tells whether that changed a path. An error leaves the run as
    /// it was.
    #[inline(always)]
    pub(crate) fn handle_next(&mut self, event: &Event) -> Result<bool, OrMemory<CounterFull>>
        requires { IsNext self.old event.now }
        ensures ok { OnOk result (IsNextRun self.old self.new) }
        ensures changed { IfOk result (λ changed. changed ≡ changes self.old.case event.now (reverse self.old.events)) }
        ensures err { OnErr result (self.new ≡ self.old) }
        ensures begun { IsBegun self.new }
        ensures full { IsErrOf result (or_memory.Fault counter_full) → IsStuck self.old }
        ensures stuck { IsStuck self.old → IsErrOf result (or_memory.Fault counter_full) }
    {
        let Ok(()) = self.pending.reserve(MOST_LINKS) else {
            return Err(self.fault_at(event));
        };
        let instance = self.case.instance();
        let note = handle_at(instance, &mut self.routers, event, &mut self.sends)?;
        self.pending.skip_least();
        move_each(&mut self.pending, &mut self.sends);
        self.pending.begin_tick();
        if note.changed {
            self.last_change = event.time;
        }
        Ok(note.changed)
    }

    /// Why the least pending event is not handled where there is no memory for that: a full counter, or
    /// want of memory. It leaves the run as it was.
    #[inline(never)]
    pub(crate) fn fault_at(&mut self, event: &Event) -> OrMemory<CounterFull>
        requires { IsNext self.old event.now }
        ensures same { self.new ≡ self.old }
        ensures begun { IsBegun self.new }
        ensures full { result ≡ or_memory.Fault counter_full → IsStuck self.old }
        ensures stuck { IsStuck self.old → result ≡ or_memory.Fault counter_full }
    {
        let alloc = *self.routers.allocator();
        let instance = self.case.instance();
        fault_at(alloc, instance, &mut self.routers, event)
    }
}

impl Running for OneThread<'_> {
    ghost run = { λ run. run };

    fn run_to(&mut self, stop: u64) -> Result<(), OrMemory<CounterFull>> {
        self.raise_stop(stop);
        let mut event = Event::default();
        while self.copy_next(&mut event) {
            self.handle_next(&event)?;
        }
        Ok(())
    }

    fn count_events(&self) -> u64 {
        count_handled(&self.routers)
    }

    fn shape(&self) -> Result<Shape, AllocError> {
        let mut builder = ShapeBuilder::new(*self.routers.allocator(), self.stop);
        gather(&mut builder, &self.routers)?;
        Ok(builder.finish(self.pending.events()?))
    }
}
