//! A run that keeps a list of its events.

ghost use Rattle.std.specs.Prelude.{◌≡◌, ◌<◌, IfOk, OnErr, OnOk, IsErrOf};
ghost use Rattle.tw_model.specs.Summary.{summary_of};
ghost use Rattle.tw_model.specs.declared.memory.OrMemory.TheVariants as or_memory;
ghost use Rattle.tw_handlers.specs.Calls.{counter_full};
ghost use Rattle.tw_seq.specs.Outcome.{outcome_of};
ghost use Rattle.tw_seq.specs.Run.{IsBegun, IsNext, IsNextRun, IsStuck, opening_run, router_after};

use crate::one_thread::OneThread;
use crate::running::Running;
use std::alloc::{AllocError, Global};
use std::marker::Model;
use tw_event::Event;
use tw_handlers::CounterFull;
use tw_instance::Case;
use tw_model::{OrMemory, Outcome};
use tw_router::Router;
use tw_shape::Shape;

/// A run that keeps a list of the events handled, 40 bytes for each.
#[derive(Drop)]
pub struct LoggedRun<'a> {
    run: OneThread<'a>,
    events: Vec<Event>,
}

impl<'a> Model for LoggedRun<'a> {
    ghost use Rattle.tw_seq.specs.Run.{Run};

    ghost Value = { Run };

    ghost use Rattle.tw_seq.specs.Logged.{IsLogged, logged_run};

    ghost view = { logged_run };

    ghost invariant = { IsLogged };
}

impl<'a> LoggedRun<'a> {
    /// The run of this case before its first event.
    pub fn new(alloc: Global, case: &'a Case) -> Result<LoggedRun<'a>, AllocError>
        ensures { IfOk result (λ run. run ≡ opening_run case.now) }
    {
        let run = OneThread::new(alloc, case)?;
        let events = Vec::new(alloc);
        Ok(LoggedRun { run, events })
    }

    /// The events handled, in their order.
    pub fn handled(&self) -> &[Event]
        ensures value { result.now ≡ self.now.events }
        ensures begun { IsBegun self.now }
    {
        &self.events
    }

    /// A router as the events handled left it.
    pub fn router(&self, router: u32) -> &Router<'a>
        requires { router < self.now.case.net.nodes }
        ensures value { result.now ≡ router_after self.now.case self.now.events router }
        ensures begun { IsBegun self.now }
    {
        self.run.router(router)
    }

    /// The pending events, in their order.
    pub fn pending(&self) -> Result<Vec<Event>, AllocError>
        ensures value { IfOk result (λ events. events.items ≡ self.now.pending) }
        ensures begun { IsBegun self.now }
    {
        self.run.pending()
    }

    /// What the run has left so far.
    pub fn outcome(&self) -> Result<Outcome, AllocError>
        ensures value { IfOk result (λ outcome. summary_of outcome ≡ outcome_of self.now) }
        ensures begun { IsBegun self.now }
    {
        let mut outcome = self.run.outcome_without_events()?;
        outcome.events = Vec::from_slice(*self.events.allocator(), &self.events)?;
        Ok(outcome)
    }

    /// What the run has left. It takes no memory for the events handled: they are moved out of the run.
    pub fn into_outcome(self) -> Result<Outcome, AllocError>
        ensures value { IfOk result (λ outcome. summary_of outcome ≡ outcome_of self.entry) }
        ensures begun { IsBegun self.entry }
    {
        let mut outcome = self.run.outcome_without_events()?;
        outcome.events = self.events;
        Ok(outcome)
    }

    /// Handles the least pending event. An error leaves the run as it was.
    fn handle_next(&mut self, event: &Event) -> Result<(), OrMemory<CounterFull>>
        requires { IsNext self.old event.now }
        ensures ok { OnOk result (IsNextRun self.old self.new) }
        ensures err { OnErr result (self.new ≡ self.old) }
        ensures full { IsErrOf result (or_memory.Fault counter_full) → IsStuck self.old }
        ensures stuck { IsStuck self.old → IsErrOf result (or_memory.Fault counter_full) }
    {
        let Ok(()) = self.events.reserve(1) else {
            return Err(self.run.fault_at(event));
        };
        self.run.handle_next(event)?;
        self.events.push_reserved(*event);
        Ok(())
    }
}

impl Running for LoggedRun<'_> {
    ghost run = { λ run. run };

    fn run_to(&mut self, stop: u64) -> Result<(), OrMemory<CounterFull>> {
        self.run.raise_stop(stop);
        let mut event = Event::default();
        while self.run.copy_next(&mut event) {
            self.handle_next(&event)?;
        }
        Ok(())
    }

    fn count_events(&self) -> u64 {
        self.events.len() as u64
    }

    fn shape(&self) -> Result<Shape, AllocError> {
        self.run.shape()
    }
}
