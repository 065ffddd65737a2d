//! A sequential run of a model.

ghost use Rattle.std.specs.Prelude.{◌≡◌, ◌≤◌, ◌<◌, IfNone, IfOk, IfSome, IsErrOf, OnErr, OnOk, length, max, slice_get};
ghost use Rattle.tw_process.specs.Behaviour.{simulation_of};
ghost use Rattle.tw_process.specs.declared.refused.Refused.TheVariants.{CounterFull};
ghost use Rattle.tw_sequential.specs.Run.{Continues, IsBegun, IsNext, IsNextRun, IsStuck, NoneBefore, complete_run, opening_run};
ghost use Rattle.tw_sim.specs.Simulation.{only, state};

use crate::handling::handle_at;
use crate::limits::MOST_EVENTS;
use crate::opening::opening_states;
use std::alloc::{AllocError, Global};
use std::marker::Model;
use tw_pending::Pending;
use tw_process::laws::model_is_lawful;
use tw_process::{ProcessModel, Refused, Timed};

/// The sequential run of a model, as far as it has come: again and again the least pending event is handled by its
/// receiver, and what that sends becomes pending.
///
/// It keeps no list of the events handled, so its memory does not grow with their number. There are 2^63 of them at
/// most.
#[derive(Drop)]
pub struct Sequential<'a, M: ProcessModel> {
    model: &'a M,
    stop: u64,
    handled: u64,
    states: Vec<M::State>,
    pending: Pending<M::Event>,
    sends: Vec<M::Event>,
}

impl<'a, M: ProcessModel> Model for Sequential<'a, M> {
    ghost use Rattle.std.specs.Prelude.{◌≡◌, ◌≤◌, vec_capacity, vec_len};
    ghost use Rattle.tw_process.specs.Behaviour.{simulation_of};
    ghost use Rattle.tw_sequential.specs.Run.{Run, run_after};
    ghost use Rattle.tw_sequential.specs.States.{IsRunWith};

    ghost Value = { Run M M.Event };

    ghost view = { λ a. run_after (simulation_of M.Event.parts M.Event.cmp (M.behaviour a.model.now)) a.model.now a.stop a.handled a.pending };

    ghost invariant = { λ a. let m = simulation_of M.Event.parts M.Event.cmp (M.behaviour a.model.now) in
        IsRunWith m (M.is_state a.model.now) M.known (run_after m a.model.now a.stop a.handled a.pending) a.handled a.states.items
        × (vec_len a.sends ≡ 0) × ((M.behaviour a.model.now).most ≤ vec_capacity a.sends)
        × (a.stop ≤ (M.behaviour a.model.now).latest) };
}

impl<'a, M: ProcessModel> Sequential<'a, M> {
    /// The run of this model before its first event.
    pub fn open(alloc: Global, model: &'a M) -> Result<Sequential<'a, M>, AllocError>
        ensures value { IfOk result (λ run. run ≡ opening_run (simulation_of M.Event.parts M.Event.cmp (M.behaviour model.now)) model.now) }
    {
        let states = opening_states(alloc, model)?;
        let mut pending = Pending::new(alloc)?;
        pending.insert_all(&model.openings(alloc)?)?;
        let sends = Vec::with_capacity(alloc, model.most_sends())?;
        Ok(Sequential {
            model,
            stop: 0,
            handled: 0,
            states,
            pending,
            sends,
        })
    }

    /// Handles all events before `stop`, in ticks, and before each stop asked for earlier. A stop is at most the
    /// model's latest time.
    ///
    /// After a refusal the events before the refused one stand handled, and nothing else has changed; a later call
    /// goes on from there. It is `CounterFull` exactly where handling the least pending event would pass the limit of
    /// one of the model's counters, or of the run's own count of events, and want of memory else.
    pub fn run_to(&mut self, stop: u64) -> Result<(), Refused>
        requires { stop ≤ (M.behaviour self.old.model).latest }
        ensures ok { let m = simulation_of M.Event.parts M.Event.cmp (M.behaviour self.old.model) in
            OnOk result (self.new ≡ complete_run m self.old.model (max self.old.stop stop)) }
        ensures model { self.new.model ≡ self.old.model }
        ensures stop { self.new.stop ≡ max self.old.stop stop }
        ensures goes_on { Continues (simulation_of M.Event.parts M.Event.cmp (M.behaviour self.old.model)) self.old self.new }
        ensures begun { IsBegun (simulation_of M.Event.parts M.Event.cmp (M.behaviour self.old.model)) self.new }
        ensures full { IsErrOf result CounterFull → IsStuck (simulation_of M.Event.parts M.Event.cmp (M.behaviour self.old.model)) self.new }
        ensures stuck { IsStuck (simulation_of M.Event.parts M.Event.cmp (M.behaviour self.old.model)) self.new → IsErrOf result CounterFull }
    {
        model_is_lawful(self.model());
        self.raise_stop(stop);
        while let Some(event) = self.next() {
            self.handle_next(&event)?;
        }
        Ok(())
    }

    /// The model that runs.
    pub fn model(&self) -> &'a M
        ensures value { result.now ≡ self.now.model }
    {
        self.model
    }

    /// The greatest stop that was asked for, in ticks.
    pub fn stop(&self) -> u64
        ensures { result ≡ self.now.stop }
    {
        self.stop
    }

    /// How many events the run has handled.
    pub fn count_events(&self) -> u64
        ensures { result ≡ length self.now.log }
    {
        self.handled
    }

    /// The state of a process, as the events handled left it.
    pub fn state(&self, number: u32) -> &M::State
        requires { number < (M.behaviour self.now.model).processes }
        ensures own { M.is_state self.now.model number result.now }
        ensures known { let m = simulation_of M.Event.parts M.Event.cmp (M.behaviour self.now.model) in
            M.known result.now ≡ state m number (only m number self.now.log) }
    {
        &self.states[number as usize]
    }

    /// The least pending event, where one is before the stop.
    #[inline(always)]
    pub fn next(&self) -> Option<M::Event>
        ensures some { IfSome result (λ e. IsNext (simulation_of M.Event.parts M.Event.cmp (M.behaviour self.now.model)) self.now e) }
        ensures none { IfNone result (NoneBefore (simulation_of M.Event.parts M.Event.cmp (M.behaviour self.now.model)) self.now.stop self.now.rest) }
        ensures begun { IsBegun (simulation_of M.Event.parts M.Event.cmp (M.behaviour self.now.model)) self.now }
    {
        match self.pending.least() {
            Some(event) if event.time() < self.stop => Some(event),
            _ => None,
        }
    }

    /// The stop becomes the greater of itself and `stop`.
    fn raise_stop(&mut self, stop: u64)
        requires { stop ≤ (M.behaviour self.old.model).latest }
        ensures { self.new ≡ record self.old { stop = max self.old.stop stop } }
    {
        model_is_lawful(self.model);
        if self.stop < stop {
            self.stop = stop;
        }
    }

    /// Handles the least pending event. A refusal leaves the run as it was.
    #[inline(always)]
    fn handle_next(&mut self, event: &M::Event) -> Result<(), Refused>
        requires { IsNext (simulation_of M.Event.parts M.Event.cmp (M.behaviour self.old.model)) self.old event.now }
        ensures ok { OnOk result (IsNextRun (simulation_of M.Event.parts M.Event.cmp (M.behaviour self.old.model)) self.old self.new) }
        ensures err { OnErr result (self.new ≡ self.old) }
        ensures full { IsErrOf result CounterFull → IsStuck (simulation_of M.Event.parts M.Event.cmp (M.behaviour self.old.model)) self.old }
        ensures stuck { IsStuck (simulation_of M.Event.parts M.Event.cmp (M.behaviour self.old.model)) self.old → IsErrOf result CounterFull }
    {
        model_is_lawful(self.model);
        if self.handled >= MOST_EVENTS {
            return Err(Refused::CounterFull);
        }
        handle_at(
            self.model,
            event.dst(),
            &mut self.states,
            &mut self.pending,
            event,
            &mut self.sends,
        )?;
        self.handled += 1;
        Ok(())
    }
}
