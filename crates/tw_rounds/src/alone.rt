//! One thread goes on alone.

ghost use Rattle.std.specs.Prelude.{ℕ, ◌+◌, ◌≡◌, ◌≤◌, ◌<◌, [], Some, IfNone, IfOk, IfSome, IsErrOf, OnErr, OnOk, max};
ghost use Rattle.tw_process.specs.Behaviour.{simulation_of};
ghost use Rattle.tw_process.specs.declared.refused.Refused.TheVariants.{CounterFull};
ghost use Rattle.tw_rounds.specs.Alone.{IsAlone, IsFullNext, bound_of};
ghost use Rattle.tw_sequential.specs.Run.{IsNext, IsNextRun, NoneBefore};
ghost use Rattle.tw_sim.specs.Simulation.{only, state, times};

use crate::counts::Counts;
use crate::member::Member;
use crate::waiting::{begin_all, handle_at};
use std::alloc::{AllocError, Global};
use std::marker::Model;
use tw_engine::Progress;
use tw_pending::Pending;
use tw_process::laws::model_is_lawful;
use tw_process::{ProcessModel, Refused, Timed};

/// A run by one thread alone, as far as it has come: again and again the least of all pending events is handled by its
/// receiver, in the sequential run's own turn. It is committed at once, so that no note is kept.
#[derive(Drop)]
pub(crate) struct Alone<'a, M: ProcessModel> {
    pub(crate) model: &'a M,
    // All that they have handled is committed, and nothing waits at them.
    pub(crate) members: Vec<Member<'a, M>>,
    pub(crate) pending: Pending<M::Event>,
    pub(crate) sends: Vec<M::Event>,
    pub(crate) stop: u64,
    pub(crate) progress: Progress,
    // Events since one thread went on alone, as far as 64 bits tell.
    pub(crate) handled: u64,
}

impl<'a, M: ProcessModel> Model for Alone<'a, M> {
    ghost use Rattle.std.specs.Prelude.{◌≡◌, ◌≤◌, [], vec_capacity, vec_len};
    ghost use Rattle.tw_process.specs.Behaviour.{simulation_of};
    ghost use Rattle.tw_rounds.specs.Alone.{AreCommitted, IsAlone, run_at};
    ghost use Rattle.tw_sequential.specs.Run.{Run};

    ghost Value = { Run M M.Event };

    ghost view = { λ a. run_at (simulation_of M.Event.parts M.Event.cmp (M.behaviour a.model.now)) a.model.now a.stop a.progress.since a.progress.turns a.pending };

    ghost invariant = { λ a. let m = simulation_of M.Event.parts M.Event.cmp (M.behaviour a.model.now) in
        let run = run_at m a.model.now a.stop a.progress.since a.progress.turns a.pending in
        IsAlone m run a.progress.since a.progress.turns × AreCommitted m run (λ r. []) a.members.items
        × (vec_len a.sends ≡ 0) × ((M.behaviour a.model.now).most ≤ vec_capacity a.sends) × (a.stop ≤ (M.behaviour a.model.now).latest) };
}

impl<'a, M: ProcessModel> Alone<'a, M> {
    /// The run of this model before its first event.
    pub(crate) fn open(alloc: Global, model: &'a M) -> Result<Alone<'a, M>, AllocError>
        ensures model { IfOk result (λ run. run.model ≡ model.now) }
        ensures stop { IfOk result (λ run. run.stop ≡ 0) }
        ensures none { IfOk result (λ run. run.log ≡ []) }
    {
        model_is_lawful(model);
        let members = begin_all(alloc, model)?;
        let mut pending = Pending::new(alloc)?;
        pending.insert_all(&model.openings(alloc)?)?;
        let sends = Vec::with_capacity(alloc, model.most_sends())?;
        Ok(Alone {
            model,
            members,
            pending,
            sends,
            stop: 0,
            progress: Progress { since: 0, turns: 0 },
            handled: 0,
        })
    }

    /// Handles all events before a stop, in ticks, and before each stop asked for earlier.
    ///
    /// After a refusal the events before the refused one stand handled, and nothing else has changed. It is `CounterFull`
    /// only where handling the least pending event would pass a limit of the model's counters.
    pub(crate) fn run_to(&mut self, stop: u64) -> Result<(), Refused>
        requires { stop ≤ (M.behaviour self.old.model).latest }
        ensures complete { OnOk result (bound_of (simulation_of M.Event.parts M.Event.cmp (M.behaviour self.old.model)) self.new ≡ self.new.stop) }
        ensures model { self.new.model ≡ self.old.model }
        ensures stop { self.new.stop ≡ max self.old.stop stop }
        ensures rises { let m = simulation_of M.Event.parts M.Event.cmp (M.behaviour self.old.model) in bound_of m self.old ≤ bound_of m self.new }
        ensures full { IsErrOf result CounterFull → IsFullNext (simulation_of M.Event.parts M.Event.cmp (M.behaviour self.old.model)) self.new }
    {
        model_is_lawful(self.model());
        self.raise_stop(stop);
        while let Some(event) = self.next() {
            self.handle_next(&event)?;
        }
        Ok(())
    }

    /// The model that runs.
    pub(crate) fn model(&self) -> &'a M
        ensures { result.now ≡ self.now.model }
    {
        self.model
    }

    /// The greatest stop that was asked for, in ticks.
    pub(crate) fn stop(&self) -> u64
        ensures { result ≡ self.now.stop }
    {
        self.stop
    }

    /// What was done since one thread went on alone.
    pub(crate) fn counts(&self) -> Counts {
        Counts {
            handled: self.handled,
            ..Counts::default()
        }
    }

    /// All pending events, in no order.
    pub(crate) fn waiting(&self) -> Result<Vec<M::Event>, AllocError>
        ensures { let m = simulation_of M.Event.parts M.Event.cmp (M.behaviour self.now.model) in
            IfOk result (λ events. (e : M.Event) → times m e events.items ≡ times m e self.now.rest) }
    {
        let mut events = Vec::new(*self.sends.allocator());
        self.pending.copy_to(&mut events)?;
        Ok(events)
    }

    /// The time, in ticks, of the least pending event, or the stop where that is no later.
    pub(crate) fn bound(&self) -> u64
        ensures { result ≡ bound_of (simulation_of M.Event.parts M.Event.cmp (M.behaviour self.now.model)) self.now }
    {
        match self.pending.least() {
            Some(event) => event.time().min(self.stop),
            None => self.stop,
        }
    }

    /// The state of a process, as the events handled left it.
    pub(crate) fn state(&self, number: u32) -> &M::State
        requires { number < (M.behaviour self.now.model).processes }
        ensures { let m = simulation_of M.Event.parts M.Event.cmp (M.behaviour self.now.model) in
            M.known result.now ≡ state m number (only m number self.now.log) }
    {
        self.members[number as usize].process().state()
    }

    /// Tells what holds of every run. It does nothing.
    pub(crate) fn keeps_law(&self)
        ensures alone { (since : ℕ) × (n : ℕ) × IsAlone (simulation_of M.Event.parts M.Event.cmp (M.behaviour self.now.model)) self.now since n }
        ensures latest { self.now.stop ≤ (M.behaviour self.now.model).latest }
    {
        let _ = &self.members;
    }

    /// The least pending event, where one is before the stop.
    #[inline(always)]
    fn next(&self) -> Option<M::Event>
        ensures some { IfSome result (λ e. IsNext (simulation_of M.Event.parts M.Event.cmp (M.behaviour self.now.model)) self.now e) }
        ensures none { IfNone result (NoneBefore (simulation_of M.Event.parts M.Event.cmp (M.behaviour self.now.model)) self.now.stop self.now.rest) }
    {
        match self.pending.least() {
            Some(event) if event.time() < self.stop => Some(event),
            _ => None,
        }
    }

    /// The stop becomes the greater of itself and `stop`.
    fn raise_stop(&mut self, stop: u64)
        requires { stop ≤ (M.behaviour self.old.model).latest }
        ensures { self.new ≡ record self.old { stop = max self.old.stop stop } }
    {
        model_is_lawful(self.model);
        if self.stop < stop {
            self.stop = stop;
        }
    }

    /// Handles the least pending event. A refusal leaves the run as it was.
    #[inline(always)]
    fn handle_next(&mut self, event: &M::Event) -> Result<(), Refused>
        requires { IsNext (simulation_of M.Event.parts M.Event.cmp (M.behaviour self.old.model)) self.old event.now }
        ensures ok { OnOk result (IsNextRun (simulation_of M.Event.parts M.Event.cmp (M.behaviour self.old.model)) self.old self.new) }
        ensures rises { let m = simulation_of M.Event.parts M.Event.cmp (M.behaviour self.old.model) in OnOk result (bound_of m self.old ≤ bound_of m self.new) }
        ensures err { OnErr result (self.new ≡ self.old) }
        ensures full { IsErrOf result CounterFull → IsFullNext (simulation_of M.Event.parts M.Event.cmp (M.behaviour self.old.model)) self.old }
    {
        model_is_lawful(self.model);
        let progress = after(self.progress, event.time())?;
        handle_at(
            &mut self.members,
            event.dst() as usize,
            event,
            progress,
            &mut self.pending,
            &mut self.sends,
        )?;
        self.progress = progress;
        self.handled = self.handled.saturating_add(1);
        Ok(())
    }
}

/// How far a run has come when it has handled one event more, at this time, in ticks. No more than 2^64 events of one tick
/// can be told.
#[inline(always)]
fn after(progress: Progress, time: u64) -> Result<Progress, Refused>
    ensures later { IfOk result (λ p. progress.since < time → (p.since ≡ time) × (p.turns ≡ 1)) }
    ensures same { IfOk result (λ p. time ≤ progress.since → (p.since ≡ progress.since) × (p.turns ≡ progress.turns + 1)) }
    ensures memory { IsErrOf result CounterFull → ⊥ }
{
    if progress.since < time {
        return Ok(Progress {
            since: time,
            turns: 1,
        });
    }
    match progress.turns.checked_add(1) {
        Some(turns) => Ok(Progress { turns, ..progress }),
        None => Err(Refused::Memory),
    }
}
