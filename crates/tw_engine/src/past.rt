//! A process with what it has handled: each event that is not committed can be taken back, the last one first.

ghost use Rattle.std.specs.Prelude.{◌^◌, ◌≡◌, ◌+◌, ◌<◌, ◌≤◌, ◌↔◌, ◌++◌, ◌∷◌, [], nat_lt, true, IfOk, IfSome, IsErrOf, OnErr, OnOk, drop, length, max, slice_get, reverse, vec_capacity, vec_len};
ghost use Rattle.std.specs.List.{AllByRecursion, list_any, prefix_len};
ghost use Rattle.tw_process.specs.Behaviour.{simulation_of};
ghost use Rattle.tw_process.specs.declared.refused.Refused.TheVariants.{CounterFull};
ghost use Rattle.tw_engine.specs.Past.{IsPast, IsUndone, committed_to, events_of, log_after, not_before};
ghost use Rattle.tw_core.specs.Steps.{is_newest};
ghost use Rattle.tw_pending.specs.Order.{is_before, is_same};
ghost use Rattle.tw_sim.specs.Ordered.{insert_all};
ghost use Rattle.tw_sim.specs.Simulation.{IsFalling, IsLawful, below, only, state, times};

use crate::committed::Committed;
use crate::progress::Progress;
use std::alloc::{AllocError, Global};
use std::marker::Model;
use tw_pending::Pending;
use tw_process::laws::model_is_lawful;
use tw_process::{ProcessModel, Refused, Timed};
use tw_sequential::handle_least;

/// An event that was handled, and its note.
#[derive(Clone, Copy)]
pub(crate) struct Done<E, N> {
    pub(crate) event: E,
    pub(crate) note: N,
}

/// A process with what it has handled. Committed events cannot be undone, so that they keep no note.
#[derive(Drop)]
pub(crate) struct Past<'a, M: ProcessModel> {
    model: &'a M,
    number: u32,
    state: M::State,
    committed: Committed<'a, M>,
    done: u64,
    steps: Vec<Done<M::Event, M::Note>>,
}

impl<'a, M: ProcessModel> Model for Past<'a, M> {
    ghost use Rattle.std.specs.Prelude.{◌≡◌, reverse};
    ghost use Rattle.tw_process.specs.Behaviour.{simulation_of};
    ghost use Rattle.tw_engine.specs.Past.{Handled, IsPast, events_of};

    ghost Value = { Handled M M.Event };

    ghost view = { λ a. record { model = a.model.now; number = a.number; ahead = events_of (reverse a.steps.items); past = a.committed.past; done = a.done } };

    ghost invariant = { λ a. M.is_state a.model.now a.number a.state
        × IsPast (simulation_of M.Event.parts M.Event.cmp (M.behaviour a.model.now)) (M.behaviour a.model.now).latest (M.is_note a.model.now) a.number a.committed.past (M.known a.state) a.done a.steps.items
        × (a.committed.model ≡ a.model.now) × (a.committed.number ≡ a.number) };
}

impl<'a, M: ProcessModel> Past<'a, M> {
    /// A process that has handled nothing.
    pub(crate) fn new(alloc: Global, model: &'a M, number: u32) -> Result<Past<'a, M>, AllocError>
        requires { number < (M.behaviour model.now).processes }
        ensures { IfOk result (λ p. p ≡ record { model = model.now; number = number; ahead = []; past = []; done = 0 }) }
    {
        let state = model.begin(alloc, number)?;
        Ok(Past {
            model,
            number,
            state,
            committed: Committed::new(alloc, model, number),
            done: 0,
            steps: Vec::new(alloc),
        })
    }

    /// How many events it can undo.
    pub(crate) fn len(&self) -> usize
        ensures { result ≡ length self.now.ahead }
    {
        self.steps.len()
    }

    /// Its model.
    pub(crate) fn model(&self) -> &'a M
        ensures { result.now ≡ self.now.model }
    {
        self.model
    }

    /// Its number.
    pub(crate) fn number(&self) -> u32
        ensures { result ≡ self.now.number }
    {
        self.number
    }

    /// Tells what holds of every process. It does nothing.
    pub(crate) fn keeps_laws(&self)
        ensures lawful { IsLawful (simulation_of M.Event.parts M.Event.cmp (M.behaviour self.now.model)) }
        ensures here { self.now.number < (M.behaviour self.now.model).processes }
        ensures len { length self.now.ahead < 2 ^ 64 }
        ensures early { AllByRecursion (λ e. M.Event.parts.time e < self.now.done) self.now.past }
    {
        let _ahead = self.len();
        model_is_lawful(self.model);
    }

    /// The event that it handled last, where it can undo it. It was one for this process.
    pub(crate) fn newest_ahead(&self) -> Option<M::Event>
        ensures value { result ≡ slice_get self.now.ahead 0 }
        ensures own { IfSome result (λ e. (M.Event.parts.dst e ≡ self.now.number) × ((M.behaviour self.now.model).suits e ≡ true)) }
    {
        let done = last_of(&self.steps)?;
        Some(done.event)
    }

    /// The event that it handled last, whether committed or not.
    pub(crate) fn newest(&self) -> Option<M::Event>
        ensures { result ≡ slice_get (self.now.ahead ++ self.now.past) 0 }
    {
        match self.newest_ahead() {
            Some(event) => Some(event),
            None => self.committed.newest(),
        }
    }

    /// Whether this is the event that it handled last.
    pub(crate) fn is_newest(&self, event: &M::Event) -> bool
        ensures { result ≡ is_newest (simulation_of M.Event.parts M.Event.cmp (M.behaviour self.now.model)) event.now (self.now.ahead ++ self.now.past) }
    {
        match self.newest() {
            Some(newest) => event.cmp(&newest).is_eq(),
            None => false,
        }
    }

    /// Whether it has handled this event and can undo it.
    pub(crate) fn has_ahead(&self, event: &M::Event) -> bool
        ensures { result ≡ nat_lt 0 (times (simulation_of M.Event.parts M.Event.cmp (M.behaviour self.now.model)) event.now self.now.ahead) }
    {
        is_among(&self.steps, event)
    }

    /// Its state.
    pub(crate) fn state(&self) -> &M::State
        ensures known { M.known result.now ≡ state (simulation_of M.Event.parts M.Event.cmp (M.behaviour self.now.model)) self.now.number (self.now.ahead ++ self.now.past) }
        ensures own { M.is_state self.now.model self.now.number result.now }
    {
        &self.state
    }

    /// Handles an event; what it sends goes behind `sends`, which has room for it. After an error all is as it was.
    pub(crate) fn handle(
        &mut self,
        event: M::Event,
        sends: &mut Vec<M::Event>,
    ) -> Result<(), Refused>
        requires home { M.Event.parts.dst event ≡ self.old.number }
        requires suits { (M.behaviour self.old.model).suits event ≡ true }
        requires time { M.Event.parts.time event < (M.behaviour self.old.model).latest }
        requires room { vec_len sends.old + (M.behaviour self.old.model).most ≤ vec_capacity sends.old }
        ensures ok { OnOk result (self.new ≡ record self.old { ahead = event ∷ self.old.ahead }) }
        ensures sends { OnOk result (sends.new.items ≡ sends.old.items ++ (M.behaviour self.old.model).sends
            (state (simulation_of M.Event.parts M.Event.cmp (M.behaviour self.old.model)) self.old.number (self.old.ahead ++ self.old.past)) event) }
        ensures err { OnErr result (self.new ≡ self.old) }
        ensures unsent { OnErr result (sends.new.items ≡ sends.old.items) }
        ensures capacity { vec_capacity sends.old ≤ vec_capacity sends.new }
        ensures full { IsErrOf result CounterFull ↔ ((M.behaviour self.old.model).full
            (state (simulation_of M.Event.parts M.Event.cmp (M.behaviour self.old.model)) self.old.number (self.old.ahead ++ self.old.past)) event ≡ true) }
    {
        advance(
            self.model,
            self.number,
            &self.committed,
            self.done,
            &mut self.state,
            &mut self.steps,
            event,
            sends,
        )
    }

    /// Undoes the event that it handled last; what that had sent goes behind `sends` once more, which has room for it.
    pub(crate) fn undo_last(&mut self, sends: &mut Vec<M::Event>)
        requires some { 0 < length self.old.ahead }
        requires room { vec_len sends.old + (M.behaviour self.old.model).most ≤ vec_capacity sends.old }
        ensures capacity { vec_capacity sends.old ≤ vec_capacity sends.new }
        ensures same { self.new ≡ record self.old { ahead = self.new.ahead } }
        ensures undone { let m = simulation_of M.Event.parts M.Event.cmp (M.behaviour self.old.model) in
            IsUndone m self.old.number self.old.past self.old.ahead self.new.ahead sends.old.items sends.new.items }
    {
        step_back(
            self.model,
            self.number,
            &self.committed,
            self.done,
            &mut self.state,
            &mut self.steps,
            sends,
        );
    }

    /// The oldest events that it can undo become committed, as far as each is before the bound, a time in ticks: their
    /// notes are let go. Without memory it is as it was; where none becomes committed, none is taken.
    pub(crate) fn commit(&mut self, bound: u64) -> Result<(), AllocError>
        requires { self.old.done ≤ bound }
        ensures ok { let m = simulation_of M.Event.parts M.Event.cmp (M.behaviour self.old.model) in OnOk result (self.new ≡ committed_to m bound self.old) }
        ensures past { let m = simulation_of M.Event.parts M.Event.cmp (M.behaviour self.old.model) in
            let h = self.old.ahead ++ self.old.past in OnOk result (IsFalling m h → self.new.past ≡ below m bound h) }
        ensures ahead { let m = simulation_of M.Event.parts M.Event.cmp (M.behaviour self.old.model) in
            let h = self.old.ahead ++ self.old.past in OnOk result (IsFalling m h → self.new.ahead ≡ not_before m bound h) }
        ensures err { OnErr result (self.new ≡ self.old) }
    {
        model_is_lawful(self.model);
        let count = first_before(&self.steps, bound);
        self.committed.add_steps(&self.steps[..count])?;
        drop_first(&mut self.steps, count);
        self.done = bound;
        Ok(())
    }

    /// Handles an event, the least of `pending`, in the sequential run's own turn, and commits it at once, without a
    /// note. What it sends becomes pending in its place. After an error all is as it was.
    #[inline(always)]
    pub(crate) fn handle_in_turn(
        &mut self,
        event: &M::Event,
        progress: Progress,
        pending: &mut Pending<M::Event>,
        sends: &mut Vec<M::Event>,
    ) -> Result<(), Refused>
        requires settled { self.old.ahead ≡ [] }
        requires home { M.Event.parts.dst event.now ≡ self.old.number }
        requires suits { (M.behaviour self.old.model).suits event.now ≡ true }
        requires time { M.Event.parts.time event.now < (M.behaviour self.old.model).latest }
        requires turn { let m = simulation_of M.Event.parts M.Event.cmp (M.behaviour self.old.model) in
            only m self.old.number (log_after m progress.since progress.turns) ≡ event.now ∷ self.old.past }
        requires room { (M.behaviour self.old.model).most ≤ vec_capacity sends.old }
        requires empty { vec_len sends.old ≡ 0 }
        ensures room { vec_capacity sends.old ≤ vec_capacity sends.new }
        ensures empty { vec_len sends.new ≡ 0 }
        ensures ok { OnOk result (self.new ≡ record self.old { past = event.now ∷ self.old.past; done = max self.old.done (M.Event.parts.time event.now + 1) }) }
        ensures err { OnErr result (self.new ≡ self.old) }
        ensures pending { let m = simulation_of M.Event.parts M.Event.cmp (M.behaviour self.old.model) in
            OnOk result (pending.new ≡ insert_all (is_before M.Event.cmp) (m.sends (state m self.old.number self.old.past) event.now) (drop 1 pending.old)) }
        ensures kept { OnErr result (pending.new ≡ pending.old) }
        ensures full { let m = simulation_of M.Event.parts M.Event.cmp (M.behaviour self.old.model) in
            IsErrOf result CounterFull ↔ (m.full (state m self.old.number self.old.past) event.now ≡ true) }
    {
        model_is_lawful(self.model);
        handle_least(
            self.model,
            self.number,
            &mut self.state,
            pending,
            event,
            sends,
        )?;
        self.committed.put_in_turn(*event, progress);
        self.done = self.done.max(event.time() + 1);
        Ok(())
    }

    /// What it has committed is what the sequential run has handled of it, and takes no memory any more.
    pub(crate) fn forget(&mut self, progress: Progress)
        requires turn { let m = simulation_of M.Event.parts M.Event.cmp (M.behaviour self.old.model) in
            only m self.old.number (log_after m progress.since progress.turns) ≡ self.old.past }
        ensures { self.new ≡ self.old }
    {
        self.committed.forget(progress);
    }
}

/// The last one of a list.
pub(crate) fn last_of<T: Copy>(items: &[T]) -> Option<T>
    ensures { result ≡ slice_get (reverse items.now) 0 }
{
    items.last().copied()
}

/// Whether one of the steps is of this event.
fn is_among<E: Timed, N: Copy>(steps: &[Done<E, N>], event: &E) -> bool
    ensures { result ≡ list_any (λ d. is_same E.cmp event.now d.event) steps.now }
{
    steps.iter().any(|step| event.cmp(&step.event).is_eq())
}

/// How many steps, from the first on, are all of events before a time, in ticks.
fn first_before<E: Timed, N: Copy>(steps: &[Done<E, N>], time: u64) -> usize
    ensures value { result ≡ prefix_len (λ d. nat_lt (E.parts.time d.event) time) steps.now }
    ensures within { result ≤ length steps.now }
{
    steps
        .iter()
        .take_while(|step| step.event.time() < time)
        .count()
}

/// Drops the first steps, so many.
fn drop_first<E: Timed, N: Copy>(steps: &mut Vec<Done<E, N>>, count: usize)
    requires { count ≤ vec_len steps.old }
    ensures { steps.new.items ≡ drop count steps.old.items }
{
    let left = steps.len() - count;
    steps.rotate_left(count);
    steps.truncate(left);
}

/// Handles an event, and keeps its note. What is committed tells the contract what the process knows.
#[inline(always)]
fn advance<M: ProcessModel>(
    model: &M,
    number: u32,
    committed: &Committed<'_, M>,
    done: u64,
    state: &mut M::State,
    steps: &mut Vec<Done<M::Event, M::Note>>,
    event: M::Event,
    sends: &mut Vec<M::Event>,
) -> Result<(), Refused>
    requires own { M.is_state model.now number state.old }
    requires past { IsPast (simulation_of M.Event.parts M.Event.cmp (M.behaviour model.now)) (M.behaviour model.now).latest (M.is_note model.now) number committed.now.past (M.known state.old) done steps.old.items }
    requires home { M.Event.parts.dst event ≡ number }
    requires suits { (M.behaviour model.now).suits event ≡ true }
    requires time { M.Event.parts.time event < (M.behaviour model.now).latest }
    requires room { vec_len sends.old + (M.behaviour model.now).most ≤ vec_capacity sends.old }
    ensures own { M.is_state model.now number state.new }
    ensures past { IsPast (simulation_of M.Event.parts M.Event.cmp (M.behaviour model.now)) (M.behaviour model.now).latest (M.is_note model.now) number committed.now.past (M.known state.new) done steps.new.items }
    ensures ok { OnOk result (events_of (reverse steps.new.items) ≡ event ∷ events_of (reverse steps.old.items)) }
    ensures kept { OnErr result (steps.new.items ≡ steps.old.items) }
    ensures sends { OnOk result (sends.new.items ≡ sends.old.items ++ (M.behaviour model.now).sends (M.known state.old) event) }
    ensures unsent { OnErr result (sends.new.items ≡ sends.old.items) }
    ensures capacity { vec_capacity sends.old ≤ vec_capacity sends.new }
    ensures full { IsErrOf result CounterFull ↔ ((M.behaviour model.now).full (M.known state.old) event ≡ true) }
{
    let before = sends.len();
    let note = model.forward(number, state, &event, sends)?;
    match steps.push(Done { event, note }) {
        Ok(()) => Ok(()),
        Err(_) => {
            model.take_back(number, state, &event, note);
            sends.truncate(before);
            Err(Refused::Memory)
        }
    }
}

/// Undoes the last event, and drops its note. What is committed tells the contract what the process knows.
#[inline(always)]
fn step_back<M: ProcessModel>(
    model: &M,
    number: u32,
    committed: &Committed<'_, M>,
    done: u64,
    state: &mut M::State,
    steps: &mut Vec<Done<M::Event, M::Note>>,
    sends: &mut Vec<M::Event>,
)
    requires own { M.is_state model.now number state.old }
    requires past { IsPast (simulation_of M.Event.parts M.Event.cmp (M.behaviour model.now)) (M.behaviour model.now).latest (M.is_note model.now) number committed.now.past (M.known state.old) done steps.old.items }
    requires some { 0 < vec_len steps.old }
    requires room { vec_len sends.old + (M.behaviour model.now).most ≤ vec_capacity sends.old }
    ensures own { M.is_state model.now number state.new }
    ensures past { IsPast (simulation_of M.Event.parts M.Event.cmp (M.behaviour model.now)) (M.behaviour model.now).latest (M.is_note model.now) number committed.now.past (M.known state.new) done steps.new.items }
    ensures capacity { vec_capacity sends.old ≤ vec_capacity sends.new }
    ensures undone { let m = simulation_of M.Event.parts M.Event.cmp (M.behaviour model.now) in
        IsUndone m number committed.now.past (events_of (reverse steps.old.items)) (events_of (reverse steps.new.items)) sends.old.items sends.new.items }
{
    let step = steps.take_last();
    model.reverse(number, state, &step.event, step.note, sends);
}
