//! A logical process.

ghost use Rattle.std.specs.Prelude.{ℕ, ◌≡◌, ◌<◌, ◌≤◌, ◌↔◌, ◌∷◌, ◌++◌, [], true, max, nat_lt, slice_get, IfOk, IsErrOf, OnErr, OnOk, Ok, Err};
ghost use Rattle.std.specs.Bool.{OnFalse};
ghost use Rattle.std.specs.List.{AllByRecursion};
ghost use Rattle.std.specs.Option.{option_map};
ghost use Rattle.tw_core.specs.Steps.{first_pending, handle, least_time, take_out, with_commit};
ghost use Rattle.tw_core.specs.declared.refusal.Refusal.{Refusal as AnyRefusal};
ghost use Rattle.tw_engine.specs.Past.{not_before};
ghost use Rattle.tw_engine.specs.Process.{AreOwn, IsSameProcess, committed_at, history, process_core};
ghost use Rattle.tw_engine.specs.declared.stopped.Stopped.TheVariants as stopped;
ghost use Rattle.tw_process.specs.Behaviour.{simulation_of};
ghost use Rattle.tw_sim.specs.Seq.{insert, insert_all};
ghost use Rattle.tw_sim.specs.Simulation.{IsFalling, IsLawful, below, only, state, times};

mod alone;
mod undoing;

use crate::past::Past;
use crate::steps::handle_first;
use crate::stopped::Stopped;
use std::alloc::{AllocError, Global};
use std::marker::Model;
use std::mem;
use tw_pending::EventHeap;
use tw_process::laws::model_is_lawful;
use tw_process::{ProcessModel, Timed};
use tw_sim::Signed;

/// A logical process of a model: its state, the events that wait for it, those that it has handled, the antimessages
/// that came before their message, and the messages that it has sent.
///
/// It takes back at once what undone events had sent (aggressive cancellation). It may handle 2^64 events that it has
/// not committed, as far as there is memory.
#[derive(Drop)]
pub struct LogicalProcess<'a, M: ProcessModel> {
    past: Past<'a, M>,
    pending: EventHeap<M::Event>,
    kept: EventHeap<M::Event>,
    flight: Vec<Signed<M::Event>>,
    sends: Vec<M::Event>,
    bound: u64,
}

impl<'a, M: ProcessModel> Model for LogicalProcess<'a, M> {
    ghost use Rattle.std.specs.Prelude.{◌≡◌, ◌≤◌, vec_capacity, vec_len};
    ghost use Rattle.tw_process.specs.Behaviour.{simulation_of};
    ghost use Rattle.tw_engine.specs.Past.{not_before};
    ghost use Rattle.tw_engine.specs.Process.{AreOwn, Logical, joined};

    ghost Value = { Logical M M.Event };

    ghost view = { λ a. joined a.past a.pending a.kept a.flight.items a.bound };

    ghost invariant = { λ a. AreOwn (simulation_of M.Event.parts M.Event.cmp (M.behaviour a.past.model)) a.past.number a.pending
        × (vec_len a.sends ≡ 0) × ((M.behaviour a.past.model).most ≤ vec_capacity a.sends) × (a.past.done ≤ a.bound) };
}

impl<'a, M: ProcessModel> LogicalProcess<'a, M> {
    /// The process of this number before its opening events: it has handled nothing, and nothing waits for it.
    pub fn begin(
        alloc: Global,
        model: &'a M,
        number: u32,
    ) -> Result<LogicalProcess<'a, M>, AllocError>
        requires { number < (M.behaviour model.now).processes }
        ensures { IfOk result (λ p. p ≡ record { model = model.now; number = number; ahead = []; past = []; pending = []; kept = []; flight = []; done = 0; bound = 0 }) }
    {
        let past = Past::new(alloc, model, number)?;
        let sends = Vec::with_capacity(alloc, model.most_sends())?;
        Ok(LogicalProcess {
            past,
            pending: EventHeap::new(alloc),
            kept: EventHeap::new(alloc),
            flight: Vec::new(alloc),
            sends,
            bound: 0,
        })
    }

    /// The process of this number, with the opening events that are for it.
    pub fn open(
        alloc: Global,
        model: &'a M,
        number: u32,
    ) -> Result<LogicalProcess<'a, M>, AllocError>
        requires { number < (M.behaviour model.now).processes }
        ensures { let m = simulation_of M.Event.parts M.Event.cmp (M.behaviour model.now) in
            IfOk result (λ p. p ≡ record { model = model.now; number = number; ahead = []; past = []; pending = insert_all m (only m number m.opening) []; kept = []; flight = []; done = 0; bound = 0 }) }
    {
        let past = Past::new(alloc, model, number)?;
        let pending = pending_of(alloc, model, number)?;
        let sends = Vec::with_capacity(alloc, model.most_sends())?;
        Ok(LogicalProcess {
            past,
            pending,
            kept: EventHeap::new(alloc),
            flight: Vec::new(alloc),
            sends,
            bound: 0,
        })
    }

    /// Its state.
    pub fn state(&self) -> &M::State
        ensures { M.known result.now ≡ state (simulation_of M.Event.parts M.Event.cmp (M.behaviour self.now.model)) self.now.number (history self.now) }
    {
        self.past.state()
    }

    /// The messages and antimessages that it has sent, in the order sent, and that were not taken out.
    pub fn flight(&self) -> &[Signed<M::Event>]
        ensures { result.now ≡ self.now.flight }
    {
        &self.flight
    }

    /// Takes out the messages and antimessages that it has sent, in the order sent.
    pub fn take_out(&mut self) -> Vec<Signed<M::Event>>
        ensures value { result.items ≡ self.old.flight }
        ensures rest { self.new ≡ record self.old { flight = [] } }
    {
        let alloc = *self.flight.allocator();
        mem::replace(&mut self.flight, Vec::new(alloc))
    }

    /// Moves the messages and antimessages that it has sent behind `sent`, in the order sent. Where there is no memory
    /// nothing changes.
    pub fn move_out(&mut self, sent: &mut Vec<Signed<M::Event>>) -> Result<(), AllocError>
        ensures ok { OnOk result (sent.new.items ≡ sent.old.items ++ self.old.flight) }
        ensures rest { OnOk result (self.new ≡ record self.old { flight = [] }) }
        ensures err { OnErr result (sent.new.items ≡ sent.old.items) }
        ensures unmoved { OnErr result (self.new ≡ self.old) }
    {
        sent.append(&mut self.flight)
    }

    /// The time of its first pending event, in ticks, if there is one.
    pub fn next_time(&self) -> Option<u64>
        ensures { result ≡ option_map M.Event.parts.time (slice_get self.now.pending 0) }
    {
        let event = self.pending.least()?;
        Some(event.time())
    }

    /// The bound, in ticks: nothing that comes is before it, and what was handled before it stays.
    pub fn bound(&self) -> u64
        ensures { result ≡ self.now.bound }
    {
        self.bound
    }

    /// The bound becomes the greater of itself and this one, a time in ticks (global virtual time).
    pub fn raise_bound(&mut self, bound: u64)
        ensures { self.new ≡ record self.old { bound = max self.old.bound bound } }
    {
        self.bound = self.bound.max(bound);
    }

    /// Its events below the bound, the oldest ones, become committed: they can be undone no more, and their notes are let
    /// go (fossil collection).
    ///
    /// It is the machine's own step, whatever the stop. Where its history is in order, those that can still be undone are
    /// then all that are not below the bound. Where there is no memory it is as it was.
    pub fn commit(&mut self) -> Result<(), AllocError>
        ensures ok { let m = simulation_of M.Event.parts M.Event.cmp (M.behaviour self.old.model) in
            (stop : ℕ) → OnOk result (process_core stop self.new ≡ with_commit m (process_core stop self.old) self.old.number) }
        ensures events { let m = simulation_of M.Event.parts M.Event.cmp (M.behaviour self.old.model) in OnOk result (self.new ≡ committed_at m self.old) }
        ensures past { let m = simulation_of M.Event.parts M.Event.cmp (M.behaviour self.old.model) in
            OnOk result (IsFalling m (history self.old) → self.new.past ≡ below m self.old.bound (history self.old)) }
        ensures ahead { let m = simulation_of M.Event.parts M.Event.cmp (M.behaviour self.old.model) in
            OnOk result (IsFalling m (history self.old) → self.new.ahead ≡ not_before m self.old.bound (history self.old)) }
        ensures err { OnErr result (self.new ≡ self.old) }
    {
        self.keeps_laws();
        self.past.commit(self.bound)?;
        Ok(())
    }

    /// The least of a time and of the times, in ticks, of what waits for it and of the antimessages that came before their
    /// message. Beginning with the stop, all processes and what is on its way between them give the next bound.
    pub fn least_time(&self, time: u64) -> u64
        ensures { let m = simulation_of M.Event.parts M.Event.cmp (M.behaviour self.now.model) in
            result ≡ least_time m self.now.pending (least_time m self.now.kept time) }
    {
        let model = self.past.model();
        let kept = least_of(model, &self.kept, time);
        least_of(model, &self.pending, kept)
    }

    /// Handles its first pending event, where that is before the stop, a time in ticks, at most the model's latest.
    ///
    /// It is the machine's own step, refused for the machine's own reasons. Where there is no memory it is as it was.
    pub fn handle_next(&mut self, stop: u64) -> Result<(), Stopped>
        requires { stop ≤ (M.behaviour self.old.model).latest }
        ensures ok { let m = simulation_of M.Event.parts M.Event.cmp (M.behaviour self.old.model) in
            OnOk result (handle m (process_core stop self.old) self.old.number (first_pending m (process_core stop self.old) self.old.number) ≡ Ok (process_core stop self.new)) }
        ensures refused { let m = simulation_of M.Event.parts M.Event.cmp (M.behaviour self.old.model) in
            (f : AnyRefusal) → IsErrOf result (stopped.Refused f)
            ↔ (handle m (process_core stop self.old) self.old.number (first_pending m (process_core stop self.old) self.old.number) ≡ Err f) }
        ensures err { OnErr result (self.new ≡ self.old) }
        ensures same { IsSameProcess self.old self.new }
    {
        handle_first(
            &mut self.past,
            &mut self.pending,
            &mut self.flight,
            &mut self.sends,
            stop,
        )
    }

    /// Whether it has handled this event, and can undo it.
    pub(crate) fn has_handled(&self, event: &M::Event) -> bool
        ensures { result ≡ nat_lt 0 (times (simulation_of M.Event.parts M.Event.cmp (M.behaviour self.now.model)) event.now self.now.ahead) }
    {
        self.past.has_ahead(event)
    }

    /// Tells what holds of every process. It does nothing.
    pub(crate) fn keeps_laws(&self)
        ensures lawful { IsLawful (simulation_of M.Event.parts M.Event.cmp (M.behaviour self.now.model)) }
        ensures early { AllByRecursion (λ e. M.Event.parts.time e < self.now.bound) self.now.past }
        ensures done { self.now.done ≤ self.now.bound }
    {
        self.past.keeps_laws();
    }

    /// Its model.
    pub(crate) fn model(&self) -> &'a M
        ensures { result.now ≡ self.now.model }
    {
        self.past.model()
    }

    /// Its number.
    pub(crate) fn number(&self) -> u32
        ensures { result ≡ self.now.number }
    {
        self.past.number()
    }

    /// An event becomes pending, as an opening event does. Where there is no memory nothing changes.
    pub fn add_pending(&mut self, event: M::Event) -> Result<(), AllocError>
        requires own { M.Event.parts.dst event ≡ self.old.number }
        requires suit { (M.behaviour self.old.model).suits event ≡ true }
        ensures ok { let m = simulation_of M.Event.parts M.Event.cmp (M.behaviour self.old.model) in
            OnOk result (self.new ≡ record self.old { pending = insert m event self.old.pending }) }
        ensures err { OnErr result (self.new ≡ self.old) }
    {
        self.pending.insert(event)?;
        Ok(())
    }

    /// An event is pending once less, where it is pending. Tells whether it was.
    pub(crate) fn take_pending(&mut self, event: &M::Event) -> bool
        ensures value { result ≡ nat_lt 0 (times (simulation_of M.Event.parts M.Event.cmp (M.behaviour self.old.model)) event.now self.old.pending) }
        ensures without { let m = simulation_of M.Event.parts M.Event.cmp (M.behaviour self.old.model) in
            self.new ≡ record self.old { pending = take_out m event.now self.old.pending } }
        ensures none { OnFalse result (self.new ≡ self.old) }
    {
        self.pending.remove(event)
    }

    /// An antimessage is kept.
    pub(crate) fn add_kept(&mut self, event: M::Event) -> Result<(), AllocError>
        ensures ok { let m = simulation_of M.Event.parts M.Event.cmp (M.behaviour self.old.model) in
            OnOk result (self.new ≡ record self.old { kept = insert m event self.old.kept }) }
        ensures err { OnErr result (self.new ≡ self.old) }
    {
        self.kept.insert(event)?;
        Ok(())
    }

    /// An antimessage is kept once less, where it is kept. Tells whether it was.
    pub(crate) fn take_kept(&mut self, event: &M::Event) -> bool
        ensures value { result ≡ nat_lt 0 (times (simulation_of M.Event.parts M.Event.cmp (M.behaviour self.old.model)) event.now self.old.kept) }
        ensures without { let m = simulation_of M.Event.parts M.Event.cmp (M.behaviour self.old.model) in
            self.new ≡ record self.old { kept = take_out m event.now self.old.kept } }
        ensures none { OnFalse result (self.new ≡ self.old) }
    {
        self.kept.remove(event)
    }
}

/// The least of a time, in ticks, and of the times of some events.
fn least_of<M: ProcessModel>(model: &M, events: &EventHeap<M::Event>, time: u64) -> u64
    ensures { result ≡ least_time (simulation_of M.Event.parts M.Event.cmp (M.behaviour model.now)) events.now time }
{
    model_is_lawful(model);
    match events.least() {
        Some(event) => event.time().min(time),
        None => time,
    }
}

/// The opening events for a process, the least first.
fn pending_of<M: ProcessModel>(
    alloc: Global,
    model: &M,
    number: u32,
) -> Result<EventHeap<M::Event>, AllocError>
    ensures own { IfOk result (λ p. AreOwn (simulation_of M.Event.parts M.Event.cmp (M.behaviour model.now)) number p) }
    ensures pending { let m = simulation_of M.Event.parts M.Event.cmp (M.behaviour model.now) in IfOk result (λ p. p ≡ insert_all m (only m number m.opening) []) }
{
    model_is_lawful(model);
    let mut pending = EventHeap::new(alloc);
    let openings = model.openings(alloc)?;
    for event in &openings {
        put_own(model, number, &mut pending, *event)?;
    }
    Ok(pending)
}

/// Adds an event to those that wait for a process, where it is for this one.
fn put_own<M: ProcessModel>(
    model: &M,
    number: u32,
    pending: &mut EventHeap<M::Event>,
    event: M::Event,
) -> Result<(), AllocError>
    requires suits { (M.behaviour model.now).suits event ≡ true }
    requires own { AreOwn (simulation_of M.Event.parts M.Event.cmp (M.behaviour model.now)) number pending.old }
    ensures own { OnOk result (AreOwn (simulation_of M.Event.parts M.Event.cmp (M.behaviour model.now)) number pending.new) }
    ensures pending { let m = simulation_of M.Event.parts M.Event.cmp (M.behaviour model.now) in
        OnOk result (pending.new ≡ insert_all m (only m number (event ∷ [])) pending.old) }
{
    if event.dst() != number {
        return Ok(());
    }
    pending.insert(event)?;
    Ok(())
}
