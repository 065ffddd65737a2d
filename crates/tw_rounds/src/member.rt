//! A logical process with what its share has to send on.

ghost use Rattle.std.specs.Prelude.{ℕ, ◌+◌, ◌≡◌, ◌<◌, ◌≤◌, ◌++◌, ◌∷◌, [], true, drop, vec_capacity, vec_len, IfOk, IsErrOf, OnErr, OnOk};
ghost use Rattle.std.specs.Bool.{OnTrue};
ghost use Rattle.tw_core.specs.Steps.{IsRolledBack, after_arrival};
ghost use Rattle.tw_engine.specs.Past.{log_after};
ghost use Rattle.tw_engine.specs.Process.{IsSameProcess, handled_in_turn, process_core};
ghost use Rattle.tw_pending.specs.Order.{is_before};
ghost use Rattle.tw_process.specs.Behaviour.{simulation_of};
ghost use Rattle.tw_process.specs.declared.refused.Refused.TheVariants.{CounterFull};
ghost use Rattle.tw_rounds.specs.Members.{IsFullBefore, IsSettled, IsSound, KeepsTo, awaiting, handed, beginning_of, place_of, raised, sent_on, taken_out};
ghost use Rattle.tw_rounds.specs.Shares.{on_way};
ghost use Rattle.tw_rounds.specs.Times.{earliest};
ghost use Rattle.tw_rule.specs.Place.{NoneLooseBefore};
ghost use Rattle.tw_sim.specs.Ordered.{insert_all};
ghost use Rattle.tw_sim.specs.Simulation.{IsLawful, only, state, times};

use crate::counts::Counts;
use crate::sent::Sent;
use std::alloc::{AllocError, Global};
use std::marker::Model;
use std::mem;
use tw_core::Refusal;
use tw_engine::{LogicalProcess, Progress, Stopped, Unreceived};
use tw_pending::Pending;
use tw_process::{ProcessModel, Refused, Timed};
use tw_sim::Signed;

/// A process. The first one of a share keeps what the share has to send on, between its turns.
#[derive(Drop)]
pub(crate) struct Member<'a, M: ProcessModel> {
    process: LogicalProcess<'a, M>,
    sent: Sent<M::Event>,
    least: u64,
}

impl<'a, M: ProcessModel> Model for Member<'a, M> {
    ghost use Rattle.std.specs.Prelude.{[]};
    ghost use Rattle.tw_rounds.specs.Members.{Mailed};
    ghost use Rattle.tw_rounds.specs.Shares.{on_way};

    ghost Value = { Mailed M M.Event };

    ghost view = { λ a. record { process = a.process; mail = []; outbox = on_way a.sent; least = a.least } };
}

impl<'a, M: ProcessModel> Member<'a, M> {
    /// The process of this number, before its opening events.
    pub(crate) fn begin(
        alloc: Global,
        model: &'a M,
        number: u32,
    ) -> Result<Member<'a, M>, AllocError>
        requires { number < (M.behaviour model.now).processes }
        ensures { IfOk result (λ x. x ≡ beginning_of model.now number) }
    {
        let process = LogicalProcess::begin(alloc, model, number)?;
        Ok(Member {
            process,
            sent: Sent::new(alloc),
            least: 0,
        })
    }

    /// An event waits for it. Where there is no memory nothing changes.
    pub(crate) fn add_pending(&mut self, event: M::Event) -> Result<(), AllocError>
        requires own { M.Event.parts.dst event ≡ self.old.process.number }
        requires suit { (M.behaviour self.old.process.model).suits event ≡ true }
        ensures ok { OnOk result (self.new ≡ awaiting (simulation_of M.Event.parts M.Event.cmp (M.behaviour self.old.process.model)) event self.old) }
        ensures err { OnErr result (self.new ≡ self.old) }
    {
        self.process.add_pending(event)
    }

    /// Its process.
    pub(crate) fn process(&self) -> &LogicalProcess<'a, M>
        ensures { result.now ≡ self.now.process }
    {
        &self.process
    }

    /// What its share did in the last round.
    pub(crate) fn counts(&self) -> Counts {
        self.sent.counts
    }

    /// Why one of its share did not go on in the last round.
    pub(crate) fn refused(&self) -> Option<Refused> {
        self.sent.refused
    }

    /// Handles an event in the sequential run's own turn, and commits it at once. After an error all is as it was.
    #[inline(always)]
    pub(crate) fn handle_in_turn(
        &mut self,
        event: &M::Event,
        progress: Progress,
        pending: &mut Pending<M::Event>,
        sends: &mut Vec<M::Event>,
    ) -> Result<(), Refused>
        requires settled { self.old.process.ahead ≡ [] }
        requires own { M.Event.parts.dst event.now ≡ self.old.process.number }
        requires suits { (M.behaviour self.old.process.model).suits event.now ≡ true }
        requires time { M.Event.parts.time event.now < (M.behaviour self.old.process.model).latest }
        requires turn { let m = simulation_of M.Event.parts M.Event.cmp (M.behaviour self.old.process.model) in
            only m self.old.process.number (log_after m progress.since progress.turns) ≡ event.now ∷ self.old.process.past }
        requires room { (M.behaviour self.old.process.model).most ≤ vec_capacity sends.old }
        requires empty { vec_len sends.old ≡ 0 }
        ensures room { vec_capacity sends.old ≤ vec_capacity sends.new }
        ensures empty { vec_len sends.new ≡ 0 }
        ensures ok { let m = simulation_of M.Event.parts M.Event.cmp (M.behaviour self.old.process.model) in
            OnOk result (self.new ≡ record self.old { process = handled_in_turn m event.now self.old.process }) }
        ensures err { OnErr result (self.new ≡ self.old) }
        ensures pending { let m = simulation_of M.Event.parts M.Event.cmp (M.behaviour self.old.process.model) in
            OnOk result (pending.new ≡ insert_all (is_before M.Event.cmp) (m.sends (state m self.old.process.number self.old.process.past) event.now) (drop 1 pending.old)) }
        ensures kept { OnErr result (pending.new ≡ pending.old) }
        ensures full { let m = simulation_of M.Event.parts M.Event.cmp (M.behaviour self.old.process.model) in
            IsErrOf result CounterFull → (M.behaviour self.old.process.model).full (state m self.old.process.number self.old.process.past) event.now ≡ true }
    {
        self.process.handle_in_turn(event, progress, pending, sends)
    }

    /// Copies what waits for it behind other events, in no order. Where there is no memory nothing changes.
    pub(crate) fn copy_pending(&self, events: &mut Vec<M::Event>) -> Result<(), AllocError>
        ensures ok { let m = simulation_of M.Event.parts M.Event.cmp (M.behaviour self.now.process.model) in
            OnOk result ((e : M.Event) → times m e events.new.items ≡ times m e self.now.process.pending + times m e events.old.items) }
    {
        self.process.copy_pending(events)
    }

    /// Nothing waits for it any more.
    pub(crate) fn clear_pending(&mut self)
        ensures { self.new ≡ record self.old { process = record self.old.process { pending = [] } } }
    {
        self.process.clear_pending();
    }

    /// Whether all that it has handled is committed, and nothing that it has sent is left with it.
    pub(crate) fn is_settled(&self) -> bool
        ensures { OnTrue result (IsSettled self.now) }
    {
        self.process.is_settled() && self.sent.far.is_empty() && self.sent.near.is_empty()
    }

    /// It begins a round: it learns the bound, and commits.
    pub(crate) fn begin_round(&mut self, bound: u64) -> Result<(), AllocError>
        ensures kept { KeepsTo (simulation_of M.Event.parts M.Event.cmp (M.behaviour self.old.process.model)) 0 (raised bound self.old) self.new }
        ensures model { self.new.process.model ≡ self.old.process.model }
    {
        self.raise_bound(bound);
        self.commit()
    }

    /// It learns the bound.
    pub(crate) fn raise_bound(&mut self, bound: u64)
        ensures { self.new ≡ raised bound self.old }
    {
        self.process.raise_bound(bound);
    }

    /// Its events before the bound become committed.
    fn commit(&mut self) -> Result<(), AllocError>
        ensures kept { KeepsTo (simulation_of M.Event.parts M.Event.cmp (M.behaviour self.old.process.model)) 0 self.old self.new }
        ensures model { self.new.process.model ≡ self.old.process.model }
    {
        self.process.commit()?;
        Ok(())
    }

    /// It receives a message. For want of memory it may have undone some events, and has not received it.
    pub(crate) fn receive(&mut self, message: Signed<M::Event>) -> Result<(), AllocError>
        requires { (stop : ℕ) × IsSound (simulation_of M.Event.parts M.Event.cmp (M.behaviour self.old.process.model)) stop (handed message self.old) }
        ensures ok { OnOk result (KeepsTo (simulation_of M.Event.parts M.Event.cmp (M.behaviour self.old.process.model)) 0 (handed message self.old) self.new) }
        ensures err { OnErr result (KeepsTo (simulation_of M.Event.parts M.Event.cmp (M.behaviour self.old.process.model)) 0 (handed message self.old) (handed message self.new)) }
    {
        receive(&mut self.process, message)
    }

    /// It handles its next event, where that is before the limit. It is answered whether it did.
    pub(crate) fn handle_next(&mut self, limit: u64) -> Result<bool, Refused>
        requires { limit ≤ (M.behaviour self.old.process.model).latest }
        ensures kept { KeepsTo (simulation_of M.Event.parts M.Event.cmp (M.behaviour self.old.process.model)) limit self.old self.new }
        ensures model { self.new.process.model ≡ self.old.process.model }
        ensures number { self.new.process.number ≡ self.old.process.number }
        ensures full { IsErrOf result CounterFull → IsFullBefore (simulation_of M.Event.parts M.Event.cmp (M.behaviour self.old.process.model)) limit self.new.process }
    {
        match self.process.handle_next(limit) {
            Ok(()) => Ok(true),
            Err(Stopped::Memory) => Err(Refused::Memory),
            Err(Stopped::Refused(Refusal::CounterFull)) => Err(Refused::CounterFull),
            Err(Stopped::Refused(_)) => Ok(false),
        }
    }

    /// What it has sent goes behind `flight`. Where there is no memory nothing changes.
    pub(crate) fn send_out(&mut self, flight: &mut Vec<Signed<M::Event>>) -> Result<(), AllocError>
        ensures ok { OnOk result (self.new ≡ taken_out self.old) }
        ensures sent { OnOk result (flight.new.items ≡ flight.old.items ++ self.old.process.flight) }
        ensures err { OnErr result (self.new ≡ self.old) }
        ensures unsent { OnErr result (flight.new.items ≡ flight.old.items) }
    {
        self.process.move_out(flight)
    }

    /// A message is to be looked at by its share. Where there is no memory nothing changes.
    pub(crate) fn keep(&mut self, message: Signed<M::Event>) -> Result<(), AllocError>
        ensures ok { OnOk result (self.new ≡ record self.old { outbox = self.old.outbox ++ message ∷ [] }) }
        ensures err { OnErr result (self.new ≡ self.old) }
    {
        self.sent.near.push(message)?;
        Ok(())
    }

    /// The time of its first pending event, in ticks, or `u64::MAX`.
    pub(crate) fn next_time(&self) -> u64 {
        self.process.next_time().unwrap_or(u64::MAX)
    }

    /// What it has to send on is taken out of it, for a new round.
    pub(crate) fn take_sent(&mut self) -> Sent<M::Event>
        ensures value { on_way result ≡ self.old.outbox }
        ensures rest { self.new ≡ sent_on self.old }
    {
        let alloc = *self.sent.far.allocator();
        let sent = mem::replace(&mut self.sent, Sent::new(alloc));
        Sent {
            counts: Counts::default(),
            refused: None,
            ..sent
        }
    }

    /// It has this to send on, and nothing else. Want of memory is noted.
    pub(crate) fn end_round(&mut self, sent: Sent<M::Event>, wants_memory: bool)
        ensures { self.new ≡ record self.old { outbox = on_way sent } }
    {
        self.sent = sent;
        if wants_memory {
            self.sent.refused = Some(Refused::Memory);
        }
    }

    /// It tells this time, in ticks, for its share.
    pub(crate) fn put_least(&mut self, least: u64)
        ensures { self.new ≡ record self.old { least = least } }
    {
        self.least = least;
    }

    /// The time, in ticks, that it tells for its share.
    pub(crate) fn least(&self) -> u64
        ensures { result ≡ self.now.least }
    {
        self.least
    }

    /// What it has to send on goes behind `flight`. Where there is no memory nothing changes.
    pub(crate) fn send_on(&mut self, flight: &mut Vec<Signed<M::Event>>) -> Result<(), AllocError>
        ensures ok { OnOk result (self.new ≡ sent_on self.old) }
        ensures sent { OnOk result (flight.new.items ≡ flight.old.items ++ self.old.outbox) }
        ensures err { OnErr result (self.new ≡ self.old) }
        ensures unsent { OnErr result (flight.new.items ≡ flight.old.items) }
    {
        let count = self.sent.far.len().saturating_add(self.sent.near.len());
        flight.reserve(count)?;
        flight.append(&mut self.sent.far)?;
        flight.append(&mut self.sent.near)
    }

    /// A time, in ticks, that is not beyond this one, nor beyond those of all that it has to handle, to receive or to
    /// send. It is the latest one.
    pub(crate) fn least_time(&self, time: u64) -> u64
        ensures most { result ≤ time }
        ensures loose { let m = simulation_of M.Event.parts M.Event.cmp (M.behaviour self.now.process.model) in
            IsLawful m → NoneLooseBefore m result (place_of self.now) }
    {
        let far = least_among(&self.sent.far, time);
        let near = least_among(&self.sent.near, far);
        let sent = least_among(self.process.flight(), near);
        self.process.least_time(sent)
    }
}

/// A process receives a message that is for it, suits it and is not before its bound.
fn receive<M: ProcessModel>(
    process: &mut LogicalProcess<'_, M>,
    message: Signed<M::Event>,
) -> Result<(), AllocError>
    requires own { M.Event.parts.dst message.event ≡ process.old.number }
    requires late { process.old.bound ≤ M.Event.parts.time message.event }
    requires suits { (M.behaviour process.old.model).suits message.event ≡ true }
    ensures ok { let m = simulation_of M.Event.parts M.Event.cmp (M.behaviour process.old.model) in
        (stop : ℕ) → OnOk result (process_core stop process.new ≡ after_arrival m (process_core stop process.old) message) }
    ensures err { let m = simulation_of M.Event.parts M.Event.cmp (M.behaviour process.old.model) in
        (stop : ℕ) → OnErr result (IsRolledBack m message.event (process_core stop process.old) (process_core stop process.new)) }
    ensures same { IsSameProcess process.old process.new }
{
    match process.receive(message) {
        Ok(()) => Ok(()),
        Err(Unreceived::Memory) => Err(AllocError),
        Err(Unreceived::Rejected(_)) => unreachable!(),
    }
}

/// The least of a time, in ticks, and of the times of messages.
pub(crate) fn least_among<E: Timed>(messages: &[Signed<E>], time: u64) -> u64
    ensures { result ≡ earliest E.parts.time messages.now time }
{
    let mut least = time;
    for message in messages {
        least = least.min(message.event.time());
    }
    least
}
