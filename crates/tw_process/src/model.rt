//! What is simulated, as its user writes it.

ghost use Rattle.std.specs.Prelude.{◌≡◌, ◌+◌, ◌<◌, ◌≤◌, ◌++◌, ◌↔◌, ℕ, true, false, IfOk, IsErrOf, OnErr, OnOk, vec_capacity, vec_len};
ghost use Rattle.tw_process.specs.Behaviour.{Behaviour, IsBehaved, simulation_of};
ghost use Rattle.tw_process.specs.declared.limits.TheConstants.{LATEST};
ghost use Rattle.tw_process.specs.declared.refused.Refused.TheVariants.{CounterFull};
ghost use Rattle.tw_sim.specs.Simulation.{IsNumbered};

use crate::refused::Refused;
use crate::timed::Timed;
use std::alloc::{AllocError, Global};

/// A model: logical processes that handle events at times, each by its own state, and can take them back.
///
/// A value of it is what all processes share and none changes, as a network or the rates of a queue. What it does is
/// said by its `behaviour`, and each handler's contract says that it does that. A handler is lent one state: a
/// process acts on others by what it sends alone.
pub trait ProcessModel {
    /// A process, as the code keeps it.
    type State: Drop;

    /// What a process knows, as contracts see it. No value of it need be made; where `State` says no more than that,
    /// it is `State`.
    type Known;

    /// What happens at a process.
    type Event: Timed;

    /// What the reverse handler needs, beside the event and the state that it left.
    type Note: Copy;

    /// What each process does.
    ghost behaviour: { Self → Behaviour Self.Known Self.Event };

    /// Whether this is a state of the process of this number.
    ghost is_state: { Self → ℕ → Self.State → Type 0 };

    /// What a process knows in a state.
    ghost known: { Self.State → Self.Known };

    /// Whether handling this event, where a process knows this, gives this note.
    ghost is_note: { Self → Self.Known → Self.Event → Self.Note → Type 0 };

    /// Tells what holds of every model of this type. It does nothing.
    fn keeps_laws(&self)
        ensures behaved { IsBehaved (simulation_of Self.Event.parts Self.Event.cmp (behaviour self.now)) (behaviour self.now).lookahead }
        ensures numbered { IsNumbered (simulation_of Self.Event.parts Self.Event.cmp (behaviour self.now)) }
        ensures latest { (behaviour self.now).latest ≤ LATEST };

    /// How many processes there are. They are numbered from 0.
    fn processes(&self) -> u32
        ensures { result ≡ (behaviour self.now).processes };

    /// How many events one event sends at most.
    fn most_sends(&self) -> usize
        ensures { result ≡ (behaviour self.now).most };

    /// How much later than the event that sends it every event is at least, in ticks.
    fn lookahead(&self) -> u64
        ensures { result ≡ (behaviour self.now).lookahead };

    /// No event at or after this time is handled, in ticks. It is at most 2^63.
    fn latest(&self) -> u64
        ensures { result ≡ (behaviour self.now).latest };

    /// A process as it begins.
    fn begin(&self, alloc: Global, number: u32) -> Result<Self::State, AllocError>
        requires { number < (behaviour self.now).processes }
        ensures state { IfOk result (λ s. is_state self.now number s) }
        ensures known { IfOk result (λ s. known s ≡ (behaviour self.now).start number) };

    /// The events that nobody sent.
    fn openings(&self, alloc: Global) -> Result<Vec<Self::Event>, AllocError>
        ensures { IfOk result (λ events. events.items ≡ (behaviour self.now).opening) };

    /// Whether an event suits its receiver.
    fn does_suit(&self, event: &Self::Event) -> bool
        ensures { result ≡ (behaviour self.now).suits event.now };

    /// The process of this number handles an event: its state changes. After a refusal it is as it was.
    fn receive(
        &self,
        number: u32,
        state: &mut Self::State,
        event: &Self::Event,
    ) -> Result<Self::Note, Refused>
        requires own { is_state self.now number state.old }
        requires home { Self.Event.parts.dst event.now ≡ number }
        requires suits { (behaviour self.now).suits event.now ≡ true }
        requires time { Self.Event.parts.time event.now < (behaviour self.now).latest }
        ensures own { is_state self.now number state.new }
        ensures state { OnOk result (known state.new ≡ (behaviour self.now).after (known state.old) event.now) }
        ensures note { IfOk result (λ r. is_note self.now (known state.old) event.now r) }
        ensures err { OnErr result (state.new ≡ state.old) }
        ensures full { IsErrOf result CounterFull ↔ ((behaviour self.now).full (known state.old) event.now ≡ true) };

    /// What handling an event sends, by the state that it left and its note, goes behind `sends`, which has room for it.
    fn send(
        &self,
        number: u32,
        state: &Self::State,
        event: &Self::Event,
        note: Self::Note,
        sends: &mut Vec<Self::Event>,
    )
        requires own { is_state self.now number state.now }
        requires home { Self.Event.parts.dst event.now ≡ number }
        requires suits { (behaviour self.now).suits event.now ≡ true }
        requires time { Self.Event.parts.time event.now < (behaviour self.now).latest }
        requires room { vec_len sends.old + (behaviour self.now).most ≤ vec_capacity sends.old }
        requires note { (before : Self.Known) × is_note self.now before event.now note
            × (known state.now ≡ (behaviour self.now).after before event.now)
            × ((behaviour self.now).full before event.now ≡ false) }
        ensures capacity { vec_capacity sends.old ≤ vec_capacity sends.new }
        ensures sends { (before : Self.Known) → is_note self.now before event.now note
            → known state.now ≡ (behaviour self.now).after before event.now
            → sends.new.items ≡ sends.old.items ++ (behaviour self.now).sends before event.now };

    /// The way back: from the state that handling the event left, with its note, to what the process knew before. It
    /// takes no memory.
    fn take_back(&self, number: u32, state: &mut Self::State, event: &Self::Event, note: Self::Note)
        requires own { is_state self.now number state.old }
        requires home { Self.Event.parts.dst event.now ≡ number }
        requires suits { (behaviour self.now).suits event.now ≡ true }
        requires note { (before : Self.Known) × is_note self.now before event.now note
            × (known state.old ≡ (behaviour self.now).after before event.now) }
        ensures own { is_state self.now number state.new }
        ensures known { (before : Self.Known) → is_note self.now before event.now note
            → known state.old ≡ (behaviour self.now).after before event.now → known state.new ≡ before };

    /// The forward handler: the process of this number handles an event. Its state changes, and what it sends goes
    /// behind `sends`, which has room for it. After a refusal both are as they were.
    #[inline(always)]
    fn forward(
        &self,
        number: u32,
        state: &mut Self::State,
        event: &Self::Event,
        sends: &mut Vec<Self::Event>,
    ) -> Result<Self::Note, Refused>
        requires own { is_state self.now number state.old }
        requires home { Self.Event.parts.dst event.now ≡ number }
        requires suits { (behaviour self.now).suits event.now ≡ true }
        requires time { Self.Event.parts.time event.now < (behaviour self.now).latest }
        requires room { vec_len sends.old + (behaviour self.now).most ≤ vec_capacity sends.old }
        ensures own { is_state self.now number state.new }
        ensures state { OnOk result (known state.new ≡ (behaviour self.now).after (known state.old) event.now) }
        ensures sends { OnOk result (sends.new.items ≡ sends.old.items ++ (behaviour self.now).sends (known state.old) event.now) }
        ensures note { IfOk result (λ r. is_note self.now (known state.old) event.now r) }
        ensures err { OnErr result (state.new ≡ state.old) }
        ensures unsent { OnErr result (sends.new.items ≡ sends.old.items) }
        ensures capacity { vec_capacity sends.old ≤ vec_capacity sends.new }
        ensures full { IsErrOf result CounterFull ↔ ((behaviour self.now).full (known state.old) event.now ≡ true) }
    {
        let note = self.receive(number, state, event)?;
        self.send(number, state, event, note, sends);
        Ok(note)
    }

    /// The reverse handler: the way back, and what handling the event had sent goes behind `sends` once more, which
    /// has room for it.
    #[inline(always)]
    fn reverse(
        &self,
        number: u32,
        state: &mut Self::State,
        event: &Self::Event,
        note: Self::Note,
        sends: &mut Vec<Self::Event>,
    )
        requires own { is_state self.now number state.old }
        requires home { Self.Event.parts.dst event.now ≡ number }
        requires suits { (behaviour self.now).suits event.now ≡ true }
        requires time { Self.Event.parts.time event.now < (behaviour self.now).latest }
        requires room { vec_len sends.old + (behaviour self.now).most ≤ vec_capacity sends.old }
        requires note { (before : Self.Known) × is_note self.now before event.now note
            × (known state.old ≡ (behaviour self.now).after before event.now)
            × ((behaviour self.now).full before event.now ≡ false) }
        ensures own { is_state self.now number state.new }
        ensures known { (before : Self.Known) → is_note self.now before event.now note
            → known state.old ≡ (behaviour self.now).after before event.now → known state.new ≡ before }
        ensures capacity { vec_capacity sends.old ≤ vec_capacity sends.new }
        ensures sends { (before : Self.Known) → is_note self.now before event.now note
            → known state.old ≡ (behaviour self.now).after before event.now
            → sends.new.items ≡ sends.old.items ++ (behaviour self.now).sends before event.now }
    {
        self.send(number, state, event, note, sends);
        self.take_back(number, state, event, note);
    }
}
