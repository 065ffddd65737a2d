//! A router with the events that it has handled (docs/DECISIONS.md, "The machine").

ghost use Rattle.std.specs.Prelude.{◌≡◌, ◌+◌, ◌*◌, ◌^◌, ◌≤◌, ◌<◌, ◌↔◌, ◌++◌, ◌∷◌, [], ℕ, List, false, true, length, map, slice_get, vec_capacity, vec_len, IfOk, IsErrOf, IsOk, IsTrue, OnErr, OnOk};
ghost use Rattle.std.specs.List.{AllByRecursion};
ghost use Rattle.std.specs.Option.{option_copied};
ghost use Rattle.tw_event.specs.declared.event.Event.{Event as AnEvent};
ghost use Rattle.tw_core.specs.Steps.{held_back, is_newest, sent_back, still_held, to_send};
ghost use Rattle.tw_model.specs.Case.{Case as ACase, simulation};
ghost use Rattle.tw_handlers.specs.Calls.{counter_full, is_full_at};
ghost use Rattle.tw_model.specs.declared.memory.OrMemory.TheVariants as or_memory;
ghost use Rattle.tw_model.specs.Effect.{fits};
ghost use Rattle.tw_model.specs.Rules.{IsNet};
ghost use Rattle.tw_event.specs.Order.{event_before, event_same};
ghost use Rattle.tw_model.specs.declared.limits.TheConstants.{MOST_LINKS};
ghost use Rattle.tw_held.specs.Held.{AreFrom};
ghost use Rattle.tw_sim.specs.declared.machine.Cancel.TheVariants.{Aggressive, Lazy};
ghost use Rattle.tw_sim.specs.Ordered.{insert_all, times};
ghost use Rattle.tw_shard.specs.Timeline.{history, opening_timeline, router_of as router_of_timeline, sends_after, signed};

mod commit;
mod cut;

use crate::ahead::Ahead;
use crate::past::Past;
use smallvec::SmallVec;
use std::alloc::{AllocError, Global};
use std::marker::Model;
use tw_core::limits::OPENING_ROOM;
use tw_event::Event;
use tw_handlers::{CounterFull, UndoRecord, handle_fitting, take_back, undo};
use tw_held::HeldSends;
use tw_instance::Case;
use tw_model::OrMemory;
use tw_model::limits::MOST_LINKS;
use tw_router::Router;
use tw_sim::{Cancel, Signed};

/// An event that was handled, and what undoing it needs.
#[derive(Clone, Copy)]
pub(crate) struct HandledEvent {
    pub(crate) event: Event,
    note: UndoRecord,
}

/// A router with the events that it has handled and not undone. Committed ones cannot be undone, so
/// that they keep no record.
#[derive(Drop)]
pub(crate) struct Timeline<'a> {
    router: Router<'a>,
    past: Past<'a>,
    ahead: Ahead,
    // How many events `ahead` may have, whatever it has memory for.
    room: usize,
    // The time of the last event of `past` that changed the router's path, or 0.
    past_change: u64,
}

impl<'a> Model for Timeline<'a> {
    ghost use Rattle.tw_shard.specs.Timeline as spec;

    ghost Value = { spec.Timeline };

    ghost view = { spec.timeline_of };

    ghost invariant = { spec.IsTimeline };
}

impl<'a> Timeline<'a> {
    /// The router of this number before it has handled anything, which retains its committed events or lets
    /// them go.
    pub(crate) fn open(
        alloc: Global,
        case: &'a Case,
        node: u32,
        retains: bool,
    ) -> Result<Timeline<'a>, AllocError>
        requires { node < case.now.net.nodes }
        ensures { IfOk result (λ timeline. timeline ≡ opening_timeline case.now retains node) }
    {
        let ahead = Ahead::new(alloc)?;
        let router = Router::new(alloc, case.instance(), node)?;
        Ok(Timeline {
            router,
            past: Past::new(alloc, case, node, retains),
            ahead,
            room: OPENING_ROOM,
            past_change: 0,
        })
    }

    /// The router as its history leaves it.
    pub(crate) fn router(&self) -> &Router<'a>
        ensures { result.now ≡ router_of_timeline self.now }
    {
        &self.router
    }

    /// The bound at the latest commit.
    pub(crate) fn done(&self) -> u64
        ensures { result ≡ self.now.done }
    {
        self.past.done()
    }

    /// The event that it handled last and has not undone, whether committed or not.
    #[inline(always)]
    pub(crate) fn newest(&self) -> Option<&Event>
        ensures value { option_copied result ≡ slice_get (history self.now) 0 }
        ensures past { AllByRecursion (λ e. e.time < self.now.done) self.now.past }
    {
        match self.ahead.last() {
            Some(handled) => Some(&handled.event),
            None => self.past.last(),
        }
    }

    /// The event that it handled last, where it can undo it.
    pub(crate) fn newest_ahead(&self) -> Option<&Event>
        ensures value { option_copied result ≡ slice_get self.now.ahead 0 }
        ensures past { AllByRecursion (λ e. e.time < self.now.done) self.now.past }
    {
        let newest = self.ahead.last()?;
        Some(&newest.event)
    }

    /// Whether it has handled this event and can undo it.
    pub(crate) fn has_ahead(&self, event: &Event) -> bool
        ensures value { IsTrue result ↔ (0 < times event_same event.now self.now.ahead) }
        ensures past { AllByRecursion (λ e. e.time < self.now.done) self.now.past }
    {
        self.ahead.has(event)
    }

    /// Whether it may handle one more event before it commits.
    #[inline(always)]
    pub(crate) fn has_room(&self) -> bool
        ensures { IsTrue result ↔ (length self.now.ahead < self.now.room) }
    {
        self.ahead.len() < self.room
    }

    /// It gets twice the room, which takes no memory. It fails where that is no number.
    pub(crate) fn widen(&mut self) -> Result<(), AllocError>
        ensures ok { OnOk result (self.new ≡ record self.old { room = 2 * self.old.room }) }
        ensures err { OnErr result (self.new ≡ self.old) }
        ensures free { self.old.room < 2 ^ 63 → IsOk result }
    {
        self.room = self.room.checked_mul(2).ok_or(AllocError)?;
        Ok(())
    }

    /// Whether this is the event that it handled last and has not undone.
    #[inline(always)]
    pub(crate) fn is_newest(&self, event: &Event) -> bool
        ensures { (case : ACase) → result ≡ is_newest (simulation case) event.now (history self.now) }
    {
        // Of most events this is all.
        if self.ahead.ends_otherwise(event) {
            return false;
        }
        match self.newest() {
            Some(newest) => *event == *newest,
            None => false,
        }
    }

    /// Handles an event, and posts what it sends and is not held. What is sent again is held no more.
    pub(crate) fn handle(
        &mut self,
        event: &Event,
        sends: &mut SmallVec<Event, 8>,
        held: &mut HeldSends,
        outgoing: &mut Vec<Signed<Event>>,
    ) -> Result<(), OrMemory<CounterFull>>
        requires { IsTrue (fits self.old.net self.old.node event.now) }
        ensures ok { OnOk result (self.new ≡ record self.old { ahead = event.now ∷ self.old.ahead }) }
        ensures sends { OnOk result (outgoing.new.items ≡ outgoing.old.items
            ++ map (signed true) (to_send (simulation self.old.case) (sends_after self.old (history self.old) event.now) held.old.events)) }
        ensures held { OnOk result
            (held.new.events ≡ still_held (simulation self.old.case) (sends_after self.old (history self.old) event.now) held.old.events) }
        ensures err { OnErr result (self.new ≡ self.old) }
        ensures unsent { OnErr result (outgoing.new.items ≡ outgoing.old.items) }
        ensures unheld { OnErr result (held.new.events ≡ held.old.events) }
        ensures routers { held.new.routers ≡ held.old.routers }
        ensures full { IsErrOf result (or_memory.Fault counter_full) ↔ IsTrue (is_full_at (router_of_timeline self.old) event.now) }
    {
        let instance = self.router.instance();
        empty(sends);
        let note = handle_fitting(instance, &mut self.router, event, sends)?;
        let step = HandledEvent {
            event: *event,
            note,
        };
        if let Err(error) = add_step(&mut self.ahead, step, outgoing, sends.len()) {
            // A copy, so that the record itself need not be in memory.
            take_back(instance, &mut self.router, event, UndoRecord { ..note });
            return Err(OrMemory::from(error));
        }
        send_unheld(outgoing, sends, held);
        Ok(())
    }

    /// Undoes the newest event. What it had sent is taken back at once, or held.
    pub(crate) fn undo(
        &mut self,
        cancel: Cancel,
        sends: &mut SmallVec<Event, 8>,
        held: &mut HeldSends,
        outgoing: &mut Vec<Signed<Event>>,
    ) -> Result<Event, AllocError>
        requires some { 0 < length self.old.ahead }
        requires net { IsNet self.old.net }
        requires routers { held.old.routers ≡ self.old.net.nodes }
        ensures ok { IfOk result (λ e. (older : List AnEvent) × (self.old.ahead ≡ e ∷ older)
            × (self.new ≡ record self.old { ahead = older })
            × (outgoing.new.items ≡ outgoing.old.items
            ++ sent_back (simulation self.old.case) cancel (sends_after self.old (older ++ self.old.past) e))
            × (held.new.events ≡ held_back (simulation self.old.case) cancel (sends_after self.old (older ++ self.old.past) e) held.old.events)) }
        ensures fits { IfOk result (λ e. IsTrue (fits self.old.net self.old.node e)) }
        ensures err { OnErr result (self.new ≡ self.old) }
        ensures unsent { OnErr result (outgoing.new.items ≡ outgoing.old.items) }
        ensures unheld { OnErr result (held.new.events ≡ held.old.events) }
        ensures routers { held.new.routers ≡ held.old.routers }
    {
        let instance = self.router.instance();
        let newest = *self.ahead.last().unwrap();
        make_room(cancel, held, outgoing)?;
        sends.clear();
        undo(
            instance,
            &mut self.router,
            &newest.event,
            newest.note,
            sends,
        )?;
        self.ahead.drop_last();
        call_back(cancel, sends, held, outgoing);
        Ok(newest.event)
    }
}

/// Empties a list. Most events send nothing, so that most lists are empty already.
#[inline(always)]
fn empty(sends: &mut SmallVec<Event, 8>)
    ensures { sends.new.items ≡ [] }
{
    if !sends.is_empty() {
        sends.clear();
    }
}

/// Adds a step, and makes room for `count` more messages.
fn add_step(
    ahead: &mut Ahead,
    step: HandledEvent,
    outgoing: &mut Vec<Signed<Event>>,
    count: usize,
) -> Result<(), AllocError>
    ensures ok { OnOk result (ahead.new ≡ ahead.old ++ step ∷ []) }
    ensures err { OnErr result (ahead.new ≡ ahead.old) }
    ensures messages { outgoing.new.items ≡ outgoing.old.items }
    ensures room { OnOk result (vec_len outgoing.new + count ≤ vec_capacity outgoing.new) }
{
    outgoing.reserve(count)?;
    ahead.push(step)
}

/// Makes room for what an undone event had sent: for its antimessages, or for what is held.
fn make_room(
    cancel: Cancel,
    held: &mut HeldSends,
    outgoing: &mut Vec<Signed<Event>>,
) -> Result<(), AllocError>
    ensures room { OnOk result (cancel ≡ Aggressive → vec_len outgoing.new + MOST_LINKS ≤ vec_capacity outgoing.new) }
    ensures held { OnOk result (cancel ≡ Lazy → MOST_LINKS ≤ held.new.room) }
    ensures messages { outgoing.new.items ≡ outgoing.old.items }
    ensures events { held.new.events ≡ held.old.events }
    ensures routers { held.new.routers ≡ held.old.routers }
{
    match cancel {
        Cancel::Aggressive => outgoing.reserve(MOST_LINKS),
        Cancel::Lazy => held.reserve(MOST_LINKS),
    }
}

/// Takes back what an undone event had sent: by antimessages, or by holding it. There is room.
fn call_back(
    cancel: Cancel,
    sends: &[Event],
    held: &mut HeldSends,
    outgoing: &mut Vec<Signed<Event>>,
)
    requires room { cancel ≡ Aggressive → vec_len outgoing.old + length sends.now ≤ vec_capacity outgoing.old }
    requires space { cancel ≡ Lazy → length sends.now ≤ held.old.room }
    requires senders { AreFrom held.old.routers sends.now }
    ensures outgoing { (case : ACase) → outgoing.new.items ≡ outgoing.old.items ++ sent_back (simulation case) cancel sends.now }
    ensures held { (case : ACase) → held.new.events ≡ held_back (simulation case) cancel sends.now held.old.events }
    ensures routers { held.new.routers ≡ held.old.routers }
{
    match cancel {
        Cancel::Aggressive => post(outgoing, sends, false),
        Cancel::Lazy => hold(held, sends),
    }
}

/// Holds events, for which there is room.
fn hold(held: &mut HeldSends, events: &[Event])
    requires room { length events.now ≤ held.old.room }
    requires senders { AreFrom held.old.routers events.now }
    ensures events { held.new.events ≡ insert_all event_before events.now held.old.events }
    ensures routers { held.new.routers ≡ held.old.routers }
{
    for event in events {
        held.insert(*event).unwrap();
    }
}

/// Sends events, for which there is room, but for those that are held: these are sent already, and held no more.
fn send_unheld(outgoing: &mut Vec<Signed<Event>>, events: &[Event], held: &mut HeldSends)
    requires { vec_len outgoing.old + length events.now ≤ vec_capacity outgoing.old }
    ensures sends { (case : ACase) → outgoing.new.items ≡ outgoing.old.items ++ map (signed true) (to_send (simulation case) events.now held.old.events) }
    ensures held { (case : ACase) → held.new.events ≡ still_held (simulation case) events.now held.old.events }
    ensures routers { held.new.routers ≡ held.old.routers }
{
    if held.is_empty() {
        post(outgoing, events, true);
        return;
    }
    for event in events {
        if !held.remove_one(event) {
            outgoing.push_reserved(Signed {
                plus: true,
                event: *event,
            });
        }
    }
}

/// Adds events as messages, or as their antimessages, for which there is room.
fn post(outgoing: &mut Vec<Signed<Event>>, events: &[Event], plus: bool)
    requires { vec_len outgoing.old + length events.now ≤ vec_capacity outgoing.old }
    ensures { outgoing.new.items ≡ outgoing.old.items ++ map (signed plus) events.now }
{
    for event in events {
        outgoing.push_reserved(Signed {
            plus,
            event: *event,
        });
    }
}
