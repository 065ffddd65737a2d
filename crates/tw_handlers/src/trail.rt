//! The events of one router, which can be undone, last first.

ghost use Rattle.std.specs.Prelude.{◌≡◌, ◌+◌, ◌-◌, ◌≤◌, ◌<◌, ◌↔◌, ℕ, false, [], ◌∷◌, ◌++◌, length, take, IsErrOf, IsTrue, OnErr, OnOk};
ghost use Rattle.tw_model.specs.declared.memory.OrMemory.TheVariants as or_memory;
ghost use Rattle.tw_model.specs.Effect.{fits};
ghost use Rattle.tw_handlers.specs.Calls.{counter_full, is_full_at};
ghost use Rattle.tw_handlers.specs.Trail.{IsTrail, handled_events, history_of, router_of, undone_of};

use crate::fault::{CounterFull, Fault};
use crate::fit::does_fit;
use crate::handling::handle_fitting;
use crate::undoing::{take_back, undo};
use smallvec::SmallVec;
use std::alloc::{AllocError, Global};
use std::marker::Model;
use tw_event::{Event, UndoRecord};
use tw_instance::Instance;
use tw_model::OrMemory;
use tw_router::Router;

/// An event that was handled, and its record.
#[derive(Clone, Copy)]
struct Done {
    event: Event,
    note: UndoRecord,
}

/// A router with the events that it handled, which can be undone, the last one first.
#[derive(Drop)]
pub struct Trail<'a> {
    router: Router<'a>,
    steps: Vec<Done>,
}

impl<'a> Model for Trail<'a> {
    ghost use Rattle.tw_handlers.specs.Trail.{History, IsTrail, history_of};

    ghost Value = { History };

    ghost view = { λ a. history_of a.router a.steps.items };

    ghost invariant = { λ a. IsTrail a.router a.steps.items };
}

impl<'a> Trail<'a> {
    /// The trail of a router that has handled nothing yet.
    pub fn over(alloc: Global, router: Router<'a>) -> Trail<'a>
        ensures { result ≡ record { opening = router.entry; events = [] } }
    {
        Trail {
            router,
            steps: Vec::new(alloc),
        }
    }

    /// How many events were handled and not undone.
    pub fn len(&self) -> usize
        ensures { result ≡ length self.now.events }
    {
        self.steps.len()
    }

    /// The router as it is after these events.
    pub fn router(&self) -> &Router<'a>
        ensures { result.now ≡ router_of self.now }
    {
        &self.router
    }

    /// Handles an event. What the router sends isn't kept.
    ///
    /// The instance is the router's own. After an error the trail is as it was; an event that is not for
    /// this router is `Foreign`, also where a counter is full.
    pub fn handle(&mut self, instance: &Instance, event: &Event) -> Result<(), OrMemory<Fault>>
        requires { instance.now ≡ self.old.opening.net }
        ensures ok { OnOk result (self.new ≡ record self.old { events = self.old.events ++ event.now ∷ [] }) }
        ensures err { OnErr result (self.new ≡ self.old) }
        ensures foreign { IsErrOf result (or_memory.Fault Fault.Foreign)
            ↔ (fits self.old.opening.net self.old.opening.node event.now ≡ false) }
        ensures full { IsErrOf result (or_memory.Fault Fault.CounterFull)
            ↔ (IsTrue (fits self.old.opening.net self.old.opening.node event.now) × IsTrue (is_full_at (router_of self.old) event.now)) }
    {
        if !does_fit(instance, self.router().node(), event) {
            return Err(OrMemory::Fault(Fault::Foreign));
        }
        match self.handle_fitting(instance, event) {
            Ok(()) => Ok(()),
            Err(OrMemory::Fault(full)) => Err(OrMemory::Fault(Fault::from(full))),
            Err(OrMemory::Memory) => Err(OrMemory::Memory),
        }
    }

    /// Handles an event that fits the router. What the router sends isn't kept.
    ///
    /// The instance is the router's own. After an error the trail is as it was.
    pub fn handle_fitting(
        &mut self,
        instance: &Instance,
        event: &Event,
    ) -> Result<(), OrMemory<CounterFull>>
        requires own { instance.now ≡ self.old.opening.net }
        requires fits { IsTrue (fits self.old.opening.net self.old.opening.node event.now) }
        ensures ok { OnOk result (self.new ≡ record self.old { events = self.old.events ++ event.now ∷ [] }) }
        ensures err { OnErr result (self.new ≡ self.old) }
        ensures full { IsErrOf result (or_memory.Fault counter_full) ↔ IsTrue (is_full_at (router_of self.old) event.now) }
    {
        advance(instance, &mut self.router, &mut self.steps, event)
    }

    /// Undoes the last event until `len` events remain, and adds what each had sent to `sends`, the last
    /// event's first, each event's own in the order sent.
    ///
    /// The instance is the router's own. With no more events than that it changes nothing. Where there is
    /// no memory, the events undone so far stay undone, and exactly what they had sent stands in `sends`.
    pub fn undo_to(
        &mut self,
        instance: &Instance,
        len: usize,
        sends: &mut SmallVec<Event, 8>,
    ) -> Result<(), AllocError>
        requires { instance.now ≡ self.old.opening.net }
        ensures ok { OnOk result (self.new ≡ record self.old { events = take len self.old.events }) }
        ensures sends { OnOk result (sends.new.items
            ≡ sends.old.items ++ undone_of self.old len) }
        ensures err { OnErr result ((m : ℕ) × (len < m) × (m ≤ length self.old.events)
            × (self.new ≡ record self.old { events = take m self.old.events })
            × (sends.new.items ≡ sends.old.items ++ undone_of self.old m)) }
    {
        while self.len() > len {
            self.undo_last(instance, sends)?;
        }
        Ok(())
    }

    /// Undoes the last event.
    fn undo_last(
        &mut self,
        instance: &Instance,
        sends: &mut SmallVec<Event, 8>,
    ) -> Result<(), AllocError>
        requires own { instance.now ≡ self.old.opening.net }
        requires some { 0 < length self.old.events }
        ensures ok { OnOk result (self.new ≡ record self.old { events = take (length self.old.events - 1) self.old.events }) }
        ensures sends { OnOk result (sends.new.items
            ≡ sends.old.items ++ undone_of self.old (length self.old.events - 1)) }
        ensures err { OnErr result (self.new ≡ self.old) }
        ensures unsent { OnErr result (sends.new.items ≡ sends.old.items) }
    {
        step_back(instance, &mut self.router, &mut self.steps, sends)
    }
}

/// Handles an event and keeps its record.
fn advance(
    instance: &Instance,
    router: &mut Router<'_>,
    steps: &mut Vec<Done>,
    event: &Event,
) -> Result<(), OrMemory<CounterFull>>
    requires own { instance.now ≡ router.old.net }
    requires fits { IsTrue (fits router.old.net router.old.node event.now) }
    requires trail { IsTrail router.old steps.old.items }
    ensures trail { OnOk result (IsTrail router.new steps.new.items) }
    ensures ok { OnOk result (history_of router.new steps.new.items
        ≡ record (history_of router.old steps.old.items) { events = handled_events steps.old.items ++ event.now ∷ [] }) }
    ensures err { OnErr result (router.new ≡ router.old) }
    ensures kept { OnErr result (steps.new.items ≡ steps.old.items) }
    ensures full { IsErrOf result (or_memory.Fault counter_full) ↔ IsTrue (is_full_at router.old event.now) }
{
    let mut sends = SmallVec::new(*steps.allocator());
    let note = handle_fitting(instance, router, event, &mut sends)?;
    let done = Done {
        event: *event,
        note,
    };
    match steps.push(done) {
        Ok(()) => Ok(()),
        Err(_) => {
            take_back(instance, router, event, note);
            Err(OrMemory::Memory)
        }
    }
}

/// Undoes the last event and drops its record.
fn step_back(
    instance: &Instance,
    router: &mut Router<'_>,
    steps: &mut Vec<Done>,
    sends: &mut SmallVec<Event, 8>,
) -> Result<(), AllocError>
    requires own { instance.now ≡ router.old.net }
    requires trail { IsTrail router.old steps.old.items }
    requires some { 0 < length steps.old.items }
    ensures trail { OnOk result (IsTrail router.new steps.new.items) }
    ensures ok { OnOk result (history_of router.new steps.new.items
        ≡ record (history_of router.old steps.old.items) { events = take (length steps.old.items - 1) (handled_events steps.old.items) }) }
    ensures sends { let t = history_of router.old steps.old.items in OnOk result (sends.new.items
        ≡ sends.old.items ++ undone_of t (length t.events - 1)) }
    ensures err { OnErr result (router.new ≡ router.old) }
    ensures kept { OnErr result (steps.new.items ≡ steps.old.items) }
    ensures unsent { OnErr result (sends.new.items ≡ sends.old.items) }
{
    let last = steps.len() - 1;
    let done = steps[last];
    undo(instance, router, &done.event, done.note, sends)?;
    steps.truncate(last);
    Ok(())
}
