//! One of a shard's routers handles its next event, or undoes its newest one.

ghost use Rattle.std.specs.Prelude.{◌≡◌, ◌≤◌, ◌<◌, length, slice_index_or, slice_set, true, ℕ, IfOk, IsErrOf, IsTrue, OnErr, OnOk, ◌↔◌, Err, Ok, ◌++◌, ◌∷◌, map, List};
ghost use Rattle.tw_core.specs.declared.refusal.Refusal.{Refusal as ARefusal};
ghost use Rattle.std.specs.Result.{result_and};
ghost use Rattle.tw_core.specs.Steps.{held_back, sent_back, still_held, to_send};
ghost use Rattle.tw_handlers.specs.Calls.{counter_full, is_full_at};
ghost use Rattle.tw_event.specs.declared.event.Event.{Event as AnEvent};
ghost use Rattle.tw_model.specs.declared.limits.TheConstants.{LATEST};
ghost use Rattle.tw_model.specs.declared.memory.OrMemory.TheVariants as or_memory;
ghost use Rattle.tw_model.specs.Case.{simulation};
ghost use Rattle.tw_model.specs.Effect.{fits};
ghost use Rattle.tw_model.specs.Rules.{IsNet};
ghost use Rattle.tw_shard.specs.Shard.{HandlesNext, IsSameShare, IsSoundShard, IsUndone, handled_at, handling, may_handle, no_timeline, owns, shard_core, timeline, undoing};
ghost use Rattle.tw_shard.specs.Timeline.{history, router_of, sends_after, signed};

use super::Shard;
use crate::timeline::Timeline;
use smallvec::SmallVec;
use std::alloc::AllocError;
use tw_core::Refusal;
use tw_event::Event;
use tw_handlers::CounterFull;
use tw_held::HeldSends;
use tw_model::OrMemory;
use tw_sim::{Cancel, Signed};

impl<'a> Shard<'a> {
    /// A router undoes the event that it handled last: it becomes pending again. What it had sent is taken back:
    /// antimessages go out at once, in the order sent, or, where the shard takes back late, it is held.
    ///
    /// It is refused as `NotMine` where the router is none of the shard's, as `Nothing` where it has
    /// handled nothing, and as `Committed` where the event lies before the bound. After a refusal and for
    /// want of memory nothing has changed.
    pub fn undo_last(&mut self, router: u32) -> Result<(), OrMemory<Refusal>>
        ensures ok { (stop : ℕ) → OnOk result (undoing stop self.old router ≡ Ok (shard_core stop self.new)) }
        ensures refused { (stop : ℕ) (f : ARefusal) → IsErrOf result (or_memory.Fault f) ↔ (undoing stop self.old router ≡ Err f) }
        ensures err { OnErr result (self.new ≡ self.old) }
        ensures same { IsSameShare self.old self.new }
    {
        if let Err(refusal) = self.may_undo(router) {
            return Err(OrMemory::Fault(refusal));
        }
        self.step_back(router)?;
        Ok(())
    }

    /// Whether a router has an event to undo.
    fn may_undo(&self, router: u32) -> Result<(), Refusal>
        ensures told { (stop : ℕ) → result ≡ result_and (undoing stop self.now router) (Ok tt) }
        ensures own { OnOk result (owns self.now router ≡ true) }
        ensures some { OnOk result (0 < length (timeline self.now router).ahead) }
        ensures whole { IsSoundShard self.now }
    {
        if !self.owns(router) {
            return Err(Refusal::NotMine);
        }
        match self.timeline(router).newest() {
            None => Err(Refusal::Nothing),
            Some(event) if event.time < self.bound => Err(Refusal::Committed),
            Some(_) => Ok(()),
        }
    }

    /// A router handles its first pending event: what it sends goes out, in the order sent, but for what equals a
    /// message that is held, which is held no more. The stop is at most 1,000,000,000.
    ///
    /// It is refused as `NotMine` where the router is none of the shard's, as `Nothing` where none of its
    /// pending events is before the stop, as `Double` where the first of them equals the event that it
    /// handled last, as `AheadFull` where it has handled as many events that are not committed as it has
    /// room for, and as `CounterFull` where a counter of the router would pass its limit. After a refusal
    /// and for want of memory nothing has changed.
    pub fn handle_next(&mut self, router: u32, stop: u64) -> Result<(), OrMemory<Refusal>>
        requires { stop ≤ LATEST }
        ensures ok { OnOk result (handling stop self.old router ≡ Ok (shard_core stop self.new)) }
        ensures refused { (f : ARefusal) → IsErrOf result (or_memory.Fault f) ↔ (handling stop self.old router ≡ Err f) }
        ensures err { OnErr result (self.new ≡ self.old) }
        ensures same { IsSameShare self.old self.new }
    {
        let event = match self.next(router, stop) {
            Ok(event) => event,
            Err(refusal) => return Err(OrMemory::Fault(refusal)),
        };
        match self.step_on(router, &event) {
            Ok(()) => Ok(()),
            Err(OrMemory::Fault(_)) => Err(OrMemory::Fault(Refusal::CounterFull)),
            Err(OrMemory::Memory) => Err(OrMemory::Memory),
        }
    }

    /// The event that a router is to handle next, unless a counter is full.
    fn next(&self, router: u32, stop: u64) -> Result<Event, Refusal>
        ensures err { (f : ARefusal) → IsErrOf result f → handling stop self.now router ≡ Err f }
        ensures ok { IfOk result (λ e. HandlesNext stop self.now router e) }
        ensures whole { IsSoundShard self.now }
    {
        if !self.owns(router) {
            return Err(Refusal::NotMine);
        }
        match self.first_pending(router) {
            Some(event) if event.time < stop => {
                self.may_handle(router, &event)?;
                Ok(event)
            }
            _ => Err(Refusal::Nothing),
        }
    }

    /// Whether a router may handle its first pending event, if no counter is full.
    #[inline(always)]
    pub(super) fn may_handle(&self, router: u32, event: &Event) -> Result<(), Refusal>
        requires { owns self.now router ≡ true }
        ensures value { result ≡ may_handle self.now router event.now }
        ensures whole { IsSoundShard self.now }
    {
        let timeline = self.timeline(router);
        if timeline.is_newest(event) {
            Err(Refusal::Double)
        } else if timeline.has_room() {
            Ok(())
        } else {
            Err(Refusal::AheadFull)
        }
    }

    /// One of its routers handles an event, which is pending.
    fn step_on(&mut self, router: u32, event: &Event) -> Result<(), OrMemory<CounterFull>>
        requires own { owns self.old router ≡ true }
        requires fits { IsTrue (fits self.old.terms.case.net router event.now) }
        ensures ok { OnOk result (self.new ≡ handled_at self.old router event.now) }
        ensures err { OnErr result (self.new ≡ self.old) }
        ensures full { IsErrOf result (or_memory.Fault counter_full)
            ↔ IsTrue (is_full_at (router_of (timeline self.old router)) event.now) }
    {
        let place = self.place(router);
        handle_at(
            &mut self.timelines,
            place,
            event,
            &mut self.sends,
            &mut self.held,
            &mut self.outgoing,
        )?;
        self.pending.remove_one(event);
        self.latest = self.latest.max(event.time);
        Ok(())
    }

    /// One of its routers undoes the newest event that it can undo.
    pub(crate) fn step_back(&mut self, router: u32) -> Result<(), AllocError>
        requires own { owns self.old router ≡ true }
        requires some { 0 < length (timeline self.old router).ahead }
        ensures ok { OnOk result (IsUndone router self.old self.new) }
        ensures err { OnErr result (self.new ≡ self.old) }
    {
        self.pending.reserve(1)?;
        let place = self.place(router);
        let event = undo_at(
            &mut self.timelines,
            place,
            self.cancel,
            &mut self.sends,
            &mut self.held,
            &mut self.outgoing,
        )?;
        self.pending.insert(event).unwrap();
        self.tally.count_undone(self.sends.len(), self.cancel);
        Ok(())
    }
}

/// The timeline at a place handles an event.
pub(super) fn handle_at(
    timelines: &mut [Timeline<'_>],
    place: usize,
    event: &Event,
    sends: &mut SmallVec<Event, 8>,
    held: &mut HeldSends,
    outgoing: &mut Vec<Signed<Event>>,
) -> Result<(), OrMemory<CounterFull>>
    requires within { place < length timelines.old }
    requires fits { let t = slice_index_or timelines.old place no_timeline in IsTrue (fits t.net t.node event.now) }
    ensures ok { let t = slice_index_or timelines.old place no_timeline in
        OnOk result (timelines.new ≡ slice_set timelines.old place (record t { ahead = event.now ∷ t.ahead })) }
    ensures sends { let t = slice_index_or timelines.old place no_timeline in
        OnOk result (outgoing.new.items ≡ outgoing.old.items
        ++ map (signed true) (to_send (simulation t.case) (sends_after t (history t) event.now) held.old.events)) }
    ensures held { let t = slice_index_or timelines.old place no_timeline in
        OnOk result (held.new.events ≡ still_held (simulation t.case) (sends_after t (history t) event.now) held.old.events) }
    ensures err { OnErr result (timelines.new ≡ timelines.old) }
    ensures unsent { OnErr result (outgoing.new.items ≡ outgoing.old.items) }
    ensures unheld { OnErr result (held.new.events ≡ held.old.events) }
    ensures routers { held.new.routers ≡ held.old.routers }
    ensures full { IsErrOf result (or_memory.Fault counter_full)
        ↔ IsTrue (is_full_at (router_of (slice_index_or timelines.old place no_timeline)) event.now) }
{
    timelines[place].handle(event, sends, held, outgoing)
}

/// The timeline at a place undoes its newest event, which is answered.
fn undo_at(
    timelines: &mut [Timeline<'_>],
    place: usize,
    cancel: Cancel,
    sends: &mut SmallVec<Event, 8>,
    held: &mut HeldSends,
    outgoing: &mut Vec<Signed<Event>>,
) -> Result<Event, AllocError>
    requires within { place < length timelines.old }
    requires some { 0 < length (slice_index_or timelines.old place no_timeline).ahead }
    requires net { IsNet (slice_index_or timelines.old place no_timeline).net }
    requires routers { held.old.routers ≡ (slice_index_or timelines.old place no_timeline).net.nodes }
    ensures ok { let t = slice_index_or timelines.old place no_timeline in IfOk result (λ e. (older : List AnEvent) × (t.ahead ≡ e ∷ older)
        × (timelines.new ≡ slice_set timelines.old place (record t { ahead = older }))
        × (outgoing.new.items ≡ outgoing.old.items ++ sent_back (simulation t.case) cancel (sends_after t (older ++ t.past) e))
        × (held.new.events ≡ held_back (simulation t.case) cancel (sends_after t (older ++ t.past) e) held.old.events)) }
    ensures fits { let t = slice_index_or timelines.old place no_timeline in IfOk result (λ e. IsTrue (fits t.net t.node e)) }
    ensures err { OnErr result (timelines.new ≡ timelines.old) }
    ensures unsent { OnErr result (outgoing.new.items ≡ outgoing.old.items) }
    ensures unheld { OnErr result (held.new.events ≡ held.old.events) }
    ensures routers { held.new.routers ≡ held.old.routers }
{
    timelines[place].undo(cancel, sends, held, outgoing)
}
