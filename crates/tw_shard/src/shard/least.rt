//! A shard handles the least of all its pending events.

ghost use Rattle.std.specs.Prelude.{◌≡◌, ◌≤◌, ◌<◌, ◌↔◌, ℕ, true, option_map, slice_get, IfOk, IsErrOf, IsTrue, OnErr, OnOk, Err, Ok, Some};
ghost use Rattle.std.specs.Bool.{OnFalse, OnTrue};
ghost use Rattle.tw_core.specs.declared.refusal.Refusal.{Refusal as ARefusal};
ghost use Rattle.tw_core.specs.Steps.{first_pending};
ghost use Rattle.tw_event.specs.declared.event.Event.{Event as AnEvent};
ghost use Rattle.tw_event.specs.Order.{event_before};
ghost use Rattle.tw_handlers.specs.Calls.{counter_full, is_full_at};
ghost use Rattle.tw_model.specs.declared.limits.TheConstants.{LATEST};
ghost use Rattle.tw_model.specs.declared.memory.OrMemory.TheVariants as or_memory;
ghost use Rattle.tw_model.specs.Case.{simulation};
ghost use Rattle.tw_model.specs.Effect.{fits, suits};
ghost use Rattle.tw_shard.specs.Shard.{IsSameShare, IsSoundShard, handled_at, handling, handling_least, may_handle, owns, shard_core, timeline};
ghost use Rattle.tw_shard.specs.Timeline.{router_of};
ghost use Rattle.tw_sim.specs.Ordered.{least};

use super::Shard;
use super::step::handle_at;
use std::alloc::AllocError;
use tw_core::Refusal;
use tw_event::Event;
use tw_handlers::CounterFull;
use tw_model::OrMemory;

impl<'a> Shard<'a> {
    /// Its pending events are kept by time from now on: the least of all is then found at once, and the first one
    /// of a router is looked for. Nothing else changes.
    pub fn order_by_time(&mut self) -> Result<(), AllocError>
        ensures { self.new ≡ self.old }
    {
        self.pending.keep_by_time()?;
        Ok(())
    }

    /// In how many ticks it has handled a least event, each counted as it first came to it. Policies go by it, and no
    /// promise rests on it.
    pub fn tick_count(&self) -> u64 {
        self.ticks
    }

    /// The router of the least of all pending events handles it, where it is before the limit, in ticks, at most
    /// 1,000,000,000: what it sends goes out, as at [`Shard::handle_next`]. The event's time is answered.
    ///
    /// It is refused as `Nothing` where no pending event is before the limit, as `NotMine` where the event is for
    /// none of the shard's routers, and as `Double`, `AheadFull` and `CounterFull` as there. After a refusal
    /// and for want of memory nothing has changed.
    pub fn handle_least(&mut self, limit: u64) -> Result<u64, OrMemory<Refusal>>
        requires { limit ≤ LATEST }
        ensures ok { (stop : ℕ) → limit ≤ stop → OnOk result (handling_least stop self.old ≡ Ok (shard_core stop self.new)) }
        ensures time { IfOk result (λ time. option_map (λ e. e.time) (least event_before self.old.pending) ≡ Some time) }
        ensures refused { (f : ARefusal) → IsErrOf result (or_memory.Fault f) ↔ (handling_least limit self.old ≡ Err f) }
        ensures err { OnErr result (self.new ≡ self.old) }
        ensures same { IsSameShare self.old self.new }
    {
        let mut event = Event::default();
        if !self.copy_least(limit, &mut event) {
            return Err(OrMemory::Fault(Refusal::Nothing));
        }
        self.count_tick(event.time);
        self.handle_first(&event)?;
        Ok(event.time)
    }

    /// A tick is counted that comes after all that were handled.
    fn count_tick(&mut self, time: u64)
        ensures { self.new ≡ self.old }
    {
        self.ticks = self.ticks.saturating_add(u64::from(self.latest < time));
    }

    /// Copies the least pending event where it is before a limit, and tells whether it did.
    fn copy_least(&mut self, limit: u64, event: &mut Event) -> bool
        ensures least { OnTrue result (least event_before self.old.pending ≡ Some event.new) }
        ensures before { OnTrue result (event.new.time < limit) }
        ensures first { OnTrue result (slice_get self.old.pending 0 ≡ Some event.new) }
        ensures next { (stop : ℕ) → OnTrue result (first_pending (simulation self.old.terms.case) (shard_core stop self.old) event.new.dst ≡ Some event.new) }
        ensures suits { OnTrue result (suits self.old.terms.case.net event.new.dst event.new ≡ true) }
        ensures none { OnFalse result ((e : AnEvent) → least event_before self.old.pending ≡ Some e → limit ≤ e.time) }
        ensures same { self.new ≡ self.old }
    {
        self.pending.copy_least_before(limit, event)
    }

    /// The router of an event, the least one that is pending, handles it.
    fn handle_first(&mut self, event: &Event) -> Result<(), OrMemory<Refusal>>
        requires first { slice_get self.old.pending 0 ≡ Some event.now }
        requires next { (stop : ℕ) → first_pending (simulation self.old.terms.case) (shard_core stop self.old) event.now.dst ≡ Some event.now }
        requires suit { suits self.old.terms.case.net event.now.dst event.now ≡ true }
        requires early { event.now.time ≤ LATEST }
        ensures ok { (stop : ℕ) → event.now.time < stop → OnOk result (handling stop self.old event.now.dst ≡ Ok (shard_core stop self.new)) }
        ensures refused { (stop : ℕ) → event.now.time < stop → (f : ARefusal) → IsErrOf result (or_memory.Fault f)
            ↔ (handling stop self.old event.now.dst ≡ Err f) }
        ensures err { OnErr result (self.new ≡ self.old) }
        ensures same { IsSameShare self.old self.new }
    {
        if let Err(refusal) = self.may_handle_first(event) {
            return Err(OrMemory::Fault(refusal));
        }
        match self.step_first(event) {
            Ok(()) => Ok(()),
            Err(OrMemory::Fault(_)) => Err(OrMemory::Fault(Refusal::CounterFull)),
            Err(OrMemory::Memory) => Err(OrMemory::Memory),
        }
    }

    /// Whether the router of an event, its first pending one, may handle it, if no counter is full.
    fn may_handle_first(&self, event: &Event) -> Result<(), Refusal>
        requires { (stop : ℕ) → first_pending (simulation self.now.terms.case) (shard_core stop self.now) event.now.dst ≡ Some event.now }
        ensures own { OnOk result (owns self.now event.now.dst ≡ true) }
        ensures free { OnOk result (may_handle self.now event.now.dst event.now ≡ Ok tt) }
        ensures err { (f : ARefusal) → IsErrOf result f → (stop : ℕ) → event.now.time < stop → handling stop self.now event.now.dst ≡ Err f }
        ensures whole { IsSoundShard self.now }
    {
        if !self.owns(event.dst) {
            return Err(Refusal::NotMine);
        }
        self.may_handle(event.dst, event)?;
        Ok(())
    }

    /// One of its routers handles an event, the least one that is pending.
    fn step_first(&mut self, event: &Event) -> Result<(), OrMemory<CounterFull>>
        requires own { owns self.old event.now.dst ≡ true }
        requires fits { IsTrue (fits self.old.terms.case.net event.now.dst event.now) }
        requires first { slice_get self.old.pending 0 ≡ Some event.now }
        ensures ok { OnOk result (self.new ≡ handled_at self.old event.now.dst event.now) }
        ensures err { OnErr result (self.new ≡ self.old) }
        ensures full { IsErrOf result (or_memory.Fault counter_full)
            ↔ IsTrue (is_full_at (router_of (timeline self.old event.now.dst)) event.now) }
    {
        let place = self.place(event.dst);
        handle_at(
            &mut self.timelines,
            place,
            event,
            &mut self.sends,
            &mut self.held,
            &mut self.outgoing,
        )?;
        self.pending.skip_least();
        self.latest = self.latest.max(event.time);
        Ok(())
    }
}
