//! A message comes to a shard: a router that has run past it is rolled back.
ghost use Rattle.std.specs.Prelude.{◌≡◌, ◌≤◌, ◌<◌, ◌↔◌, not, true, false, ℕ, IfErr, IsErrOf, IsTrue, OnErr, OnOk, Ok, Err, slice_get};
ghost use Rattle.std.specs.List.{AllByRecursion};
ghost use Rattle.std.specs.Option.{option_map_or};
ghost use Rattle.tw_event.specs.Order.{event_before, event_same};
ghost use Rattle.tw_model.specs.declared.memory.OrMemory.TheVariants as or_memory;
ghost use Rattle.tw_model.specs.Case.{simulation};
ghost use Rattle.tw_model.specs.Effect.{suits};
ghost use Rattle.tw_core.specs.Steps.{after_antimessage, after_arrival, after_message, after_undoing_while};
ghost use Rattle.tw_shard.specs.Arrival.{IsRolledBack, receiving, refusing, rolls};
ghost use Rattle.tw_shard.specs.declared.rejection.Rejection.{Rejection as ARejection};
ghost use Rattle.tw_shard.specs.Shard.{IsSameShare, IsSoundShard, owns, shard_core, timeline};
ghost use Rattle.tw_shard.specs.Timeline.{history};
ghost use Rattle.tw_sim.specs.Ordered.{insert, take_out, times};

use crate::rejection::{Reach, Rejection, Returned};
use crate::shard::Shard;
use std::alloc::AllocError;
use tw_event::Event;
use tw_handlers::does_suit;
use tw_model::OrMemory;
use tw_sim::Signed;

impl<'a> Shard<'a> {
    /// A message, or an antimessage, comes to one of its routers.
    ///
    /// A message whose antimessage is kept vanishes with it. Else the router undoes each event after it,
    /// the last first, and it becomes pending. An antimessage vanishes with an equal event that is
    /// pending. Else, where the router has handled an equal event, the router undoes the events down to
    /// and including that one, which vanishes too; and where it has not, the antimessage is kept. What
    /// undoing takes back goes out.
    ///
    /// It is refused, and comes back, as `NotMine` where its receiver is none of the shard's routers, as
    /// `Late` where it lies before the bound, and as `Foreign` where it does not suit its receiver; then
    /// nothing has changed. It also comes back where memory was refused; then its receiver may have undone
    /// some events that are not before it, and nothing else has changed.
    pub fn receive(&mut self, message: Signed<Event>) -> Result<(), Returned>
        ensures ok { (stop : ℕ) → OnOk result (receiving stop self.old message ≡ Ok (shard_core stop self.new)) }
        ensures refused { (stop : ℕ) (f : ARejection) → IsErrOf result (record { message = message; why = or_memory.Fault f })
            ↔ (receiving stop self.old message ≡ Err f) }
        ensures back { IfErr result (λ e. e.message ≡ message) }
        ensures unchanged { (f : ARejection) → IsErrOf result (record { message = message; why = or_memory.Fault f }) → self.new ≡ self.old }
        ensures memory { OnErr result ((stop : ℕ) → IsRolledBack (simulation self.old.terms.case) message.event (shard_core stop self.old) (shard_core stop self.new)) }
        ensures same { IsSameShare self.old self.new }
    {
        if let Err(rejection) = self.may_receive(&message.event) {
            return Err(Returned {
                message,
                why: OrMemory::Fault(rejection),
            });
        }
        if let Err(error) = self.take_in(&message) {
            return Err(Returned {
                message,
                why: OrMemory::from(error),
            });
        }
        Ok(())
    }

    /// A message, or an antimessage, that may come comes to one of its routers, as [`Shard::receive`] has it, without
    /// a test of whether it may. It fails for want of memory alone; then its receiver may have undone some events
    /// that are not before it, and nothing else has changed.
    #[inline(always)]
    pub fn receive_welcome(&mut self, message: &Signed<Event>) -> Result<(), AllocError>
        requires { refusing self.old message.now.event ≡ Ok tt }
        ensures ok { (stop : ℕ) → OnOk result (receiving stop self.old message.now ≡ Ok (shard_core stop self.new)) }
        ensures memory { OnErr result ((stop : ℕ) → IsRolledBack (simulation self.old.terms.case) message.now.event (shard_core stop self.old) (shard_core stop self.new)) }
        ensures same { IsSameShare self.old self.new }
    {
        self.take_in(message)?;
        Ok(())
    }

    /// Whether an event, or what takes it back, may come.
    fn may_receive(&self, event: &Event) -> Result<(), Rejection>
        ensures value { result ≡ refusing self.now event.now }
        ensures own { OnOk result (owns self.now event.now.dst ≡ true) }
        ensures late { OnOk result (self.now.bound ≤ event.now.time) }
        ensures suit { OnOk result (suits self.now.terms.case.net event.now.dst event.now ≡ true) }
    {
        if !self.owns(event.dst) {
            return Err(Rejection::NotMine);
        }
        if event.time < self.bound() {
            return Err(Rejection::Late {
                bound: self.bound(),
            });
        }
        if !does_suit(self.instance(), event.dst, event) {
            return Err(Rejection::Foreign);
        }
        Ok(())
    }

    /// A message comes that may come.
    #[inline(always)]
    fn take_in(&mut self, message: &Signed<Event>) -> Result<(), AllocError>
        requires own { owns self.old message.now.event.dst ≡ true }
        requires late { self.old.bound ≤ message.now.event.time }
        requires suit { suits self.old.terms.case.net message.now.event.dst message.now.event ≡ true }
        ensures ok { (stop : ℕ) → OnOk result (shard_core stop self.new ≡ after_arrival (simulation self.old.terms.case) (shard_core stop self.old) message.now) }
        ensures err { OnErr result ((stop : ℕ) → IsRolledBack (simulation self.old.terms.case) message.now.event (shard_core stop self.old) (shard_core stop self.new)) }
        ensures same { IsSameShare self.old self.new }
    {
        if message.plus {
            self.arrive(&message.event)?;
        } else {
            self.withdraw(&message.event)?;
        }
        Ok(())
    }

    /// A message comes.
    #[inline(always)]
    fn arrive(&mut self, event: &Event) -> Result<(), AllocError>
        requires own { owns self.old event.now.dst ≡ true }
        requires late { self.old.bound ≤ event.now.time }
        requires suit { suits self.old.terms.case.net event.now.dst event.now ≡ true }
        ensures ok { (stop : ℕ) → OnOk result (shard_core stop self.new ≡ after_message (simulation self.old.terms.case) (shard_core stop self.old) event.now) }
        ensures err { OnErr result ((stop : ℕ) → IsRolledBack (simulation self.old.terms.case) event.now (shard_core stop self.old) (shard_core stop self.new)) }
        ensures same { IsSameShare self.old self.new }
    {
        // Of most messages this is all.
        if self.comes_last(event) {
            self.add_pending(event)?;
            return Ok(());
        }
        self.arrive_late(event)
    }

    /// A message comes that may have its antimessage kept, or be before what its router has handled.
    #[inline(never)]
    fn arrive_late(&mut self, event: &Event) -> Result<(), AllocError>
        requires own { owns self.old event.now.dst ≡ true }
        requires late { self.old.bound ≤ event.now.time }
        requires suit { suits self.old.terms.case.net event.now.dst event.now ≡ true }
        ensures ok { (stop : ℕ) → OnOk result (shard_core stop self.new ≡ after_message (simulation self.old.terms.case) (shard_core stop self.old) event.now) }
        ensures err { OnErr result ((stop : ℕ) → IsRolledBack (simulation self.old.terms.case) event.now (shard_core stop self.old) (shard_core stop self.new)) }
        ensures same { IsSameShare self.old self.new }
    {
        if self.take_kept(event) {
            return Ok(());
        }
        self.roll_back(event, Reach::Later)?;
        self.add_pending(event)?;
        Ok(())
    }

    /// An antimessage comes.
    #[inline(never)]
    fn withdraw(&mut self, event: &Event) -> Result<(), AllocError>
        requires own { owns self.old event.now.dst ≡ true }
        requires late { self.old.bound ≤ event.now.time }
        ensures ok { (stop : ℕ) → OnOk result (shard_core stop self.new ≡ after_antimessage (simulation self.old.terms.case) (shard_core stop self.old) event.now) }
        ensures err { OnErr result ((stop : ℕ) → IsRolledBack (simulation self.old.terms.case) event.now (shard_core stop self.old) (shard_core stop self.new)) }
        ensures same { IsSameShare self.old self.new }
    {
        if self.take_pending(event) {
            return Ok(());
        }
        if self.has_handled(event) {
            self.roll_back(event, Reach::From)?;
            self.take_pending(event);
        } else {
            self.add_kept(event)?;
        }
        Ok(())
    }

    /// The receiver of an event undoes what it has handled past it.
    fn roll_back(&mut self, event: &Event, reach: Reach) -> Result<(), AllocError>
        requires own { owns self.old event.now.dst ≡ true }
        requires late { self.old.bound ≤ event.now.time }
        ensures ok { (stop : ℕ) → OnOk result (shard_core stop self.new ≡ after_undoing_while (simulation self.old.terms.case) (rolls reach event.now)
            event.now.dst ((shard_core stop self.old).history event.now.dst) (shard_core stop self.old)) }
        ensures undone { (stop : ℕ) → IsRolledBack (simulation self.old.terms.case) event.now (shard_core stop self.old) (shard_core stop self.new) }
        ensures kept { self.new.kept ≡ self.old.kept }
        ensures same { IsSameShare self.old self.new }
    {
        let before = self.undone();
        while self.must_undo(event, reach) {
            self.step_back(event.dst)?;
        }
        self.count_rollback(before);
        Ok(())
    }

    /// Whether the newest event that the receiver of an event can undo is past it.
    fn must_undo(&self, event: &Event, reach: Reach) -> bool
        requires own { owns self.now event.now.dst ≡ true }
        ensures value { result ≡ option_map_or (λ newest. rolls reach event.now newest) (slice_get (timeline self.now event.now.dst).ahead 0) false }
        ensures past { AllByRecursion (λ e. e.time < (timeline self.now event.now.dst).done) (timeline self.now event.now.dst).past }
        ensures whole { IsSoundShard self.now }
    {
        match self.timeline(event.dst).newest_ahead() {
            Some(newest) => is_past(newest, event, reach),
            None => false,
        }
    }

    /// Whether the receiver of an event has handled it and can undo it.
    fn has_handled(&self, event: &Event) -> bool
        requires own { owns self.now event.now.dst ≡ true }
        ensures value { IsTrue result ↔ (0 < times event_same event.now (timeline self.now event.now.dst).ahead) }
        ensures past { AllByRecursion (λ e. e.time < (timeline self.now event.now.dst).done) (timeline self.now event.now.dst).past }
        ensures whole { IsSoundShard self.now }
    {
        self.timeline(event.dst).has_ahead(event)
    }
}

/// Whether an event that was handled, the newest one, is past one that comes.
fn is_past(newest: &Event, event: &Event, reach: Reach) -> bool
    ensures { result ≡ rolls reach event.now newest.now }
{
    match reach {
        Reach::Later => event.is_before(newest),
        Reach::From => !newest.is_before(event),
    }
}
