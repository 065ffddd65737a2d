//! Room for events that a shard's routers have not committed.

ghost use Rattle.std.specs.Prelude.{◌≡◌, ◌*◌, ◌^◌, ◌<◌, ◌↔◌, ℕ, length, slice_index_or, slice_set, true, IsErrOf, IsOk, IsTrue, OnErr, OnOk, Ok, Err};
ghost use Rattle.tw_core.specs.declared.refusal.Refusal.{Refusal as ARefusal};
ghost use Rattle.tw_core.specs.Machine.{count_ahead};
ghost use Rattle.tw_model.specs.declared.memory.OrMemory.TheVariants as or_memory;
ghost use Rattle.tw_shard.specs.Shard.{IsSameShare, no_timeline, owns, shard_core, timeline, widened_at, widening};

use super::Shard;
use crate::timeline::Timeline;
use std::alloc::AllocError;
use tw_core::Refusal;
use tw_model::OrMemory;

impl<'a> Shard<'a> {
    /// Whether one of its routers may handle one more event before it commits.
    pub fn has_room(&self, router: u32) -> bool
        requires { owns self.now router ≡ true }
        ensures { IsTrue result ↔ (count_ahead (shard_core 0 self.now) router < (shard_core 0 self.now).room router) }
    {
        self.timeline(router).has_room()
    }

    /// A router may have twice as many events that are not committed. Nothing else changes.
    ///
    /// It is refused as `NotMine` where the router is none of the shard's. It takes no memory, and is
    /// refused for want of it only where so many events could never be there. After a refusal nothing has
    /// changed.
    pub fn widen(&mut self, router: u32) -> Result<(), OrMemory<Refusal>>
        ensures ok { (stop : ℕ) → OnOk result (widening stop self.old router ≡ Ok (shard_core stop self.new)) }
        ensures room { OnOk result (self.new ≡ widened_at self.old router) }
        ensures refused { (stop : ℕ) (f : ARefusal) → IsErrOf result (or_memory.Fault f) ↔ (widening stop self.old router ≡ Err f) }
        ensures err { OnErr result (self.new ≡ self.old) }
        ensures same { IsSameShare self.old self.new }
        ensures free { owns self.old router ≡ true → (timeline self.old router).room < 2 ^ 63 → IsOk result }
    {
        if !self.owns(router) {
            return Err(OrMemory::Fault(Refusal::NotMine));
        }
        self.widen_own(router)?;
        Ok(())
    }

    /// One of its routers gets twice the room.
    fn widen_own(&mut self, router: u32) -> Result<(), AllocError>
        requires { owns self.old router ≡ true }
        ensures ok { OnOk result (self.new ≡ widened_at self.old router) }
        ensures err { OnErr result (self.new ≡ self.old) }
        ensures free { (timeline self.old router).room < 2 ^ 63 → IsOk result }
    {
        let place = self.place(router);
        widen_at(&mut self.timelines, place)?;
        Ok(())
    }
}

/// The timeline at a place gets twice the room.
fn widen_at(timelines: &mut [Timeline<'_>], place: usize) -> Result<(), AllocError>
    requires { place < length timelines.old }
    ensures ok { let t = slice_index_or timelines.old place no_timeline in
        OnOk result (timelines.new ≡ slice_set timelines.old place (record t { room = 2 * t.room })) }
    ensures err { OnErr result (timelines.new ≡ timelines.old) }
    ensures free { (slice_index_or timelines.old place no_timeline).room < 2 ^ 63 → IsOk result }
{
    timelines[place].widen()
}
