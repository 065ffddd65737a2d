//! Room for events that are handled and not committed.
ghost use Rattle.std.specs.Prelude.{ℕ, ◌≡◌, Ok, Err, OnErr, OnOk, true};
ghost use Rattle.tw_core.specs.declared.refusal.Refusal.TheVariants.{AheadFull};
ghost use Rattle.tw_shard.specs.Shard.{IsSameShare, handling_least, owns, shard_core, widening};
ghost use Rattle.tw_workers.specs.Work.{StillPreserves};

use crate::committing::commit_at;
use crate::worker::Worker;
use std::alloc::AllocError;
use tw_event::Event;
use tw_model::OrMemory;
use tw_shard::Shard;

impl<'a> Worker<'a> {
    /// The router of the least of all pending events has no room for it: room is made, or the event waits. It is
    /// answered whether the worker goes on, which it does not while the event waits.
    pub(crate) fn make_room_for_least(&mut self) -> Result<bool, AllocError>
        requires { (time : ℕ) × (handling_least time self.old.share.shard ≡ Err AheadFull) }
        ensures preserved { StillPreserves self.old self.new }
        ensures mail { self.new.share.mail ≡ self.old.share.mail }
        ensures stop { self.new.stop ≡ self.old.stop }
    {
        match self.shard.pending().least() {
            Some(event) => self.make_room(&event),
            None => Ok(false),
        }
    }

    /// The router of an event, which is its first pending one and for which it has no room, commits what is
    /// before the bound. Where that makes no room and the event is at the bound, no later commit can, and it is
    /// given more. It is answered whether the worker goes on.
    fn make_room(&mut self, event: &Event) -> Result<bool, AllocError>
        requires own { owns self.old.share.shard event.now.dst ≡ true }
        ensures preserved { StillPreserves self.old self.new }
        ensures mail { self.new.share.mail ≡ self.old.share.mail }
        ensures stop { self.new.stop ≡ self.old.stop }
    {
        self.commit_router(event.dst)?;
        if self.shard.has_room(event.dst) {
            return Ok(true);
        }
        if event.time > self.shard.bound() {
            return Ok(false);
        }
        self.widen(event.dst)?;
        Ok(true)
    }

    /// One of its routers commits its events before the bound.
    fn commit_router(&mut self, router: u32) -> Result<(), AllocError>
        requires own { owns self.old.share.shard router ≡ true }
        ensures preserved { StillPreserves self.old self.new }
        ensures mail { self.new.share.mail ≡ self.old.share.mail }
        ensures stop { self.new.stop ≡ self.old.stop }
        ensures same { IsSameShare self.old.share.shard self.new.share.shard }
    {
        commit_at(&mut self.shard, router)?;
        Ok(())
    }

    /// One of its routers has twice the room.
    fn widen(&mut self, router: u32) -> Result<(), AllocError>
        requires own { owns self.old.share.shard router ≡ true }
        ensures preserved { StillPreserves self.old self.new }
        ensures mail { self.new.share.mail ≡ self.old.share.mail }
        ensures stop { self.new.stop ≡ self.old.stop }
    {
        widen_at(&mut self.shard, router)?;
        Ok(())
    }
}

/// One of a shard's routers has twice the room.
fn widen_at(shard: &mut Shard<'_>, router: u32) -> Result<(), AllocError>
    requires own { owns shard.old router ≡ true }
    ensures ok { (stop : ℕ) → OnOk result (widening stop shard.old router ≡ Ok (shard_core stop shard.new)) }
    ensures err { OnErr result (shard.new ≡ shard.old) }
    ensures same { IsSameShare shard.old shard.new }
{
    match shard.widen(router) {
        Ok(()) => Ok(()),
        Err(OrMemory::Memory) => Err(AllocError),
        Err(OrMemory::Fault(_)) => unreachable!(),
    }
}
