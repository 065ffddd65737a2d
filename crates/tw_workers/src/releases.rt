//! What is held of what undone events had sent is taken back.
ghost use Rattle.std.specs.Prelude.{ℕ, ◌≡◌, Ok, OnErr, OnOk, false, true};
ghost use Rattle.tw_shard.specs.Shard.{IsSameShare, owns, releasing, routers, shard_core};
ghost use Rattle.tw_workers.specs.Work.{AreAwaited, AreAwaitedFrom, IsAtWork, StillPreserves};

use crate::worker::Worker;
use std::alloc::AllocError;
use tw_model::OrMemory;
use tw_shard::Shard;

impl<'a> Worker<'a> {
    /// Each of its routers takes back what is held for it, where its next events can't send that again: it has
    /// none pending before the stop, or its first one is not before what is held. The others wait, since they
    /// may send the same once more.
    ///
    /// For want of memory it is broken off, and some routers have taken back.
    pub(crate) fn release_where_due(&mut self) -> Result<(), AllocError>
        ensures preserved { StillPreserves self.old self.new }
        ensures awaited { OnOk result (AreAwaited self.new.stop self.new.share.shard) }
        ensures mail { self.new.share.mail ≡ self.old.share.mail }
        ensures stop { self.new.stop ≡ self.old.stop }
    {
        if self.shard.held_len() == 0 {
            return Ok(());
        }
        for place in 0..self.shard.router_count() {
            let router = self.shard.router_at(place);
            self.release_if_due(router)?;
        }
        Ok(())
    }

    /// One of its routers takes back what is held for it, unless its next events may send that again.
    fn release_if_due(&mut self, router: u32) -> Result<(), AllocError>
        requires own { owns self.old.share.shard router ≡ true }
        requires work { IsAtWork self.old.stop self.old.share }
        ensures preserved { StillPreserves self.old self.new }
        ensures mail { self.new.share.mail ≡ self.old.share.mail }
        ensures stop { self.new.stop ≡ self.old.stop }
        ensures work { IsAtWork self.new.stop self.new.share }
        ensures routers { routers self.new.share.shard ≡ routers self.old.share.shard }
        ensures awaited { OnOk result (AreAwaitedFrom router self.new.stop self.new.share.shard) }
        ensures others { OnOk result ((r : ℕ) → AreAwaitedFrom r self.old.stop self.old.share.shard → AreAwaitedFrom r self.new.stop self.new.share.shard) }
    {
        if self.is_release_due(router) {
            self.release_router(router)?;
        }
        Ok(())
    }

    /// One of its routers takes back what is held for it.
    fn release_router(&mut self, router: u32) -> Result<(), AllocError>
        requires own { owns self.old.share.shard router ≡ true }
        ensures preserved { StillPreserves self.old self.new }
        ensures mail { self.new.share.mail ≡ self.old.share.mail }
        ensures stop { self.new.stop ≡ self.old.stop }
        ensures work { IsAtWork self.new.stop self.new.share }
        ensures same { IsSameShare self.old.share.shard self.new.share.shard }
        ensures released { OnOk result (releasing 0 self.old.share.shard router ≡ Ok (shard_core 0 self.new.share.shard)) }
    {
        release_at(&mut self.shard, router)?;
        Ok(())
    }

    /// Whether a router's next events can't send again what is held for it: messages take a tick at least.
    fn is_release_due(&self, router: u32) -> bool
        ensures { result ≡ false → AreAwaitedFrom router self.now.stop self.now.share.shard }
    {
        match self.shard.held_time(router) {
            Some(held) => !self.shard.pending().has_before(router, held.min(self.stop)),
            None => false,
        }
    }
}

/// One of a shard's routers takes back what is held for it.
fn release_at(shard: &mut Shard<'_>, router: u32) -> Result<(), AllocError>
    requires own { owns shard.old router ≡ true }
    ensures ok { (stop : ℕ) → OnOk result (releasing stop shard.old router ≡ Ok (shard_core stop shard.new)) }
    ensures err { OnErr result (shard.new ≡ shard.old) }
    ensures same { IsSameShare shard.old shard.new }
{
    match shard.release(router) {
        Ok(()) => Ok(()),
        Err(OrMemory::Memory) => Err(AllocError),
        Err(OrMemory::Fault(_)) => unreachable!(),
    }
}
