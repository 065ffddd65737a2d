//! What a worker has handled before the bound is let go.
ghost use Rattle.std.specs.Prelude.{ℕ, ◌≡◌, ◌<◌, false, true, OnErr, OnOk};
ghost use Rattle.tw_core.specs.Steps.{with_commit};
ghost use Rattle.tw_model.specs.Case.{simulation};
ghost use Rattle.tw_shard.specs.Shard.{FollowsRun, IsSameShare, owns, shard_core};
ghost use Rattle.tw_workers.specs.Work.{StillPreserves};

use crate::worker::Worker;
use std::alloc::AllocError;
use tw_model::OrMemory;
use tw_shard::Shard;

impl<'a> Worker<'a> {
    /// The events of its routers that are before the bound become committed: they can be undone no more,
    /// and what undoing them would need is let go. So are the events themselves, where its routers don't keep
    /// them.
    ///
    /// For want of memory it is broken off, and those of some routers are committed.
    pub fn commit(&mut self) -> Result<(), AllocError>
        ensures preserved { StillPreserves self.old self.new }
        ensures done { OnOk result ((r : ℕ) → owns self.new.share.shard r ≡ true
            → (shard_core 0 self.new.share.shard).done r ≡ self.new.share.shard.bound) }
        ensures mail { self.new.share.mail ≡ self.old.share.mail }
        ensures unsent { self.new.share.unsent ≡ self.old.share.unsent }
        ensures outgoing { self.new.share.shard.outgoing ≡ self.old.share.shard.outgoing }
        ensures stop { self.new.stop ≡ self.old.stop }
    {
        for place in 0..self.shard.router_count() {
            let router = self.shard.router_at(place);
            commit_at(&mut self.shard, router)?;
        }
        Ok(())
    }
}

/// One of a shard's routers commits its events before the bound, which are the one-thread run.
pub(crate) fn commit_at(shard: &mut Shard<'_>, router: u32) -> Result<(), AllocError>
    requires own { owns shard.old router ≡ true }
    requires run { router < shard.old.terms.case.net.nodes → FollowsRun shard.old router }
    ensures ok { (stop : ℕ) → OnOk result (shard_core stop shard.new ≡ with_commit (simulation shard.old.terms.case) (shard_core stop shard.old) router) }
    ensures err { OnErr result (shard.new ≡ shard.old) }
    ensures same { IsSameShare shard.old shard.new }
{
    match shard.commit(router) {
        Ok(()) => Ok(()),
        Err(OrMemory::Memory) => Err(AllocError),
        Err(OrMemory::Fault(_)) => unreachable!(),
    }
}
