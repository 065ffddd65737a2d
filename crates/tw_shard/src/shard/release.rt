//! What a shard's routers hold is taken back.

ghost use Rattle.std.specs.Prelude.{◌≡◌, ◌↔◌, [], ℕ, true, IsErrOf, IsOk, OnErr, OnOk, Ok, Err};
ghost use Rattle.tw_core.specs.declared.refusal.Refusal.{Refusal as ARefusal};
ghost use Rattle.tw_model.specs.declared.memory.OrMemory.TheVariants as or_memory;
ghost use Rattle.tw_model.specs.Case.{simulation};
ghost use Rattle.tw_core.specs.Steps.{from};
ghost use Rattle.tw_shard.specs.Shard.{IsSameShare, owns, released_at, releasing, shard_core};

use super::Shard;
use std::alloc::AllocError;
use tw_core::Refusal;
use tw_model::OrMemory;

impl<'a> Shard<'a> {
    /// What is held for a router, which its undone events had sent, is taken back: antimessages go out, in the
    /// order of events, and it is held no more.
    ///
    /// It is refused as `NotMine` where the router is none of the shard's. After a refusal and for want of memory
    /// nothing has changed. Where nothing is held for the router, it takes no memory.
    pub fn release(&mut self, router: u32) -> Result<(), OrMemory<Refusal>>
        ensures ok { (stop : ℕ) → OnOk result (releasing stop self.old router ≡ Ok (shard_core stop self.new)) }
        ensures refused { (stop : ℕ) (f : ARefusal) → IsErrOf result (or_memory.Fault f) ↔ (releasing stop self.old router ≡ Err f) }
        ensures err { OnErr result (self.new ≡ self.old) }
        ensures same { IsSameShare self.old self.new }
        ensures free { owns self.old router ≡ true → from (simulation self.old.terms.case) router self.old.held ≡ [] → IsOk result }
    {
        if !self.owns(router) {
            return Err(OrMemory::Fault(Refusal::NotMine));
        }
        self.release_own(router)?;
        Ok(())
    }

    /// What is held for one of its routers is taken back.
    fn release_own(&mut self, router: u32) -> Result<(), AllocError>
        ensures ok { OnOk result (self.new ≡ released_at self.old router) }
        ensures err { OnErr result (self.new ≡ self.old) }
        ensures free { from (simulation self.old.terms.case) router self.old.held ≡ [] → IsOk result }
    {
        let count = self.held.count_of_sender(router);
        if count == 0 {
            return Ok(());
        }
        self.outgoing.reserve(count)?;
        self.held.release(router, &mut self.outgoing);
        self.tally.count_released(count);
        Ok(())
    }
}
