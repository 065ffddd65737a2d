//! What is in a worker's hand comes to its routers.
ghost use Rattle.std.specs.Prelude.{◌≡◌, ◌<◌, ◌+◌, [], ℕ, OnErr, OnOk, length};
ghost use Rattle.tw_table.specs.Shares.{share};
ghost use Rattle.tw_workers.specs.Work.{IsAtWork, PreservesShare, StillPreserves};

use crate::worker::Worker;
use std::alloc::AllocError;
use tw_shard::Shard;
use tw_table::Hand;

impl<'a> Worker<'a> {
    /// Each message in the hand comes to its router, in the order handed out.
    ///
    /// For want of memory it is broken off: the message that met it is in the hand still, and those
    /// before it are received.
    pub fn deliver(&mut self) -> Result<(), AllocError>
        ensures preserved { StillPreserves self.old self.new }
        ensures empty { OnOk result (self.new.share.mail ≡ []) }
        ensures unsent { self.new.share.unsent ≡ self.old.share.unsent }
        ensures stop { self.new.stop ≡ self.old.stop }
    {
        let undone = self.shard.tally().undone;
        for _ in self.hand.next..self.hand.mail.len() {
            receive_next(&mut self.shard, &mut self.hand)?;
        }
        self.pace
            .count_undone(self.shard.tally().undone.saturating_sub(undone));
        self.hand.mail.clear();
        self.hand.next = 0;
        Ok(())
    }
}

/// The next message of a hand comes to its router.
#[inline(always)]
fn receive_next(shard: &mut Shard<'_>, hand: &mut Hand) -> Result<(), AllocError>
    requires some { hand.old.next < length hand.old.mail.items }
    requires work { (stop : ℕ) × IsAtWork stop (share shard.old hand.old) }
    ensures preserved { (stop : ℕ) → IsAtWork stop (share shard.old hand.old) → PreservesShare stop (share shard.old hand.old) (share shard.new hand.new) }
    ensures mail { hand.new.mail ≡ hand.old.mail }
    ensures unsent { hand.new.out ≡ hand.old.out }
    ensures next { OnOk result (hand.new.next ≡ hand.old.next + 1) }
    ensures err { OnErr result (hand.new.next ≡ hand.old.next) }
{
    shard.receive_welcome(&hand.mail[hand.next])?;
    hand.next += 1;
    Ok(())
}
