//! What all workers have, put together.
ghost use Rattle.std.specs.Prelude.{◌≡◌, [], IfOk};
ghost use Rattle.std.specs.List.{range_with_len};
ghost use Rattle.tw_core.specs.Parts.{total};
ghost use Rattle.tw_core.specs.Run.{IsSeq};
ghost use Rattle.tw_event.specs.Order.{event_before};
ghost use Rattle.tw_model.specs.Case.{simulation};
ghost use Rattle.tw_parallel.specs.Settled.{ahead_of};
ghost use Rattle.tw_parallel.specs.Sim.{RetainsEvents, committed_events, machine};
ghost use Rattle.tw_sim.specs.Ordered.{insert_all};

use crate::sim::Sim;
use std::alloc::AllocError;
use tw_event::Event;
use tw_shard::shards::{committed_events, count_ahead, pending_events};

impl Sim<'_> {
    /// The committed events of all routers, in their order, where these are retained.
    pub fn committed(&self) -> Result<Vec<Event>, AllocError>
        requires { RetainsEvents self.now }
        ensures value { IfOk result (λ v. v.items ≡ committed_events self.now) }
        ensures seq { IsSeq (simulation self.now.case) (machine self.now) }
    {
        let events = committed_events(*self.shards.allocator(), self.case, &self.shards)?;
        Ok(events)
    }

    /// The events that wait at all workers, in their order.
    pub fn pending(&self) -> Result<Vec<Event>, AllocError>
        ensures value { IfOk result (λ v. v.items ≡ insert_all event_before (machine self.now).pending []) }
        ensures seq { IsSeq (simulation self.now.case) (machine self.now) }
    {
        let events = pending_events(*self.shards.allocator(), &self.shards)?;
        Ok(events)
    }

    /// How many events are handled and not committed.
    pub fn ahead(&self) -> u128
        ensures { result ≡ total (λ r. ahead_of self.now r) (range_with_len 0 self.now.case.net.nodes) }
    {
        count_ahead(self.case, &self.shards)
    }
}
