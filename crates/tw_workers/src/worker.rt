//! A worker with its shard and its hand.
ghost use Rattle.std.specs.Prelude.{◌≡◌, ◌≤◌};
ghost use Rattle.tw_model.specs.declared.limits.TheConstants.{LATEST};
ghost use Rattle.tw_table.specs.Shares.{share};
ghost use Rattle.tw_workers.specs.Work.{IsAtWork};

use crate::gate::Gate;
use crate::policy::least_window;
use std::marker::Model;
use tw_event::Event;
use tw_shard::Shard;
use tw_sim::Signed;
use tw_table::{Hand, Parcels};
use tw_turns::Pace;

/// A worker of a parallel run: its routers, and the messages in its hand.
#[derive(Drop)]
pub struct Worker<'a> {
    pub(crate) shard: Shard<'a>,
    pub(crate) hand: Hand,
    // Empty between calls: it keeps the memory of the list that goes out.
    pub(crate) outgoing: Vec<Signed<Event>>,
    // What is unsent, as it was dealt at the last meeting. It keeps the memory of the lists that go round.
    pub(crate) parcels: Parcels,
    pub(crate) stop: u64,
    pub(crate) batch: u32,
    pub(crate) pace: Pace,
}

impl<'a> Model for Worker<'a> {
    ghost use Rattle.tw_workers.specs.Work as spec;
    ghost use Rattle.tw_workers.specs.Inside.{IsWorker, worker_of};

    ghost Value = { spec.Worker };

    ghost view = { worker_of };

    ghost invariant = { IsWorker };
}

impl<'a> Worker<'a> {
    /// A worker with this shard and hand, which handles nothing from the stop on, in ticks, at most
    /// 1,000,000,000, and at most `batch` events between two meetings, or eight times as many where it has all routers.
    pub fn new(shard: Shard<'a>, hand: Hand, stop: u64, batch: u32) -> Worker<'a>
        requires work { IsAtWork stop (share shard hand) }
        requires stop { stop ≤ LATEST }
        ensures share { result.share ≡ share shard.entry hand }
        ensures stop { result.stop ≡ stop }
        ensures batch { result.batch ≡ batch }
    {
        let alloc = *hand.mail.allocator();
        let pace = Pace::new(least_window(&shard));
        Worker {
            shard,
            hand,
            outgoing: Vec::new(alloc),
            parcels: Parcels::new(alloc),
            stop,
            batch,
            pace,
        }
    }

    /// Its shard and its hand, as they are. The shard counts anew.
    pub fn into_parts(self) -> (Shard<'a>, Hand)
        ensures { share result.0 result.1 ≡ self.entry.share }
    {
        let mut shard = self.shard;
        shard.count_anew();
        (shard, self.hand)
    }

    /// Tells a gate that it has left, and what it has done.
    pub fn tell<G: Gate>(&self, gate: &G) {
        let tally = self.shard.tally();
        gate.left(self.shard.worker(), self.pace.handled(), &tally);
    }

    /// Its routers.
    pub fn shard(&self) -> &Shard<'a>
        ensures value { result.now ≡ self.now.share.shard }
        ensures work { IsAtWork self.now.stop self.now.share }
    {
        &self.shard
    }
}
