//! A parallel run between two runs of its workers, and what it consists of.
ghost use Rattle.std.specs.Prelude.{◌≡◌, ◌↔◌, ◌<◌, ◌≤◌, true, IfOk, IsOk, IsTrue, OnErr, OnOk, length, replicate};
ghost use Rattle.std.specs.List.{list_all};
ghost use Rattle.tw_core.specs.Machine.{IsOpening};
ghost use Rattle.tw_core.specs.Run.{IsSeq};
ghost use Rattle.tw_exchange.specs.Board.{new_board, workers};
ghost use Rattle.tw_model.specs.Case.{simulation};
ghost use Rattle.tw_model.specs.declared.limits.TheConstants.{LATEST};
ghost use Rattle.tw_parallel.specs.Inside.{HasHands, sim_of_parts};
ghost use Rattle.tw_parallel.specs.Sim.{IsSim, RetainsEvents, cancels_of, machine, reopened};
ghost use Rattle.tw_sim.specs.declared.machine.Cancel.TheVariants.{Aggressive};
ghost use Rattle.tw_sim.specs.Simulation.{state};

use crate::hands::open_hands;
use crate::shards::open_shards;
use std::alloc::{AllocError, Global};
use std::marker::Model;
use tw_exchange::Exchange;
use tw_instance::Case;
use tw_model::limits::LATEST;
use tw_router::Router;
use tw_shard::Shard;
use tw_shard::shards::shard_for;
use tw_sim::Cancel;
use tw_table::Hand;
use tw_warp::StopLower;

/// A parallel run between two runs of its workers.
#[derive(Drop)]
pub struct Sim<'a> {
    pub(crate) case: &'a Case,
    pub(crate) exchange: Exchange,
    pub(crate) shards: Vec<Shard<'a>>,
    pub(crate) hands: Vec<Hand>,
}

/// What a parallel run consists of.
#[derive(Drop)]
pub struct Parts<'a> {
    /// The case that all shards keep.
    pub case: &'a Case,
    /// What the workers leave for one another.
    pub exchange: Exchange,
    /// The routers of each worker, by rising worker.
    pub shards: Vec<Shard<'a>>,
    /// What is in each worker's hand, by rising worker.
    pub hands: Vec<Hand>,
}

impl<'a> Model for Sim<'a> {
    ghost use Rattle.tw_parallel.specs.Sim as spec;
    ghost use Rattle.tw_parallel.specs.Inside.{IsInside, sim_of};

    ghost Value = { spec.Sim };

    ghost view = { sim_of };

    ghost invariant = { IsInside };
}

impl<'a> Sim<'a> {
    /// A case as it begins, as [`Sim::open_with`] gives it; what an undone event has sent is taken back at once.
    pub fn open(
        alloc: Global,
        case: &'a Case,
        workers: u32,
        retains: bool,
    ) -> Result<Sim<'a>, AllocError>
        requires { 0 < workers }
        ensures case { IfOk result (λ sim. sim.case ≡ case.now) }
        ensures board { IfOk result (λ sim. sim.board ≡ new_board workers 0 0) }
        ensures opens { IfOk result (λ sim. IsOpening (simulation case.now) (machine sim)) }
        ensures retains { retains ≡ true → IfOk result (λ sim. RetainsEvents sim) }
        ensures cancels { IfOk result (λ sim. cancels_of sim ≡ replicate workers Aggressive) }
    {
        Sim::open_with(alloc, case, workers, retains, Cancel::Aggressive)
    }

    /// A case as it begins, with its routers dealt out to so many workers in turn: bound and stop are 0, and
    /// nothing is handled. There is one worker at least. Routers retain their committed events, or let them go.
    /// What an undone event has sent is taken back at once, or as late as may be. It fails for want of memory
    /// alone.
    pub fn open_with(
        alloc: Global,
        case: &'a Case,
        workers: u32,
        retains: bool,
        cancel: Cancel,
    ) -> Result<Sim<'a>, AllocError>
        requires { 0 < workers }
        ensures case { IfOk result (λ sim. sim.case ≡ case.now) }
        ensures board { IfOk result (λ sim. sim.board ≡ new_board workers 0 0) }
        ensures opens { IfOk result (λ sim. IsOpening (simulation case.now) (machine sim)) }
        ensures retains { retains ≡ true → IfOk result (λ sim. RetainsEvents sim) }
        ensures cancels { IfOk result (λ sim. cancels_of sim ≡ replicate workers cancel) }
    {
        let exchange = Exchange::new(alloc, workers, 0, 0)?;
        let shards = open_shards(alloc, case, workers, retains, cancel)?;
        let hands = open_hands(alloc, workers)?;
        // What a case keeps is told by a read of it.
        let _ = case.instance();
        Ok(Sim {
            case,
            exchange,
            shards,
            hands,
        })
    }

    /// A run of these parts. They keep the rule, as those of another run do, and what a table leaves of them
    /// when it is closed; there is a hand for each shard.
    pub fn of_parts(parts: Parts<'a>) -> Sim<'a>
        requires sim { IsSim (sim_of_parts parts) }
        requires hands { HasHands parts }
        ensures { result ≡ sim_of_parts parts.entry }
    {
        let Parts {
            case,
            exchange,
            shards,
            hands,
        } = parts;
        Sim {
            case,
            exchange,
            shards,
            hands,
        }
    }

    /// What the run consists of, as a table takes it.
    pub fn into_parts(self) -> Parts<'a>
        ensures run { sim_of_parts result ≡ self.entry }
        ensures hands { HasHands result }
        ensures sim { IsSim (sim_of_parts result) }
    {
        Parts {
            case: self.case,
            exchange: self.exchange,
            shards: self.shards,
            hands: self.hands,
        }
    }

    /// The stop becomes this one, in ticks, and the workers may take turns again. It is refused where it would
    /// fall, or pass 1,000,000,000; then nothing has changed.
    pub fn raise_stop(&mut self, stop: u64) -> Result<(), StopLower>
        ensures ok { OnOk result (self.new ≡ reopened stop self.old) }
        ensures err { OnErr result (self.new ≡ self.old) }
        ensures refused { IsOk result ↔ ((self.old.board.stop ≤ stop) × (stop ≤ LATEST)) }
        ensures seq { IsSeq (simulation self.new.case) (machine self.new) }
    {
        if stop < self.exchange.stop() || stop > LATEST {
            return Err(StopLower);
        }
        self.exchange.reopen(stop);
        Ok(())
    }

    /// The case.
    pub fn case(&self) -> &'a Case
        ensures value { result.now ≡ self.now.case }
        ensures seq { IsSeq (simulation self.now.case) (machine self.now) }
    {
        self.case
    }

    /// The time before which nothing arrives and nothing is undone, in ticks.
    pub fn bound(&self) -> u64
        ensures value { result ≡ self.now.board.bound }
        ensures seq { IsSeq (simulation self.now.case) (machine self.now) }
    {
        self.exchange.bound()
    }

    /// The time at which nothing is handled any more, in ticks.
    pub fn stop(&self) -> u64
        ensures value { result ≡ self.now.board.stop }
        ensures sim { IsSim self.now }
    {
        self.exchange.stop()
    }

    /// How many workers there are.
    pub fn workers(&self) -> u32
        ensures value { result ≡ workers self.now.board }
        ensures shares { result ≡ length self.now.shares }
    {
        self.exchange.workers()
    }

    /// Whether all routers retain their committed events, so that these can be read.
    pub fn retains_events(&self) -> bool
        ensures { IsTrue result ↔ RetainsEvents self.now }
    {
        do_all_retain(&self.shards)
    }

    /// In how many ticks its workers have handled something, all together, each counted as a worker first came to
    /// it. Policies go by it, and no promise rests on it.
    pub fn tick_count(&self) -> u64 {
        self.shards.iter().fold(0, |ticks: u64, shard| {
            ticks.saturating_add(shard.tick_count())
        })
    }

    /// A router, as the events that it has handled and not undone leave it.
    pub fn router(&self, router: u32) -> &Router<'a>
        requires { router < self.now.case.net.nodes }
        ensures value { result.now
            ≡ record { net = self.now.case.net; node = router; state = state (simulation self.now.case) router ((machine self.now).history router) } }
        ensures seq { IsSeq (simulation self.now.case) (machine self.now) }
    {
        shard_for(&self.shards, router).router(router)
    }
}

/// Whether the routers of all these shards retain their committed events.
fn do_all_retain(shards: &[Shard<'_>]) -> bool
    ensures { result ≡ list_all (λ s. s.terms.retains) shards.now }
{
    shards.iter().all(|shard| shard.retains())
}
