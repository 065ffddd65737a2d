//! The machine of all routers, step by step.

ghost use Rattle.std.specs.List.{range_with_len};
ghost use Rattle.std.specs.Prelude.{◌≡◌, ◌≤◌, ◌<◌, ◌↔◌, length, map, IsOk, OnErr, OnOk, IfOk, reverse};
ghost use Rattle.tw_warp.specs.Committed.{committed_events, count_ahead, end_at};
ghost use Rattle.tw_warp.specs.Openings.{opening_machine};
ghost use Rattle.tw_core.specs.Machine.{IsOpening};
ghost use Rattle.tw_core.specs.Run.{AreCommitted, IsSeq};
ghost use Rattle.tw_model.specs.Case.{simulation};
ghost use Rattle.tw_sim.specs.declared.machine.Cancel.TheVariants.{Aggressive};
ghost use Rattle.tw_sim.specs.Seq.{log};
ghost use Rattle.tw_sim.specs.Simulation.{state};
ghost use Rattle.tw_model.specs.declared.limits.TheConstants.{LATEST};
ghost use Rattle.tw_warp.specs.Warp.{IsShare, IsWarp, message_at, shard_at, warp_core, worker_with};

mod steps;

use crate::flight::Flight;
use std::alloc::{AllocError, Global};
use std::marker::Model;
use thiserror::Error;
use tw_core::Refusal;
use tw_event::Event;
use tw_instance::Case;
use tw_model::RouterEnd;
use tw_model::limits::LATEST;
use tw_router::Router;
use tw_shard::Shard;
use tw_shard::shards::{
    committed_events, count_ahead, count_held, count_kept, count_pending, open_all, router_ends,
    shard_for,
};
use tw_sim::{Cancel, Signed, owner};

/// The stop would fall, or pass its limit.
#[derive(Clone, Copy, PartialEq, Eq, Debug, Error)]
#[error("the stop would fall or pass 1,000,000,000")]
pub struct StopLower;

/// Whether a step was done, or why it was refused.
pub type Answer = Result<(), Refusal>;

/// Memory was refused to a step of a list.
#[derive(Drop, Debug)]
pub struct RunFault {
    /// The number of the step, from 1.
    pub step: usize,
    /// The answers to the steps before it.
    pub answers: Vec<Answer>,
}

/// All routers of a case as one Time Warp machine.
#[derive(Drop)]
pub struct Warp<'a> {
    case: &'a Case,
    shards: Vec<Shard<'a>>,
    flight: Flight,
    bound: u64,
    stop: u64,
    cancel: Cancel,
}

impl<'a> Model for Warp<'a> {
    ghost use Rattle.tw_warp.specs.Warp as spec;
    ghost use Rattle.tw_warp.specs.Inside.{warp_of};

    ghost Value = { spec.Warp };

    ghost view = { warp_of };

    ghost invariant = { λ a. spec.IsWarp (warp_of a) };
}

impl<'a> Warp<'a> {
    /// The machine of a case as it begins, as [`Warp::with_cancel`] gives it; what an undone event has sent is
    /// taken back at once.
    pub fn new(
        alloc: Global,
        case: &'a Case,
        workers: u32,
        stop: u64,
    ) -> Result<Warp<'a>, AllocError>
        requires some { 0 < workers }
        requires stop { stop ≤ LATEST }
        ensures opens { IfOk result (λ warp. IsOpening (simulation case.now) (warp_core warp)) }
        ensures core { IfOk result (λ warp. warp_core warp ≡ opening_machine case.now Aggressive stop) }
        ensures case { IfOk result (λ warp. warp.case ≡ case.now) }
        ensures workers { IfOk result (λ warp. length warp.shards ≡ workers) }
        ensures stop { IfOk result (λ warp. warp.stop ≡ stop) }
    {
        Warp::with_cancel(alloc, case, workers, stop, Cancel::Aggressive)
    }

    /// The machine of a case as it begins, with its routers dealt out to so many workers in turn, and to this
    /// stop, in ticks, at most 1,000,000,000. There is one worker at least. What an undone event has sent is
    /// taken back at once, or as late as may be.
    pub fn with_cancel(
        alloc: Global,
        case: &'a Case,
        workers: u32,
        stop: u64,
        cancel: Cancel,
    ) -> Result<Warp<'a>, AllocError>
        requires some { 0 < workers }
        requires stop { stop ≤ LATEST }
        ensures opens { IfOk result (λ warp. IsOpening (simulation case.now) (warp_core warp)) }
        ensures core { IfOk result (λ warp. warp_core warp ≡ opening_machine case.now cancel stop) }
        ensures case { IfOk result (λ warp. warp.case ≡ case.now) }
        ensures workers { IfOk result (λ warp. length warp.shards ≡ workers) }
        ensures stop { IfOk result (λ warp. warp.stop ≡ stop) }
        ensures cancel { IfOk result (λ warp. warp.cancel ≡ cancel) }
    {
        let shards = open_all(alloc, case, workers, true, cancel)?;
        // What a case keeps is told by a read of it.
        let _ = case.instance();
        Ok(Warp {
            case,
            shards,
            flight: Flight::new(alloc),
            bound: 0,
            stop,
            cancel,
        })
    }

    /// The stop becomes this one, in ticks. It is refused where it would fall, or pass 1,000,000,000; then
    /// nothing has changed.
    pub fn set_stop(&mut self, stop: u64) -> Result<(), StopLower>
        ensures ok { OnOk result (self.new ≡ record self.old { stop = stop }) }
        ensures err { OnErr result (self.new ≡ self.old) }
        ensures refused { IsOk result ↔ ((self.old.stop ≤ stop) × (stop ≤ LATEST)) }
        ensures seq { IsSeq (simulation self.new.case) (warp_core self.new) }
    {
        if stop < self.stop || stop > LATEST {
            return Err(StopLower);
        }
        self.stop = stop;
        Ok(())
    }

    /// The case. The machine is in a good state.
    pub fn case(&self) -> &'a Case
        ensures value { result.now ≡ self.now.case }
        ensures machine { IsWarp self.now }
        ensures seq { IsSeq (simulation self.now.case) (warp_core self.now) }
    {
        self.case
    }

    /// The message at a place in flight, from 1 to `flight_len`, in the order sent, as `Step::Deliver` names it.
    /// It takes no memory. `None` where there is none.
    pub fn message_at(&self, place: u64) -> Option<Signed<Event>>
        ensures value { result ≡ message_at self.now.flight place }
        ensures seq { IsSeq (simulation self.now.case) (warp_core self.now) }
    {
        let flight = &self.flight;
        let index = place.checked_sub(1)?;
        flight.get(index as usize)
    }

    /// How many messages are on their way.
    pub fn flight_len(&self) -> u128
        ensures { result ≡ length self.now.flight }
    {
        self.flight.len()
    }

    /// The time before which nothing arrives and nothing is undone, in ticks.
    pub fn bound(&self) -> u64
        ensures { result ≡ self.now.bound }
    {
        self.bound
    }

    /// The time at which nothing is handled any more, in ticks.
    pub fn stop(&self) -> u64
        ensures { result ≡ self.now.stop }
    {
        self.stop
    }

    /// When what an undone event has sent is taken back.
    pub fn cancel(&self) -> Cancel
        ensures { result ≡ self.now.cancel }
    {
        self.cancel
    }

    /// How many workers there are.
    pub fn workers(&self) -> usize
        ensures { result ≡ length self.now.shards }
    {
        self.shards.len()
    }

    /// The shard of a worker, from 0. It retains the committed events of its routers.
    pub fn shard(&self, worker: usize) -> &Shard<'a>
        requires { worker < length self.now.shards }
        ensures value { result.now ≡ shard_at self.now worker }
        ensures share { IsShare self.now worker result.now }
    {
        &self.shards[worker]
    }

    /// A router, as the events that it has handled and not undone leave it.
    pub fn router(&self, router: u32) -> &Router<'a>
        requires { router < self.now.case.net.nodes }
        ensures { result.now ≡ record { net = self.now.case.net; node = router; state = state (simulation self.now.case) router ((warp_core self.now).history router) } }
    {
        shard_for(&self.shards, router).router(router)
    }

    /// The committed events of all routers, in their order. Where all that is handled below the bound is
    /// committed, they are the one-thread run to the bound (`laws::good_is_seq`).
    pub fn committed(&self) -> Result<Vec<Event>, AllocError>
        ensures value { IfOk result (λ v. v.items ≡ committed_events self.now) }
        ensures run { AreCommitted (simulation self.now.case) (warp_core self.now) → IfOk result (λ v. v.items ≡ reverse (log (simulation self.now.case) self.now.bound)) }
    {
        let events = committed_events(*self.shards.allocator(), self.case, &self.shards)?;
        Ok(events)
    }

    /// How each router stands, after all that it has handled, committed or not.
    pub fn router_ends(&self) -> Result<Vec<RouterEnd>, AllocError>
        ensures { IfOk result (λ ends. ends.items ≡ map (end_at self.now.case (warp_core self.now)) (range_with_len 0 self.now.case.net.nodes)) }
    {
        let ends = router_ends(*self.shards.allocator(), self.case, &self.shards)?;
        Ok(ends)
    }

    /// How many events are handled and not committed.
    pub fn ahead(&self) -> u128
        ensures { result ≡ count_ahead self.now }
    {
        count_ahead(self.case, &self.shards)
    }

    /// How many events are pending, each as often as it is.
    pub fn pending_len(&self) -> u128
        ensures { result ≡ length (warp_core self.now).pending }
    {
        count_pending(&self.shards)
    }

    /// How many antimessages came before their message and are kept.
    pub fn kept_len(&self) -> u128
        ensures { result ≡ length (warp_core self.now).kept }
    {
        count_kept(&self.shards)
    }

    /// How many messages are held: events that were undone had sent them, and they were neither sent again nor
    /// taken back.
    pub fn held_len(&self) -> u128
        ensures { result ≡ length (warp_core self.now).held }
    {
        count_held(&self.shards)
    }

    /// The worker that has this router.
    fn worker_with(&self, router: u32) -> usize
        ensures value { result ≡ worker_with self.now router }
        ensures within { result < length self.now.shards }
    {
        owner(router, self.shards.len())
    }
}
