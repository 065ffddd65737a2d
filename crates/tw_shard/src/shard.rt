//! A shard: one worker's routers.

ghost use Rattle.std.specs.Prelude.{◌≡◌, ◌<◌, [], length, max, min, Some, slice_get, true, false, IfSome, IsTrue, OnErr, OnOk, ◌↔◌, map};
ghost use Rattle.std.specs.Bool.{OnTrue};
ghost use Rattle.std.specs.List.{AllByRecursion, reduce};
ghost use Rattle.tw_core.specs.Steps.{first_pending, from};
ghost use Rattle.tw_event.specs.Order.{event_before, event_same};
ghost use Rattle.tw_sim.specs.Simulation.{state};
ghost use Rattle.tw_sim.specs.Ordered.{insert, take_out, times};
ghost use Rattle.tw_model.specs.Case.{simulation};
ghost use Rattle.tw_model.specs.Effect.{suits};
ghost use Rattle.tw_shard.specs.Shard.{IsSoundShard, owns, place, routers, shard_core, timeline};
ghost use Rattle.tw_shard.specs.Timeline.{history, router_of};

mod commit;
mod counting;
mod least;
mod leaving;
mod moving;
mod open;
mod release;
mod step;
mod vacant;
mod widen;

use crate::roster::Roster;
use crate::tally::Tally;
use crate::timeline::Timeline;
use smallvec::SmallVec;
use std::alloc::{AllocError, Global};
use std::marker::Model;
use std::mem;
use tw_event::Event;
use tw_held::HeldSends;
use tw_instance::{Case, Instance};
use tw_queue::Pending;
use tw_router::Router;
use tw_sim::{Cancel, Signed};
pub use vacant::VacantShard;

/// One worker's routers, which run ahead of the others and are rolled back.
#[derive(Drop)]
pub struct Shard<'a> {
    case: &'a Case,
    worker: u32,
    workers: u32,
    roster: Roster,
    timelines: Vec<Timeline<'a>>,
    pending: Pending,
    kept: Pending,
    outgoing: Vec<Signed<Event>>,
    held: HeldSends,
    sends: SmallVec<Event, 8>,
    // No event that its routers have handled and not undone is after this time.
    latest: u64,
    // How often the least event was after all that were handled before.
    ticks: u64,
    // What its routers have undone. Messages that are held count as matched.
    tally: Tally,
    bound: u64,
    retains: bool,
    cancel: Cancel,
}

impl<'a> Model for Shard<'a> {
    ghost use Rattle.tw_shard.specs.Shard as spec;
    ghost use Rattle.tw_shard.specs.Inside.{IsShard, shard_of};

    ghost Value = { spec.Shard };

    ghost view = { shard_of };

    ghost invariant = { IsShard };
}

impl<'a> Shard<'a> {
    /// What its routers have sent and taken back, in that order, which leaves the shard.
    pub fn take_out(&mut self) -> Vec<Signed<Event>>
        ensures value { result.items ≡ self.old.outgoing }
        ensures rest { self.new ≡ record self.old { outgoing = [] } }
    {
        let alloc = *self.outgoing.allocator();
        mem::replace(&mut self.outgoing, Vec::new(alloc))
    }

    /// Exchanges what waits to be sent for another list, behind whose messages its routers then send.
    pub fn swap_outgoing(&mut self, messages: &mut Vec<Signed<Event>>)
        ensures taken { messages.new.items ≡ self.old.outgoing }
        ensures put { self.new ≡ record self.old { outgoing = messages.old.items } }
    {
        mem::swap(&mut self.outgoing, messages);
    }

    /// Whether this router is one of the shard's.
    #[inline(always)]
    pub fn owns(&self, router: u32) -> bool
        ensures value { result ≡ owns self.now router }
        ensures whole { IsSoundShard self.now }
    {
        self.roster.has(router)
    }

    /// How many routers it has.
    pub fn router_count(&self) -> usize
        ensures value { result ≡ length (routers self.now) }
        ensures whole { IsSoundShard self.now }
    {
        self.roster.routers().len()
    }

    /// Router number `k`, from 0, of those that it has.
    pub fn router_at(&self, k: usize) -> u32
        requires { k < length (routers self.now) }
        ensures value { slice_get (routers self.now) k ≡ Some result }
        ensures own { owns self.now result ≡ true }
        ensures whole { IsSoundShard self.now }
    {
        self.roster.routers()[k]
    }

    /// Where the timeline of one of its routers stands.
    #[inline(always)]
    fn place(&self, router: u32) -> usize
        requires { owns self.now router ≡ true }
        ensures value { result ≡ place self.now router }
        ensures within { result < length self.now.timelines }
        ensures whole { IsSoundShard self.now }
    {
        self.roster.place(router)
    }

    /// The timeline of one of its routers.
    #[inline(always)]
    pub(crate) fn timeline(&self, router: u32) -> &Timeline<'a>
        requires { owns self.now router ≡ true }
        ensures value { result.now ≡ timeline self.now router }
        ensures whole { IsSoundShard self.now }
    {
        &self.timelines[self.place(router)]
    }

    /// The worker whose routers it has. Workers are numbered from 0.
    pub fn worker(&self) -> u32
        ensures { result ≡ self.now.terms.worker }
    {
        self.worker
    }

    /// The events that wait for its routers.
    pub fn pending(&self) -> &Pending
        ensures { result.now.events ≡ self.now.pending }
    {
        &self.pending
    }

    /// The antimessages that came before their message.
    pub fn kept(&self) -> &Pending
        ensures { result.now.events ≡ self.now.kept }
    {
        &self.kept
    }

    /// What its routers have sent and taken back, in that order.
    pub fn outgoing(&self) -> &[Signed<Event>]
        ensures { result.now ≡ self.now.outgoing }
    {
        &self.outgoing
    }

    /// The time before which nothing arrives and nothing is undone, in ticks.
    pub fn bound(&self) -> u64
        ensures { result ≡ self.now.bound }
    {
        self.bound
    }

    /// Whether its routers retain their committed events, so that these can be read.
    pub fn retains(&self) -> bool
        ensures { result ≡ self.now.terms.retains }
    {
        self.retains
    }

    /// When what an undone event has sent is taken back.
    pub fn cancel(&self) -> Cancel
        ensures { result ≡ self.now.terms.cancel }
    {
        self.cancel
    }

    /// How many messages are held: events that were undone had sent them, and they were neither sent again nor
    /// taken back.
    pub fn held_len(&self) -> usize
        ensures value { result ≡ length self.now.held }
        ensures whole { IsSoundShard self.now }
    {
        self.held.len()
    }

    /// The least time, in ticks, of the messages that are held for a router, which had sent them. `None` where there
    /// is none.
    pub fn held_time(&self, router: u32) -> Option<u64>
        ensures { result ≡ reduce min (map (λ e. e.time) (from (simulation self.now.terms.case) router self.now.held)) }
    {
        self.held.least_time_of(router)
    }

    /// One of its routers, as the events that it has handled left it.
    pub fn router(&self, router: u32) -> &Router<'a>
        requires { owns self.now router ≡ true }
        ensures value { result.now ≡ router_of (timeline self.now router) }
        ensures known { result.now
            ≡ record { net = self.now.terms.case.net; node = router; state = state (simulation self.now.terms.case) router ((shard_core 0 self.now).history router) } }
    {
        self.timeline(router).router()
    }

    /// The bound at the latest commit of one of its routers.
    pub fn done(&self, router: u32) -> u64
        requires { owns self.now router ≡ true }
        ensures { result ≡ (timeline self.now router).done }
    {
        self.timeline(router).done()
    }

    /// The bound becomes the greater of itself and this one.
    pub fn raise_bound(&mut self, bound: u64)
        ensures { self.new ≡ record self.old { bound = max self.old.bound bound } }
    {
        self.bound = self.bound.max(bound);
    }

    /// The first pending event of a router.
    fn first_pending(&self, router: u32) -> Option<Event>
        ensures value { result ≡ first_pending (simulation self.now.terms.case) (shard_core 0 self.now) router }
        ensures suits { IfSome result (λ e. IsTrue (suits self.now.terms.case.net router e)) }
        ensures whole { IsSoundShard self.now }
    {
        self.pending.least_at(router)
    }

    /// An event becomes pending.
    #[inline(always)]
    pub(crate) fn add_pending(&mut self, event: &Event) -> Result<(), AllocError>
        requires own { owns self.old event.now.dst ≡ true }
        requires suit { suits self.old.terms.case.net event.now.dst event.now ≡ true }
        ensures ok { OnOk result (self.new ≡ record self.old { pending = insert event_before event.now self.old.pending }) }
        ensures err { OnErr result (self.new ≡ self.old) }
    {
        self.pending.insert(*event)?;
        Ok(())
    }

    /// An event is pending once less, if it is pending.
    pub(crate) fn take_pending(&mut self, event: &Event) -> bool
        ensures value { IsTrue result ↔ (0 < times event_same event.now self.old.pending) }
        ensures without { self.new ≡ record self.old { pending = take_out event_same event.now self.old.pending } }
        ensures none { result ≡ false → self.new ≡ self.old }
    {
        let is_taken = self.pending.remove_one(event);
        self.tally.count_pending(is_taken);
        is_taken
    }

    /// An antimessage is kept.
    pub(crate) fn add_kept(&mut self, event: &Event) -> Result<(), AllocError>
        requires own { owns self.old event.now.dst ≡ true }
        ensures ok { OnOk result (self.new ≡ record self.old { kept = insert event_before event.now self.old.kept }) }
        ensures err { OnErr result (self.new ≡ self.old) }
    {
        self.kept.insert(*event)?;
        Ok(())
    }

    /// An antimessage is kept once less, if it is kept.
    pub(crate) fn take_kept(&mut self, event: &Event) -> bool
        ensures value { IsTrue result ↔ (0 < times event_same event.now self.old.kept) }
        ensures without { self.new ≡ record self.old { kept = take_out event_same event.now self.old.kept } }
        ensures none { result ≡ false → self.new ≡ self.old }
    {
        let is_taken = self.kept.remove_one(event);
        self.tally.count_kept(is_taken);
        is_taken
    }

    /// Whether a message can only become pending: no antimessage is kept, and what its router has handled is before
    /// it.
    #[inline(always)]
    pub(crate) fn comes_last(&self, event: &Event) -> bool
        requires { owns self.now event.now.dst ≡ true }
        ensures kept { OnTrue result (self.now.kept ≡ []) }
        ensures last { OnTrue result (AllByRecursion (λ e. e.time < event.now.time) (history (timeline self.now event.now.dst))) }
        ensures whole { IsSoundShard self.now }
    {
        self.latest < event.time && self.kept.is_empty()
    }

    /// The instance whose routers these are.
    pub fn instance(&self) -> &Instance
        ensures { result.now ≡ self.now.terms.case.net }
    {
        self.case.instance()
    }
}
