//! A shard where all workers stand at one time of the run, before its routers come.

ghost use Rattle.std.specs.Prelude.{◌≡◌, ◌==◌, ◌<◌, [], ℕ, Some, drop, filter, length, slice_get, slice_index_or, IfOk, OnOk};
ghost use Rattle.std.specs.List.{AllByRecursion, range_with_len};
ghost use Rattle.tw_event.specs.Order.{event_before};
ghost use Rattle.tw_model.specs.Case.{simulation};
ghost use Rattle.tw_shard.specs.Cut.{IsRouterOf, IsShardAt, timeline_at};
ghost use Rattle.tw_ordered.specs.Queue.{AreFor};
ghost use Rattle.tw_shard.specs.Roster.{has};
ghost use Rattle.tw_shard.specs.Shard.{routers};
ghost use Rattle.tw_sim.specs.Ordered.{insert_all};
ghost use Rattle.tw_sim.specs.Seq.{rest};

use super::Shard;
use super::open::insert_own;
use crate::ahead::Ahead;
use crate::roster::Roster;
use crate::router_at::RouterAt;
use crate::timeline::Timeline;
use std::alloc::{AllocError, Global};
use std::marker::Model;
use tw_event::Event;
use tw_instance::Case;
use tw_queue::Pending;
use tw_sim::Cancel;

/// A worker's shard where all workers stand at one time of the run, before its routers come: there is room for
/// them, and the events for them wait.
#[derive(Drop)]
pub struct VacantShard<'a> {
    case: &'a Case,
    worker: u32,
    workers: u32,
    time: u64,
    retains: bool,
    cancel: Cancel,
    roster: Roster,
    // Of the first routers of the roster, those that have come.
    timelines: Vec<Timeline<'a>>,
    // An empty one for each router that has not come.
    rings: Vec<Ahead>,
    pending: Pending,
    kept: Pending,
}

impl<'a> Model for VacantShard<'a> {
    ghost use Rattle.tw_shard.specs.Vacant as spec;

    ghost Value = { spec.Vacant };

    ghost view = { spec.vacant_of };

    ghost invariant = { spec.IsVacant };
}

impl<'a> VacantShard<'a> {
    /// The shard of a worker of so many, at a time, in ticks. Its routers are those for which `owners`, a list of the
    /// worker of each router, names it; none has come. `pending` has the events that the run leaves at that time, in
    /// any order. Routers retain their committed events, or let them go. What an undone event has sent is taken back at
    /// once, or as late as may be. It fails for want of memory alone.
    pub fn at(
        alloc: Global,
        case: &'a Case,
        worker: u32,
        workers: u32,
        owners: &[u32],
        time: u64,
        pending: &[Event],
        retains: bool,
        cancel: Cancel,
    ) -> Result<VacantShard<'a>, AllocError>
        requires worker { worker < workers }
        requires owners { length owners.now ≡ case.now.net.nodes }
        requires pending { insert_all event_before pending.now [] ≡ rest (simulation case.now) time }
        ensures { let own = filter (λ r. slice_index_or owners.now r workers == worker) (range_with_len 0 case.now.net.nodes) in
            IfOk result (λ vacant. vacant ≡ record { case = case.now; worker = worker; workers = workers; time = time; retains = retains; cancel = cancel; routers = own; missing = own }) }
    {
        let nodes = case.instance().nodes();
        let roster = Roster::owned(alloc, nodes, worker, owners)?;
        let count = roster.routers().len();
        let timelines = Vec::with_capacity(alloc, count)?;
        let rings = empty_rings(alloc, count)?;
        let pending = queue_at(alloc, nodes, pending, &roster)?;
        let kept = Pending::new(alloc, nodes)?;
        Ok(VacantShard {
            case,
            worker,
            workers,
            time,
            retains,
            cancel,
            roster,
            timelines,
            rings,
            pending,
            kept,
        })
    }

    /// The first of its routers that have not come comes, with what it has handled before the time.
    pub fn take_in(&mut self, router: RouterAt<'a>)
        requires next { slice_get self.old.missing 0 ≡ Some router.router.node }
        requires router { IsRouterOf (timeline_at self.old.case self.old.retains self.old.time router.router.node) router }
        ensures { self.new ≡ record self.old { missing = drop 1 self.old.missing } }
    {
        let Some(ring) = self.rings.pop() else {
            unreachable!()
        };
        let timeline = Timeline::at(self.case, self.retains, self.time, router, ring);
        self.timelines.push_reserved(timeline);
    }

    /// The shard, once all its routers have come.
    pub fn into_shard(self) -> Shard<'a>
        requires { self.missing ≡ [] }
        ensures at { (who : ℕ → ℕ) → self.entry.routers ≡ filter (λ r. who r == self.entry.worker) (range_with_len 0 self.entry.case.net.nodes)
            → IsShardAt self.entry.case who self.entry.time self.entry.worker self.entry.retains self.entry.cancel result }
        ensures order { routers result ≡ self.entry.routers }
        ensures workers { result.terms.workers ≡ self.entry.workers }
    {
        // What its routers have handled is before the time.
        let latest = self.time.saturating_sub(1);
        Shard::of_parts(
            self.case,
            self.worker,
            self.workers,
            self.retains,
            self.cancel,
            self.time,
            latest,
            self.roster,
            self.timelines,
            self.pending,
            self.kept,
        )
    }
}

/// So many empty rings.
fn empty_rings(alloc: Global, count: usize) -> Result<Vec<Ahead>, AllocError>
    ensures count { IfOk result (λ rings. length rings.items ≡ count) }
    ensures empty { IfOk result (λ rings. AllByRecursion (λ ring. ring ≡ []) rings.items) }
{
    let mut rings = Vec::with_capacity(alloc, count)?;
    for _ in 0..count {
        rings.push_reserved(Ahead::new(alloc)?);
    }
    Ok(rings)
}

/// The events for these routers, kept by time.
fn queue_at(
    alloc: Global,
    nodes: u32,
    events: &[Event],
    roster: &Roster,
) -> Result<Pending, AllocError>
    requires { AreFor nodes events.now }
    ensures events { IfOk result (λ pending. pending.events ≡ insert_all event_before (filter (λ e. has roster.now.routers e.dst) events.now) []) }
    ensures routers { IfOk result (λ pending. pending.routers ≡ nodes) }
{
    let mut pending = Pending::new(alloc, nodes)?;
    fill_by_time(&mut pending, events, roster)?;
    Ok(pending)
}

/// Keeps what waits by time, and adds the events that are for these routers.
fn fill_by_time(pending: &mut Pending, events: &[Event], roster: &Roster) -> Result<(), AllocError>
    requires { AreFor pending.old.routers events.now }
    ensures events { OnOk result
        (pending.new.events ≡ insert_all event_before (filter (λ e. has roster.now.routers e.dst) events.now) pending.old.events) }
    ensures routers { pending.new.routers ≡ pending.old.routers }
{
    pending.keep_by_time()?;
    insert_own(pending, events, roster)
}
