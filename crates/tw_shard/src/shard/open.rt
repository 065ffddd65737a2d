//! A shard as it begins.

ghost use Rattle.std.specs.Prelude.{◌≡◌, ◌==◌, ◌<◌, [], ℕ, filter, if◌then◌else◌, length, map, slice_index_or, IfOk, OnOk};
ghost use Rattle.std.specs.List.{AllByRecursion, range_with_len};
ghost use Rattle.tw_event.specs.Order.{event_before};
ghost use Rattle.tw_model.specs.Case.{opening_events};
ghost use Rattle.tw_ordered.specs.Queue.{AreFor};
ghost use Rattle.tw_shard.specs.Roster.{has};
ghost use Rattle.tw_shard.specs.Inside.{HasHandledTo};
ghost use Rattle.tw_shard.specs.Parts.{quiet_shard};
ghost use Rattle.tw_shard.specs.Shard.{IsOpeningBy, IsOpeningShard, IsSoundShard};
ghost use Rattle.tw_shard.specs.Timeline.{opening_timeline};
ghost use Rattle.tw_sim.specs.declared.machine.Cancel.TheVariants.{Aggressive};
ghost use Rattle.tw_sim.specs.Ordered.{insert, insert_all};

use super::Shard;
use crate::roster::Roster;
use crate::tally::Tally;
use crate::timeline::Timeline;
use smallvec::SmallVec;
use std::alloc::{AllocError, Global};
use tw_event::Event;
use tw_held::HeldSends;
use tw_instance::Case;
use tw_queue::Pending;
use tw_sim::Cancel;

impl<'a> Shard<'a> {
    /// What one worker of so many has of a case, as [`Shard::open_with`] gives it; what an undone event has sent
    /// is taken back at once.
    pub fn open(
        alloc: Global,
        case: &'a Case,
        worker: u32,
        workers: u32,
        retains: bool,
    ) -> Result<Shard<'a>, AllocError>
        requires { worker < workers }
        ensures { IfOk result (λ shard. IsOpeningShard case.now worker workers retains Aggressive shard) }
    {
        Shard::open_with(alloc, case, worker, workers, retains, Cancel::Aggressive)
    }

    /// What one worker of so many has of a case: its routers as they begin, and the opening events for
    /// them. Workers have numbers from 0 on; one past the last router has none. Routers retain their committed
    /// events, or let them go. What an undone event has sent is taken back at once, or as late as may be. It
    /// fails for want of memory alone.
    pub fn open_with(
        alloc: Global,
        case: &'a Case,
        worker: u32,
        workers: u32,
        retains: bool,
        cancel: Cancel,
    ) -> Result<Shard<'a>, AllocError>
        requires { worker < workers }
        ensures { IfOk result (λ shard. IsOpeningShard case.now worker workers retains cancel shard) }
    {
        let count = case.instance().nodes();
        let roster = Roster::in_turn(alloc, count, worker, workers)?;
        Shard::with_roster(alloc, case, worker, workers, roster, retains, cancel)
    }

    /// What one worker of so many has of a case, as [`Shard::open_with`] gives it, where its routers are those for
    /// which `owners`, a list of the worker of each router, names it.
    pub fn open_owned(
        alloc: Global,
        case: &'a Case,
        worker: u32,
        workers: u32,
        owners: &[u32],
        retains: bool,
        cancel: Cancel,
    ) -> Result<Shard<'a>, AllocError>
        requires worker { worker < workers }
        requires owners { length owners.now ≡ case.now.net.nodes }
        ensures { IfOk result (λ shard. IsOpeningBy case.now (λ r. slice_index_or owners.now r workers) worker workers retains cancel shard) }
    {
        let count = case.instance().nodes();
        let roster = Roster::owned(alloc, count, worker, owners)?;
        Shard::with_roster(alloc, case, worker, workers, roster, retains, cancel)
    }

    /// A worker's shard with these routers of the case.
    fn with_roster(
        alloc: Global,
        case: &'a Case,
        worker: u32,
        workers: u32,
        roster: Roster,
        retains: bool,
        cancel: Cancel,
    ) -> Result<Shard<'a>, AllocError>
        requires worker { worker < workers }
        requires count { roster.count ≡ case.now.net.nodes }
        ensures { (who : ℕ → ℕ) → roster.routers ≡ filter (λ r. who r == worker) (range_with_len 0 case.now.net.nodes)
            → IfOk result (λ shard. IsOpeningBy case.now who worker workers retains cancel shard) }
    {
        let timelines = opening_timelines(alloc, case, roster.routers(), retains)?;
        let pending = opening_queue(alloc, case, &roster)?;
        let kept = Pending::new(alloc, case.instance().nodes())?;
        Ok(Shard::of_parts(
            case, worker, workers, retains, cancel, 0, 0, roster, timelines, pending, kept,
        ))
    }

    /// A shard of these parts with this bound, whose routers have handled nothing after `latest`. It has sent
    /// nothing and holds nothing.
    pub(super) fn of_parts(
        case: &'a Case,
        worker: u32,
        workers: u32,
        retains: bool,
        cancel: Cancel,
        bound: u64,
        latest: u64,
        roster: Roster,
        timelines: Vec<Timeline<'a>>,
        pending: Pending,
        kept: Pending,
    ) -> Shard<'a>
        requires whole { IsSoundShard (quiet_shard (record { case = case.now; worker = worker; workers = workers; retains = retains; cancel = cancel })
            bound roster.routers timelines.items pending.events kept.events) }
        requires latest { HasHandledTo latest (quiet_shard (record { case = case.now; worker = worker; workers = workers; retains = retains; cancel = cancel })
            bound roster.routers timelines.items pending.events kept.events) }
        requires count { roster.count ≡ case.now.net.nodes }
        requires waiting { pending.routers ≡ case.now.net.nodes }
        requires keeping { kept.routers ≡ case.now.net.nodes }
        ensures { result ≡ quiet_shard (record { case = case.now; worker = worker; workers = workers; retains = retains; cancel = cancel })
            bound roster.routers timelines.entry.items pending.events kept.events }
    {
        let alloc = *timelines.allocator();
        let nodes = case.instance().nodes();
        Shard {
            case,
            worker,
            workers,
            roster,
            timelines,
            pending,
            kept,
            outgoing: Vec::new(alloc),
            held: HeldSends::new(alloc, nodes),
            sends: SmallVec::new(alloc),
            latest,
            ticks: 0,
            tally: Tally::default(),
            bound,
            retains,
            cancel,
        }
    }
}

/// The timelines of routers as they begin, in the order of these.
fn opening_timelines<'a>(
    alloc: Global,
    case: &'a Case,
    routers: &[u32],
    retains: bool,
) -> Result<Vec<Timeline<'a>>, AllocError>
    requires { AllByRecursion (λ r. r < case.now.net.nodes) routers.now }
    ensures { IfOk result (λ timelines. timelines.items ≡ map (opening_timeline case.now retains) routers.now) }
{
    let mut timelines = Vec::new(alloc);
    for router in routers {
        timelines.push(Timeline::open(alloc, case, *router, retains)?)?;
    }
    Ok(timelines)
}

/// The opening events for these routers.
fn opening_queue(alloc: Global, case: &Case, roster: &Roster) -> Result<Pending, AllocError>
    ensures events { IfOk result (λ pending. pending.events
        ≡ insert_all event_before (filter (λ e. has roster.now.routers e.dst) (opening_events case.now.scenes)) []) }
    ensures routers { IfOk result (λ pending. pending.routers ≡ case.now.net.nodes) }
{
    let mut pending = Pending::new(alloc, case.instance().nodes())?;
    insert_own(&mut pending, case.openings(), roster)?;
    Ok(pending)
}

/// Adds the events that are for these routers, each in its place.
pub(super) fn insert_own(
    pending: &mut Pending,
    events: &[Event],
    roster: &Roster,
) -> Result<(), AllocError>
    requires { AreFor pending.old.routers events.now }
    ensures events { OnOk result
        (pending.new.events ≡ insert_all event_before (filter (λ e. has roster.now.routers e.dst) events.now) pending.old.events) }
    ensures routers { pending.new.routers ≡ pending.old.routers }
{
    for event in events {
        insert_where(pending, roster.has(event.dst), event)?;
    }
    Ok(())
}

/// Adds an event in its place, where this says so.
fn insert_where(pending: &mut Pending, own: bool, event: &Event) -> Result<(), AllocError>
    requires { event.now.dst < pending.old.routers }
    ensures events { OnOk result (pending.new.events ≡ (if own then insert event_before event.now pending.old.events else pending.old.events)) }
    ensures routers { pending.new.routers ≡ pending.old.routers }
{
    if own {
        pending.insert(*event)?;
    }
    Ok(())
}
