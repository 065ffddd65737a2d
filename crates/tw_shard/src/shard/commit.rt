//! Commits of a shard's routers.

ghost use Rattle.std.specs.Prelude.{◌≡◌, ◌-◌, ◌≤◌, ◌<◌, ◌↔◌, ◌++◌, ℕ, List, length, map, min, reverse, slice_get, slice_index_or, slice_set, false, true, IsErrOf, IsOk, OnErr, OnOk, Ok, Err};
ghost use Rattle.std.specs.List.{AllByRecursion, reduce};
ghost use Rattle.std.specs.Option.{option_map};
ghost use Rattle.tw_core.specs.declared.refusal.Refusal.{Refusal as ARefusal};
ghost use Rattle.tw_core.specs.Machine.{committed};
ghost use Rattle.tw_model.specs.Case.{simulation};
ghost use Rattle.tw_model.specs.declared.memory.OrMemory.TheVariants as or_memory;
ghost use Rattle.tw_shard.specs.Commit.{BeginsFrom, HasNothingToCommit, committed_at, committed_to, committing, not_before};
ghost use Rattle.tw_shard.specs.Shard.{FollowsRun, IsSameShare, no_timeline, owns, shard_core, timeline};
ghost use Rattle.tw_shard.specs.Timeline.{IsRunUntil, history, last_change_at};
ghost use Rattle.tw_sim.specs.Simulation.{IsFalling, below};

use super::Shard;
use crate::timeline::Timeline;
use std::alloc::AllocError;
use tw_core::Refusal;
use tw_event::Event;
use tw_model::OrMemory;

impl<'a> Shard<'a> {
    /// The events of a router that are before the bound become committed: they can be undone no more, and
    /// what undoing them would need is let go.
    ///
    /// Where its history is in order, those that can still be undone are then all that are not before the bound.
    /// Where the shard's routers don't retain their committed events, what this one has handled before the
    /// bound is the one-thread run.
    ///
    /// It is refused as `NotMine` where the router is none of the shard's. After a refusal and for want
    /// of memory nothing has changed. Where no event becomes committed, it takes no memory.
    pub fn commit(&mut self, router: u32) -> Result<(), OrMemory<Refusal>>
        requires run { self.old.terms.retains ≡ false → owns self.old router ≡ true → router < self.old.terms.case.net.nodes → FollowsRun self.old router }
        ensures ok { (stop : ℕ) → OnOk result (committing stop self.old router ≡ Ok (shard_core stop self.new)) }
        ensures events { OnOk result (self.new ≡ committed_at self.old router) }
        ensures past { let h = (shard_core 0 self.old).history router in OnOk result (IsFalling (simulation self.old.terms.case) h
            → (timeline self.new router).past ≡ below (simulation self.old.terms.case) self.old.bound h) }
        ensures ahead { let h = (shard_core 0 self.old).history router in OnOk result (IsFalling (simulation self.old.terms.case) h
            → (timeline self.new router).ahead ≡ not_before self.old.bound h) }
        ensures refused { (stop : ℕ) (f : ARefusal) → IsErrOf result (or_memory.Fault f) ↔ (committing stop self.old router ≡ Err f) }
        ensures err { OnErr result (self.new ≡ self.old) }
        ensures same { IsSameShare self.old self.new }
        ensures free { owns self.old router ≡ true → HasNothingToCommit self.old router → IsOk result }
    {
        if !self.owns(router) {
            return Err(OrMemory::Fault(Refusal::NotMine));
        }
        self.commit_own(router)?;
        Ok(())
    }

    /// One of its routers commits its events before the bound.
    fn commit_own(&mut self, router: u32) -> Result<(), AllocError>
        requires own { owns self.old router ≡ true }
        requires run { self.old.terms.retains ≡ false → FollowsRun self.old router }
        ensures ok { OnOk result (self.new ≡ committed_at self.old router) }
        ensures past { let t = timeline self.old router in OnOk result (IsFalling (simulation t.case) (history t)
            → (committed_to self.old.bound t).past ≡ below (simulation t.case) self.old.bound (history t)) }
        ensures ahead { let t = timeline self.old router in OnOk result (IsFalling (simulation t.case) (history t)
            → (committed_to self.old.bound t).ahead ≡ not_before self.old.bound (history t)) }
        ensures err { OnErr result (self.new ≡ self.old) }
        ensures free { HasNothingToCommit self.old router → IsOk result }
        ensures early { AllByRecursion (λ e. e.time < (timeline self.old router).done) (timeline self.old router).past }
    {
        let place = self.place(router);
        commit_at(&mut self.timelines, place, self.bound)?;
        Ok(())
    }

    /// How many events of one of its routers are committed, where these are retained.
    pub fn committed(&self, router: u32) -> usize
        requires own { owns self.now router ≡ true }
        requires retains { self.now.terms.retains ≡ true }
        ensures { result ≡ length (committed (simulation self.now.terms.case) (shard_core 0 self.now) router) }
    {
        self.timeline(router).committed()
    }

    /// How many events one of its routers has handled that are not committed.
    pub fn ahead(&self, router: u32) -> usize
        requires { owns self.now router ≡ true }
        ensures { result ≡ length ((shard_core 0 self.now).history router) - length (committed (simulation self.now.terms.case) (shard_core 0 self.now) router) }
    {
        self.timeline(router).ahead_len()
    }

    /// The time, in ticks, of the last event that changed the path of one of its routers, of those that the
    /// router has handled and not undone, whether committed or not; 0 where none did.
    pub fn last_change(&self, router: u32) -> u64
        requires { owns self.now router ≡ true }
        ensures { result ≡ last_change_at self.now.terms.case.net router ((shard_core 0 self.now).history router) }
    {
        self.timeline(router).last_change()
    }

    /// Event number `k`, from 0, of those that one of its routers has handled and not undone, the oldest
    /// first, where committed ones are kept. `None` past the last.
    pub fn handled(&self, router: u32, k: usize) -> Option<Event>
        requires own { owns self.now router ≡ true }
        requires retains { self.now.terms.retains ≡ true }
        ensures { result ≡ slice_get (reverse (history (timeline self.now router))) k }
    {
        self.timeline(router).handled(k)
    }

    /// The least time, in ticks, of what waits for its routers, of the antimessages that came before their
    /// message, and of what is held. `None` where there is nothing of it.
    pub fn report_time(&self) -> Option<u64>
        ensures { result ≡ reduce min (map (λ e. e.time) (self.now.pending ++ self.now.kept ++ self.now.held)) }
    {
        // That these are in order is told by reads of them.
        let _ = self.pending.len();
        let _ = self.kept.len();
        let waiting = earlier(self.pending.least_time(), self.kept.least_time());
        earlier(waiting, self.held.least_time())
    }
}

/// The lesser of two times, where there are two; else the one that there is.
fn earlier(time: Option<u64>, other: Option<u64>) -> Option<u64>
    ensures { (times others : List ℕ) → time ≡ reduce min times → other ≡ reduce min others → result ≡ reduce min (times ++ others) }
{
    match (time, other) {
        (Some(time), Some(other)) => Some(time.min(other)),
        (Some(time), None) => Some(time),
        (None, other) => other,
    }
}

/// The timeline at a place commits its events before a bound.
fn commit_at(timelines: &mut [Timeline<'_>], place: usize, bound: u64) -> Result<(), AllocError>
    requires within { place < length timelines.old }
    requires done { (slice_index_or timelines.old place no_timeline).done ≤ bound }
    requires run { let t = slice_index_or timelines.old place no_timeline in t.retains ≡ false → IsRunUntil bound t }
    ensures ok { OnOk result
        (timelines.new ≡ slice_set timelines.old place (committed_to bound (slice_index_or timelines.old place no_timeline))) }
    ensures past { let t = slice_index_or timelines.old place no_timeline in OnOk result (IsFalling (simulation t.case) (history t)
        → (committed_to bound t).past ≡ below (simulation t.case) bound (history t)) }
    ensures ahead { let t = slice_index_or timelines.old place no_timeline in OnOk result (IsFalling (simulation t.case) (history t)
        → (committed_to bound t).ahead ≡ not_before bound (history t)) }
    ensures err { OnErr result (timelines.new ≡ timelines.old) }
    ensures free { BeginsFrom bound (slice_index_or timelines.old place no_timeline).ahead → IsOk result }
    ensures early { let t = slice_index_or timelines.old place no_timeline in AllByRecursion (λ e. e.time < t.done) t.past }
{
    timelines[place].commit(bound)
}
