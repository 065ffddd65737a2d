//! A router goes from one shard to another.

ghost use Rattle.std.specs.Prelude.{◌≡◌, ◌≤◌, ◌<◌, ◌+◌, ◌++◌, ◌∷◌, ◌↔◌, ℕ, [], false, true, length, slice_index_or, vec_capacity, vec_len, IsErrOf, OnErr, OnOk};
ghost use Rattle.tw_core.specs.declared.refusal.Refusal.{Refusal as ARefusal};
ghost use Rattle.tw_core.specs.declared.refusal.Refusal.TheVariants.{NotMine};
ghost use Rattle.tw_model.specs.declared.memory.OrMemory.TheVariants as or_memory;
ghost use Rattle.tw_shard.specs.Moving.{HasMovedIn, HasMovedOut};
ghost use Rattle.tw_shard.specs.Roster.{IsWithout, has, place_in};
ghost use Rattle.tw_shard.specs.Shard.{no_timeline, owns};
ghost use Rattle.tw_shard.specs.Timeline.{Timeline as ATimeline};

use super::Shard;
use crate::roster::Roster;
use crate::timeline::Timeline;
use std::alloc::AllocError;
use tw_core::Refusal;
use tw_held::HeldSends;
use tw_model::OrMemory;
use tw_queue::Pending;

impl<'a> Shard<'a> {
    /// One of its routers goes to another shard, with all that is its own: its state, its history with the records,
    /// its room, the events that wait for it, the antimessages for it that came before their message, and what is
    /// held for it. What it has sent and what is not taken out yet stays. The bound of `to` becomes the greater of
    /// the two shards' bounds.
    ///
    /// It is refused as `NotMine` where the router is none of the shard's. After a refusal and for want of memory
    /// nothing has changed in either shard.
    pub fn hand_over(&mut self, router: u32, to: &mut Shard<'a>) -> Result<(), OrMemory<Refusal>>
        requires case { to.old.terms.case ≡ self.old.terms.case }
        requires retains { to.old.terms.retains ≡ self.old.terms.retains }
        requires cancel { to.old.terms.cancel ≡ self.old.terms.cancel }
        requires new { owns to.old router ≡ false }
        ensures left { OnOk result (HasMovedOut router self.old self.new) }
        ensures came { OnOk result (HasMovedIn router self.old to.old to.new) }
        ensures refused { (f : ARefusal) → IsErrOf result (or_memory.Fault f) ↔ ((owns self.old router ≡ false) × (f ≡ NotMine)) }
        ensures err { OnErr result (self.new ≡ self.old) }
        ensures none_came { OnErr result (to.new ≡ to.old) }
    {
        if !self.owns(router) {
            return Err(OrMemory::Fault(Refusal::NotMine));
        }
        self.hand_over_own(router, to)?;
        Ok(())
    }

    /// One of its routers goes to another shard.
    fn hand_over_own(&mut self, router: u32, to: &mut Shard<'a>) -> Result<(), AllocError>
        requires own { owns self.old router ≡ true }
        requires case { to.old.terms.case ≡ self.old.terms.case }
        requires retains { to.old.terms.retains ≡ self.old.terms.retains }
        requires new { owns to.old router ≡ false }
        ensures left { OnOk result (HasMovedOut router self.old self.new) }
        ensures came { OnOk result (HasMovedIn router self.old to.old to.new) }
        ensures err { OnErr result (self.new ≡ self.old) }
        ensures none_came { OnErr result (to.new ≡ to.old) }
    {
        let held = self.held.count_of_sender(router);
        reserve_place(&mut to.roster, &mut to.timelines)?;
        reserve_events(
            &mut to.pending,
            self.pending.len(),
            &mut to.kept,
            self.kept.len(),
            &mut to.held,
            held,
        )?;
        self.pending.hand_over(router, &mut to.pending).unwrap();
        self.kept.hand_over(router, &mut to.kept).unwrap();
        self.held.hand_over(router, &mut to.held).unwrap();
        let timeline = take_out(router, &mut self.roster, &mut self.timelines);
        to.roster.add(router);
        to.timelines.push_reserved(timeline);
        to.latest = to.latest.max(self.latest);
        to.bound = to.bound.max(self.bound);
        self.tally.count_leaving(held);
        to.tally.count_coming(held);
        Ok(())
    }
}

/// Makes room for one more router, with its timeline.
fn reserve_place(roster: &mut Roster, timelines: &mut Vec<Timeline<'_>>) -> Result<(), AllocError>
    ensures room { OnOk result (0 < roster.new.room) }
    ensures capacity { OnOk result (vec_len timelines.new < vec_capacity timelines.new) }
    ensures count { roster.new.count ≡ roster.old.count }
    ensures routers { roster.new.routers ≡ roster.old.routers }
    ensures timelines { timelines.new.items ≡ timelines.old.items }
{
    roster.reserve_one()?;
    timelines.reserve(1)
}

/// Makes room for so many more events of each kind.
fn reserve_events(
    pending: &mut Pending,
    waiting: usize,
    kept: &mut Pending,
    keeping: usize,
    held: &mut HeldSends,
    holding: usize,
) -> Result<(), AllocError>
    ensures waiting { OnOk result (waiting ≤ pending.new.room) }
    ensures keeping { OnOk result (keeping ≤ kept.new.room) }
    ensures holding { OnOk result (holding ≤ held.new.room) }
    ensures pending { pending.new.events ≡ pending.old.events }
    ensures kept { kept.new.events ≡ kept.old.events }
    ensures held { held.new.events ≡ held.old.events }
    ensures pending_routers { pending.new.routers ≡ pending.old.routers }
    ensures kept_routers { kept.new.routers ≡ kept.old.routers }
    ensures held_routers { held.new.routers ≡ held.old.routers }
{
    pending.reserve(waiting)?;
    kept.reserve(keeping)?;
    held.reserve(holding)
}

/// Takes out a router with its timeline.
pub(super) fn take_out<'a>(
    router: u32,
    roster: &mut Roster,
    timelines: &mut Vec<Timeline<'a>>,
) -> Timeline<'a>
    requires own { has roster.old.routers router ≡ true }
    requires long { length timelines.old.items ≡ length roster.old.routers }
    ensures timeline { result ≡ slice_index_or timelines.old.items (place_in roster.old.routers router) no_timeline }
    ensures timelines { IsWithout ATimeline no_timeline (place_in roster.old.routers router) timelines.old.items timelines.new.items }
    ensures routers { IsWithout ℕ 0 (place_in roster.old.routers router) roster.old.routers roster.new.routers }
    ensures count { roster.new.count ≡ roster.old.count }
{
    let place = roster.remove(router);
    timelines.swap_remove(place)
}
