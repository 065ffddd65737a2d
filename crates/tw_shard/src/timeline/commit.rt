//! Commits of one router.

ghost use Rattle.std.specs.Prelude.{◌≡◌, ◌-◌, ◌<◌, ◌≤◌, false, filter, length, nat_lt, reverse, slice_get, true, IsOk, OnErr, OnOk};
ghost use Rattle.std.specs.List.{AllByRecursion};
ghost use Rattle.tw_model.specs.Case.{simulation};
ghost use Rattle.tw_shard.specs.Commit.{BeginsFrom, committed_to, not_before};
ghost use Rattle.tw_shard.specs.Timeline.{IsRunUntil, events_of, history, last_change_at, noted_change};
ghost use Rattle.tw_sim.specs.Simulation.{IsFalling, below};

use super::{HandledEvent, Timeline};
use crate::ahead::Ahead;
use std::alloc::AllocError;
use tw_event::Event;

impl Timeline<'_> {
    /// Commits the oldest events that can be undone, as far as all of them are before the bound: they
    /// keep no record. Where there are none, it takes no memory. Where committed events aren't kept, what was
    /// handled before the bound is the one-thread run.
    pub(crate) fn commit(&mut self, bound: u64) -> Result<(), AllocError>
        requires done { self.old.done ≤ bound }
        requires run { self.old.retains ≡ false → IsRunUntil bound self.old }
        ensures ok { OnOk result (self.new ≡ committed_to bound self.old) }
        ensures past { OnOk result (IsFalling (simulation self.old.case) (history self.old)
            → self.new.past ≡ below (simulation self.old.case) bound (history self.old)) }
        ensures ahead { OnOk result (IsFalling (simulation self.old.case) (history self.old) → self.new.ahead ≡ not_before bound (history self.old)) }
        ensures err { OnErr result (self.new ≡ self.old) }
        ensures free { BeginsFrom bound self.old.ahead → IsOk result }
        ensures early { AllByRecursion (λ e. e.time < self.old.done) self.old.past }
    {
        let count = self.ahead.first_before(bound);
        let (steps, newer) = self.ahead.first(count);
        let older = last_change_of(steps, self.past_change);
        let change = last_change_of(newer, older);
        self.past.add(steps, newer, bound)?;
        self.ahead.drop_first(count);
        self.past_change = change;
        Ok(())
    }

    /// How many of its events are before the bound at the latest commit.
    pub(crate) fn committed(&self) -> usize
        requires { self.now.retains ≡ true }
        ensures { result ≡ length (filter (λ e. nat_lt e.time self.now.done) (history self.now)) }
    {
        // A commit leaves what was handled after an event that is not before the bound.
        self.past.len() + self.ahead.all_before(self.past.done())
    }

    /// How many of its events are not before the bound at the latest commit.
    pub(crate) fn ahead_len(&self) -> usize
        ensures { result ≡ length (history self.now) - length (filter (λ e. nat_lt e.time self.now.done) (history self.now)) }
    {
        self.ahead.len() - self.ahead.all_before(self.past.done())
    }

    /// The time, in ticks, of the last event that changed the router's path, of those that it has handled
    /// and not undone; 0 where none did.
    pub(crate) fn last_change(&self) -> u64
        ensures { result ≡ last_change_at self.now.net self.now.node (history self.now) }
    {
        let (steps, newer) = self.ahead.parts();
        let older = last_change_of(steps, self.past_change);
        last_change_of(newer, older)
    }

    /// Event number `k` of those that it has handled and not undone, from 0, the oldest first.
    pub(crate) fn handled(&self, k: usize) -> Option<Event>
        requires { self.now.retains ≡ true }
        ensures { result ≡ slice_get (reverse (history self.now)) k }
    {
        if k < self.past.len() {
            self.past.event(k)
        } else {
            event_at(&self.ahead, k - self.past.len())
        }
    }
}

/// The event of step number `k`, from 0.
fn event_at(steps: &Ahead, k: usize) -> Option<Event>
    ensures { result ≡ slice_get (events_of steps.now) k }
{
    steps.get(k).map(|step| step.event)
}

/// The time of the last of these steps that changed the router's path, or `time` where none did.
fn last_change_of(steps: &[HandledEvent], time: u64) -> u64
    ensures { result ≡ noted_change time steps.now }
{
    let mut last = time;
    for step in steps {
        if step.note.changed {
            last = step.event.time;
        }
    }
    last
}
