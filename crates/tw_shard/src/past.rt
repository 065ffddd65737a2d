//! The committed events of a router.
ghost use Rattle.std.specs.Prelude.{◌≡◌, ◌+◌, ◌≤◌, ◌<◌, ◌^◌, ◌++◌, [], List, false, true, length, reverse, slice_get, vec_capacity, vec_len, IsOk, OnErr, OnOk};
ghost use Rattle.std.specs.Option.{option_copied};
ghost use Rattle.tw_event.specs.declared.event.Event.{Event as AnEvent};
ghost use Rattle.tw_shard.specs.Past.{own_run};
ghost use Rattle.tw_shard.specs.Timeline.{events_of};

use crate::timeline::HandledEvent;
use std::alloc::{AllocError, Global};
use std::marker::Model;
use tw_event::Event;
use tw_instance::Case;

/// The committed events of a router. Where they aren't retained, they are those of the one-thread run, and
/// only the newest one stays.
#[derive(Drop)]
pub(crate) struct Past<'a> {
    case: &'a Case,
    node: u32,
    retains: bool,
    events: Vec<Event>,
    last: Option<Event>,
    done: u64,
}

impl<'a> Model for Past<'a> {
    ghost use Rattle.tw_shard.specs.Past as spec;

    ghost Value = { spec.Past };

    ghost view = { spec.past_of };

    ghost invariant = { spec.IsPast };
}

impl<'a> Past<'a> {
    /// Nothing is committed at this router of a case.
    pub(crate) fn new(alloc: Global, case: &'a Case, node: u32, retains: bool) -> Past<'a>
        ensures { result ≡ record { case = case.now; node = node; retains = retains; events = []; done = 0 } }
    {
        // What a case keeps is told by a read of it.
        let _ = case.instance();
        Past {
            case,
            node,
            retains,
            events: Vec::new(alloc),
            last: None,
            done: 0,
        }
    }

    /// What this router of a case commits of its run before a time: its events, the oldest first, where they are
    /// retained, and the newest of them.
    pub(crate) fn at(
        case: &'a Case,
        node: u32,
        retains: bool,
        events: Vec<Event>,
        last: Option<Event>,
        time: u64,
    ) -> Past<'a>
        requires retained { retains ≡ true → events.items ≡ reverse (own_run case.now node time) }
        requires newest { last ≡ slice_get (own_run case.now node time) 0 }
        ensures { result ≡ record { case = case.now; node = node; retains = retains; events = own_run case.now node time; done = time } }
    {
        Past {
            case,
            node,
            retains,
            events,
            last,
            done: time,
        }
    }

    /// They themselves, the oldest first, where they are retained.
    pub(crate) fn into_events(self) -> Vec<Event>
        ensures { self.entry.retains ≡ true → result.items ≡ reverse self.entry.events }
    {
        self.events
    }

    /// The bound at the latest commit.
    pub(crate) fn done(&self) -> u64
        ensures { result ≡ self.now.done }
    {
        self.done
    }

    /// The newest one.
    pub(crate) fn last(&self) -> Option<&Event>
        ensures { option_copied result ≡ slice_get self.now.events 0 }
    {
        self.last.as_ref()
    }

    /// How many there are.
    pub(crate) fn len(&self) -> usize
        requires { self.now.retains ≡ true }
        ensures value { result ≡ length self.now.events }
        ensures most { result < 2 ^ 63 }
    {
        self.events.len()
    }

    /// Event number `k`, from 0, the oldest first.
    pub(crate) fn event(&self, k: usize) -> Option<Event>
        requires { self.now.retains ≡ true }
        ensures { result ≡ slice_get (reverse self.now.events) k }
    {
        self.events.get(k).copied()
    }

    /// The events of these steps, the oldest first, and of the newer ones behind them become committed, to
    /// this bound. Where they aren't retained, all to this bound are those of the one-thread run. It takes
    /// memory only for events that are retained.
    pub(crate) fn add(
        &mut self,
        steps: &[HandledEvent],
        newer: &[HandledEvent],
        bound: u64,
    ) -> Result<(), AllocError>
        requires { self.old.retains ≡ false
            → events_of (reverse (steps.now ++ newer.now)) ++ self.old.events ≡ own_run self.old.case self.old.node bound }
        ensures ok { OnOk result
            (self.new ≡ record self.old { events = events_of (reverse (steps.now ++ newer.now)) ++ self.old.events; done = bound }) }
        ensures err { OnErr result (self.new ≡ self.old) }
        ensures free { length (steps.now ++ newer.now) ≡ 0 → IsOk result }
    {
        retain(&mut self.events, steps, newer, self.retains)?;
        let last = newest(steps, self.last);
        self.last = newest(newer, last);
        self.done = bound;
        Ok(())
    }
}

/// The event of the last one of some steps, or `older` where there is none.
fn newest(steps: &[HandledEvent], older: Option<Event>) -> Option<Event>
    ensures { (events : List AnEvent) → older ≡ slice_get events 0 → result ≡ slice_get (events_of (reverse steps.now) ++ events) 0 }
{
    match steps.last() {
        Some(step) => Some(step.event),
        None => older,
    }
}

/// Adds the events of steps, and of newer ones, where they are retained.
fn retain(
    events: &mut Vec<Event>,
    steps: &[HandledEvent],
    newer: &[HandledEvent],
    retains: bool,
) -> Result<(), AllocError>
    ensures ok { OnOk result (retains ≡ true → events.new.items ≡ events.old.items ++ events_of (steps.now ++ newer.now)) }
    ensures err { OnErr result (events.new.items ≡ events.old.items) }
    ensures free { length (steps.now ++ newer.now) ≡ 0 → IsOk result }
{
    if !retains || (steps.is_empty() && newer.is_empty()) {
        return Ok(());
    }
    events.reserve(steps.len() + newer.len())?;
    add_events(events, steps);
    add_events(events, newer);
    Ok(())
}

/// Adds the events of steps, for which there is room.
fn add_events(events: &mut Vec<Event>, steps: &[HandledEvent])
    requires { vec_len events.old + length steps.now ≤ vec_capacity events.old }
    ensures items { events.new.items ≡ events.old.items ++ events_of steps.now }
    ensures len { vec_len events.new ≡ vec_len events.old + length steps.now }
    ensures room { vec_capacity events.new ≡ vec_capacity events.old }
{
    for step in steps {
        events.push_reserved(step.event);
    }
}
