//! The events that wait for one router: the first ones in order, the others in buckets.

ghost use Rattle.std.specs.Prelude.{◌≡◌, ◌<◌, ◌+◌, ◌^◌, ◌↔◌, [], IsTrue, OnErr, OnOk, slice_get};
ghost use Rattle.std.specs.Bool.{OnFalse, OnTrue};
ghost use Rattle.std.specs.Option.{option_copied};
ghost use Rattle.tw_event.specs.declared.event.Event.{Event as AnEvent};
ghost use Rattle.tw_event.specs.Order.{event_before, event_same};
ghost use Rattle.tw_queue.specs.Times.{AreNearFirst, in_buckets};
ghost use Rattle.tw_sim.specs.Ordered.{insert, take_out, times};
ghost use Rattle.tw_sim.specs.Rising.{IsRising};

use crate::far::FarEvents;
use crate::policy::are_few;
use std::alloc::{AllocError, Global};
use std::marker::Model;
use tw_event::Event;
use tw_ordered::OrderedQueue;

/// The events that are pending for one router.
///
/// The first ones stand in a list in order, and where they are few that is all. The others are later than all of
/// these, and stand in buckets, which are made when they are first needed.
#[derive(Drop)]
pub(crate) struct BucketQueue {
    alloc: Global,
    near: OrderedQueue,
    far: Option<Box<FarEvents>>,
}

impl Model for BucketQueue {
    ghost use Rattle.std.specs.Prelude.{List};
    ghost use Rattle.tw_event.specs.declared.event.Event.{Event};
    ghost use Rattle.tw_queue.specs.BucketQueue.{IsBucketQueue, queue_events};

    ghost Value = { List Event };

    ghost view = { queue_events };

    ghost invariant = { IsBucketQueue };
}

impl BucketQueue {
    /// No events.
    pub(crate) fn new(alloc: Global) -> BucketQueue
        ensures { result ≡ [] }
    {
        BucketQueue {
            alloc,
            near: OrderedQueue::new(alloc),
            far: None,
        }
    }

    /// Adds an event.
    #[inline(always)]
    pub(crate) fn insert(&mut self, event: Event) -> Result<(), AllocError>
        ensures ok { OnOk result (self.new ≡ insert event_before event self.old) }
        ensures err { OnErr result (self.new ≡ self.old) }
    {
        if is_near(&self.near, &self.far, event.time) {
            return self.near.insert(event);
        }
        if !insert_far(self.alloc, &mut self.far, &event) {
            return Err(AllocError);
        }
        Ok(())
    }

    /// Takes out one event that equals `event`, and tells whether there was one.
    #[inline(always)]
    pub(crate) fn remove(&mut self, event: &Event) -> bool
        ensures found { IsTrue result ↔ (0 < times event_same event.now self.old) }
        ensures events { self.new ≡ take_out event_same event.now self.old }
    {
        if !self.near.remove(event) {
            return remove_far(&mut self.far, event);
        }
        if self.near.len() == 0 {
            move_tick(&mut self.near, &mut self.far);
        }
        true
    }

    /// How often an event is pending.
    pub(crate) fn count(&self, event: &Event) -> usize
        ensures times { result ≡ times event_same event.now self.now }
        ensures bound { result < 2 ^ 63 }
    {
        self.near.count(event) + count_far(&self.far, event)
    }

    /// The least event.
    #[inline(always)]
    pub(crate) fn first(&self) -> Option<&Event>
        ensures first { option_copied result ≡ slice_get self.now 0 }
        ensures rising { IsRising event_before event_same self.now }
    {
        match self.near.first() {
            Some(first) => Some(first),
            None => first_far(&self.far),
        }
    }

    /// Puts its events at the end of a list.
    pub(crate) fn append_to(&self, events: &mut Vec<Event>) -> Result<(), AllocError>
        ensures ok { OnOk result ((e : AnEvent) → times event_same e events.new.items ≡ times event_same e self.now + times event_same e events.old.items) }
    {
        self.near.append_to(events)?;
        append_far(&self.far, events)
    }
}

// Whether an event at this time, in ticks, belongs to the near ones: it does not where these are many or others
// are far, unless it is no later than all of the near ones.
#[inline(always)]
fn is_near(near: &OrderedQueue, far: &Option<Box<FarEvents>>, time: u64) -> bool
    ensures near { OnTrue result ((e d : AnEvent) → e.time ≡ time → 0 < times event_same d (in_buckets far.now) → AreNearFirst near.now (in_buckets far.now) → e.time < d.time) }
    ensures far { OnFalse result ((e d : AnEvent) → e.time ≡ time → 0 < times event_same d near.now → d.time < e.time) }
{
    let is_all = is_empty(far);
    if is_all && are_few(near.len()) {
        return true;
    }
    match near.last_time() {
        Some(last) => time <= last,
        None => is_all,
    }
}

// Whether no events are far.
#[inline(always)]
fn is_empty(far: &Option<Box<FarEvents>>) -> bool
    ensures { OnTrue result (in_buckets far.now ≡ []) }
{
    match far {
        Some(far) => far.is_empty(),
        None => true,
    }
}

// Adds an event to the far ones, where it is before the last tick and memory is not refused, and tells whether
// it did.
#[inline(never)]
fn insert_far(alloc: Global, far: &mut Option<Box<FarEvents>>, event: &Event) -> bool
    ensures added { OnTrue result (in_buckets far.new ≡ insert event_before event.now (in_buckets far.old)) }
    ensures same { OnFalse result (in_buckets far.new ≡ in_buckets far.old) }
{
    if let Some(far) = far {
        return far.insert(event);
    }
    let mut made = FarEvents::new(alloc);
    if !made.insert(event) {
        return false;
    }
    match Box::new(alloc, made) {
        Ok(made) => {
            *far = Some(made);
            true
        }
        Err(_) => false,
    }
}

// Takes one event that equals `event` out of the far ones, and tells whether there was one.
#[inline(never)]
fn remove_far(far: &mut Option<Box<FarEvents>>, event: &Event) -> bool
    ensures found { IsTrue result ↔ (0 < times event_same event.now (in_buckets far.old)) }
    ensures events { in_buckets far.new ≡ take_out event_same event.now (in_buckets far.old) }
{
    match far {
        Some(far) => far.remove(event),
        None => false,
    }
}

// Moves the far events of the least time to the near ones, of which there are none, where memory is not refused.
#[inline(always)]
fn move_tick(near: &mut OrderedQueue, far: &mut Option<Box<FarEvents>>)
    requires { near.old ≡ [] }
    ensures all { (e : AnEvent) → times event_same e near.new + times event_same e (in_buckets far.new) ≡ times event_same e (in_buckets far.old) }
    ensures apart { AreNearFirst near.new (in_buckets far.new) }
{
    let Some(far) = far else {
        return;
    };
    if far.is_empty() {
        return;
    }
    far.move_tick(near);
}

// How often an event is far.
fn count_far(far: &Option<Box<FarEvents>>, event: &Event) -> usize
    ensures times { result ≡ times event_same event.now (in_buckets far.now) }
    ensures bound { result < 2 ^ 62 }
{
    match far {
        Some(far) => far.count(event),
        None => 0,
    }
}

// The least of the far events.
#[inline(never)]
fn first_far(far: &Option<Box<FarEvents>>) -> Option<&Event>
    ensures first { option_copied result ≡ slice_get (in_buckets far.now) 0 }
    ensures rising { IsRising event_before event_same (in_buckets far.now) }
{
    match far {
        Some(far) => far.first(),
        None => None,
    }
}

// Puts the far events at the end of a list.
fn append_far(far: &Option<Box<FarEvents>>, events: &mut Vec<Event>) -> Result<(), AllocError>
    ensures { OnOk result ((e : AnEvent) → times event_same e events.new.items ≡ times event_same e (in_buckets far.now) + times event_same e events.old.items) }
{
    match far {
        Some(far) => far.append_to(events),
        None => Ok(()),
    }
}
