//! Events that a router will handle later, in sixteen buckets.

ghost use Rattle.std.specs.Prelude.{ℕ, ◌≡◌, ◌<◌, ◌≤◌, ◌+◌, ◌/◌, ◌%◌, ◌^◌, ◌↔◌, [], None, IsTrue, OnOk, length, slice_get, slice_index_or};
ghost use Rattle.std.specs.Bool.{OnFalse, OnTrue};
ghost use Rattle.std.specs.Option.{option_copied};
ghost use Rattle.tw_event.specs.declared.event.Event.{Event as AnEvent};
ghost use Rattle.tw_event.specs.Order.{event_before, event_same};
ghost use Rattle.tw_ordered.specs.Buckets.{together};
ghost use Rattle.tw_ordered.specs.InOrder.{least_with};
ghost use Rattle.tw_queue.specs.Times.{AreNearFirst};
ghost use Rattle.tw_sim.specs.Ordered.{insert, take_out, times};
ghost use Rattle.tw_sim.specs.Rising.{IsRising};

use crate::timed_events::TimedEvents;
use std::alloc::{AllocError, Global};
use std::array;
use std::marker::Model;
use tw_event::Event;
use tw_lanes::least_time;
use tw_ordered::{OrderedQueue, count_of, soonest_of};

/// How many buckets there are.
const BUCKETS: u64 = 16;

/// How many ticks one after another have the same bucket.
const WIDTH: u64 = 64;

/// Events in sixteen buckets: one at time t, in ticks, is in the bucket with the number (t div 64) mod 16.
#[derive(Drop)]
pub(crate) struct FarEvents {
    // The least time of all, in ticks, and `u64::MAX` where there are no events.
    soonest: u64,
    // The same for each bucket.
    least_times: [u64; 16],
    buckets: [TimedEvents; 16],
}

impl Model for FarEvents {
    ghost use Rattle.std.specs.Prelude.{List};
    ghost use Rattle.tw_event.specs.declared.event.Event.{Event};
    ghost use Rattle.tw_queue.specs.Far.{AreFar, far_events};

    ghost Value = { List Event };

    ghost view = { far_events };

    ghost invariant = { AreFar };
}

impl FarEvents {
    /// No events.
    pub(crate) fn new(alloc: Global) -> FarEvents
        ensures { result ≡ [] }
    {
        FarEvents {
            soonest: u64::MAX,
            least_times: [u64::MAX; 16],
            buckets: array::from_fn(|_| TimedEvents::new(alloc)),
        }
    }

    /// Whether there are no events.
    #[inline(always)]
    pub(crate) fn is_empty(&self) -> bool
        ensures { OnTrue result (self.now ≡ []) }
    {
        self.soonest == u64::MAX
    }

    /// Adds an event where it is before the last tick and memory is not refused, and tells whether it did.
    pub(crate) fn insert(&mut self, event: &Event) -> bool
        ensures added { OnTrue result (self.new ≡ insert event_before event.now self.old) }
        ensures same { OnFalse result (self.new ≡ self.old) }
    {
        let time = event.time;
        let place = bucket_of(time);
        if time >= u64::MAX || !self.buckets[place].push(event) {
            return false;
        }
        self.least_times[place] = self.least_times[place].min(time);
        self.soonest = self.soonest.min(time);
        true
    }

    /// Takes out one event that equals `event`, and tells whether there was one.
    pub(crate) fn remove(&mut self, event: &Event) -> bool
        ensures found { IsTrue result ↔ (0 < times event_same event.now self.old) }
        ensures events { self.new ≡ take_out event_same event.now self.old }
    {
        let place = bucket_of(event.time);
        let bucket = &mut self.buckets[place];
        let removed = bucket.remove(event);
        let least = bucket.least_time();
        self.least_times[place] = least;
        self.soonest = least_of_row(&self.least_times);
        removed
    }

    /// Moves the events of the least time into an empty queue, where memory is not refused.
    pub(crate) fn move_tick(&mut self, queue: &mut OrderedQueue)
        requires { queue.old ≡ [] }
        ensures all { (e : AnEvent) → times event_same e queue.new + times event_same e self.new ≡ times event_same e self.old }
        ensures apart { AreNearFirst queue.new self.new }
    {
        let soonest = self.soonest;
        let place = bucket_of(soonest);
        let bucket = &mut self.buckets[place];
        if !bucket.copy_tick(soonest, queue) {
            queue.clear();
            return;
        }
        bucket.drop_tick(soonest);
        let time = bucket.least_time();
        self.least_times[place] = time;
        self.soonest = least_of_row(&self.least_times);
    }

    /// How often an event is there.
    pub(crate) fn count(&self, event: &Event) -> usize
        ensures times { result ≡ times event_same event.now self.now }
        ensures bound { result < 2 ^ 62 }
    {
        count_of(self.buckets[bucket_of(event.time)].events(), event)
    }

    /// The least event.
    pub(crate) fn first(&self) -> Option<&Event>
        ensures first { option_copied result ≡ slice_get self.now 0 }
        ensures rising { IsRising event_before event_same self.now }
    {
        first_of_all(&self.buckets)
    }

    /// Puts its events at the end of a list.
    pub(crate) fn append_to(&self, events: &mut Vec<Event>) -> Result<(), AllocError>
        ensures { OnOk result ((e : AnEvent) → times event_same e events.new.items ≡ times event_same e self.now + times event_same e events.old.items) }
    {
        append_all(&self.buckets, events)
    }
}

// The number of the bucket for a time, in ticks.
#[inline(always)]
fn bucket_of(time: u64) -> usize
    ensures { result ≡ time / 64 % 16 }
{
    (time / WIDTH % BUCKETS) as usize
}

// The least of a row of sixteen times, in ticks.
fn least_of_row(times: &[u64; 16]) -> u64
    requires { length times.now ≡ 16 }
    ensures bound { (i : ℕ) → i < 16 → result ≤ slice_index_or times.now i 0 }
    ensures reached { (i : ℕ) × (i < 16) × (slice_index_or times.now i 0 ≡ result) }
{
    match least_time(times) {
        Some(time) => time,
        None => u64::MAX,
    }
}

// The least event in buckets, where it stands.
fn first_of_all(buckets: &[TimedEvents]) -> Option<&Event>
    ensures { option_copied result ≡ least_with None (together buckets.now) }
{
    let mut least = None;
    for bucket in buckets {
        least = soonest_of(least, bucket.events());
    }
    least
}

// Puts the events in buckets at the end of a list.
fn append_all(buckets: &[TimedEvents], events: &mut Vec<Event>) -> Result<(), AllocError>
    ensures { OnOk result ((e : AnEvent) → times event_same e events.new.items ≡ times event_same e (together buckets.now) + times event_same e events.old.items) }
{
    for bucket in buckets {
        events.extend_from_slice(bucket.events())?;
    }
    Ok(())
}
