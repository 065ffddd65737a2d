//! Paths that arrive later than the ring's ticks, by widths of time.

ghost use Rattle.std.specs.Prelude.{◌≡◌, ◌==◌, ◌<◌, ◌≤◌, ◌+◌, ◌^◌, ◌++◌, ◌↔◌, [], None, Some, IsTrue, OnOk, filter, slice_get, length, IfOk};
ghost use Rattle.std.specs.Bool.{OnFalse, OnTrue};
ghost use Rattle.std.specs.List.{All, list_any};
ghost use Rattle.tw_event.specs.declared.event.Event.{Event as AnEvent};
ghost use Rattle.tw_event.specs.Order.{event_before, event_same};
ghost use Rattle.tw_ordered.specs.Buckets.{together};
ghost use Rattle.tw_ordered.specs.InOrder.{least_with};
ghost use Rattle.tw_ordered.specs.Queue.{is_before};
ghost use Rattle.tw_sim.specs.Ordered.{insert, take_out, times};
ghost use Rattle.tw_sim.specs.Rising.{IsRising};

use crate::bucket::{Bucket, any_before, least_for};
use crate::marks::{BUCKETS, Marks, is_ahead, slot_of};
use crate::ring::Ring;
use std::alloc::{AllocError, Global};
use std::marker::Model;
use tw_event::Event;
use tw_ordered::count_of;

/// Events in buckets, each for a width of 1,024 ticks.
///
/// An event at time t, in ticks, lies in the width number t / 1,024, and this number mod 1,024 is that of its
/// bucket. Only the 1,024 widths after a base have buckets, so that each bucket has one width. They reach further
/// ahead than the longest delay. When a run comes to a width, its events go down into the ring.
#[derive(Drop)]
pub(crate) struct Wheel {
    // The number of a width that is begun.
    base: u64,
    // The time at which the first width that has events begins: no event is before it.
    start: u64,
    marks: Marks,
    buckets: Vec<Bucket>,
    // The places of empty buckets that have memory, as far as that is known.
    spares: Vec<usize>,
}

impl Model for Wheel {
    ghost use Rattle.std.specs.Prelude.{List};
    ghost use Rattle.tw_event.specs.declared.event.Event.{Event};
    ghost use Rattle.tw_calendar.specs.Wheel.{IsWheel, wheel_events};

    ghost Value = { List Event };

    ghost view = { wheel_events };

    ghost invariant = { IsWheel };
}

impl Wheel {
    /// No events.
    pub(crate) fn new(alloc: Global) -> Result<Wheel, AllocError>
        ensures { IfOk result (λ events. events ≡ []) }
    {
        let buckets = empty_buckets(alloc)?;
        Ok(Wheel {
            base: 0,
            start: u64::MAX,
            marks: Marks::new(),
            buckets,
            spares: Vec::new(alloc),
        })
    }

    /// Adds an event where one of the 1,024 widths has it and memory is not refused, and tells whether it did.
    #[inline(always)]
    pub(crate) fn insert(&mut self, event: &Event) -> bool
        ensures added { OnTrue result (self.new ≡ insert event_before event.now self.old) }
        ensures same { OnFalse result (self.new ≡ self.old) }
    {
        let width = event.time / BUCKETS;
        if !is_ahead(width, self.base) {
            return false;
        }
        let slot = slot_of(width);
        reuse_memory(&mut self.buckets, &mut self.spares, slot);
        if !self.buckets[slot].push(event) {
            return false;
        }
        self.marks.set(slot, true);
        self.start = self.start.min(width * BUCKETS);
        true
    }

    /// A time, in ticks, that no event is before: that at which the first width with events begins, and
    /// `u64::MAX` where there is none.
    #[inline(always)]
    pub(crate) fn soonest(&self) -> u64
        ensures { (e : AnEvent) → 0 < times event_same e self.now → result ≤ e.time }
    {
        self.start
    }

    // What the start is by the buckets.
    fn first_start(&self) -> u64
        ensures { (e : AnEvent) → 0 < times event_same e self.now → result ≤ e.time }
    {
        match self.buckets[self.marks.first_after(self.base)].first_time() {
            Some(time) => time / BUCKETS * BUCKETS,
            None => u64::MAX,
        }
    }

    /// The least event. The events are in order.
    pub(crate) fn least(&self) -> Option<Event>
        ensures least { result ≡ slice_get self.now 0 }
        ensures rising { IsRising event_before event_same self.now }
    {
        self.buckets[self.marks.first_after(self.base)].least()
    }

    /// Sends the events of the first width that has any down into a ring, as far as the ring has room for them.
    pub(crate) fn send_down(&mut self, ring: &mut Ring)
        ensures { (e : AnEvent) → times event_same e ring.new + times event_same e self.new ≡ times event_same e ring.old + times event_same e self.old }
    {
        let place = self.marks.first_after(self.base);
        let bucket = &mut self.buckets[place];
        put_each(bucket, ring);
        let has_more = bucket.len() > 0;
        self.marks.set(place, has_more);
        let _ = self.spares.push(place);
        self.start = self.first_start();
    }

    /// Takes one event that equals `event` out, and tells whether there was one.
    pub(crate) fn remove(&mut self, event: &Event) -> bool
        ensures found { IsTrue result ↔ (0 < times event_same event.now self.old) }
        ensures events { self.new ≡ take_out event_same event.now self.old }
        ensures same { OnFalse result (self.new ≡ self.old) }
    {
        let slot = slot_of(event.time / BUCKETS);
        let bucket = &mut self.buckets[slot];
        let found = bucket.remove(event);
        let has_more = bucket.len() > 0;
        self.marks.set(slot, has_more);
        self.start = self.first_start();
        found
    }

    /// How often an event is there.
    pub(crate) fn count(&self, event: &Event) -> usize
        ensures times { result ≡ times event_same event.now self.now }
        ensures bound { result < 2 ^ 60 }
    {
        let slot = slot_of(event.time / BUCKETS);
        count_of(self.buckets[slot].events(), event)
    }

    /// The least of an event, if there is one, and of those that are for a router.
    pub(crate) fn least_for(&self, router: u32, first: Option<Event>) -> Option<Event>
        ensures { result ≡ least_with first (filter (λ e. e.dst == router) self.now) }
    {
        least_of_buckets(&self.buckets, router, first)
    }

    /// Whether one of its events is for a router and before a limit, in ticks.
    pub(crate) fn has_before(&self, router: u32, limit: u64) -> bool
        ensures { result ≡ list_any (is_before router limit) self.now }
    {
        self.start < limit && any_in_buckets(&self.buckets, router, limit)
    }

    /// The run has come to this time, in ticks, so that the widths after it may have buckets, as far as no event
    /// is before them. No promise rests on it.
    pub(crate) fn go_to(&mut self, time: u64)
        ensures { self.new ≡ self.old }
    {
        let width = time / BUCKETS;
        if width <= self.base || self.start / BUCKETS <= width {
            return;
        }
        self.base = width;
    }

    /// Puts its events at the end of a list.
    pub(crate) fn append_to(&self, events: &mut Vec<Event>) -> Result<(), AllocError>
        ensures { OnOk result ((e : AnEvent) → times event_same e events.new.items ≡ times event_same e self.now + times event_same e events.old.items) }
    {
        // Where delays are short there are none.
        if self.buckets[self.marks.first_after(self.base)].len() == 0 {
            return Ok(());
        }
        append_buckets(&self.buckets, events)
    }
}

// The least of an event, if there is one, and of those in buckets that are for a router.
fn least_of_buckets(buckets: &[Bucket], router: u32, first: Option<Event>) -> Option<Event>
    ensures { result ≡ least_with first (filter (λ e. e.dst == router) (together buckets.now)) }
{
    let mut least = first;
    for bucket in buckets {
        least = least_for(router, least, bucket.events());
    }
    least
}

// Whether one of the events in buckets is for a router and before a limit, in ticks.
fn any_in_buckets(buckets: &[Bucket], router: u32, limit: u64) -> bool
    ensures { result ≡ list_any (λ events. list_any (is_before router limit) events) buckets.now }
{
    buckets
        .iter()
        .any(|bucket| any_before(bucket.events(), router, limit))
}

// Puts the events of buckets at the end of a list.
fn append_buckets(buckets: &[Bucket], events: &mut Vec<Event>) -> Result<(), AllocError>
    ensures { OnOk result (events.new.items ≡ events.old.items ++ together buckets.now) }
{
    for bucket in buckets {
        bucket.append_to(events)?;
    }
    Ok(())
}

// A bucket for each width, without events.
fn empty_buckets(alloc: Global) -> Result<Vec<Bucket>, AllocError>
    ensures number { IfOk result (λ buckets. length buckets.items ≡ 1024) }
    ensures empty { IfOk result (λ buckets. All (λ events. events ≡ []) buckets.items) }
{
    let mut buckets = Vec::new(alloc);
    for number in 0..BUCKETS {
        buckets.push(Bucket::new(alloc))?;
    }
    Ok(buckets)
}

// Puts events into a ring, as long as it takes them.
fn put_each(events: &mut Bucket, ring: &mut Ring)
    ensures all { (e : AnEvent) → times event_same e ring.new + times event_same e events.new ≡ times event_same e ring.old + times event_same e events.old }
    ensures fewer { (e : AnEvent) → times event_same e events.new ≤ times event_same e events.old }
{
    while let Some(event) = events.last() {
        if !ring.insert(event) {
            return;
        }
        events.pop();
    }
}

// Gives an empty bucket the memory of another empty one, so that the buckets together have the memory that all
// events need, and not each its own.
#[inline(always)]
fn reuse_memory(buckets: &mut Vec<Bucket>, spares: &mut Vec<usize>, to: usize)
    requires { to < length buckets.old.items }
    ensures { buckets.new.items ≡ buckets.old.items }
{
    if buckets[to].len() != 0 {
        return;
    }
    let Some(from) = spares.pop() else {
        return;
    };
    if from < buckets.len() && buckets[from].len() == 0 {
        buckets.swap(from, to);
    }
}
