//! Paths that arrive, by time: the ring, and the wheel above it.

ghost use Rattle.std.specs.Prelude.{◌≡◌, ◌==◌, ◌<◌, ◌≤◌, ◌+◌, ◌++◌, ◌↔◌, [], None, Some, IfNone, IfOk, IfSome, IsTrue, OnOk, drop, filter, slice_get};
ghost use Rattle.std.specs.Bool.{OnFalse, OnTrue};
ghost use Rattle.std.specs.List.{list_any};
ghost use Rattle.tw_event.specs.declared.event.Event.{Event as AnEvent};
ghost use Rattle.tw_event.specs.Order.{event_before, event_same};
ghost use Rattle.tw_ordered.specs.InOrder.{in_order};
ghost use Rattle.tw_ordered.specs.Queue.{is_before};
ghost use Rattle.tw_ordered.specs.Times.{first_time};
ghost use Rattle.tw_sim.specs.Ordered.{insert, take_out, times};
ghost use Rattle.tw_sim.specs.Rising.{IsRising};

use crate::ring::Ring;
use crate::wheel::Wheel;
use std::alloc::{AllocError, Global};
use std::marker::Model;
use tw_event::Event;
use tw_ordered::comes_before;

/// Paths that arrive, of which the least one comes out fast, however far ahead the others are.
#[derive(Drop)]
pub struct Calendar {
    ring: Ring,
    wheel: Wheel,
}

impl Model for Calendar {
    ghost use Rattle.std.specs.Prelude.{◌++◌, List};
    ghost use Rattle.tw_event.specs.declared.event.Event.{Event};
    ghost use Rattle.tw_event.specs.Order.{event_before};
    ghost use Rattle.tw_ordered.specs.InOrder.{in_order};

    ghost Value = { List Event };

    ghost view = { λ a. in_order event_before (a.ring ++ a.wheel) };
}

impl Calendar {
    /// No events, mostly for routers below `routers`.
    pub fn new(alloc: Global, routers: u32) -> Result<Calendar, AllocError>
        ensures { IfOk result (λ events. events ≡ []) }
    {
        Ok(Calendar {
            ring: Ring::new(alloc, routers)?,
            wheel: Wheel::new(alloc)?,
        })
    }

    /// Adds an event where it is a path that arrives, later than the tick at hand and not too far ahead, and
    /// memory is not refused, and tells whether it did.
    #[inline(always)]
    pub fn insert(&mut self, event: &Event) -> bool
        ensures added { OnTrue result (self.new ≡ insert event_before event.now self.old) }
        ensures same { OnFalse result (self.new ≡ self.old) }
    {
        if self.ring.insert(event) {
            return true;
        }
        self.wheel.insert(event)
    }

    /// Copies the least event, where there is one, and tells whether there is.
    #[inline(always)]
    pub fn copy_least(&self, event: &mut Event) -> bool
        ensures some { OnTrue result (Some event.new ≡ slice_get self.now 0) }
        ensures beyond { OnFalse result (slice_get self.now 0 ≡ None) }
        ensures none { OnFalse result (event.new ≡ event.old) }
    {
        match first_of_wheel(&self.ring, &self.wheel) {
            None => self.ring.copy_least(event),
            Some(first) => {
                *event = first;
                true
            }
        }
    }

    /// The time of the least event, in ticks, and `u64::MAX` where there is none.
    #[inline(always)]
    pub fn least_time(&self) -> u64
        ensures { result ≡ first_time self.now }
    {
        let _ = self.ring.taken();
        let time = self.ring.least_time();
        // Of most calls this is the answer, and costs little.
        if time < self.wheel.soonest() {
            return time;
        }
        time_by_search(&self.ring, &self.wheel)
    }

    /// Copies the least event, where it is one of the tick at hand and before a limit, in ticks, and tells whether
    /// it did.
    #[inline(always)]
    pub fn copy_hand(&self, limit: u64, event: &mut Event) -> bool
        ensures some { OnTrue result (Some event.new ≡ slice_get self.now 0) }
        ensures before { OnTrue result (first_time self.now < limit) }
        ensures rising { IsRising event_before event_same self.now }
        ensures none { OnFalse result (event.new ≡ event.old) }
    {
        let _ = self.ring.taken();
        self.ring.copy_hand(limit.min(self.wheel.soonest()), event)
    }

    /// Takes out the least event, where it is one of the tick at hand and before a limit, in ticks, and tells
    /// whether it did.
    #[inline(always)]
    pub fn skip_hand(&mut self, limit: u64) -> bool
        ensures taken { OnTrue result (self.new ≡ drop 1 self.old) }
        ensures before { OnTrue result (first_time self.old < limit) }
        ensures rising { IsRising event_before event_same self.old }
        ensures same { OnFalse result (self.new ≡ self.old) }
    {
        let _ = self.ring.taken();
        self.ring.skip_hand(limit.min(self.wheel.soonest()))
    }

    /// A time, in ticks, that no event is before. The events are in order.
    #[inline(always)]
    pub fn soonest(&self) -> u64
        ensures rising { IsRising event_before event_same self.now }
        ensures soonest { IfSome (slice_get self.now 0) (λ e. result ≤ e.time) }
    {
        let _ = self.ring.taken();
        self.ring.least_time().min(self.wheel.soonest())
    }

    /// An event at this time, in ticks, was taken out elsewhere, so that the next ticks may have buckets. No
    /// promise rests on it.
    pub fn go_to(&mut self, time: u64)
        ensures { self.new ≡ self.old }
    {
        self.ring.go_to(time);
        self.wheel.go_to(time);
    }

    /// Puts the events of the next tick at hand, in order, where those at hand are all taken out, and that tick
    /// is at `latest`, in ticks, at the latest: before its time comes, more events may come to it, and then it
    /// would be put in order in vain.
    #[inline(always)]
    pub fn begin_tick(&mut self, latest: u64)
        ensures { self.new ≡ self.old }
    {
        // Of most calls nothing is to be done.
        if !self.has_tick_at_hand() {
            self.begin_apart(latest);
        }
    }

    #[inline(never)]
    fn begin_apart(&mut self, latest: u64)
        ensures { self.new ≡ self.old }
    {
        self.begin_next(latest);
    }

    /// Whether not all events of the tick at hand are taken out. No promise rests on it.
    #[inline(always)]
    pub(crate) fn has_tick_at_hand(&self) -> bool {
        self.ring.has_tick_at_hand()
    }

    /// Does what `begin_tick` does, where no tick is at hand.
    #[inline(always)]
    pub(crate) fn begin_next(&mut self, latest: u64)
        ensures { self.new ≡ self.old }
    {
        begin_in(&mut self.ring, &mut self.wheel, latest);
    }

    /// Takes out the least event, where there is one.
    #[inline(always)]
    pub fn skip_least(&mut self)
        ensures { self.new ≡ drop 1 self.old }
    {
        match first_of_wheel(&self.ring, &self.wheel) {
            None => self.ring.skip_least(),
            Some(first) => {
                self.wheel.remove(&first);
            }
        }
    }

    /// Does nothing: that it can be called tells that the events are in order.
    #[inline(always)]
    pub fn are_in_order(&self)
        ensures { IsRising event_before event_same self.now }
    {
        let _ = self.ring.taken();
    }

    /// Goes back to just before a time, in ticks, as the ring does.
    pub fn step_back(&mut self, time: u64)
        ensures { self.new ≡ self.old }
    {
        self.ring.step_back(time);
    }

    /// Takes one event that equals `event` out, and tells whether there was one.
    #[inline(always)]
    pub fn remove(&mut self, event: &Event) -> bool
        ensures found { IsTrue result ↔ (0 < times event_same event.now self.old) }
        ensures events { self.new ≡ take_out event_same event.now self.old }
    {
        self.ring.remove(event) || self.wheel.remove(event)
    }

    /// How often an event is there.
    pub fn count(&self, event: &Event) -> usize
        ensures { result ≡ times event_same event.now self.now }
    {
        self.ring.count(event) + self.wheel.count(event)
    }

    /// The least event for a router.
    pub fn least_at(&self, router: u32) -> Option<Event>
        ensures { result ≡ slice_get (filter (λ e. e.dst == router) self.now) 0 }
    {
        let _ = self.ring.taken();
        self.wheel.least_for(router, self.ring.least_at(router))
    }

    /// Whether one of its events is for a router and before a limit, in ticks.
    #[inline(always)]
    pub fn has_before(&self, router: u32, limit: u64) -> bool
        ensures { result ≡ list_any (is_before router limit) self.now }
    {
        self.ring.has_before(router, limit) || self.wheel.has_before(router, limit)
    }

    /// Puts its events at the end of a list.
    pub fn append_to(&self, events: &mut Vec<Event>) -> Result<(), AllocError>
        ensures ok { OnOk result ((e : AnEvent) → times event_same e events.new.items ≡ times event_same e self.now + times event_same e events.old.items) }
    {
        self.ring.append_to(events)?;
        self.wheel.append_to(events)
    }
}

// Begins the next tick of a ring that has none at hand, where it is at `latest`, in ticks, at the latest. Where the
// wheel's next width begins by then and by the ring's least event, its events go down before.
#[inline(always)]
fn begin_in(ring: &mut Ring, wheel: &mut Wheel, latest: u64)
    ensures { in_order event_before (ring.new ++ wheel.new) ≡ in_order event_before (ring.old ++ wheel.old) }
{
    let time = ring.least_time();
    if wheel.soonest() > latest.min(time) {
        begin_at(ring, wheel, latest, time);
        return;
    }
    send_down(ring, wheel);
    begin_first(ring, wheel, latest);
}

// Sends the events of the wheel's next width, where there is one, down into a ring.
#[inline(never)]
fn send_down(ring: &mut Ring, wheel: &mut Wheel)
    ensures { in_order event_before (ring.new ++ wheel.new) ≡ in_order event_before (ring.old ++ wheel.old) }
{
    let start = wheel.soonest();
    if start == u64::MAX {
        return;
    }
    // So that ring and wheel have buckets from the width's begin on.
    let before = start.saturating_sub(1);
    ring.go_to(before);
    wheel.go_to(before);
    wheel.send_down(ring);
}

// Begins the ring's next tick, where it is at `latest`, in ticks, at the latest and before all in the wheel.
fn begin_first(ring: &mut Ring, wheel: &mut Wheel, latest: u64)
    ensures ring { ring.new ≡ ring.old }
    ensures wheel { wheel.new ≡ wheel.old }
{
    let time = ring.least_time();
    if time < wheel.soonest() {
        begin_at(ring, wheel, latest, time);
    }
}

// Begins the ring's next tick, which is at a time, where this is `latest`, in ticks, at the latest.
#[inline(always)]
fn begin_at(ring: &mut Ring, wheel: &mut Wheel, latest: u64, time: u64)
    ensures ring { ring.new ≡ ring.old }
    ensures wheel { wheel.new ≡ wheel.old }
{
    if time <= latest {
        ring.begin_tick();
        wheel.go_to(time);
    }
}

// The time of the least event of a ring and of the wheel, in ticks, and `u64::MAX` where there is none.
#[inline(never)]
fn time_by_search(ring: &Ring, wheel: &Wheel) -> u64
    ensures { result ≡ first_time (in_order event_before (ring.now ++ wheel.now)) }
{
    match first_by_search(ring, wheel) {
        None => ring.least_time(),
        Some(first) => first.time,
    }
}

// The least event of all, where it is in the wheel and not in the ring.
#[inline(always)]
fn first_of_wheel(ring: &Ring, wheel: &Wheel) -> Option<Event>
    ensures wheel { IfSome result (λ e. slice_get (in_order event_before (ring.now ++ wheel.now)) 0 ≡ Some e) }
    ensures there { IfSome result (λ e. slice_get wheel.now 0 ≡ Some e) }
    ensures ring { IfNone result (slice_get (in_order event_before (ring.now ++ wheel.now)) 0 ≡ slice_get ring.now 0) }
{
    let _ = ring.taken();
    if ring.least_time() < wheel.soonest() {
        return None;
    }
    first_by_search(ring, wheel)
}

// The least event of all, where it is in the wheel and not in the ring, sought in both.
#[inline(never)]
fn first_by_search(ring: &Ring, wheel: &Wheel) -> Option<Event>
    ensures wheel { IfSome result (λ e. slice_get (in_order event_before (ring.now ++ wheel.now)) 0 ≡ Some e) }
    ensures there { IfSome result (λ e. slice_get wheel.now 0 ≡ Some e) }
    ensures ring { IfNone result (slice_get (in_order event_before (ring.now ++ wheel.now)) 0 ≡ slice_get ring.now 0) }
{
    let _ = ring.taken();
    let first = match wheel.least() {
        None => return None,
        Some(first) => first,
    };
    let mut least = Event::default();
    if !ring.copy_least(&mut least) {
        return Some(first);
    }
    if comes_before(&first, &least) {
        Some(first)
    } else {
        None
    }
}
