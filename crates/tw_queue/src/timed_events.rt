//! Events beside a row of their times.

ghost use Rattle.std.specs.Prelude.{◌≡◌, ◌==◌, ◌<◌, ◌+◌, ◌++◌, ◌↔◌, [], ◌∷◌, IsTrue, filter, map, not};
ghost use Rattle.std.specs.Bool.{OnFalse, OnTrue};
ghost use Rattle.tw_event.specs.declared.event.Event.{Event as AnEvent};
ghost use Rattle.tw_event.specs.Order.{event_same};
ghost use Rattle.tw_queue.specs.Times.{IsLeastTime};
ghost use Rattle.tw_sim.specs.Ordered.{take_out, times};

use std::alloc::Global;
use std::marker::Model;
use tw_event::Event;
use tw_lanes::least_time;
use tw_ordered::{OrderedQueue, place_of};

/// Events in the order in which they were put in, and a row of their times, which is searched.
#[derive(Drop)]
pub(crate) struct TimedEvents {
    times: Vec<u64>,
    events: Vec<Event>,
}

impl Model for TimedEvents {
    ghost use Rattle.std.specs.Prelude.{◌≡◌, List, map};
    ghost use Rattle.tw_event.specs.declared.event.Event.{Event};

    ghost Value = { List Event };

    ghost view = { λ a. a.events.items };

    ghost invariant = { λ a. a.times.items ≡ map (λ e. e.time) a.events.items };
}

impl TimedEvents {
    /// No events.
    pub(crate) fn new(alloc: Global) -> TimedEvents
        ensures { result ≡ [] }
    {
        TimedEvents {
            times: Vec::new(alloc),
            events: Vec::new(alloc),
        }
    }

    /// Puts an event in where memory is not refused, and tells whether it did.
    #[inline(always)]
    pub(crate) fn push(&mut self, event: &Event) -> bool
        ensures added { OnTrue result (self.new ≡ self.old ++ event.now ∷ []) }
        ensures same { OnFalse result (self.new ≡ self.old) }
    {
        if self.times.push(event.time).is_err() {
            return false;
        }
        if self.events.push(*event).is_err() {
            self.times.pop();
            return false;
        }
        true
    }

    /// The least of the times, in ticks, and `u64::MAX` where there are no events.
    pub(crate) fn least_time(&self) -> u64
        ensures { IsLeastTime self.now result }
    {
        match least_time(&self.times) {
            Some(time) => time,
            None => u64::MAX,
        }
    }

    /// The events.
    pub(crate) fn events(&self) -> &[Event]
        ensures { result.now ≡ self.now }
    {
        &self.events
    }

    /// Takes one event that equals `event` out, and tells whether there was one.
    pub(crate) fn remove(&mut self, event: &Event) -> bool
        ensures found { IsTrue result ↔ (0 < times event_same event.now self.old) }
        ensures events { self.new ≡ take_out event_same event.now self.old }
    {
        match place_of(&self.events, event) {
            Some(place) => {
                self.times.remove(place);
                self.events.remove(place);
                true
            }
            None => false,
        }
    }

    /// Puts a copy of each event at a time, in ticks, into a queue, and tells whether it did: not where memory
    /// is refused.
    pub(crate) fn copy_tick(&self, time: u64, queue: &mut OrderedQueue) -> bool
        ensures { OnTrue result ((e : AnEvent) → times event_same e queue.new ≡ times event_same e (filter (λ d. d.time == time) self.now) + times event_same e queue.old) }
    {
        copy_tick(&self.events, time, queue)
    }

    /// Takes all events at a time, in ticks, out.
    pub(crate) fn drop_tick(&mut self, time: u64)
        ensures { (e : AnEvent) → times event_same e self.new ≡ times event_same e (filter (λ d. not (d.time == time)) self.old) }
    {
        drop_tick(&mut self.times, &mut self.events, time);
    }
}

// Puts a copy of each event at a time, in ticks, into a queue, and tells whether it did: not where memory is
// refused.
fn copy_tick(events: &[Event], time: u64, queue: &mut OrderedQueue) -> bool
    ensures { OnTrue result ((e : AnEvent) → times event_same e queue.new ≡ times event_same e (filter (λ d. d.time == time) events.now) + times event_same e queue.old) }
{
    for event in events {
        if !copy_at(event, time, queue) {
            return false;
        }
    }
    true
}

// Puts a copy of an event into a queue, if it is at a time, in ticks, and tells whether it did where it is: not
// where memory is refused.
#[inline(always)]
fn copy_at(event: &Event, time: u64, queue: &mut OrderedQueue) -> bool
    ensures { OnTrue result ((e : AnEvent) → times event_same e queue.new ≡ times event_same e (filter (λ d. d.time == time) (event.now ∷ [])) + times event_same e queue.old) }
{
    if event.time != time {
        return true;
    }
    queue.insert(*event).is_ok()
}

// Takes all events at a time, in ticks, out of a list, and their times out of the row beside it. The last one takes
// the place of each, so that few are moved.
fn drop_tick(row: &mut Vec<u64>, events: &mut Vec<Event>, time: u64)
    requires { row.old.items ≡ map (λ e. e.time) events.old.items }
    ensures alike { row.new.items ≡ map (λ e. e.time) events.new.items }
    ensures left { (e : AnEvent) → times event_same e events.new.items ≡ times event_same e (filter (λ d. not (d.time == time)) events.old.items) }
{
    let mut place = 0;
    while place < row.len() {
        if row[place] == time {
            row.swap_remove(place);
            events.swap_remove(place);
        } else {
            place += 1;
        }
    }
}
