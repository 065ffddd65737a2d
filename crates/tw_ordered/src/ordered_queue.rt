//! Events in rising order.

ghost use Rattle.std.specs.Prelude.{◌≡◌, ◌<◌, ◌↔◌, ◌^◌, ◌+◌, IfNone, IfSome, IsTrue, [], OnErr, OnOk, false, length, slice_get, slice_index_or, true};
ghost use Rattle.std.specs.Bool.{OnFalse, OnTrue};
ghost use Rattle.std.specs.Option.{option_copied};
ghost use Rattle.tw_event.specs.declared.event.Event.{Event};
ghost use Rattle.tw_event.specs.Order.{event_before, event_same};
ghost use Rattle.tw_ordered.specs.InOrder.{IsPlace};
ghost use Rattle.tw_ordered.specs.Times.{IsLastTime};
ghost use Rattle.tw_sim.specs.Ordered.{insert, take_out, times};
ghost use Rattle.tw_sim.specs.Rising.{IsRising};

use crate::search::{comes_before, count_of};
use std::alloc::{AllocError, Global};
use std::collections::VecDeque;
use std::marker::Model;
use tw_event::Event;

/// Events in rising order, each as often as it was inserted.
///
/// The least is the first, which comes out fast; and an event that comes is nearly always later than all
/// the others, and goes to the end.
#[derive(Drop)]
pub struct OrderedQueue {
    events: VecDeque<Event>,
}

impl Model for OrderedQueue {
    ghost use Rattle.std.specs.Prelude.{List};
    ghost use Rattle.tw_event.specs.declared.event.Event.{Event};
    ghost use Rattle.tw_event.specs.Order.{event_before, event_same};
    ghost use Rattle.tw_sim.specs.Rising.{IsRising};

    ghost Value = { List Event };

    ghost view = { λ a. a.events.items };

    ghost invariant = { λ a. IsRising event_before event_same a.events.items };
}

impl OrderedQueue {
    /// No events.
    pub fn new(alloc: Global) -> OrderedQueue
        ensures { result ≡ [] }
    {
        OrderedQueue {
            events: VecDeque::new(alloc),
        }
    }

    /// Adds an event.
    pub fn insert(&mut self, event: Event) -> Result<(), AllocError>
        ensures ok { OnOk result (self.new ≡ insert event_before event self.old) }
        ensures err { OnErr result (self.new ≡ self.old) }
    {
        let place = place_of(&self.events, &event);
        self.events.insert(place, event)?;
        Ok(())
    }

    /// How many events there are.
    #[inline(always)]
    pub fn len(&self) -> usize
        ensures { result ≡ length self.now }
    {
        self.events.len()
    }

    /// The time of the last event, in ticks.
    #[inline(always)]
    pub fn last_time(&self) -> Option<u64>
        ensures some { IfSome result (λ time. IsLastTime self.now time) }
        ensures none { IfNone result (self.now ≡ []) }
    {
        match self.events.back() {
            Some(last) => Some(last.time),
            None => None,
        }
    }

    /// Takes all events out.
    pub fn clear(&mut self)
        ensures { self.new ≡ [] }
    {
        self.events.clear();
    }

    /// Takes out one event that equals `event`, and tells whether there was one.
    pub fn remove(&mut self, event: &Event) -> bool
        ensures found { IsTrue result ↔ (0 < times event_same event.now self.old) }
        ensures events { self.new ≡ take_out event_same event.now self.old }
    {
        let place = place_of(&self.events, event);
        if !is_at(&self.events, place, event) {
            return false;
        }
        self.events.remove(place);
        true
    }

    /// How often an event is pending.
    pub fn count(&self, event: &Event) -> usize
        ensures times { result ≡ times event_same event.now self.now }
        ensures bound { result < 2 ^ 62 }
    {
        let (first, second) = self.events.as_slices();
        count_of(first, event) + count_of(second, event)
    }

    /// The least event.
    #[inline(always)]
    pub fn first(&self) -> Option<&Event>
        ensures first { option_copied result ≡ slice_get self.now 0 }
        ensures rising { IsRising event_before event_same self.now }
    {
        self.events.front()
    }

    /// Puts its events at the end of a list.
    pub fn append_to(&self, events: &mut Vec<Event>) -> Result<(), AllocError>
        ensures ok { OnOk result ((e : Event) → times event_same e events.new.items ≡ times event_same e self.now + times event_same e events.old.items) }
    {
        let (first, second) = self.events.as_slices();
        events.extend_from_slice(first)?;
        events.extend_from_slice(second)?;
        Ok(())
    }
}

// The place of an event among events in rising order: how many of them come before it.
fn place_of(events: &VecDeque<Event>, event: &Event) -> usize
    requires { IsRising event_before event_same events.now.items }
    ensures { IsPlace event.now events.now.items result }
{
    if starts_at(events, event) {
        return 0;
    }
    if ends_before(events, event) {
        return events.len();
    }
    events.partition_point(|other| comes_before(other, event))
}

// Whether the first of some events in rising order does not come before an event.
fn starts_at(events: &VecDeque<Event>, event: &Event) -> bool
    requires { IsRising event_before event_same events.now.items }
    ensures { OnTrue result (IsPlace event.now events.now.items 0) }
{
    match events.front() {
        Some(first) => !comes_before(first, event),
        None => true,
    }
}

// Whether the last of some events in rising order comes before an event.
fn ends_before(events: &VecDeque<Event>, event: &Event) -> bool
    requires { IsRising event_before event_same events.now.items }
    ensures { OnTrue result (IsPlace event.now events.now.items (length events.now.items)) }
{
    match events.back() {
        Some(last) => comes_before(last, event),
        None => false,
    }
}

// Whether an event stands at a place.
fn is_at(events: &VecDeque<Event>, place: usize, event: &Event) -> bool
    ensures there { OnTrue result ((place < length events.now.items) × (event_same event.now (slice_index_or events.now.items place event.now) ≡ true)) }
    ensures other { OnFalse result (place < length events.now.items → event_same event.now (slice_index_or events.now.items place event.now) ≡ false) }
{
    match events.get(place) {
        Some(other) => *event == *other,
        None => false,
    }
}
