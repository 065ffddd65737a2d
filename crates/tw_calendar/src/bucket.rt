//! Events of many ticks, in no order.

ghost use Rattle.std.specs.Option.{option_copied};
ghost use Rattle.std.specs.Prelude.{◌≡◌, ◌<◌, ◌↔◌, ◌-◌, ◌++◌, [], ◌∷◌, None, Some, IfNone, IfSome, IsTrue, OnOk, length, option_map, slice_get, take};
ghost use Rattle.std.specs.Bool.{OnFalse, OnTrue};
ghost use Rattle.tw_event.specs.Order.{event_same};
ghost use Rattle.tw_ordered.specs.InOrder.{least_with, earlier};
ghost use Rattle.tw_sim.specs.Ordered.{take_out, times};
ghost use Rattle.std.specs.Prelude.{◌==◌, filter};
ghost use Rattle.std.specs.List.{list_any};
ghost use Rattle.tw_ordered.specs.Queue.{is_before};

use crate::update::Update;
use std::alloc::{AllocError, Global};
use std::marker::Model;
use tw_event::Event;
use tw_ordered::{earlier, least_of, remove_from};

/// Events in the order in which they were put in.
#[derive(Drop)]
pub(crate) struct Bucket {
    events: Vec<Event>,
}

impl Model for Bucket {
    ghost use Rattle.std.specs.Prelude.{List};
    ghost use Rattle.tw_event.specs.declared.event.Event.{Event};

    ghost Value = { List Event };

    ghost view = { λ a. a.events.items };
}

impl Bucket {
    /// No events.
    pub(crate) fn new(alloc: Global) -> Bucket
        ensures { result ≡ [] }
    {
        Bucket {
            events: Vec::new(alloc),
        }
    }

    /// How many events there are.
    #[inline(always)]
    pub(crate) fn len(&self) -> usize
        ensures { result ≡ length self.now }
    {
        self.events.len()
    }

    /// Puts an event in, where it is a path that arrives and memory is not refused, and tells whether it did.
    #[inline(always)]
    pub(crate) fn push(&mut self, event: &Event) -> bool
        ensures added { OnTrue result (self.new ≡ self.old ++ event.now ∷ []) }
        ensures same { OnFalse result (self.new ≡ self.old) }
    {
        // Field by field: a copy of the whole would wait for the fields, which were just written one by one.
        match Update::of(event) {
            Some(update) => self.events.push(update.at(event.time)).is_ok(),
            None => false,
        }
    }

    /// The time of the event put in first, in ticks.
    #[inline(always)]
    pub(crate) fn first_time(&self) -> Option<u64>
        ensures { result ≡ option_map (λ e. e.time) (slice_get self.now 0) }
    {
        self.events.first().map(|event| event.time)
    }

    /// The event put in last.
    #[inline(always)]
    pub(crate) fn last(&self) -> Option<&Event>
        ensures some { IfSome (option_copied result) (λ e. slice_get self.now (length self.now - 1) ≡ Some e) }
        ensures none { IfNone (option_copied result) (self.now ≡ []) }
    {
        self.events.last()
    }

    /// Takes the event put in last out, where there is one.
    #[inline(always)]
    pub(crate) fn pop(&mut self)
        ensures { self.new ≡ take (length self.old - 1) self.old }
    {
        self.events.pop();
    }

    /// The events.
    #[inline(always)]
    pub(crate) fn events(&self) -> &[Event]
        ensures { result.now ≡ self.now }
    {
        &self.events
    }

    /// The least event.
    pub(crate) fn least(&self) -> Option<Event>
        ensures { result ≡ least_with None self.now }
    {
        least_of(None, &self.events)
    }

    /// Takes one event that equals `event` out, and tells whether there was one.
    pub(crate) fn remove(&mut self, event: &Event) -> bool
        ensures found { IsTrue result ↔ (0 < times event_same event.now self.old) }
        ensures events { self.new ≡ take_out event_same event.now self.old }
    {
        remove_from(&mut self.events, event)
    }

    /// Puts its events at the end of a list.
    pub(crate) fn append_to(&self, events: &mut Vec<Event>) -> Result<(), AllocError>
        ensures { OnOk result (events.new.items ≡ events.old.items ++ self.now) }
    {
        events.extend_from_slice(&self.events)
    }
}

/// The least of an event, if there is one, and of those of these that are for a router.
pub(crate) fn least_for(router: u32, first: Option<Event>, events: &[Event]) -> Option<Event>
    ensures { result ≡ least_with first (filter (λ e. e.dst == router) events.now) }
{
    let mut least = first;
    for event in events {
        if event.dst == router {
            least = Some(earlier(*event, least));
        }
    }
    least
}

/// Whether one of these is for a router and before a limit, in ticks.
pub(crate) fn any_before(events: &[Event], router: u32, limit: u64) -> bool
    ensures { result ≡ list_any (is_before router limit) events.now }
{
    events
        .iter()
        .any(|event| event.dst == router && event.time < limit)
}
