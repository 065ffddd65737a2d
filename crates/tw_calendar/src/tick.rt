//! The events of one tick, put in order once.

ghost use Rattle.std.specs.Prelude.{ℕ, ◌≡◌, ◌==◌, ◌+◌, ◌++◌, ◌^◌, ◌<◌, ◌≤◌, ◌↔◌, ◌⊎◌, [], ◌∷◌, None, IfSome, IsTrue, OnOk, Some, drop, filter, length, slice_get};
ghost use Rattle.std.specs.Bool.{OnFalse, OnTrue};
ghost use Rattle.std.specs.List.{list_any};
ghost use Rattle.tw_event.specs.declared.event.Event.{Event as AnEvent};
ghost use Rattle.tw_event.specs.Order.{event_before, event_same};
ghost use Rattle.tw_ordered.specs.InOrder.{in_order, least_with};
ghost use Rattle.tw_ordered.specs.Queue.{is_before};
ghost use Rattle.tw_ordered.specs.Times.{first_time, never};
ghost use Rattle.tw_calendar.specs.Update.{event_at, events_at};
ghost use Rattle.tw_sim.specs.Ordered.{take_out, times};

use crate::policy::{has_short_lists, is_full, is_look_due};
use crate::ticks::{clear_all, gather, put_by, sort_each};
use crate::update::{
    End, Update, append_at, count_of, first_of, has_receiver, least_for, place_of,
};
use std::alloc::{AllocError, Global};
use std::marker::Model;
use std::mem::swap;
use tw_event::Event;

/// Events of one time in the order in which they were put in, until they are sorted.
#[derive(Drop)]
pub(crate) struct Tick {
    time: u64,
    updates: Vec<Update>,
    // How many ticks were dealt.
    dealt: u32,
    // Whether those of a receiver came in another order than that of their senders, when it was last looked.
    is_mixed: bool,
}

impl Model for Tick {
    ghost use Rattle.std.specs.Prelude.{List};
    ghost use Rattle.tw_event.specs.declared.event.Event.{Event};
    ghost use Rattle.tw_calendar.specs.Update.{events_at};

    ghost Value = { List Event };

    ghost view = { λ a. events_at a.time a.updates.items };
}

impl Tick {
    /// No events.
    pub(crate) fn new(alloc: Global) -> Tick
        ensures { result ≡ [] }
    {
        Tick {
            time: 0,
            updates: Vec::new(alloc),
            dealt: 0,
            is_mixed: false,
        }
    }

    /// How many events there are.
    #[inline(always)]
    pub(crate) fn len(&self) -> usize
        ensures { result ≡ length self.now }
    {
        self.updates.len()
    }

    /// The time, in ticks, of its events.
    #[inline(always)]
    pub(crate) fn time(&self) -> u64
        ensures { (place : ℕ) → IfSome (slice_get self.now place) (λ e. e.time ≡ result) }
    {
        self.time
    }

    /// The time, in ticks, of its first event, and `u64::MAX` where there is none.
    #[inline(always)]
    pub(crate) fn first_time(&self) -> u64
        ensures { result ≡ first_time self.now }
    {
        if self.len() > 0 { self.time } else { u64::MAX }
    }

    /// Puts an update of this time, in ticks, in where all others are of this time too and memory is not
    /// refused, and tells whether it did.
    #[inline(always)]
    pub(crate) fn push(&mut self, time: u64, update: &Update) -> bool
        ensures added { OnTrue result (self.new ≡ self.old ++ event_at time update.now ∷ []) }
        ensures same { OnFalse result (self.new ≡ self.old) }
        ensures alike { OnTrue result ((first_time self.old ≡ time) ⊎ (first_time self.old ≡ never)) }
    {
        if self.updates.is_empty() {
            self.time = time;
        }
        if self.time != time {
            return false;
        }
        self.updates.push(*update).is_ok()
    }

    /// Copies the event at a place, where there is one, and tells whether there is.
    #[inline(always)]
    pub(crate) fn copy(&self, place: usize, event: &mut Event) -> bool
        ensures some { OnTrue result (Some event.new ≡ slice_get self.now place) }
        ensures within { OnTrue result (place < length self.now) }
        ensures beyond { OnFalse result (length self.now ≤ place) }
        ensures none { OnFalse result (event.new ≡ event.old) }
    {
        let Some(update) = self.updates.get(place) else {
            return false;
        };
        *event = update.at(self.time);
        true
    }

    /// Copies the least event, where there is one, and tells whether there is.
    #[inline(never)]
    pub(crate) fn copy_least(&self, event: &mut Event) -> bool
        ensures some { OnTrue result (Some event.new ≡ least_with None self.now) }
        ensures beyond { OnFalse result (least_with None self.now ≡ None) }
        ensures none { OnFalse result (event.new ≡ event.old) }
    {
        let Some(update) = first_of(&self.updates) else {
            return false;
        };
        *event = update.at(self.time);
        true
    }

    /// Takes one event that equals `event` out of its events but for the first `start`, and tells whether there
    /// was one. The others keep their order.
    #[inline(never)]
    pub(crate) fn remove(&mut self, start: usize, event: &Event) -> bool
        requires { start ≤ length self.old }
        ensures found { IsTrue result ↔ (0 < times event_same event.now (drop start self.old)) }
        ensures left { drop start self.new ≡ take_out event_same event.now (drop start self.old) }
        ensures within { start ≤ length self.new }
    {
        if event.time != self.time {
            return false;
        }
        let Some(place) = place_of(self.time, &self.updates[start..], event) else {
            return false;
        };
        self.updates.remove(start + place);
        true
    }

    /// How often an event stands among its events but for the first `start`.
    pub(crate) fn count(&self, start: usize, event: &Event) -> usize
        requires { start ≤ length self.now }
        ensures times { result ≡ times event_same event.now (drop start self.now) }
        ensures bound { result < 2 ^ 60 }
    {
        count_of(self.time, &self.updates[start..], event)
    }

    /// The least of an event, if there is one, and of those of its events that are for a router, but for the
    /// first `start`.
    pub(crate) fn least_at(&self, start: usize, router: u32, least: Option<Event>) -> Option<Event>
        requires { start ≤ length self.now }
        ensures { result ≡ least_with least (filter (λ e. e.dst == router) (drop start self.now)) }
    {
        least_for(self.time, &self.updates[start..], router, least)
    }

    /// Whether one of its events but for the first `start` is for a router and before a limit, in ticks.
    pub(crate) fn has_before(&self, start: usize, router: u32, limit: u64) -> bool
        requires { start ≤ length self.now }
        ensures { result ≡ list_any (is_before router limit) (drop start self.now) }
    {
        if self.time >= limit {
            return false;
        }
        has_receiver(&self.updates[start..], router)
    }

    /// Takes a copy of the events of another list, but for the first `start`, where it has none of its own and
    /// memory is not refused, and tells whether it did.
    pub(crate) fn refill(&mut self, other: &Tick, start: usize) -> bool
        requires { start ≤ length other.now }
        ensures filled { OnTrue result (self.new ≡ drop start other.now) }
        ensures empty { OnTrue result (self.old ≡ []) }
        ensures same { OnFalse result (self.new ≡ self.old) }
    {
        if !fill(&mut self.updates, &other.updates[start..]) {
            return false;
        }
        self.time = other.time;
        true
    }

    /// Puts its events, but for the first `start`, at the end of a list.
    pub(crate) fn append_from(
        &self,
        start: usize,
        events: &mut Vec<Event>,
    ) -> Result<(), AllocError>
        requires { start ≤ length self.now }
        ensures { OnOk result (events.new.items ≡ events.old.items ++ drop start self.now) }
    {
        append_at(self.time, &self.updates[start..], events)
    }

    /// Puts its updates at the end of a list of updates of this time, in ticks, and tells whether it did: not
    /// where its own are of another time, nor where memory is refused.
    pub(crate) fn append_updates(&self, time: u64, updates: &mut Vec<Update>) -> bool
        ensures { OnTrue result (events_at time updates.new.items ≡ events_at time updates.old.items ++ self.now) }
    {
        if self.updates.is_empty() {
            return true;
        }
        if time != self.time {
            return false;
        }
        updates.extend_from_slice(&self.updates).is_ok()
    }

    /// Puts its events in order.
    #[inline(always)]
    pub(crate) fn sort(&mut self)
        ensures { (e : AnEvent) → times event_same e self.new ≡ times event_same e self.old }
    {
        if self.updates.len() > 1 {
            self.updates.sort_unstable()
        }
    }

    /// Takes all events out. The memory is kept.
    pub(crate) fn clear(&mut self)
        ensures { self.new ≡ [] }
    {
        self.updates.clear();
    }

    /// Takes the events of another list in the place of its own, and puts them in order. Where they are many,
    /// they are dealt to `routers` first, a list for each, which leaves little to sort.
    #[inline(always)]
    pub(crate) fn take_over(&mut self, other: &mut Tick, routers: &mut [Tick])
        ensures events { self.new ≡ in_order event_before other.old }
        ensures empty { other.new ≡ [] }
    {
        // Where delays are long, most ticks have one event.
        if !self.take_only(other) {
            self.take_all(other, routers);
        }
    }

    // Takes the only event of another list in the place of its own, and tells whether it did: not where there
    // are none or several, nor where memory is refused.
    #[inline(always)]
    fn take_only(&mut self, other: &mut Tick) -> bool
        ensures taken { OnTrue result (self.new ≡ in_order event_before other.old) }
        ensures empty { OnTrue result (other.new ≡ []) }
        ensures same { OnFalse result (other.new ≡ other.old) }
    {
        if other.updates.len() != 1 {
            return false;
        }
        let update = other.updates[0];
        self.updates.clear();
        self.time = other.time;
        if self.updates.push(update).is_err() {
            return false;
        }
        other.updates.clear();
        true
    }

    // Takes the events of another list in the place of its own, and puts them in order.
    #[inline(never)]
    fn take_all(&mut self, other: &mut Tick, routers: &mut [Tick])
        ensures events { self.new ≡ in_order event_before other.old }
        ensures empty { other.new ≡ [] }
    {
        if self.deal(other, routers) {
            other.clear();
        } else {
            self.clear();
            self.time = other.time;
            swap(&mut self.updates, &mut other.updates);
        }
        self.updates.sort_unstable();
    }

    // Takes the events of another list in the place of its own, by rising receiver, and tells whether it did:
    // not where they are few for so many routers, nor where memory is refused. Where those of a receiver come
    // mixed, as by links with several delays or from several workers, they are put in order receiver by receiver
    // where these have few each, and else dealt by sender before.
    fn deal(&mut self, other: &Tick, routers: &mut [Tick]) -> bool
        ensures { OnTrue result ((e : AnEvent) → times event_same e self.new ≡ times event_same e other.now) }
    {
        let count = other.updates.len();
        if !is_full(count, routers.len()) {
            return false;
        }
        let looks = is_look_due(self.dealt);
        self.dealt = self.dealt.wrapping_add(1);
        let sorts = self.is_mixed && !looks;
        if sorts && !has_short_lists(count, routers.len()) {
            return self.deal_by(End::Sender, false, other, routers) && self.deal_again(routers);
        }
        let is_dealt = self.deal_by(End::Receiver, sorts, other, routers);
        if looks {
            self.is_mixed = !self.updates.is_sorted();
        }
        is_dealt
    }

    // Takes the events of another list in the place of its own, by rising router at one end, and those of a router
    // in order where it sorts. It is told whether it did: not where memory is refused.
    fn deal_by(&mut self, end: End, sorts: bool, other: &Tick, routers: &mut [Tick]) -> bool
        ensures { OnTrue result ((e : AnEvent) → times event_same e self.new ≡ times event_same e other.now) }
    {
        clear_all(routers);
        if !put_by(end, other.time, &other.updates, routers) {
            return false;
        }
        if sorts {
            sort_each(routers);
        }
        self.clear();
        self.time = other.time;
        gather(other.time, routers, &mut self.updates)
    }

    // Puts its events by rising receiver, and tells whether it did: where memory is refused, some may be gone.
    fn deal_again(&mut self, routers: &mut [Tick]) -> bool
        ensures { OnTrue result ((e : AnEvent) → times event_same e self.new ≡ times event_same e self.old) }
    {
        clear_all(routers);
        if !put_by(End::Receiver, self.time, &self.updates, routers) {
            return false;
        }
        self.clear();
        gather(self.time, routers, &mut self.updates)
    }
}

// Puts updates into a list that has none, where memory is not refused, and tells whether it did.
fn fill(updates: &mut Vec<Update>, others: &[Update]) -> bool
    ensures filled { OnTrue result (updates.new.items ≡ others.now) }
    ensures empty { OnTrue result (updates.old.items ≡ []) }
    ensures same { OnFalse result (updates.new.items ≡ updates.old.items) }
{
    updates.is_empty() && updates.extend_from_slice(others).is_ok()
}
