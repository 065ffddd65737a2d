//! The events that wait at a shard (docs/DECISIONS.md, 'One thread': by router, or by time).

ghost use Rattle.std.specs.Prelude.{◌≡◌, ◌↔◌, ◌+◌, ◌<◌, ◌≤◌, ◌==◌, IfOk, IfSome, IsOk, IsTrue, None, OnErr, OnOk, Some};
ghost use Rattle.std.specs.Prelude.{[], if◌then◌else◌, drop, filter, length, option_map, slice_get, true};
ghost use Rattle.std.specs.Bool.{OnFalse, OnTrue};
ghost use Rattle.std.specs.List.{list_any};
ghost use Rattle.tw_event.specs.declared.event.Event.{Event as AnEvent};
ghost use Rattle.tw_event.specs.Order.{event_before, event_same};
ghost use Rattle.tw_queue.specs.Pending.{together_with};
ghost use Rattle.tw_ordered.specs.Queue.{IsQueue, for_others, for_router, is_before};
ghost use Rattle.tw_sim.specs.Ordered.{insert, insert_all, take_out, times};

use crate::by_router::ByRouter;
use crate::merged::{copy_before, insert_by_time, least_of_both, skip_first, take_from};
use std::alloc::{AllocError, Global};
use std::marker::Model;
use tw_calendar::Calendar;
use tw_event::Event;
use tw_ordered::earlier_of;

/// Events that wait to be handled, each as often as it was inserted, by router or by time.
///
/// By router, as they are at first, the least event of all, that of one router, and the place of an event are
/// found without going over all events. By time the least of all comes out fast: paths that arrive in the next
/// 2^24 ticks stand in a calendar, whose next tick is put in order when it is begun, and all others by router.
#[derive(Drop)]
pub struct Pending {
    alloc: Global,
    calendar: Calendar,
    // Where an event goes that the calendar does not take: room is reserved here alone.
    rest: ByRouter,
    // Whether the calendar is used.
    by_time: bool,
    // The time of the rest's least event, in ticks, and `u64::MAX` where it has none.
    rest_time: u64,
    len: usize,
}

impl Model for Pending {
    ghost use Rattle.tw_ordered.specs.Queue.{Queue};
    ghost use Rattle.tw_queue.specs.Pending.{IsPending, room_of, together_with};

    ghost Value = { Queue };

    ghost view = { λ a. record { routers = a.rest.routers; events = together_with a.calendar a.rest; room = room_of a } };

    ghost invariant = { IsPending };
}

impl Pending {
    /// No events, for routers below `routers`, by router.
    pub fn new(alloc: Global, routers: u32) -> Result<Pending, AllocError>
        ensures routers { IfOk result (λ q. q.routers ≡ routers) }
        ensures empty { IfOk result (λ q. q.events ≡ []) }
    {
        let calendar = Calendar::new(alloc, 0)?;
        let rest = ByRouter::new(alloc, routers)?;
        Ok(Pending {
            alloc,
            calendar,
            rest,
            by_time: false,
            rest_time: u64::MAX,
            len: 0,
        })
    }

    /// Keeps what waits by time from now on: then the least event of all is found fast, and that of one router
    /// only by going over all events. Where memory is refused for that, they are kept by router as before.
    pub fn keep_by_time(&mut self) -> Result<(), AllocError>
        ensures { self.new ≡ self.old }
    {
        if self.by_time {
            return Ok(());
        }
        self.calendar = Calendar::new(self.alloc, self.rest.routers())?;
        self.by_time = true;
        Ok(())
    }

    /// How many events are pending.
    pub fn len(&self) -> usize
        ensures len { result ≡ length self.now.events }
        ensures queue { IsQueue self.now }
    {
        let _ = self.rest.len();
        self.len
    }

    /// Whether no event is pending.
    pub fn is_empty(&self) -> bool
        ensures { result ≡ (length self.now.events == 0) }
    {
        self.len == 0
    }

    /// Makes room for `additional` more events, so that inserting them cannot fail.
    pub fn reserve(&mut self, additional: usize) -> Result<(), AllocError>
        ensures ok { OnOk result (additional ≤ self.new.room) }
        ensures full { OnErr result (self.old.room < additional) }
        ensures routers { self.new.routers ≡ self.old.routers }
        ensures events { self.new.events ≡ self.old.events }
        ensures room { self.old.room ≤ self.new.room }
    {
        if usize::MAX - self.len < additional {
            return Err(AllocError);
        }
        self.rest.reserve(additional)
    }

    /// Adds an event, in its place in the order. It cannot fail where there is room.
    #[inline(always)]
    pub fn insert(&mut self, event: Event) -> Result<(), AllocError>
        requires { event.dst < self.old.routers }
        ensures ok { OnOk result (self.new.events ≡ insert event_before event self.old.events) }
        ensures err { OnErr result (self.new.events ≡ self.old.events) }
        ensures succeeds { 0 < self.old.room → IsOk result }
        ensures routers { self.new.routers ≡ self.old.routers }
        ensures room { self.old.room ≤ self.new.room + 1 }
    {
        if self.len == usize::MAX {
            return Err(AllocError);
        }
        if insert_by_time(&mut self.calendar, self.by_time, &event) {
            self.len += 1;
            return Ok(());
        }
        self.rest.insert(event)?;
        self.rest_time = self.rest_time.min(event.time);
        self.len += 1;
        Ok(())
    }

    /// The least event.
    pub fn least(&self) -> Option<Event>
        ensures first { result ≡ slice_get self.now.events 0 }
        ensures home { IfSome result (λ e. e.dst < self.now.routers) }
        ensures queue { IsQueue self.now }
    {
        let _ = self.rest.len();
        least_of_both(&self.calendar, &self.rest, self.rest_time)
    }

    /// The time of the least event, in ticks.
    #[inline(always)]
    pub fn least_time(&self) -> Option<u64>
        ensures { result ≡ option_map (λ e. e.time) (slice_get self.now.events 0) }
    {
        self.calendar.are_in_order();
        let _ = self.rest.len();
        if self.len == 0 {
            return None;
        }
        Some(self.calendar.least_time().min(self.rest_time))
    }

    /// Copies the least event where it is before a limit, in ticks, and tells whether it did; else `event` stays
    /// as it was.
    #[inline(always)]
    pub fn copy_least_before(&mut self, limit: u64, event: &mut Event) -> bool
        ensures some { OnTrue result (Some event.new ≡ slice_get self.old.events 0) }
        ensures before { OnTrue result (event.new.time < limit) }
        ensures home { OnTrue result (event.new.dst < self.old.routers) }
        ensures none { OnFalse result ((e : AnEvent) → slice_get self.old.events 0 ≡ Some e → limit ≤ e.time) }
        ensures unchanged { OnFalse result (event.new ≡ event.old) }
        ensures same { self.new ≡ self.old }
        ensures queue { IsQueue self.old }
    {
        let _ = self.rest.len();
        copy_before(&mut self.calendar, &self.rest, self.rest_time, limit, event)
    }

    /// Takes out the least event, where there is one.
    #[inline(always)]
    pub fn skip_least(&mut self)
        ensures events { self.new.events ≡ drop 1 self.old.events }
        ensures routers { self.new.routers ≡ self.old.routers }
        ensures room { self.old.room ≤ self.new.room }
    {
        if self.len == 0 {
            return;
        }
        skip_first(&mut self.calendar, &mut self.rest, &mut self.rest_time);
        self.len -= 1;
    }

    /// How often this event is pending.
    pub fn count(&self, event: &Event) -> usize
        ensures { result ≡ times event_same event.now self.now.events }
    {
        if self.len == 0 {
            return 0;
        }
        self.calendar.count(event) + self.rest.count(event)
    }

    /// Takes out one event that equals `event`, and tells whether there was one. It takes no memory.
    pub fn remove_one(&mut self, event: &Event) -> bool
        ensures found { IsTrue result ↔ (0 < times event_same event.now self.old.events) }
        ensures events { self.new.events ≡ take_out event_same event.now self.old.events }
        ensures routers { self.new.routers ≡ self.old.routers }
        ensures room { self.old.room ≤ self.new.room }
    {
        if self.len == 0 {
            return false;
        }
        let removed = take_from(
            &mut self.calendar,
            &mut self.rest,
            &mut self.rest_time,
            event,
        );
        if removed {
            self.len -= 1;
        }
        removed
    }

    /// The least event for this router.
    pub fn least_at(&self, router: u32) -> Option<Event>
        ensures first { result ≡ slice_get (filter (λ e. e.dst == router) self.now.events) 0 }
        ensures home { IfSome result (λ e. e.dst ≡ router) }
        ensures queue { IsQueue self.now }
    {
        self.calendar.are_in_order();
        if !self.by_time {
            return self.rest.least_at(router);
        }
        earlier_of(self.calendar.least_at(router), self.rest.least_at(router))
    }

    /// Whether an event for this router is before a limit, in ticks. Of the events kept by time, those that are at the
    /// limit or after it are passed over.
    pub fn has_before(&self, router: u32, limit: u64) -> bool
        ensures { result ≡ list_any (is_before router limit) self.now.events }
    {
        self.rest.has_before(router, limit) || self.calendar.has_before(router, limit)
    }

    /// Moves the events for this router to `to`, each as often as it is pending. The others stay.
    ///
    /// For want of memory nothing is moved. It cannot fail where `to` has room for all events.
    pub fn hand_over(&mut self, router: u32, to: &mut Pending) -> Result<(), AllocError>
        requires { self.old.routers ≤ to.old.routers }
        ensures given { OnOk result (to.new.events ≡ insert_all event_before (for_router router self.old.events) to.old.events) }
        ensures rest { OnOk result (self.new.events ≡ for_others router self.old.events) }
        ensures err { OnErr result (self.new.events ≡ self.old.events) }
        ensures none_given { OnErr result (to.new.events ≡ to.old.events) }
        ensures succeeds { length self.old.events ≤ to.old.room → IsOk result }
        ensures routers { self.new.routers ≡ self.old.routers }
        ensures to_routers { to.new.routers ≡ to.old.routers }
        ensures room { self.old.room ≤ self.new.room }
    {
        to.reserve(self.len())?;
        while let Some(event) = self.take_first_at(router) {
            to.insert(event).unwrap();
        }
        Ok(())
    }

    // Takes out the least event for a router.
    fn take_first_at(&mut self, router: u32) -> Option<Event>
        ensures first { result ≡ slice_get (for_router router self.old.events) 0 }
        ensures own { for_router router self.new.events ≡ drop 1 (for_router router self.old.events) }
        ensures others { for_others router self.new.events ≡ for_others router self.old.events }
        ensures home { IfSome result (λ e. e.dst < self.old.routers) }
        ensures routers { self.new.routers ≡ self.old.routers }
        ensures room { self.old.room ≤ self.new.room }
    {
        let first = self.least_at(router)?;
        self.remove_one(&first);
        Some(first)
    }

    /// All events, in rising order.
    pub fn list(&self) -> Result<Vec<Event>, AllocError>
        ensures events { IfOk result (λ v. v.items ≡ self.now.events) }
        ensures queue { IsQueue self.now }
    {
        let mut events = self.rest.list()?;
        self.calendar.append_to(&mut events)?;
        events.sort_unstable();
        Ok(events)
    }
}
