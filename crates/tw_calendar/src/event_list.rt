//! The events that wait in a run on one thread (docs/DECISIONS.md, 'One thread': by time, not by router).

ghost use Rattle.std.specs.Prelude.{◌≡◌, ◌+◌, ◌++◌, ◌<◌, ◌≤◌, IfNone, IfOk, IfSome, IsOk, IsTrue, None, OnErr, OnOk, Some, [], drop, length, slice_get};
ghost use Rattle.std.specs.BinaryHeap.{heap_items, IsHeap};
ghost use Rattle.std.specs.Bool.{OnFalse, OnTrue};
ghost use Rattle.tw_event.specs.declared.event.Event.{Event as AnEvent};
ghost use Rattle.tw_event.specs.Order.{event_before, event_same};
ghost use Rattle.tw_calendar.specs.Heap.{heap_events};
ghost use Rattle.tw_ordered.specs.InOrder.{in_order};
ghost use Rattle.tw_ordered.specs.Queue.{IsQueue};
ghost use Rattle.tw_sim.specs.Ordered.{insert, insert_all, times};

use crate::calendar::Calendar;
use std::alloc::{AllocError, Global};
use std::cmp::Reverse;
use std::collections::BinaryHeap;
use std::marker::Model;
use tw_event::Event;
use tw_ordered::comes_before;

/// Events that wait to be handled, each as often as it was inserted.
///
/// The least one comes out fast. Paths that arrive in the next 1,024 ticks stand in buckets of one tick, which is
/// put in order when it is begun, and later ones in buckets of 1,024 ticks, up to 2^20 ticks ahead. All other events
/// stand in a heap. `Pending` of `tw_queue` also answers for one router, and takes an event out wherever
/// it stands.
#[derive(Drop)]
pub struct EventList {
    alloc: Global,
    routers: u32,
    calendar: Calendar,
    heap: BinaryHeap<Reverse<Event>>,
}

impl Model for EventList {
    ghost use Rattle.std.specs.Prelude.{◌-◌, ◌++◌};
    ghost use Rattle.tw_event.specs.Order.{event_before};
    ghost use Rattle.std.specs.BinaryHeap.{heap_capacity, heap_items, heap_len, IsHeap};
    ghost use Rattle.tw_ordered.specs.Queue.{Queue, AreFor};
    ghost use Rattle.tw_calendar.specs.Heap.{heap_events};
    ghost use Rattle.tw_ordered.specs.InOrder.{in_order};

    ghost Value = { Queue };

    ghost view = { λ a. record { routers = a.routers; events = in_order event_before (a.calendar ++ heap_events (heap_items a.heap)); room = heap_capacity a.heap - heap_len a.heap } };

    ghost invariant = { λ a. IsHeap ⟦<Reverse<Event> as Ord>⟧.cmp (heap_items a.heap) × AreFor a.routers (a.calendar ++ heap_events (heap_items a.heap)) };
}

impl EventList {
    /// No events, for routers below `routers`.
    pub fn new(alloc: Global, routers: u32) -> Result<EventList, AllocError>
        ensures routers { IfOk result (λ q. q.routers ≡ routers) }
        ensures empty { IfOk result (λ q. q.events ≡ []) }
    {
        let calendar = Calendar::new(alloc, routers)?;
        Ok(EventList {
            alloc,
            routers,
            calendar,
            heap: BinaryHeap::new(alloc),
        })
    }

    /// Makes room for `additional` more events, so that inserting them cannot fail.
    #[inline(always)]
    pub fn reserve(&mut self, additional: usize) -> Result<(), AllocError>
        ensures ok { OnOk result (additional ≤ self.new.room) }
        ensures full { OnErr result (self.old.room < additional) }
        ensures routers { self.new.routers ≡ self.old.routers }
        ensures events { self.new.events ≡ self.old.events }
        ensures room { self.old.room ≤ self.new.room }
    {
        self.heap.reserve(additional)
    }

    /// Adds an event, in its place in the order. It cannot fail where there is room.
    #[inline(always)]
    pub fn insert(&mut self, event: &Event) -> Result<(), AllocError>
        requires { event.now.dst < self.old.routers }
        ensures ok { OnOk result (self.new.events ≡ insert event_before event.now self.old.events) }
        ensures err { OnErr result (self.new.events ≡ self.old.events) }
        ensures succeeds { 0 < self.old.room → IsOk result }
        ensures routers { self.new.routers ≡ self.old.routers }
        ensures room { self.old.room ≤ self.new.room + 1 }
    {
        if self.calendar.insert(event) {
            return Ok(());
        }
        self.heap.push(Reverse(*event))?;
        Ok(())
    }

    /// Copies the least event, where there is one, and tells whether there is: without one the event stays as
    /// it was.
    #[inline(always)]
    pub fn copy_least(&self, event: &mut Event) -> bool
        ensures some { OnTrue result (Some event.new ≡ slice_get self.now.events 0) }
        ensures home { OnTrue result (event.new.dst < self.now.routers) }
        ensures empty { OnFalse result (self.now.events ≡ []) }
        ensures none { OnFalse result (event.new ≡ event.old) }
        ensures queue { IsQueue self.now }
    {
        // Of most calls this is the answer, and costs little.
        if self.calendar.copy_hand(top_time(&self.heap), event) {
            return true;
        }
        copy_first(&self.calendar, &self.heap, event)
    }

    /// Takes out the least event, where there is one.
    #[inline(always)]
    pub fn skip_least(&mut self)
        ensures events { self.new.events ≡ drop 1 self.old.events }
        ensures routers { self.new.routers ≡ self.old.routers }
        ensures room { self.old.room ≤ self.new.room }
    {
        // Of most calls this is all, and costs little.
        if self.calendar.skip_hand(top_time(&self.heap)) {
            return;
        }
        if !is_heap_first(&self.calendar, &self.heap) {
            self.calendar.skip_least();
            return;
        }
        let Some(event) = self.heap.pop() else {
            return;
        };
        self.calendar.go_to(event.0.time);
    }

    /// Puts the events of the next tick in order, where all before them are taken out, so that they come out
    /// fast. Events of that tick that are inserted later come out less fast.
    #[inline(always)]
    pub fn begin_tick(&mut self)
        ensures { self.new ≡ self.old }
    {
        // Of most calls nothing is to be done, and then the heap is not looked at.
        if self.calendar.has_tick_at_hand() {
            return;
        }
        self.calendar.begin_next(top_time(&self.heap));
    }

    /// All events, in any order.
    pub fn events(&self) -> Result<Vec<Event>, AllocError>
        ensures events { IfOk result (λ v. insert_all event_before v.items [] ≡ self.now.events) }
        ensures queue { IsQueue self.now }
    {
        let mut events = collect_events(self.alloc, self.heap.as_slice())?;
        self.calendar.append_to(&mut events)?;
        Ok(events)
    }

    /// All events, in rising order.
    pub fn list(&self) -> Result<Vec<Event>, AllocError>
        ensures events { IfOk result (λ v. v.items ≡ self.now.events) }
        ensures queue { IsQueue self.now }
    {
        let mut events = self.events()?;
        events.sort_unstable();
        Ok(events)
    }
}

// The time of a heap's least event, in ticks, and `u64::MAX` where there is none.
#[inline(always)]
fn top_time(heap: &BinaryHeap<Reverse<Event>>) -> u64
    requires { IsHeap ⟦<Reverse<Event> as Ord>⟧.cmp (heap_items heap.now) }
    ensures { (e : AnEvent) → 0 < times event_same e (heap_events (heap_items heap.now)) → result ≤ e.time }
{
    match heap.peek() {
        Some(top) => top.0.time,
        None => u64::MAX,
    }
}

// Copies the least event of a calendar and of a heap, where there is one, and tells whether there is.
#[inline(never)]
fn copy_first(calendar: &Calendar, heap: &BinaryHeap<Reverse<Event>>, event: &mut Event) -> bool
    requires { IsHeap ⟦<Reverse<Event> as Ord>⟧.cmp (heap_items heap.now) }
    ensures some { OnTrue result (Some event.new ≡ slice_get (in_order event_before (calendar.now ++ heap_events (heap_items heap.now))) 0) }
    ensures beyond { OnFalse result (slice_get (in_order event_before (calendar.now ++ heap_events (heap_items heap.now))) 0 ≡ None) }
    ensures none { OnFalse result (event.new ≡ event.old) }
{
    if !is_heap_first(calendar, heap) {
        return calendar.copy_least(event);
    }
    copy_top(heap, event)
}

// Whether the least event of all is that of the heap, and not that of the calendar.
fn is_heap_first(calendar: &Calendar, heap: &BinaryHeap<Reverse<Event>>) -> bool
    requires { IsHeap ⟦<Reverse<Event> as Ord>⟧.cmp (heap_items heap.now) }
    ensures heap { OnTrue result
        (slice_get (in_order event_before (calendar.now ++ heap_events (heap_items heap.now))) 0 ≡ slice_get (in_order event_before (heap_events (heap_items heap.now))) 0) }
    ensures some { OnTrue result (0 < length (heap_items heap.now)) }
    ensures calendar { OnFalse result
        (slice_get (in_order event_before (calendar.now ++ heap_events (heap_items heap.now))) 0 ≡ slice_get calendar.now 0) }
{
    let soonest = calendar.soonest();
    let Some(top) = heap.peek() else {
        return false;
    };
    // Times mostly differ, and cost less to compare than whole events.
    if top.0.time < soonest {
        return true;
    }
    let time = calendar.least_time();
    if top.0.time != time {
        return top.0.time < time;
    }
    comes_before_all(&top.0, calendar)
}

// Whether an event comes before all events of a calendar.
#[inline(never)]
fn comes_before_all(event: &Event, calendar: &Calendar) -> bool
    ensures first { IfSome (slice_get calendar.now 0) (λ e. result ≡ event_before event.now e) }
    ensures none { IfNone (slice_get calendar.now 0) (IsTrue result) }
{
    let mut least = Event::default();
    !calendar.copy_least(&mut least) || comes_before(event, &least)
}

// Copies the least event of a heap, where there is one, and tells whether there is.
#[inline(never)]
fn copy_top(heap: &BinaryHeap<Reverse<Event>>, event: &mut Event) -> bool
    requires { IsHeap ⟦<Reverse<Event> as Ord>⟧.cmp (heap_items heap.now) }
    ensures some { OnTrue result (Some event.new ≡ slice_get (in_order event_before (heap_events (heap_items heap.now))) 0) }
    ensures beyond { OnFalse result (heap_items heap.now ≡ []) }
    ensures none { OnFalse result (event.new ≡ event.old) }
{
    let Some(top) = heap.peek() else {
        return false;
    };
    *event = top.0;
    true
}

// The events of a heap's items.
fn collect_events(alloc: Global, items: &[Reverse<Event>]) -> Result<Vec<Event>, AllocError>
    ensures { IfOk result (λ v. v.items ≡ heap_events items.now) }
{
    items.iter().map(|item| item.0).collect(alloc)
}
