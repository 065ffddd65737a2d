//! Pending events by router.

ghost use Rattle.std.specs.Prelude.{◌≡◌, ◌↔◌, ◌+◌, ◌-◌, ◌<◌, ◌≤◌, ◌==◌, IfOk, IfSome, IsOk, IsTrue, OnErr, OnOk};
ghost use Rattle.std.specs.Prelude.{[], if◌then◌else◌, List, filter, length, slice_get, vec_capacity, vec_len};
ghost use Rattle.std.specs.List.{list_any};
ghost use Rattle.std.specs.Option.{option_copied};
ghost use Rattle.tw_event.specs.declared.event.Event.{Event as AnEvent};
ghost use Rattle.tw_event.specs.Order.{event_before, event_same};
ghost use Rattle.tw_ordered.specs.InOrder.{least_with};
ghost use Rattle.tw_ordered.specs.Queue.{AreFor, IsQueue, is_before};
ghost use Rattle.tw_queue.specs.InTable.{IsInOrder};
ghost use Rattle.tw_sim.specs.Ordered.{insert, insert_all, take_out, times};

use crate::queue_table::QueueTable;
use std::alloc::{AllocError, Global};
use std::marker::Model;
use tw_event::Event;
use tw_ordered::{count_of, earlier, least_of, remove_from, sooner};

/// Events that wait to be handled, each as often as it was inserted, by router.
///
/// The least event of all, that of one router, and the place of an event are found without going over all
/// events.
#[derive(Drop)]
pub(crate) struct ByRouter {
    alloc: Global,
    routers: u32,
    table: QueueTable,
    // Where an event goes that its queue has no memory for: room is reserved here alone.
    spare: Vec<Event>,
    // The least event of all, so that it is not sought again and again.
    first: Option<Event>,
    len: usize,
}

impl Model for ByRouter {
    ghost use Rattle.tw_event.specs.Order.{event_before};
    ghost use Rattle.tw_sim.specs.Ordered.{insert_all};
    ghost use Rattle.tw_ordered.specs.Queue.{Queue};
    ghost use Rattle.tw_queue.specs.ByRouter.{AreByRouter, room_of};

    ghost Value = { Queue };

    ghost view = { λ a. record { routers = a.routers; events = insert_all event_before a.spare.items a.table.events; room = room_of a } };

    ghost invariant = { AreByRouter };
}

impl ByRouter {
    /// No events, for routers below `routers`.
    pub(crate) fn new(alloc: Global, routers: u32) -> Result<ByRouter, AllocError>
        ensures routers { IfOk result (λ q. q.routers ≡ routers) }
        ensures empty { IfOk result (λ q. q.events ≡ []) }
    {
        let table = QueueTable::new(alloc, routers)?;
        Ok(ByRouter {
            alloc,
            routers,
            table,
            spare: Vec::new(alloc),
            first: None,
            len: 0,
        })
    }

    /// All events are for routers below this.
    pub(crate) fn routers(&self) -> u32
        ensures { result ≡ self.now.routers }
    {
        self.routers
    }

    /// How many events are pending.
    #[inline(always)]
    pub(crate) fn len(&self) -> usize
        ensures len { result ≡ length self.now.events }
        ensures queue { IsQueue self.now }
    {
        self.len
    }

    /// Makes room for `additional` more events, so that inserting them cannot fail.
    pub(crate) fn reserve(&mut self, additional: usize) -> Result<(), AllocError>
        ensures ok { OnOk result (additional ≤ self.new.room) }
        ensures full { OnErr result (self.old.room < additional) }
        ensures routers { self.new.routers ≡ self.old.routers }
        ensures events { self.new.events ≡ self.old.events }
        ensures room { self.old.room ≤ self.new.room }
    {
        if usize::MAX - self.len < additional {
            return Err(AllocError);
        }
        self.spare.reserve(additional)
    }

    /// Adds an event, in its place in the order. It cannot fail where there is room.
    pub(crate) fn insert(&mut self, event: Event) -> Result<(), AllocError>
        requires { event.dst < self.old.routers }
        ensures ok { OnOk result (self.new.events ≡ insert event_before event self.old.events) }
        ensures err { OnErr result (self.new.events ≡ self.old.events) }
        ensures succeeds { 0 < self.old.room → IsOk result }
        ensures routers { self.new.routers ≡ self.old.routers }
        ensures room { self.old.room ≤ self.new.room + 1 }
    {
        if self.len == usize::MAX {
            return Err(AllocError);
        }
        place(&mut self.table, &mut self.spare, event)?;
        self.first = Some(earlier(event, self.first));
        self.len += 1;
        Ok(())
    }

    /// The least event.
    pub(crate) fn least(&self) -> Option<Event>
        ensures first { result ≡ slice_get self.now.events 0 }
        ensures home { IfSome result (λ e. e.dst < self.now.routers) }
        ensures queue { IsQueue self.now }
    {
        self.first
    }

    /// How often this event is pending.
    pub(crate) fn count(&self, event: &Event) -> usize
        ensures { result ≡ times event_same event.now self.now.events }
    {
        count_of(&self.spare, event) + self.table.count(event)
    }

    /// Takes out one event that equals `event`, and tells whether there was one. It takes no memory.
    pub(crate) fn remove_one(&mut self, event: &Event) -> bool
        ensures found { IsTrue result ↔ (0 < times event_same event.now self.old.events) }
        ensures events { self.new.events ≡ take_out event_same event.now self.old.events }
        ensures routers { self.new.routers ≡ self.old.routers }
        ensures room { self.old.room ≤ self.new.room }
    {
        if self.len == 0 {
            return false;
        }
        let removed = take_from(&mut self.table, &mut self.spare, event);
        if removed {
            self.len -= 1;
        }
        self.first = first_without(self.first, event, &self.table, &self.spare);
        removed
    }

    /// The least event for this router.
    pub(crate) fn least_at(&self, router: u32) -> Option<Event>
        ensures first { result ≡ slice_get (filter (λ e. e.dst == router) self.now.events) 0 }
        ensures home { IfSome result (λ e. e.dst ≡ router) }
        ensures queue { IsQueue self.now }
    {
        self.first_at(router).copied()
    }

    /// Whether one of its events is for a router and before a limit, in ticks.
    pub(crate) fn has_before(&self, router: u32, limit: u64) -> bool
        ensures { result ≡ list_any (is_before router limit) self.now.events }
    {
        match self.first_at(router) {
            Some(event) => event.time < limit,
            None => false,
        }
    }

    // The least event for a router, where it stands.
    fn first_at(&self, router: u32) -> Option<&Event>
        ensures first { option_copied result ≡ slice_get (filter (λ e. e.dst == router) self.now.events) 0 }
        ensures home { IfSome result (λ e. e.now.dst ≡ router) }
        ensures queue { IsQueue self.now }
    {
        least_for(router, self.table.first_at(router), &self.spare)
    }

    /// All events, in rising order.
    pub(crate) fn list(&self) -> Result<Vec<Event>, AllocError>
        ensures events { IfOk result (λ v. v.items ≡ self.now.events) }
        ensures queue { IsQueue self.now }
    {
        let mut events = Vec::from_slice(self.alloc, &self.spare)?;
        self.table.append_to(&mut events)?;
        events.sort_unstable();
        Ok(events)
    }
}

// The least event of a table and of the spare list from which an event was taken out, where there was this one before:
// only where it goes, another is the least.
fn first_without(
    first: Option<Event>,
    event: &Event,
    table: &QueueTable,
    spare: &[Event],
) -> Option<Event>
    requires { IsInOrder table.now }
    ensures { (events : List AnEvent) → first ≡ slice_get events 0
        → insert_all event_before spare.now table.now.events ≡ take_out event_same event.now events
        → result ≡ slice_get (insert_all event_before spare.now table.now.events) 0 }
{
    let least = first?;
    if *event == least {
        least_of(table.least(), spare)
    } else {
        first
    }
}

// Puts an event into its router's queue, or else into the spare list.
fn place(table: &mut QueueTable, spare: &mut Vec<Event>, event: Event) -> Result<(), AllocError>
    requires home { event.dst < table.old.routers }
    requires order { IsInOrder table.old }
    ensures ok { OnOk result (insert_all event_before spare.new.items table.new.events ≡ insert event_before event (insert_all event_before spare.old.items table.old.events)) }
    ensures err { OnErr result (insert_all event_before spare.new.items table.new.events ≡ insert_all event_before spare.old.items table.old.events) }
    ensures len { OnOk result (length spare.new.items + length table.new.events ≡ 1 + (length spare.old.items + length table.old.events)) }
    ensures len_stays { OnErr result (length spare.new.items + length table.new.events ≡ length spare.old.items + length table.old.events) }
    ensures homes { AreFor table.old.routers spare.old.items → AreFor table.new.routers spare.new.items }
    ensures routers { table.new.routers ≡ table.old.routers }
    ensures order { IsInOrder table.new }
    ensures room { vec_capacity spare.old - vec_len spare.old ≤ (vec_capacity spare.new - vec_len spare.new) + 1 }
    ensures full { OnErr result (vec_capacity spare.old ≤ vec_len spare.old) }
{
    if table.insert(event) {
        return Ok(());
    }
    spare.push(event)?;
    Ok(())
}

// Takes an event out of its router's queue, or else out of the spare list.
fn take_from(table: &mut QueueTable, spare: &mut Vec<Event>, event: &Event) -> bool
    requires order { IsInOrder table.old }
    ensures found { IsTrue result ↔ (0 < times event_same event.now (insert_all event_before spare.old.items table.old.events)) }
    ensures events { insert_all event_before spare.new.items table.new.events ≡ take_out event_same event.now (insert_all event_before spare.old.items table.old.events) }
    ensures len { length spare.new.items + length table.new.events + (if result then 1 else 0) ≡ length spare.old.items + length table.old.events }
    ensures homes { AreFor table.old.routers spare.old.items → AreFor table.new.routers spare.new.items }
    ensures routers { table.new.routers ≡ table.old.routers }
    ensures order { IsInOrder table.new }
    ensures room { vec_capacity spare.old - vec_len spare.old ≤ vec_capacity spare.new - vec_len spare.new }
{
    if table.remove(event) {
        return true;
    }
    remove_from(spare, event)
}

// The least of an event, if there is one, and of those of these that are for the router.
fn least_for<'a>(router: u32, first: Option<&'a Event>, events: &'a [Event]) -> Option<&'a Event>
    ensures { option_copied result ≡ least_with (option_copied first.entry) (filter (λ e. e.dst == router) events.now) }
{
    let mut least = first;
    for event in events {
        if event.dst == router {
            least = Some(sooner(event, least));
        }
    }
    least
}
