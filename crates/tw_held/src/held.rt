//! What events that were undone had sent, and what is held of it until it is sent again or taken back.

ghost use Rattle.std.specs.Prelude.{◌≡◌, ◌↔◌, ◌+◌, ◌++◌, ◌-◌, ◌<◌, ◌≤◌, ◌==◌, IfSome, IsOk, IsTrue, OnErr, OnOk};
ghost use Rattle.std.specs.Prelude.{[], drop, length, map, option_map, slice_get, vec_capacity, vec_len};
ghost use Rattle.std.specs.Option.{option_copied};
ghost use Rattle.tw_event.specs.Order.{event_before, event_same};
ghost use Rattle.tw_held.specs.Held.{IsHeld, antimessage, sent_by, sent_by_others};
ghost use Rattle.tw_ordered.specs.InOrder.{least_with};
ghost use Rattle.tw_sim.specs.Ordered.{insert, insert_all, take_out, times};
ghost use Rattle.tw_sim.specs.Rising.{IsRising};

use crate::sender_table::SenderTable;
use std::alloc::{AllocError, Global};
use std::marker::Model;
use tw_event::Event;
use tw_ordered::{remove_from, sooner, soonest_of};
use tw_sim::Signed;

/// Events that are held, each as often as it was inserted, by sender.
///
/// Under lazy cancellation an event that is undone leaves what it had sent where it is: that is held here,
/// until the router sends it again ([`HeldSends::remove_one`]), or until it is taken back
/// ([`HeldSends::release`]). While nothing was ever held, it takes no memory.
#[derive(Drop)]
pub struct HeldSends {
    alloc: Global,
    routers: u32,
    table: SenderTable,
    // Where an event goes that its queue has no memory for: room is reserved here alone.
    spare: Vec<Event>,
    len: usize,
}

impl Model for HeldSends {
    ghost use Rattle.tw_held.specs.Held.{Held};
    ghost use Rattle.tw_held.specs.HeldSends.{AreHeld, events_of, room_of};

    ghost Value = { Held };

    ghost view = { λ a. record { routers = a.routers; events = events_of a; room = room_of a } };

    ghost invariant = { AreHeld };
}

impl HeldSends {
    /// No events, of routers below `routers`. It takes no memory.
    pub fn new(alloc: Global, routers: u32) -> HeldSends
        ensures routers { result.routers ≡ routers }
        ensures empty { result.events ≡ [] }
    {
        HeldSends {
            alloc,
            routers,
            table: SenderTable::new(alloc),
            spare: Vec::new(alloc),
            len: 0,
        }
    }

    /// How many events are held.
    pub fn len(&self) -> usize
        ensures len { result ≡ length self.now.events }
        ensures held { IsHeld self.now }
    {
        self.len
    }

    /// Whether no event is held.
    pub fn is_empty(&self) -> bool
        ensures { result ≡ (length self.now.events == 0) }
    {
        self.len == 0
    }

    /// Makes room for `additional` more events, so that inserting them cannot fail.
    pub fn reserve(&mut self, additional: usize) -> Result<(), AllocError>
        ensures ok { OnOk result (additional ≤ self.new.room) }
        ensures full { OnErr result (self.old.room < additional) }
        ensures routers { self.new.routers ≡ self.old.routers }
        ensures events { self.new.events ≡ self.old.events }
        ensures room { self.old.room ≤ self.new.room }
    {
        if usize::MAX - self.len < additional {
            return Err(AllocError);
        }
        self.spare.reserve(additional)
    }

    /// Adds an event, in its place in the order. It cannot fail where there is room.
    pub fn insert(&mut self, event: Event) -> Result<(), AllocError>
        requires { event.src < self.old.routers }
        ensures ok { OnOk result (self.new.events ≡ insert event_before event self.old.events) }
        ensures err { OnErr result (self.new.events ≡ self.old.events) }
        ensures succeeds { 0 < self.old.room → IsOk result }
        ensures routers { self.new.routers ≡ self.old.routers }
        ensures room { self.old.room ≤ self.new.room + 1 }
    {
        if self.len == usize::MAX {
            return Err(AllocError);
        }
        self.table.open(self.alloc, self.routers);
        place(&mut self.table, &mut self.spare, event)?;
        self.len += 1;
        Ok(())
    }

    /// Takes out one event that equals `event`, and tells whether there was one. It takes no memory.
    pub fn remove_one(&mut self, event: &Event) -> bool
        ensures found { IsTrue result ↔ (0 < times event_same event.now self.old.events) }
        ensures events { self.new.events ≡ take_out event_same event.now self.old.events }
        ensures routers { self.new.routers ≡ self.old.routers }
        ensures room { self.old.room ≤ self.new.room }
    {
        if self.len == 0 {
            return false;
        }
        let removed = take_from(&mut self.table, &mut self.spare, event);
        if removed {
            self.len -= 1;
        }
        removed
    }

    /// The time of the least event, in ticks.
    pub fn least_time(&self) -> Option<u64>
        ensures { result ≡ option_map (λ e. e.time) (slice_get self.now.events 0) }
    {
        self.least().map(|event| event.time)
    }

    /// The time of the least event that this router has sent, in ticks.
    pub fn least_time_of(&self, router: u32) -> Option<u64>
        ensures { result ≡ option_map (λ e. e.time) (slice_get (sent_by router self.now.events) 0) }
    {
        self.first_of(router).map(|event| event.time)
    }

    /// How many events this router has sent.
    pub fn count_of_sender(&self, router: u32) -> usize
        ensures { result ≡ length (sent_by router self.now.events) }
    {
        if self.len == 0 {
            return 0;
        }
        count_of(router, &self.spare) + self.table.count_of(router)
    }

    /// Takes back all that this router has sent: its events go out, and their antimessages come to the end of
    /// `outgoing`, in the order of events. It takes no memory.
    pub fn release(&mut self, router: u32, outgoing: &mut Vec<Signed<Event>>)
        requires { vec_len outgoing.old + length (sent_by router self.old.events) ≤ vec_capacity outgoing.old }
        ensures events { self.new.events ≡ sent_by_others router self.old.events }
        ensures messages { outgoing.new.items ≡ outgoing.old.items ++ map antimessage (sent_by router self.old.events) }
        ensures capacity { vec_capacity outgoing.new ≡ vec_capacity outgoing.old }
        ensures routers { self.new.routers ≡ self.old.routers }
        ensures room { self.old.room ≤ self.new.room }
    {
        while let Some(event) = self.take_first_of(router) {
            outgoing.push_reserved(Signed { plus: false, event });
        }
    }

    /// Moves what this router has sent to `to`, each event as often as it is held. The others stay.
    ///
    /// For want of memory nothing is moved. It cannot fail where `to` has room for what is moved.
    pub fn hand_over(&mut self, router: u32, to: &mut HeldSends) -> Result<(), AllocError>
        requires { self.old.routers ≤ to.old.routers }
        ensures given { OnOk result (to.new.events ≡ insert_all event_before (sent_by router self.old.events) to.old.events) }
        ensures rest { OnOk result (self.new.events ≡ sent_by_others router self.old.events) }
        ensures err { OnErr result (self.new.events ≡ self.old.events) }
        ensures none_given { OnErr result (to.new.events ≡ to.old.events) }
        ensures succeeds { length (sent_by router self.old.events) ≤ to.old.room → IsOk result }
        ensures routers { self.new.routers ≡ self.old.routers }
        ensures to_routers { to.new.routers ≡ to.old.routers }
        ensures room { self.old.room ≤ self.new.room }
    {
        to.reserve(self.count_of_sender(router))?;
        while let Some(sent) = self.take_first_of(router) {
            to.insert(sent).unwrap();
        }
        Ok(())
    }

    // The least event of all. Where there is none, no queue is looked at.
    fn least(&self) -> Option<&Event>
        ensures { option_copied result ≡ slice_get self.now.events 0 }
    {
        if self.len == 0 {
            return None;
        }
        soonest_of(self.table.least(), &self.spare)
    }

    // The least event that a router has sent.
    fn first_of(&self, router: u32) -> Option<&Event>
        ensures first { option_copied result ≡ slice_get (sent_by router self.now.events) 0 }
        ensures held { IsHeld self.now }
    {
        least_from(router, self.table.first_of(router), &self.spare)
    }

    // Takes out the least event that a router has sent.
    fn take_first_of(&mut self, router: u32) -> Option<Event>
        ensures first { result ≡ slice_get (sent_by router self.old.events) 0 }
        ensures own { sent_by router self.new.events ≡ drop 1 (sent_by router self.old.events) }
        ensures others { sent_by_others router self.new.events ≡ sent_by_others router self.old.events }
        ensures sender { IfSome result (λ e. e.src < self.old.routers) }
        ensures routers { self.new.routers ≡ self.old.routers }
        ensures room { self.old.room ≤ self.new.room }
    {
        let event = *self.first_of(router)?;
        self.remove_one(&event);
        Some(event)
    }
}

// Puts an event into its sender's queue, or else into the spare list.
fn place(table: &mut SenderTable, spare: &mut Vec<Event>, event: Event) -> Result<(), AllocError>
    requires { IsRising event_before event_same table.old }
    ensures ok { OnOk result (insert_all event_before spare.new.items table.new ≡ insert event_before event (insert_all event_before spare.old.items table.old)) }
    ensures err { OnErr result (insert_all event_before spare.new.items table.new ≡ insert_all event_before spare.old.items table.old) }
    ensures rising { IsRising event_before event_same table.new }
    ensures room { vec_capacity spare.old - vec_len spare.old ≤ (vec_capacity spare.new - vec_len spare.new) + 1 }
    ensures full { OnErr result (vec_capacity spare.old ≤ vec_len spare.old) }
{
    if table.insert(event) {
        return Ok(());
    }
    spare.push(event)?;
    Ok(())
}

// Takes an event out of its sender's queue, or else out of the spare list.
fn take_from(table: &mut SenderTable, spare: &mut Vec<Event>, event: &Event) -> bool
    requires { IsRising event_before event_same table.old }
    ensures found { IsTrue result ↔ (0 < times event_same event.now (insert_all event_before spare.old.items table.old)) }
    ensures events { insert_all event_before spare.new.items table.new ≡ take_out event_same event.now (insert_all event_before spare.old.items table.old) }
    ensures rising { IsRising event_before event_same table.new }
    ensures room { vec_capacity spare.old - vec_len spare.old ≤ vec_capacity spare.new - vec_len spare.new }
{
    if table.remove(event) {
        return true;
    }
    remove_from(spare, event)
}

// The least of an event, if there is one, and of those of these that the router has sent.
fn least_from<'a>(router: u32, first: Option<&'a Event>, events: &'a [Event]) -> Option<&'a Event>
    ensures { option_copied result ≡ least_with (option_copied first.entry) (sent_by router events.now) }
{
    let mut least = first;
    for event in events {
        if event.src == router {
            least = Some(sooner(event, least));
        }
    }
    least
}

// How many of these events the router has sent.
fn count_of(router: u32, events: &[Event]) -> usize
    ensures { result ≡ length (sent_by router events.now) }
{
    events.iter().filter(|event| event.src == router).count()
}
