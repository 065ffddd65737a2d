//! Events that wait, the least first.

ghost use Rattle.std.specs.Prelude.{◌≡◌, [], IfOk, OnErr, OnOk, drop, nat_lt, slice_get};
ghost use Rattle.std.specs.Bool.{OnFalse};
ghost use Rattle.tw_sim.specs.Ordered.{insert, insert_all, take_out};
ghost use Rattle.tw_pending.specs.Order.{AreWith, IsInOrder, count, is_before, is_same};

use crate::calendar::{go_on, is_heap_first, put, put_each, take_equal, take_first};
use crate::copies::{copy_days, copy_items, sum_of};
use crate::ring::{DAYS, Ring};
use crate::tick::Tick;
use std::alloc::{AllocError, Global};
use std::cmp::Reverse;
use std::collections::BinaryHeap;
use std::marker::Model;
use tw_process::Timed;

/// Events that wait, as contracts see them in rising order.
///
/// Those of the next ticks stand in a list for each tick, which is put in order when its tick begins, and all others
/// stand in a heap.
#[derive(Drop)]
pub struct Pending<E: Timed> {
    tick: Tick<E>,
    heap: BinaryHeap<Reverse<E>>,
    ring: Ring<E>,
}

impl<E: Timed> Model for Pending<E> {
    ghost use Rattle.std.specs.Prelude.{◌++◌, List};
    ghost use Rattle.std.specs.BinaryHeap.{IsHeap, heap_items};
    ghost use Rattle.tw_pending.specs.Order.{reversed};
    ghost use Rattle.tw_pending.specs.Ring.{IsBegun, IsDue, IsRing, all_in, events_of, lists_of};

    ghost Value = { List E };

    ghost view = { λ a. all_in E.cmp a.tick (heap_items a.heap) (lists_of a.ring.days.items) };

    ghost invariant = { λ a. IsHeap (reversed E.cmp) (heap_items a.heap)
        × IsRing E.parts.time a.ring.today a.ring.waiting (lists_of a.ring.days.items)
        × IsBegun E.parts.time a.ring.today a.tick
        × IsDue E.parts.time a.ring.today E.cmp a.ring.waiting (a.tick ++ events_of (heap_items a.heap)) };
}

impl<E: Timed> Pending<E> {
    /// No events. It suits many events, most of them less than 1,024 ticks ahead.
    pub fn new(alloc: Global) -> Result<Pending<E>, AllocError>
        ensures { IfOk result (λ pending. pending ≡ []) }
    {
        let mut days = Vec::new(alloc);
        for _ in 0..DAYS {
            days.push(Vec::new(alloc))?;
        }
        let heap = BinaryHeap::new(alloc);
        Ok(Pending {
            tick: Tick::new(alloc),
            heap,
            ring: Ring {
                today: 0,
                waiting: 0,
                days,
            },
        })
    }

    /// Adds an event, in its place in the order.
    pub fn insert(&mut self, event: E) -> Result<(), AllocError>
        ensures ok { OnOk result (self.new ≡ insert (is_before E.cmp) event self.old) }
        ensures err { OnErr result (self.new ≡ self.old) }
    {
        self.heap.reserve(1)?;
        put(&mut self.heap, &mut self.ring, event);
        go_on(&mut self.tick, &self.heap, &mut self.ring);
        Ok(())
    }

    /// Adds events, each in its place in the order. Where there is no room for all of them, none is added.
    pub fn insert_all(&mut self, events: &[E]) -> Result<(), AllocError>
        ensures ok { OnOk result (self.new ≡ insert_all (is_before E.cmp) events.now self.old) }
        ensures err { OnErr result (self.new ≡ self.old) }
    {
        self.heap.reserve(events.len())?;
        put_each(&mut self.heap, &mut self.ring, events);
        go_on(&mut self.tick, &self.heap, &mut self.ring);
        Ok(())
    }

    /// Takes out the least event, where there is one, and adds others, each in its place in the order. Where there is
    /// no room for all of them, nothing changes.
    #[inline(always)]
    pub fn replace_least(&mut self, events: &[E]) -> Result<(), AllocError>
        ensures ok { OnOk result (self.new ≡ insert_all (is_before E.cmp) events.now (drop 1 self.old)) }
        ensures err { OnErr result (self.new ≡ self.old) }
    {
        self.heap.reserve(events.len())?;
        let _ = take_first(&mut self.tick, &mut self.heap, &self.ring);
        put_each(&mut self.heap, &mut self.ring, events);
        go_on(&mut self.tick, &self.heap, &mut self.ring);
        Ok(())
    }

    /// The least event.
    #[inline(always)]
    pub fn least(&self) -> Option<E>
        ensures first { result ≡ slice_get self.now 0 }
        ensures order { IsInOrder E.cmp self.now }
    {
        if !is_heap_first(&self.tick, &self.heap, &self.ring) {
            return self.tick.first();
        }
        let top = self.heap.peek()?;
        Some(top.0)
    }

    /// Takes out one event that equals this one, where there is one, and tells whether there was. It looks at all that
    /// wait, and takes no memory.
    pub fn remove(&mut self, event: &E) -> bool
        ensures value { result ≡ nat_lt 0 (count E.cmp event.now self.old) }
        ensures rest { self.new ≡ take_out (is_same E.cmp) event.now self.old }
        ensures none { OnFalse result (self.new ≡ self.old) }
    {
        let found = take_equal(&mut self.tick, &mut self.heap, &mut self.ring, event);
        go_on(&mut self.tick, &self.heap, &mut self.ring);
        found
    }

    /// Takes out the least event.
    pub fn take_least(&mut self) -> Option<E>
        ensures first { result ≡ slice_get self.old 0 }
        ensures rest { self.new ≡ drop 1 self.old }
    {
        let least = take_first(&mut self.tick, &mut self.heap, &self.ring);
        go_on(&mut self.tick, &self.heap, &mut self.ring);
        least
    }

    /// Puts a copy of all events that wait behind others, in no order. Where there is no room for all of them, none is
    /// copied.
    pub fn copy_to(&self, events: &mut Vec<E>) -> Result<(), AllocError>
        ensures ok { OnOk result (AreWith E.cmp self.now events.old.items events.new.items) }
        ensures err { OnErr result (events.new.items ≡ events.old.items) }
    {
        let Some(count) = sum_of(self.tick.len(), self.heap.len(), self.ring.waiting) else {
            return Err(AllocError);
        };
        events.reserve(count)?;
        self.tick.copy_to(events);
        copy_items(self.heap.as_slice(), events);
        copy_days(&self.ring.days, events);
        Ok(())
    }
}
