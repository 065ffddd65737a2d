//! Few events that wait, the least first.

ghost use Rattle.std.specs.Prelude.{◌≡◌, [], OnErr, OnOk, drop, nat_lt, slice_get};
ghost use Rattle.std.specs.Bool.{OnFalse};
ghost use Rattle.tw_sim.specs.Ordered.{insert, take_out};
ghost use Rattle.tw_pending.specs.Order.{AreWith, IsInOrder, count, is_before, is_same};

use crate::copies::copy_items;
use crate::heap::{push_one, remove_one};
use std::alloc::{AllocError, Global};
use std::cmp::Reverse;
use std::collections::BinaryHeap;
use std::marker::Model;
use tw_process::Timed;

/// Events that wait, as contracts see them in rising order. All stand in a heap, so that it takes little memory where they
/// are few, as those of one process are; `Pending` is faster where they are many.
#[derive(Drop)]
pub struct EventHeap<E: Timed> {
    alloc: Global,
    heap: BinaryHeap<Reverse<E>>,
}

impl<E: Timed> Model for EventHeap<E> {
    ghost use Rattle.std.specs.Prelude.{List, []};
    ghost use Rattle.std.specs.BinaryHeap.{IsHeap, heap_items};
    ghost use Rattle.tw_pending.specs.Order.{reversed};
    ghost use Rattle.tw_pending.specs.Ring.{all_in};

    ghost Value = { List E };

    ghost view = { λ a. all_in E.cmp [] (heap_items a.heap) [] };

    ghost invariant = { λ a. IsHeap (reversed E.cmp) (heap_items a.heap) };
}

impl<E: Timed> EventHeap<E> {
    /// No events. It takes no memory until an event comes.
    pub fn new(alloc: Global) -> EventHeap<E>
        ensures { result ≡ [] }
    {
        EventHeap {
            alloc,
            heap: BinaryHeap::new(alloc),
        }
    }

    /// Adds an event, in its place in the order. Where there is no memory nothing changes.
    pub fn insert(&mut self, event: E) -> Result<(), AllocError>
        ensures ok { OnOk result (self.new ≡ insert (is_before E.cmp) event self.old) }
        ensures err { OnErr result (self.new ≡ self.old) }
    {
        self.heap.reserve(1)?;
        push_one(&mut self.heap, event);
        Ok(())
    }

    /// The least event.
    #[inline(always)]
    pub fn least(&self) -> Option<E>
        ensures first { result ≡ slice_get self.now 0 }
        ensures order { IsInOrder E.cmp self.now }
    {
        let top = self.heap.peek()?;
        Some(top.0)
    }

    /// Takes out one event that equals this one, where there is one, and tells whether there was. It looks at all that
    /// wait, and takes no memory.
    pub fn remove(&mut self, event: &E) -> bool
        ensures value { result ≡ nat_lt 0 (count E.cmp event.now self.old) }
        ensures rest { self.new ≡ take_out (is_same E.cmp) event.now self.old }
        ensures none { OnFalse result (self.new ≡ self.old) }
    {
        remove_one(&mut self.heap, self.alloc, event)
    }

    /// Takes out the least event.
    pub fn take_least(&mut self) -> Option<E>
        ensures first { result ≡ slice_get self.old 0 }
        ensures rest { self.new ≡ drop 1 self.old }
    {
        let top = self.heap.pop()?;
        Some(top.0)
    }

    /// Puts a copy of all its events behind others, in no order. Where there is no room for all of them, none is copied.
    pub fn copy_to(&self, events: &mut Vec<E>) -> Result<(), AllocError>
        ensures ok { OnOk result (AreWith E.cmp self.now events.old.items events.new.items) }
        ensures err { OnErr result (events.new.items ≡ events.old.items) }
    {
        events.reserve(self.heap.len())?;
        copy_items(self.heap.as_slice(), events);
        Ok(())
    }

    /// Drops all its events. It takes no memory, and keeps what it has.
    pub fn clear(&mut self)
        ensures { self.new ≡ [] }
    {
        self.heap.clear();
    }
}
