//! The tick at hand, a heap, and the lists of the next ticks.

ghost use Rattle.std.specs.Prelude.{◌≡◌, ◌+◌, ◌<◌, ◌≤◌, ◌∷◌, ◌++◌, [], drop, length, slice_get};
ghost use Rattle.std.specs.BinaryHeap.{IsHeap, heap_capacity, heap_items, heap_len};
ghost use Rattle.std.specs.Bool.{OnFalse, OnTrue};
ghost use Rattle.tw_pending.specs.Order.{AreWith, count, reversed};
ghost use Rattle.tw_pending.specs.Ring.{IsBegun, IsDue, IsRing, all_in, all_of, events_of, lists_of, waiting_in};

use crate::heap::{push_one, remove_one};
use crate::ring::{Ring, catch_up, keep, let_go, settle};
use crate::tick::Tick;
use std::cmp::Reverse;
use std::collections::BinaryHeap;
use tw_process::Timed;

/// Where fewer wait, a list of a tick would spare nothing.
const FEW: usize = 32;

/// Adds an event, for which the heap has room.
#[inline(always)]
pub(crate) fn put<E: Timed>(heap: &mut BinaryHeap<Reverse<E>>, ring: &mut Ring<E>, event: E)
    requires ring { IsRing E.parts.time ring.old.today ring.old.waiting (lists_of ring.old.days.items) }
    requires heap { IsHeap (reversed E.cmp) (heap_items heap.old) }
    requires room { heap_len heap.old + 1 ≤ heap_capacity heap.old }
    ensures ring { IsRing E.parts.time ring.new.today ring.new.waiting (lists_of ring.new.days.items) }
    ensures today { ring.new.today ≡ ring.old.today }
    ensures heap { IsHeap (reversed E.cmp) (heap_items heap.new) }
    ensures len { heap_len heap.new ≤ heap_len heap.old + 1 }
    ensures capacity { heap_capacity heap.old ≤ heap_capacity heap.new }
    ensures all { AreWith E.cmp (event ∷ []) (waiting_in (heap_items heap.old) (lists_of ring.old.days.items))
        (waiting_in (heap_items heap.new) (lists_of ring.new.days.items)) }
{
    if ring.waiting < FEW && heap.len() < FEW {
        push_one(heap, event);
    } else if !keep(ring, event) {
        push_one(heap, event);
    }
}

/// Adds events, for which the heap has room.
#[inline(always)]
pub(crate) fn put_each<E: Timed>(
    heap: &mut BinaryHeap<Reverse<E>>,
    ring: &mut Ring<E>,
    events: &[E],
)
    requires ring { IsRing E.parts.time ring.old.today ring.old.waiting (lists_of ring.old.days.items) }
    requires heap { IsHeap (reversed E.cmp) (heap_items heap.old) }
    requires room { heap_len heap.old + length events.now ≤ heap_capacity heap.old }
    ensures ring { IsRing E.parts.time ring.new.today ring.new.waiting (lists_of ring.new.days.items) }
    ensures today { ring.new.today ≡ ring.old.today }
    ensures heap { IsHeap (reversed E.cmp) (heap_items heap.new) }
    ensures all { AreWith E.cmp events.now (waiting_in (heap_items heap.old) (lists_of ring.old.days.items))
        (waiting_in (heap_items heap.new) (lists_of ring.new.days.items)) }
{
    for event in events {
        put(heap, ring, *event);
    }
}

/// Whether the least event of all is that of the heap, and not that of the tick.
#[inline(always)]
pub(crate) fn is_heap_first<E: Timed>(
    tick: &Tick<E>,
    heap: &BinaryHeap<Reverse<E>>,
    ring: &Ring<E>,
) -> bool
    requires ring { IsRing E.parts.time ring.now.today ring.now.waiting (lists_of ring.now.days.items) }
    requires heap { IsHeap (reversed E.cmp) (heap_items heap.now) }
    requires due { IsDue E.parts.time ring.now.today E.cmp ring.now.waiting (tick.now ++ events_of (heap_items heap.now)) }
    ensures heap { OnTrue result (slice_get (all_in E.cmp tick.now (heap_items heap.now) (lists_of ring.now.days.items)) 0 ≡ slice_get (events_of (heap_items heap.now)) 0) }
    ensures some { OnTrue result (0 < heap_len heap.now) }
    ensures tick { OnFalse result (slice_get (all_in E.cmp tick.now (heap_items heap.now) (lists_of ring.now.days.items)) 0 ≡ slice_get tick.now 0) }
{
    let first = tick.first();
    let Some(top) = heap.peek() else {
        return false;
    };
    let Some(first) = first else {
        return true;
    };
    top.0.cmp(&first).is_lt()
}

/// Takes out the least event, where there is one.
#[inline(always)]
pub(crate) fn take_first<E: Timed>(
    tick: &mut Tick<E>,
    heap: &mut BinaryHeap<Reverse<E>>,
    ring: &Ring<E>,
) -> Option<E>
    requires ring { IsRing E.parts.time ring.now.today ring.now.waiting (lists_of ring.now.days.items) }
    requires heap { IsHeap (reversed E.cmp) (heap_items heap.old) }
    requires due { IsDue E.parts.time ring.now.today E.cmp ring.now.waiting (tick.old ++ events_of (heap_items heap.old)) }
    requires begun { IsBegun E.parts.time ring.now.today tick.old }
    ensures first { result ≡ slice_get (all_in E.cmp tick.old (heap_items heap.old) (lists_of ring.now.days.items)) 0 }
    ensures rest { all_in E.cmp tick.new (heap_items heap.new) (lists_of ring.now.days.items)
        ≡ drop 1 (all_in E.cmp tick.old (heap_items heap.old) (lists_of ring.now.days.items)) }
    ensures begun { IsBegun E.parts.time ring.now.today tick.new }
    ensures heap { IsHeap (reversed E.cmp) (heap_items heap.new) }
    ensures len { heap_len heap.new ≤ heap_len heap.old }
    ensures capacity { heap_capacity heap.new ≡ heap_capacity heap.old }
{
    if !is_heap_first(tick, heap, ring) {
        let first = tick.first();
        tick.skip();
        return first;
    }
    let top = heap.pop()?;
    Some(top.0)
}

/// Takes out one event that equals this one, where there is one, and tells whether there was. It takes no memory.
pub(crate) fn take_equal<E: Timed>(
    tick: &mut Tick<E>,
    heap: &mut BinaryHeap<Reverse<E>>,
    ring: &mut Ring<E>,
    event: &E,
) -> bool
    requires ring { IsRing E.parts.time ring.old.today ring.old.waiting (lists_of ring.old.days.items) }
    requires heap { IsHeap (reversed E.cmp) (heap_items heap.old) }
    requires begun { IsBegun E.parts.time ring.old.today tick.old }
    ensures ring { IsRing E.parts.time ring.new.today ring.new.waiting (lists_of ring.new.days.items) }
    ensures heap { IsHeap (reversed E.cmp) (heap_items heap.new) }
    ensures begun { IsBegun E.parts.time ring.new.today tick.new }
    ensures yes { OnTrue result (AreWith E.cmp (event.now ∷ []) (tick.new ++ waiting_in (heap_items heap.new) (lists_of ring.new.days.items))
        (tick.old ++ waiting_in (heap_items heap.old) (lists_of ring.old.days.items))) }
    ensures no { OnFalse result (AreWith E.cmp [] (tick.new ++ waiting_in (heap_items heap.new) (lists_of ring.new.days.items))
        (tick.old ++ waiting_in (heap_items heap.old) (lists_of ring.old.days.items))) }
    ensures none { OnFalse result (count E.cmp event.now (tick.old ++ waiting_in (heap_items heap.old) (lists_of ring.old.days.items)) ≡ 0) }
{
    if tick.remove(event) {
        return true;
    }
    if let_go(ring, event) {
        return true;
    }
    let alloc = *ring.days.allocator();
    remove_one(heap, alloc, event)
}

/// The ring goes on, until the least event of all is in the tick or the heap.
#[inline(always)]
pub(crate) fn go_on<E: Timed>(tick: &mut Tick<E>, heap: &BinaryHeap<Reverse<E>>, ring: &mut Ring<E>)
    requires ring { IsRing E.parts.time ring.old.today ring.old.waiting (lists_of ring.old.days.items) }
    requires begun { IsBegun E.parts.time ring.old.today tick.old }
    ensures ring { IsRing E.parts.time ring.new.today ring.new.waiting (lists_of ring.new.days.items) }
    ensures begun { IsBegun E.parts.time ring.new.today tick.new }
    ensures all { AreWith E.cmp [] (tick.old ++ all_of (lists_of ring.old.days.items)) (tick.new ++ all_of (lists_of ring.new.days.items)) }
    ensures due { IsDue E.parts.time ring.new.today E.cmp ring.new.waiting (tick.new ++ events_of (heap_items heap.now)) }
{
    settle(tick, heap, ring);
    catch_up(tick, heap, ring);
}
