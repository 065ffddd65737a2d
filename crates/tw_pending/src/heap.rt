//! A heap with the least event on top.

ghost use Rattle.std.specs.Prelude.{◌≡◌, ◌+◌, ◌≤◌, ◌∷◌, []};
ghost use Rattle.std.specs.Bool.{OnFalse, OnTrue};
ghost use Rattle.std.specs.BinaryHeap.{IsHeap, heap_capacity, heap_items, heap_len};
ghost use Rattle.tw_pending.specs.Order.{AreWith, count, reversed};
ghost use Rattle.tw_pending.specs.Ring.{events_of};

use crate::places::place_in_heap;
use std::alloc::Global;
use std::cmp::Reverse;
use std::collections::BinaryHeap;
use std::mem::replace;
use tw_process::Timed;

/// Adds an event to a heap that has room for it.
#[inline(always)]
pub(crate) fn push_one<E: Timed>(heap: &mut BinaryHeap<Reverse<E>>, event: E)
    requires room { heap_len heap.old + 1 ≤ heap_capacity heap.old }
    requires heap { IsHeap (reversed E.cmp) (heap_items heap.old) }
    ensures heap { IsHeap (reversed E.cmp) (heap_items heap.new) }
    ensures len { heap_len heap.new ≡ heap_len heap.old + 1 }
    ensures capacity { heap_capacity heap.old ≤ heap_capacity heap.new }
    ensures events { AreWith E.cmp (event ∷ []) (events_of (heap_items heap.old)) (events_of (heap_items heap.new)) }
{
    heap.push(Reverse(event)).unwrap();
}

/// Takes out one event that equals this one, where there is one, and tells whether there was. It takes no memory.
pub(crate) fn remove_one<E: Timed>(
    heap: &mut BinaryHeap<Reverse<E>>,
    alloc: Global,
    event: &E,
) -> bool
    requires { IsHeap (reversed E.cmp) (heap_items heap.old) }
    ensures heap { IsHeap (reversed E.cmp) (heap_items heap.new) }
    ensures yes { OnTrue result (AreWith E.cmp (event.now ∷ []) (events_of (heap_items heap.new)) (events_of (heap_items heap.old))) }
    ensures no { OnFalse result (heap_items heap.new ≡ heap_items heap.old) }
    ensures none { OnFalse result (count E.cmp event.now (events_of (heap_items heap.old)) ≡ 0) }
{
    let place = place_in_heap(heap.as_slice(), event);
    if place >= heap.len() {
        return false;
    }
    let mut items = replace(heap, BinaryHeap::new(alloc)).into_vec();
    let _ = items.swap_remove(place);
    *heap = BinaryHeap::from(items);
    true
}
