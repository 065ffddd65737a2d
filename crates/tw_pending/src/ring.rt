//! Events of the next ticks, in a list for each tick.

ghost use Rattle.std.specs.Prelude.{ℕ, ◌≡◌, ◌+◌, ◌<◌, ◌≤◌, ◌^◌, ◌∷◌, ◌++◌, [], List, Some, length, slice_get, slice_set};
ghost use Rattle.std.specs.Bool.{OnFalse, OnTrue};
ghost use Rattle.std.specs.BinaryHeap.{heap_items};
ghost use Rattle.tw_pending.specs.Order.{AreWith, count, in_order};
ghost use Rattle.tw_pending.specs.Ring.{AreBefore, IsBegun, IsDue, IsRemovedAt, IsRing, all_of, events_of, lists_of};

use crate::places::place_of;
use crate::tick::Tick;
use std::cmp::Reverse;
use std::collections::BinaryHeap;
use tw_process::Timed;

/// So many ticks there is a list for, from the next one on.
pub(crate) const DAYS: u64 = 1_024;

/// Events that are later than a tick, and less than `DAYS` ticks later.
#[derive(Drop)]
pub(crate) struct Ring<E: Timed> {
    /// The tick.
    pub(crate) today: u64,
    /// How many events there are.
    pub(crate) waiting: usize,
    /// The list of a tick is at its remainder by `DAYS`. There may be none, and then no event waits here.
    pub(crate) days: Vec<Vec<E>>,
}

/// Takes up an event that is near, where there is memory for that, and tells whether it has.
#[inline(always)]
pub(crate) fn keep<E: Timed>(ring: &mut Ring<E>, event: E) -> bool
    requires { IsRing E.parts.time ring.old.today ring.old.waiting (lists_of ring.old.days.items) }
    ensures ring { IsRing E.parts.time ring.new.today ring.new.waiting (lists_of ring.new.days.items) }
    ensures today { ring.new.today ≡ ring.old.today }
    ensures yes { OnTrue result (AreWith E.cmp (event ∷ []) (all_of (lists_of ring.old.days.items)) (all_of (lists_of ring.new.days.items))) }
    ensures no { OnFalse result (lists_of ring.new.days.items ≡ lists_of ring.old.days.items) }
{
    let time = event.time();
    if time <= ring.today {
        return false;
    }
    if time - ring.today >= DAYS {
        return false;
    }
    let place = (time % DAYS) as usize;
    if place >= ring.days.len() {
        return false;
    }
    let Some(waiting) = ring.waiting.checked_add(1) else {
        return false;
    };
    if !add(&mut ring.days, place, event) {
        return false;
    }
    ring.waiting = waiting;
    true
}

/// Adds an event to the list at this place, where there is memory for that, and tells whether it has.
#[inline(always)]
fn add<E: Timed>(days: &mut Vec<Vec<E>>, place: usize, event: E) -> bool
    requires { place < length days.old.items }
    ensures yes { (day : List E) → slice_get (lists_of days.old.items) place ≡ Some day → OnTrue result (lists_of days.new.items ≡ slice_set (lists_of days.old.items) place (day ++ event ∷ [])) }
    ensures no { OnFalse result (lists_of days.new.items ≡ lists_of days.old.items) }
{
    let day = &mut days[place];
    if day.reserve(1).is_err() {
        return false;
    }
    day.push_reserved(event);
    true
}

/// Takes out one event that equals this one, where there is one, and tells whether there was.
pub(crate) fn let_go<E: Timed>(ring: &mut Ring<E>, event: &E) -> bool
    requires { IsRing E.parts.time ring.old.today ring.old.waiting (lists_of ring.old.days.items) }
    ensures ring { IsRing E.parts.time ring.new.today ring.new.waiting (lists_of ring.new.days.items) }
    ensures today { ring.new.today ≡ ring.old.today }
    ensures yes { OnTrue result (AreWith E.cmp (event.now ∷ []) (all_of (lists_of ring.new.days.items)) (all_of (lists_of ring.old.days.items))) }
    ensures no { OnFalse result (lists_of ring.new.days.items ≡ lists_of ring.old.days.items) }
    ensures none { OnFalse result (count E.cmp event.now (all_of (lists_of ring.old.days.items)) ≡ 0) }
{
    let place = (event.time() % DAYS) as usize;
    if place >= ring.days.len() {
        return false;
    }
    if !remove_at(&mut ring.days, place, event) {
        return false;
    }
    ring.waiting -= 1;
    true
}

/// Takes out of the list at this place one event that equals this one, where there is one, and tells whether there was.
fn remove_at<E: Timed>(days: &mut Vec<Vec<E>>, place: usize, event: &E) -> bool
    requires { place < length days.old.items }
    ensures yes { (day : List E) → slice_get (lists_of days.old.items) place ≡ Some day → OnTrue result (IsRemovedAt event.now place day (lists_of days.old.items) (lists_of days.new.items)) }
    ensures no { OnFalse result (lists_of days.new.items ≡ lists_of days.old.items) }
    ensures none { (day : List E) → slice_get (lists_of days.old.items) place ≡ Some day → OnFalse result (count E.cmp event.now day ≡ 0) }
{
    let day = &mut days[place];
    let at = place_of(day.as_slice(), event);
    if at >= day.len() {
        return false;
    }
    let _ = day.remove(at);
    true
}

/// Goes on from tick to tick, until one that has events begins or the heap's least event is due; else where no event
/// waits here any more.
#[inline(always)]
pub(crate) fn settle<E: Timed>(
    tick: &mut Tick<E>,
    heap: &BinaryHeap<Reverse<E>>,
    ring: &mut Ring<E>,
)
    requires ring { IsRing E.parts.time ring.old.today ring.old.waiting (lists_of ring.old.days.items) }
    requires begun { IsBegun E.parts.time ring.old.today tick.old }
    ensures ring { IsRing E.parts.time ring.new.today ring.new.waiting (lists_of ring.new.days.items) }
    ensures begun { IsBegun E.parts.time ring.new.today tick.new }
    ensures all { AreWith E.cmp [] (tick.old ++ all_of (lists_of ring.old.days.items)) (tick.new ++ all_of (lists_of ring.new.days.items)) }
    ensures due { IsDue E.parts.time ring.new.today E.cmp ring.new.waiting (tick.new ++ events_of (heap_items heap.now)) }
{
    while is_early(tick, heap, ring) {
        next_day(tick, ring);
    }
}

/// Whether events wait here, none of the tick is left, and the heap's least event is later than today.
#[inline(always)]
fn is_early<E: Timed>(tick: &Tick<E>, heap: &BinaryHeap<Reverse<E>>, ring: &Ring<E>) -> bool
    requires { IsBegun E.parts.time ring.now.today tick.now }
    ensures yes { OnTrue result (0 < ring.now.waiting) }
    ensures over { OnTrue result (tick.now ≡ []) }
    ensures no { OnFalse result (IsDue E.parts.time ring.now.today E.cmp ring.now.waiting (tick.now ++ events_of (heap_items heap.now))) }
{
    if !tick.is_over() {
        return false;
    }
    if ring.waiting == 0 {
        return false;
    }
    let Some(top) = heap.peek() else {
        return true;
    };
    if top.0.time() <= ring.today {
        return false;
    }
    true
}

/// Goes on to the next tick, which begins where it has events.
fn next_day<E: Timed>(tick: &mut Tick<E>, ring: &mut Ring<E>)
    requires ring { IsRing E.parts.time ring.old.today ring.old.waiting (lists_of ring.old.days.items) }
    requires some { 0 < ring.old.waiting }
    requires over { tick.old ≡ [] }
    ensures ring { IsRing E.parts.time ring.new.today ring.new.waiting (lists_of ring.new.days.items) }
    ensures today { ring.new.today ≡ ring.old.today + 1 }
    ensures begun { IsBegun E.parts.time ring.new.today tick.new }
    ensures all { AreWith E.cmp [] (all_of (lists_of ring.old.days.items)) (tick.new ++ all_of (lists_of ring.new.days.items)) }
    ensures near { (horizon : ℕ) → AreBefore E.parts.time horizon (lists_of ring.old.days.items) → AreBefore E.parts.time horizon (lists_of ring.new.days.items) }
{
    ring.today += 1;
    let place = (ring.today % DAYS) as usize;
    ring.waiting -= begin(tick, &mut ring.days, place);
}

/// The events of the list at this place are those of the tick, in order. Answers how many they are.
#[inline(always)]
fn begin<E: Timed>(tick: &mut Tick<E>, days: &mut Vec<Vec<E>>, place: usize) -> usize
    requires within { place < length days.old.items }
    requires over { tick.old ≡ [] }
    ensures count { (day : List E) → slice_get (lists_of days.old.items) place ≡ Some day → result ≡ length day }
    ensures days { lists_of days.new.items ≡ slice_set (lists_of days.old.items) place [] }
    ensures tick { (day : List E) → slice_get (lists_of days.old.items) place ≡ Some day → tick.new ≡ in_order E.cmp day }
{
    let day = &mut days[place];
    let count = day.len();
    if count == 0 {
        return 0;
    }
    tick.take_over(day);
    count
}

/// Where no event waits here, today is no earlier than the heap's least event.
#[inline(always)]
pub(crate) fn catch_up<E: Timed>(tick: &Tick<E>, heap: &BinaryHeap<Reverse<E>>, ring: &mut Ring<E>)
    requires ring { IsRing E.parts.time ring.old.today ring.old.waiting (lists_of ring.old.days.items) }
    requires begun { IsBegun E.parts.time ring.old.today tick.now }
    requires due { IsDue E.parts.time ring.old.today E.cmp ring.old.waiting (tick.now ++ events_of (heap_items heap.now)) }
    ensures ring { IsRing E.parts.time ring.new.today ring.new.waiting (lists_of ring.new.days.items) }
    ensures begun { IsBegun E.parts.time ring.new.today tick.now }
    ensures due { IsDue E.parts.time ring.new.today E.cmp ring.new.waiting (tick.now ++ events_of (heap_items heap.now)) }
    ensures days { lists_of ring.new.days.items ≡ lists_of ring.old.days.items }
{
    if ring.waiting > 0 {
        return;
    }
    if let Some(top) = heap.peek() {
        ring.today = ring.today.max(top.0.time());
    }
}
