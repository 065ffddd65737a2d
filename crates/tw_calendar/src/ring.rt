//! The tick at hand, and the ticks after it in a ring of buckets.

ghost use Rattle.std.specs.Prelude.{ℕ, ◌≡◌, ◌≤◌, length, ◌<◌, ◌==◌, ◌+◌, ◌^◌, ◌↔◌, None, Some, [], drop, filter, slice_get, take, ◌*◌, IfOk, IsTrue, OnOk};
ghost use Rattle.std.specs.Bool.{OnFalse, OnTrue};
ghost use Rattle.std.specs.List.{list_any, slice_index_or};
ghost use Rattle.tw_calendar.specs.Turn.{IsTurn, mark_at};
ghost use Rattle.tw_event.specs.declared.event.Event.{Event};
ghost use Rattle.tw_event.specs.Order.{event_before, event_same};
ghost use Rattle.tw_ordered.specs.Buckets.{together};
ghost use Rattle.tw_ordered.specs.Queue.{is_before};
ghost use Rattle.tw_ordered.specs.Times.{first_time};
ghost use Rattle.tw_sim.specs.Ordered.{insert, take_out, times};
ghost use Rattle.tw_sim.specs.Rising.{IsRising};

use crate::marks::{BUCKETS, Marks, PLACES, WORDS, is_ahead, slot_of};
use crate::tick::Tick;
use crate::ticks::{any_in_ticks, append_all, empty_ticks, least_of_all};
use crate::update::Update;
use std::alloc::{AllocError, Global};
use std::marker::Model;
use tw_event::Event;

/// The events of a tick in order, and those of later ticks in buckets, a tick in each.
///
/// An event at time t, in ticks, is in the bucket with the number t mod 1,024. Only the 1,024 ticks after the tick at
/// hand have buckets, so that each bucket has one tick.
#[derive(Drop)]
pub(crate) struct Ring {
    hand: Tick,
    taken: usize,
    tick: u64,
    marks: Marks,
    buckets: Vec<Tick>,
    // The places of empty buckets that have memory, as far as that is known.
    spares: Vec<usize>,
    // A list for each router, for ticks that are dealt out.
    routers: Vec<Tick>,
}

impl Model for Ring {
    ghost use Rattle.std.specs.Prelude.{List};
    ghost use Rattle.tw_event.specs.declared.event.Event.{Event};
    ghost use Rattle.tw_calendar.specs.Ring.{IsRing, ring_events};

    ghost Value = { List Event };

    ghost view = { ring_events };

    ghost invariant = { IsRing };
}

impl Ring {
    /// No events, mostly for routers below `routers`.
    pub(crate) fn new(alloc: Global, routers: u32) -> Result<Ring, AllocError>
        ensures { IfOk result (λ events. events ≡ []) }
    {
        let routers = empty_ticks(alloc, u64::from(routers))?;
        let buckets = empty_ticks(alloc, BUCKETS)?;
        Ok(Ring {
            hand: Tick::new(alloc),
            taken: 0,
            tick: 0,
            marks: Marks::new(),
            buckets,
            spares: Vec::new(alloc),
            routers,
        })
    }

    /// Adds an event where it is a path that arrives, in one of the 1,024 ticks after the tick at hand, and memory is
    /// not refused, and tells whether it did.
    #[inline(always)]
    pub(crate) fn insert(&mut self, event: &Event) -> bool
        ensures added { OnTrue result (self.new ≡ insert event_before event.now self.old) }
        ensures same { OnFalse result (self.new ≡ self.old) }
    {
        let time = event.time;
        if !is_ahead(time, self.tick) {
            return false;
        }
        let Some(update) = Update::of(event) else {
            return false;
        };
        let slot = slot_of(time);
        reuse_memory(&mut self.buckets, &mut self.spares, slot);
        if !self.buckets[slot].push(time, &update) {
            return false;
        }
        self.marks.set(slot, true);
        true
    }

    /// Copies the least event, where there is one, and tells whether there is.
    #[inline(always)]
    pub(crate) fn copy_least(&self, event: &mut Event) -> bool
        ensures some { OnTrue result (Some event.new ≡ slice_get self.now 0) }
        ensures beyond { OnFalse result (slice_get self.now 0 ≡ None) }
        ensures none { OnFalse result (event.new ≡ event.old) }
    {
        if self.hand.copy(self.taken, event) {
            return true;
        }
        self.buckets[self.marks.first_after(self.tick)].copy_least(event)
    }

    /// The time of the least event, in ticks, and `u64::MAX` where there is none.
    #[inline(always)]
    pub(crate) fn least_time(&self) -> u64
        ensures { result ≡ first_time self.now }
    {
        if self.taken < self.hand.len() {
            return self.hand.time();
        }
        self.buckets[self.marks.first_after(self.tick)].first_time()
    }

    /// Copies the next event of the tick at hand, where there is one and it is before a limit, in ticks, and tells
    /// whether it did.
    #[inline(always)]
    pub(crate) fn copy_hand(&self, limit: u64, event: &mut Event) -> bool
        ensures some { OnTrue result (Some event.new ≡ slice_get self.now 0) }
        ensures before { OnTrue result (first_time self.now < limit) }
        ensures none { OnFalse result (event.new ≡ event.old) }
    {
        if self.taken >= self.hand.len() || self.hand.time() >= limit {
            return false;
        }
        self.hand.copy(self.taken, event)
    }

    /// Takes out the next event of the tick at hand, where there is one and it is before a limit, in ticks, and
    /// tells whether it did.
    #[inline(always)]
    pub(crate) fn skip_hand(&mut self, limit: u64) -> bool
        ensures taken { OnTrue result (self.new ≡ drop 1 self.old) }
        ensures before { OnTrue result (first_time self.old < limit) }
        ensures same { OnFalse result (self.new ≡ self.old) }
    {
        if self.hand.time() >= limit || self.taken >= self.hand.len() {
            return false;
        }
        self.taken += 1;
        true
    }

    /// How many events of the tick at hand are taken out. The events are in order.
    pub(crate) fn taken(&self) -> usize
        ensures { IsRising event_before event_same self.now }
    {
        self.taken
    }

    /// An event at this time, in ticks, was taken out elsewhere, so that the next ticks may have buckets. No
    /// promise rests on it.
    pub(crate) fn go_to(&mut self, time: u64)
        ensures { self.new ≡ self.old }
    {
        if self.taken < self.hand.len() || time <= self.tick {
            return;
        }
        if time < self.buckets[self.marks.first_after(self.tick)].first_time() {
            self.tick = time;
        }
    }

    /// Goes back to just before a time, in ticks, up to that of the tick at hand, so that this time has a bucket
    /// again: what is left at hand goes back into its bucket. That is done only where all events then have buckets
    /// and memory is not refused.
    #[inline(never)]
    pub(crate) fn step_back(&mut self, time: u64)
        ensures { self.new ≡ self.old }
    {
        if time == 0 || time > self.tick {
            return;
        }
        let base = time - 1;
        if !are_ahead(&self.buckets, &self.marks, self.tick, base) {
            return;
        }
        if self.taken >= self.hand.len() {
            self.tick = base;
            return;
        }
        let begun = self.hand.time();
        if !is_ahead(begun, base) {
            return;
        }
        let slot = slot_of(begun);
        reuse_memory(&mut self.buckets, &mut self.spares, slot);
        if !self.buckets[slot].refill(&self.hand, self.taken) {
            return;
        }
        self.taken = self.hand.len();
        self.marks.set(slot, true);
        self.tick = base;
    }

    /// Whether not all events of the tick at hand are taken out. No promise rests on it.
    #[inline(always)]
    pub(crate) fn has_tick_at_hand(&self) -> bool {
        self.taken < self.hand.len()
    }

    /// Puts the events of the next tick at hand, in order, where those at hand are all taken out.
    #[inline(always)]
    pub(crate) fn begin_tick(&mut self)
        ensures { self.new ≡ self.old }
    {
        if self.taken < self.hand.len() {
            return;
        }
        let place = self.marks.first_after(self.tick);
        if self.buckets[place].len() == 0 {
            return;
        }
        let bucket = &mut self.buckets[place];
        self.tick = bucket.first_time();
        self.hand.take_over(bucket, &mut self.routers);
        self.taken = 0;
        self.marks.set(place, false);
        let _ = self.spares.push(place);
    }

    /// Takes out the least event, where there is one.
    #[inline(always)]
    pub(crate) fn skip_least(&mut self)
        ensures { self.new ≡ drop 1 self.old }
    {
        if self.taken < self.hand.len() {
            self.taken += 1;
            return;
        }
        let place = self.marks.first_after(self.tick);
        if self.buckets[place].len() == 0 {
            return;
        }
        let bucket = &mut self.buckets[place];
        self.tick = bucket.first_time();
        self.hand.take_over(bucket, &mut self.routers);
        self.taken = 1;
        self.marks.set(place, false);
        let _ = self.spares.push(place);
    }

    /// Takes one event that equals `event` out, and tells whether there was one.
    pub(crate) fn remove(&mut self, event: &Event) -> bool
        ensures found { IsTrue result ↔ (0 < times event_same event.now self.old) }
        ensures events { self.new ≡ take_out event_same event.now self.old }
    {
        if event.time <= self.tick {
            return self.hand.remove(self.taken, event);
        }
        let slot = slot_of(event.time);
        let bucket = &mut self.buckets[slot];
        let found = bucket.remove(0, event);
        let has_more = bucket.len() > 0;
        self.marks.set(slot, has_more);
        found
    }

    /// How often an event is there.
    pub(crate) fn count(&self, event: &Event) -> usize
        ensures times { result ≡ times event_same event.now self.now }
        ensures bound { result < 2 ^ 60 }
    {
        if event.time <= self.tick {
            return self.hand.count(self.taken, event);
        }
        self.buckets[slot_of(event.time)].count(0, event)
    }

    /// The least event for a router.
    pub(crate) fn least_at(&self, router: u32) -> Option<Event>
        ensures { result ≡ slice_get (filter (λ e. e.dst == router) self.now) 0 }
    {
        let least = self.hand.least_at(self.taken, router, None);
        least_of_all(&self.buckets, router, least)
    }

    /// Whether one of its events is for a router and before a limit, in ticks.
    pub(crate) fn has_before(&self, router: u32, limit: u64) -> bool
        ensures { result ≡ list_any (is_before router limit) self.now }
    {
        self.hand.has_before(self.taken, router, limit)
            || any_in_buckets(&self.buckets, &self.marks, router, limit)
    }

    /// Puts its events at the end of a list.
    pub(crate) fn append_to(&self, events: &mut Vec<Event>) -> Result<(), AllocError>
        ensures ok { OnOk result ((e : Event) → times event_same e events.new.items ≡ times event_same e self.now + times event_same e events.old.items) }
    {
        // Room for all at once, so that the list doesn't grow on the way.
        events.reserve(count_all(&self.buckets).saturating_add(self.hand.len()))?;
        self.hand.append_from(self.taken, events)?;
        append_all(&self.buckets, events)?;
        Ok(())
    }
}

// Whether all events of buckets, which are after a tick, have buckets after a base before it too.
fn are_ahead(buckets: &[Tick], marks: &Marks, tick: u64, base: u64) -> bool
    requires turn { IsTurn (λ e. e.time) tick marks.now buckets.now }
    requires back { base < tick }
    ensures { OnTrue result ((e : Event) → 0 < times event_same e (together buckets.now) → e.time ≤ base + 1024) }
{
    let first = &buckets[marks.first_after(base)];
    if first.len() == 0 {
        return true;
    }
    if first.first_time() > base.saturating_add(BUCKETS) {
        return false;
    }
    true
}

// Whether one of the events of buckets is for a router and before a limit, in ticks.
fn any_in_buckets(buckets: &[Tick], marks: &Marks, router: u32, limit: u64) -> bool
    requires number { length buckets.now ≡ 1024 }
    requires marked { (i : ℕ) → i < 1024 → 0 < length (slice_index_or buckets.now i []) → mark_at marks.now i ≡ 1 }
    ensures { result ≡ list_any (λ events. list_any (is_before router limit) events) buckets.now }
{
    for word in 0..WORDS {
        if any_of_word(buckets, marks, word, router, limit) {
            return true;
        }
    }
    false
}

// Whether one of the events of the buckets that a word of marks is for is for a router and before a limit, in ticks.
fn any_of_word(buckets: &[Tick], marks: &Marks, word: usize, router: u32, limit: u64) -> bool
    requires number { length buckets.now ≡ 1024 }
    requires marked { (i : ℕ) → i < 1024 → 0 < length (slice_index_or buckets.now i []) → mark_at marks.now i ≡ 1 }
    requires word { word < 16 }
    ensures { result ≡ list_any (λ events. list_any (is_before router limit) events) (take 64 (drop (word * 64) buckets.now)) }
{
    if !marks.has_any(word) {
        return false;
    }
    let start = word * PLACES;
    any_in_ticks(&buckets[start..start + PLACES], router, limit)
}

// At least as many as there are events in these.
fn count_all(ticks: &[Tick]) -> usize {
    ticks
        .iter()
        .fold(0, |count: usize, tick| count.saturating_add(tick.len()))
}

// Gives an empty bucket the memory of another empty one, so that the buckets together have the memory that all
// events need, and not each its own.
#[inline(always)]
fn reuse_memory(buckets: &mut Vec<Tick>, spares: &mut Vec<usize>, to: usize)
    requires { to < length buckets.old.items }
    ensures { buckets.new.items ≡ buckets.old.items }
{
    if buckets[to].len() != 0 {
        return;
    }
    let Some(from) = spares.pop() else {
        return;
    };
    if from < buckets.len() && buckets[from].len() == 0 {
        buckets.swap(from, to);
    }
}
