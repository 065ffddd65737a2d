//! The events that a router can undo, in a ring.

ghost use Rattle.std.specs.Bool.{OnTrue};
ghost use Rattle.std.specs.Prelude.{◌≡◌, ◌++◌, ◌∷◌, ◌-◌, ◌^◌, ◌<◌, ◌≤◌, [], IfOk, OnErr, OnOk, count_by, drop, length, nat_lt, slice_get, take};
ghost use Rattle.std.specs.List.{list_any, prefix_len};
ghost use Rattle.std.specs.Option.{option_copied};
ghost use Rattle.tw_shard.specs.Ahead.{EndsOtherwise};

use crate::timeline::HandledEvent;
use circular_buffer::HeapCircularBuffer;
use std::alloc::{AllocError, Global};
use std::marker::Model;
use tw_event::Event;

/// How many events a ring has memory for once it has any.
const FIRST_CAPACITY: usize = 4;

/// The events that a router can undo, with what undoing them needs, the oldest first.
///
/// The ring takes memory as it fills, so that a router with few such events has little.
#[derive(Drop)]
pub(crate) struct Ahead {
    steps: HeapCircularBuffer<HandledEvent>,
    // The time and the number of the newest event, where there is one.
    newest_time: u64,
    newest_seq: u64,
}

impl Model for Ahead {
    ghost use Rattle.std.specs.Prelude.{List};
    ghost use Rattle.tw_shard.specs.declared.timeline.HandledEvent.{HandledEvent as AStep};
    ghost use Rattle.tw_shard.specs.Ahead.{NotesNewest};

    ghost Value = { List AStep };

    ghost view = { λ a. a.steps.items };

    ghost invariant = { NotesNewest };
}

impl Ahead {
    /// Nothing is handled.
    pub(crate) fn new(alloc: Global) -> Result<Ahead, AllocError>
        ensures { IfOk result (λ ahead. ahead ≡ []) }
    {
        Ok(Ahead {
            steps: HeapCircularBuffer::with_capacity(alloc, 0)?,
            newest_time: 0,
            newest_seq: 0,
        })
    }

    /// How many there are.
    pub(crate) fn len(&self) -> usize
        ensures value { result ≡ length self.now }
        ensures most { result < 2 ^ 63 }
    {
        self.steps.len()
    }

    /// The newest one.
    #[inline(always)]
    pub(crate) fn last(&self) -> Option<&HandledEvent>
        ensures { option_copied result ≡ slice_get self.now (length self.now - 1) }
    {
        self.steps.back()
    }

    /// Whether there is a newest one and its event is another one, as its time and its number tell. The ring is not
    /// looked at.
    #[inline(always)]
    pub(crate) fn ends_otherwise(&self, event: &Event) -> bool
        ensures { OnTrue result (EndsOtherwise event.now self.now) }
    {
        let told = self.newest_time != event.time || self.newest_seq != event.seq;
        told && !self.steps.is_empty()
    }

    /// Number `k`, from 0, the oldest first.
    pub(crate) fn get(&self, k: usize) -> Option<&HandledEvent>
        ensures { option_copied result ≡ slice_get self.now k }
    {
        self.steps.get(k)
    }

    /// All of them, in two parts.
    pub(crate) fn parts(&self) -> (&[HandledEvent], &[HandledEvent])
        ensures { result.0.now ++ result.1.now ≡ self.now }
    {
        self.steps.as_slices()
    }

    /// The oldest ones, so many, in two parts.
    pub(crate) fn first(&self, count: usize) -> (&[HandledEvent], &[HandledEvent])
        requires { count ≤ length self.now }
        ensures { result.0.now ++ result.1.now ≡ take count self.now }
    {
        let (steps, newer) = self.steps.as_slices();
        if count <= steps.len() {
            (&steps[..count], &[])
        } else {
            (steps, &newer[..count - steps.len()])
        }
    }

    /// One more has been handled.
    pub(crate) fn push(&mut self, step: HandledEvent) -> Result<(), AllocError>
        ensures ok { OnOk result (self.new ≡ self.old ++ step ∷ []) }
        ensures err { OnErr result (self.new ≡ self.old) }
    {
        make_room(&mut self.steps)?;
        self.newest_time = step.event.time;
        self.newest_seq = step.event.seq;
        // There is a place for it, so that nothing comes back.
        let _ = self.steps.try_push_back(step);
        Ok(())
    }

    /// The newest one is undone.
    pub(crate) fn drop_last(&mut self)
        ensures { self.new ≡ take (length self.old - 1) self.old }
    {
        self.steps.pop_back();
        if let Some(newest) = self.steps.back() {
            self.newest_time = newest.event.time;
            self.newest_seq = newest.event.seq;
        }
    }

    /// The oldest ones, so many, are committed.
    pub(crate) fn drop_first(&mut self, count: usize)
        requires { count ≤ length self.old }
        ensures { self.new ≡ drop count self.old }
    {
        let left = self.steps.len() - count;
        self.steps.truncate_front(left);
    }

    /// Whether an event is one of them.
    pub(crate) fn has(&self, event: &Event) -> bool
        ensures { result ≡ list_any (λ d. ⟦<Event as PartialEq>⟧.eq event.now d.event) self.now }
    {
        let (steps, newer) = self.steps.as_slices();
        is_among(steps, event) || is_among(newer, event)
    }

    /// How many, from the oldest on, are all before a time.
    pub(crate) fn first_before(&self, time: u64) -> usize
        ensures value { result ≡ prefix_len (λ d. nat_lt d.event.time time) self.now }
        ensures within { result ≤ length self.now }
    {
        let (steps, newer) = self.steps.as_slices();
        let count = oldest_before(steps, time);
        if count < steps.len() {
            count
        } else {
            count + oldest_before(newer, time)
        }
    }

    /// How many are before a time.
    pub(crate) fn all_before(&self, time: u64) -> usize
        ensures value { result ≡ count_by (λ d. nat_lt d.event.time time) self.now }
        ensures most { result < 2 ^ 63 }
    {
        // How many a ring may have is told by a read of it.
        let _ = self.len();
        let (steps, newer) = self.steps.as_slices();
        count_before(steps, time) + count_before(newer, time)
    }
}

/// Makes room for one more, where the ring is full: twice the places.
fn make_room(ring: &mut HeapCircularBuffer<HandledEvent>) -> Result<(), AllocError>
    ensures items { ring.new.items ≡ ring.old.items }
    ensures room { OnOk result (length ring.new.items < ring.new.capacity) }
{
    let capacity = ring.capacity();
    if ring.len() < capacity {
        return Ok(());
    }
    ring.resize(FIRST_CAPACITY.max(2 * capacity))
}

/// How many steps, from the first on, are all of events before a time.
fn oldest_before(steps: &[HandledEvent], time: u64) -> usize
    ensures value { result ≡ prefix_len (λ d. nat_lt d.event.time time) steps.now }
    ensures within { result ≤ length steps.now }
{
    steps
        .iter()
        .take_while(|step| step.event.time < time)
        .count()
}

/// How many steps are of events before a time.
fn count_before(steps: &[HandledEvent], time: u64) -> usize
    ensures { result ≡ count_by (λ d. nat_lt d.event.time time) steps.now }
{
    steps.iter().filter(|step| step.event.time < time).count()
}

/// Whether an event is one of those handled.
fn is_among(handled: &[HandledEvent], event: &Event) -> bool
    ensures { result ≡ list_any (λ d. ⟦<Event as PartialEq>⟧.eq event.now d.event) handled.now }
{
    handled.iter().any(|handled| *event == handled.event)
}
