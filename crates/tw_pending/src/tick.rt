//! The events of the tick at hand, put in order once.

ghost use Rattle.std.specs.Prelude.{ℕ, ◌≡◌, ◌+◌, ◌<◌, ◌≤◌, ◌∷◌, ◌++◌, [], drop, length, slice_get, vec_capacity, vec_len};
ghost use Rattle.std.specs.Bool.{OnFalse, OnTrue};
ghost use Rattle.tw_pending.specs.Order.{AreWith, IsInOrder, count, in_order};
ghost use Rattle.tw_pending.specs.Ring.{IsBegun};

use crate::copies::copy_list;
use crate::places::place_of;
use std::alloc::Global;
use std::marker::Model;
use std::mem::swap;
use tw_process::Timed;

/// Events in rising order, which are taken out from the front.
#[derive(Drop)]
pub(crate) struct Tick<E: Timed> {
    events: Vec<E>,
    /// How many of them are taken out.
    taken: usize,
}

impl<E: Timed> Model for Tick<E> {
    ghost use Rattle.std.specs.Prelude.{List, drop};
    ghost use Rattle.tw_pending.specs.Order.{IsInOrder};

    ghost Value = { List E };

    ghost view = { λ a. drop a.taken a.events.items };

    ghost invariant = { λ a. IsInOrder E.cmp (drop a.taken a.events.items) };
}

impl<E: Timed> Tick<E> {
    /// No events.
    pub(crate) fn new(alloc: Global) -> Tick<E>
        ensures { result ≡ [] }
    {
        Tick {
            events: Vec::new(alloc),
            taken: 0,
        }
    }

    /// The first event, where there is one.
    #[inline(always)]
    pub(crate) fn first(&self) -> Option<E>
        ensures first { result ≡ slice_get self.now 0 }
        ensures order { IsInOrder E.cmp self.now }
    {
        let event = self.events.get(self.taken)?;
        Some(*event)
    }

    /// Whether no event is left.
    #[inline(always)]
    pub(crate) fn is_over(&self) -> bool
        ensures yes { OnTrue result (self.now ≡ []) }
        ensures no { OnFalse result (0 < length self.now) }
    {
        self.taken >= self.events.len()
    }

    /// How many events are left.
    pub(crate) fn len(&self) -> usize
        ensures { result ≡ length self.now }
    {
        self.events.len().saturating_sub(self.taken)
    }

    /// Puts a copy of the events that are left behind others, where there is room for them.
    pub(crate) fn copy_to(&self, events: &mut Vec<E>)
        requires { vec_len events.old + length self.now ≤ vec_capacity events.old }
        ensures items { events.new.items ≡ events.old.items ++ self.now }
        ensures len { vec_len events.new ≡ vec_len events.old + length self.now }
        ensures capacity { vec_capacity events.old ≤ vec_capacity events.new }
    {
        if self.is_over() {
            return;
        }
        copy_list(&self.events[self.taken..], events);
    }

    /// Takes out the first event, where there is one.
    #[inline(always)]
    pub(crate) fn skip(&mut self)
        ensures { self.new ≡ drop 1 self.old }
    {
        if self.taken < self.events.len() {
            self.taken += 1;
        }
    }

    /// Takes out one event that equals this one, where there is one, and tells whether there was.
    pub(crate) fn remove(&mut self, event: &E) -> bool
        ensures yes { OnTrue result (AreWith E.cmp (event.now ∷ []) self.new self.old) }
        ensures no { OnFalse result (self.new ≡ self.old) }
        ensures none { OnFalse result (count E.cmp event.now self.old ≡ 0) }
        ensures begun { (today : ℕ) → IsBegun E.parts.time today self.old → IsBegun E.parts.time today self.new }
    {
        if self.is_over() {
            return false;
        }
        let place = place_of(&self.events[self.taken..], event);
        if place >= self.events.len() - self.taken {
            return false;
        }
        let _ = self.events.remove(self.taken + place);
        true
    }

    /// Takes the events of a list in the place of its own, and puts them in order.
    pub(crate) fn take_over(&mut self, events: &mut Vec<E>)
        ensures events { self.new ≡ in_order E.cmp events.old.items }
        ensures empty { events.new.items ≡ [] }
    {
        self.events.clear();
        self.taken = 0;
        swap(&mut self.events, events);
        self.events.sort_unstable();
    }
}
