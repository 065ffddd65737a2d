//! The shape of a run: its state less its time and its counters.

ghost use Rattle.std.specs.Prelude.{◌≡◌, ◌≤◌, ◌<◌, ◌-◌, ◌*◌, ℕ, false, [], IfNone, IfSome};
ghost use Rattle.tw_shape.specs.Packed.{Covers, in_order, routers_of, seen};
ghost use Rattle.tw_shape.specs.Shape.{IsStill, can_repeat, later};
ghost use Rattle.tw_shape.specs.Same.{NeverMeet, same_shape};

use crate::seen::{Seen, all_updates, are_alike, hash_of, least_time, put_in_order};
use std::marker::Model;
use tw_event::PathNo;
use tw_model::Row;

/// A router's path, and how many of the rows, paths and bars that follow are its own.
#[derive(Clone, Copy, PartialEq, Eq, Debug)]
pub(crate) struct Span {
    pub(crate) rib: PathNo,
    pub(crate) rows: usize,
    pub(crate) order: usize,
    pub(crate) barred: usize,
}

/// The routers, whose rows, paths and bars lie one after the other.
#[derive(PartialEq, Eq, Drop, Debug)]
pub(crate) struct Parts {
    pub(crate) spans: Vec<Span>,
    pub(crate) rows: Vec<Row>,
    pub(crate) order: Vec<PathNo>,
    pub(crate) barred: Vec<bool>,
}

/// What a run looks like at a time, when all events before it are handled: every router without its
/// counters, and the pending events, each with the ticks until it is handled and, in an update, how
/// many messages ago its sender sent it.
///
/// Two times of one run that have the same shape have the same future. The pending events are kept in any
/// order, and put in order only where a hash says that two shapes may be the same.
#[derive(Drop, Debug)]
pub struct Shape {
    parts: Parts,
    pending: Seen,
    /// In how many ticks the first pending event is handled, or 0.
    due: u64,
    /// Of the routers' paths and the pending events, whatever their order.
    hash: u64,
}

impl Model for Shape {
    ghost use Rattle.tw_shape.specs.Shape as shape;

    ghost Value = { shape.Shape };

    ghost use Rattle.tw_shape.specs.Storage.{IsHashed, shape_of};

    ghost view = { shape_of };

    ghost invariant = { IsHashed };
}

impl Shape {
    /// Whether events are pending, none of them an opening event.
    pub(crate) fn can_repeat(&self) -> bool
        ensures { result ≡ can_repeat self.now }
    {
        let events = self.pending.events.as_slice();
        !events.is_empty() && all_updates(events)
    }

    /// The shape of these routers and pending events, which may stand in any order.
    pub(crate) fn of_parts(parts: Parts, pending: Seen) -> Shape
        requires { Covers parts.spans.items parts.rows.items parts.order.items parts.barred.items }
        ensures { result ≡ record {
          routers = routers_of parts.spans.items parts.rows.items parts.order.items parts.barred.items;
          pending = seen pending.time pending.sent.items (in_order pending.events.items);
        } }
    {
        let due = least_time(&pending.events).saturating_sub(pending.time);
        let hash = hash_of(&parts.spans, &pending, due);
        Shape {
            parts,
            pending,
            due,
            hash,
        }
    }

    /// In how many ticks the first pending event is handled.
    pub(crate) fn ticks_left(&self) -> Option<u64>
        ensures none { IfNone result (self.now.pending ≡ []) }
        ensures still { IfSome result (λ ticks. IsStill ticks self.now) }
        ensures longest { IfSome result (λ ticks. (d : ℕ) → IsStill d self.now → d ≤ ticks) }
    {
        let events = self.pending.events.as_slice();
        if events.is_empty() {
            None
        } else {
            Some(self.due)
        }
    }

    /// How many of `most` times, this one and then one more every so many ticks, come before anything
    /// pending is handled.
    pub(crate) fn still_times(&self, every: u64, most: u64) -> u64
        requires every { 0 < every }
        requires most { 0 < most }
        ensures some { 0 < result }
        ensures within { result ≤ most }
        ensures still { IsStill ((result - 1) * every) self.now }
        ensures longest { IsStill (result * every) self.now → result ≡ most }
    {
        match self.ticks_left() {
            None => most,
            Some(ticks) => (ticks / every).min(most - 1) + 1,
        }
    }

    /// Whether the two shapes may be the same later, as long as nothing is handled: where it answers no,
    /// they never are. It costs little, and seldom answers yes for nothing.
    pub(crate) fn may_meet(&self, other: &Shape) -> bool
        ensures { result ≡ false → NeverMeet self.now other.now }
    {
        self.hash == other.hash
    }

    /// Whether the two shapes are the same. It puts the pending events of both in order, which changes
    /// nothing that is told of them.
    pub fn is_same(&mut self, other: &mut Shape) -> bool
        ensures value { result ≡ same_shape self.old other.old }
        ensures same { self.new ≡ self.old }
        ensures other_same { other.new ≡ other.old }
    {
        self.meets(0, other, 0)
    }

    /// Whether this shape `ticks` later is the other one `other_ticks` later, where nothing is handled
    /// meanwhile.
    pub(crate) fn meets(&mut self, ticks: u64, other: &mut Shape, other_ticks: u64) -> bool
        requires still { IsStill ticks self.old }
        requires other_still { IsStill other_ticks other.old }
        ensures value { result ≡ same_shape (later ticks self.old) (later other_ticks other.old) }
        ensures same { self.new ≡ self.old }
        ensures other_same { other.new ≡ other.old }
    {
        if !self.may_meet(other) {
            return false;
        }
        put_in_order(&mut self.pending.events);
        put_in_order(&mut other.pending.events);
        self.parts == other.parts && are_alike(&self.pending, ticks, &other.pending, other_ticks)
    }
}
