//! Events: what happens at a router, at a time, and their order.

ghost use Rattle.std.specs.Prelude.{◌≡◌, ◌↔◌, IsTrue, refl};
ghost use Rattle.std.specs.Ordering.{on, as_partial_cmp};
ghost use Rattle.std.specs.Cmp.{on_equiv, on_total, partial_equiv_from_equiv, partial_order_from_agreeing_total};
ghost use Rattle.tw_event.specs.Order.{class_of, event_cmp};
ghost use Rattle.tw_event.specs.Rank.{rank_of};
ghost use Rattle.tw_event.specs.contracts.event.RankEq.TheImpl.Laws as rank_eq;
ghost use Rattle.tw_event.specs.contracts.event.RankOrd.TheImpl.Laws as rank_ord;

use std::cmp::Ordering;

/// The number of a path: 0 is the empty path, 1 is (0), and the path of the k-th permitted path of an
/// instance, from 1, has number k + 1. Numbers stand for paths of one instance alone.
#[derive(Clone, Copy, PartialEq, Eq, PartialOrd, Ord, Hash, Debug)]
pub struct PathNo(pub u32);

impl PathNo {
    /// The empty path: no way to the origin.
    pub const EMPTY: PathNo = PathNo(0);

    /// The origin's own path, (0).
    pub const ORIGIN: PathNo = PathNo(1);
}

/// What an event does at its router.
#[derive(Clone, Copy, Default, PartialEq, Eq, PartialOrd, Ord, Hash, Debug)]
pub enum Body {
    /// The origin begins.
    #[default]
    Start,
    /// The link to this neighbour fails.
    Fail(u32),
    /// The link to this neighbour is repaired.
    Restore(u32),
    /// The paths at these two places of the router's order, from 1, change places.
    Swap(u32, u32),
    /// The path at this place among the router's paths as they were given, from 1, is barred.
    Forbid(u32),
    /// The path at this place among the router's paths as they were given, from 1, is no longer barred.
    Allow(u32),
    /// A neighbour's path arrives; the empty path is a withdrawal.
    Update {
        /// The path that the sender now uses.
        path: PathNo,
        /// The sender's number of repairs of the link when it was sent.
        session: u64,
    },
}

/// The kind of a body, in the order in which events of one time and router are handled.
#[derive(Clone, Copy, PartialEq, Eq, PartialOrd, Ord, Hash, Debug)]
pub enum Class {
    Start,
    Fail,
    Restore,
    Swap,
    Forbid,
    Allow,
    Update,
}

impl Body {
    /// The kind of this body.
    pub fn class(&self) -> Class
        ensures { result ≡ class_of self.now }
    {
        match self {
            Body::Start => Class::Start,
            Body::Fail(_) => Class::Fail,
            Body::Restore(_) => Class::Restore,
            Body::Swap(_, _) => Class::Swap,
            Body::Forbid(_) => Class::Forbid,
            Body::Allow(_) => Class::Allow,
            Body::Update { .. } => Class::Update,
        }
    }
}

/// Something that a router handles, at a time in ticks.
///
/// Two events that differ in any field are different. Events are ordered by time, then receiver,
/// class, sender, number and body. The default event is the start of the origin.
#[derive(Clone, Copy, Default, Hash, Debug)]
pub struct Event {
    /// When it happens, in ticks.
    pub time: u64,
    /// The router that handles it.
    pub dst: u32,
    /// The router that sent it; for an opening event the same as `dst`.
    pub src: u32,
    /// The sender's count of messages before it; for a scenario line its place, from 1.
    pub seq: u64,
    /// What happens.
    pub body: Body,
}

impl Event {
    /// The kind of its body.
    pub fn class(&self) -> Class
        ensures { result ≡ class_of self.now.body }
    {
        self.body.class()
    }

    fn rank(&self) -> Rank
        ensures { result ≡ rank_of self.now }
    {
        Rank {
            time: self.time,
            dst: self.dst,
            class: self.class(),
            src: self.src,
            seq: self.seq,
            body: self.body,
        }
    }

    /// Whether it comes before another event in the order in which one thread handles them.
    pub fn is_before(&self, other: &Event) -> bool
        ensures { IsTrue result ↔ (event_cmp self.now other.now ≡ Ordering.Less) }
    {
        self < other
    }
}

impl PartialEq for Event {
    ghost eq = { on rank_of ⟦<Rank as PartialEq>⟧.eq };

    ghost laws = { partial_equiv_from_equiv (on_equiv rank_of rank_eq.laws-law) };

    fn eq(&self, other: &Event) -> bool {
        self.rank() == other.rank()
    }
}

impl Eq for Event {
    ghost laws = { on_equiv rank_of rank_eq.laws-law };
}

impl PartialOrd for Event {
    ghost partial_cmp = { as_partial_cmp (on rank_of ⟦<Rank as Ord>⟧.cmp) };

    ghost laws = { partial_order_from_agreeing_total (on rank_of ⟦<Rank as Ord>⟧.cmp) (on_total rank_of rank_ord.total-law) (λ x y. refl) (λ x y. rank_ord.matches_eq-law (rank_of x) (rank_of y)) };

    fn partial_cmp(&self, other: &Event) -> Option<Ordering> {
        Some(self.cmp(other))
    }
}

impl Ord for Event {
    ghost cmp = { on rank_of ⟦<Rank as Ord>⟧.cmp };

    ghost total = { on_total rank_of rank_ord.total-law };

    ghost matches_partial_cmp = { λ x y. refl };

    ghost matches_eq = { λ x y. rank_ord.matches_eq-law (rank_of x) (rank_of y) };

    #[inline]
    fn cmp(&self, other: &Event) -> Ordering {
        self.rank().cmp(&other.rank())
    }
}

/// The parts of an event in the order in which events are compared.
#[derive(Clone, Copy, PartialEq, Eq, PartialOrd, Ord)]
struct Rank {
    time: u64,
    dst: u32,
    class: Class,
    src: u32,
    seq: u64,
    body: Body,
}
