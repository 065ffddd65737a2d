//! A router: how it begins, and its reads.

ghost use Rattle.std.specs.Prelude.{◌≡◌, ◌≤◌, ◌<◌, ◌↔◌, false, fold, map, max, length, IfOk, IsErrOf, IsTrue};
ghost use Rattle.tw_model.specs.declared.memory.OrMemory.TheVariants.{Fault};
ghost use Rattle.tw_model.specs.Net.{IsPath, path as path_of};
ghost use Rattle.tw_model.specs.Rules.{IsNet};
ghost use Rattle.tw_model.specs.State.{IsCounted, IsState, best as best_of, fresh_row, is_barred as is_barred_of, opening, opening_with, row as row_of};
ghost use Rattle.tw_model.specs.Summary.{end_of};
ghost use Rattle.tw_router.specs.Nodes.{best_nodes, heard_of, order_of};
ghost use Rattle.tw_router.specs.Ranks.{rank_row as rank_row_of};

mod writers;

use std::alloc::{AllocError, Global};
use std::marker::Model;
use thiserror::Error;
use tw_event::PathNo;
use tw_instance::Instance;
use tw_model::limits::MOST_COUNTED;
use tw_model::{Counters, Hop, OrMemory, RouterEnd, Row};

/// Why a router does not begin with given counters.
#[derive(Clone, Copy, PartialEq, Eq, Debug, Error)]
pub enum OpenFault {
    /// A counter is above 2^48, or more events were dropped, or led to a change, than were handled.
    #[error("no router has these counters")]
    Counters,
}

/// A router of an instance, with what it knows.
///
/// It has a row for each neighbour, in ascending order; a slot is the place of a row, from 0. Its order has
/// its permitted paths, the best first, and each of them may be barred. A neighbour whose link is up offers
/// the router's number followed by the path that it told. Each slot has a rank: how many paths of the order
/// stand from the offered one on, and 0 where none of them is offered, or a barred one. So the path of the
/// greatest rank is the best.
#[derive(Drop)]
pub struct Router<'a> {
    instance: &'a Instance,
    node: u32,
    rib: PathNo,
    rows: Vec<Row>,
    order: Vec<PathNo>,
    ranks: Vec<u32>,
    /// The greatest of the ranks, and 0 where there are none.
    greatest: u32,
    /// Whether paths of the order were ever exchanged, or one was ever barred. Where this is false, the
    /// order is that of the instance, and no path is barred.
    altered: bool,
    counters: Counters,
    /// Which paths are barred, in the order in which they were given.
    barred: Vec<bool>,
}

impl<'a> Model for Router<'a> {
    ghost use Rattle.tw_model.specs.State as state;
    ghost use Rattle.tw_router.specs.Ranks.{IsRanked};

    ghost Value = { state.Router };

    ghost view = { λ a. record { net = a.instance.now; node = a.node; state = record { rib = a.rib; rows = a.rows.items; order = a.order.items; barred = a.barred.items; counters = a.counters } } };

    ghost invariant = { λ a. IsRanked
        (record { net = a.instance.now; node = a.node; state = record { rib = a.rib; rows = a.rows.items; order = a.order.items; barred = a.barred.items; counters = a.counters } })
        a.ranks.items a.greatest a.altered };
}

impl<'a> Router<'a> {
    /// The router of this number as it begins: it knows no path, all links are up, all counters are 0.
    pub fn new(alloc: Global, instance: &'a Instance, node: u32) -> Result<Router<'a>, AllocError>
        requires { node < instance.now.nodes }
        ensures { IfOk result
            (λ router. router ≡ record { net = instance.now; node = node; state = opening instance.now node }) }
    {
        let counters = Counters {
            sent: 0,
            handled: 0,
            dropped: 0,
            changed: 0,
        };
        Router::open(alloc, instance, node, counters)
    }

    /// The router of this number as it begins, but with these counters.
    pub fn with_counters(
        alloc: Global,
        instance: &'a Instance,
        node: u32,
        counters: Counters,
    ) -> Result<Router<'a>, OrMemory<OpenFault>>
        requires { node < instance.now.nodes }
        ensures ok { IfOk result
            (λ router. router ≡ record { net = instance.now; node = node; state = opening_with instance.now node counters }) }
        ensures counters { IsErrOf result (Fault OpenFault.Counters) ↔ ¬ IsCounted counters }
    {
        if !is_counted(counters) {
            return Err(OrMemory::Fault(OpenFault::Counters));
        }
        Ok(Router::open(alloc, instance, node, counters)?)
    }

    fn open(
        alloc: Global,
        instance: &'a Instance,
        node: u32,
        counters: Counters,
    ) -> Result<Router<'a>, AllocError>
        requires below { node < instance.now.nodes }
        requires counted { IsCounted counters }
        ensures { IfOk result
            (λ router. router ≡ record { net = instance.now; node = node; state = opening_with instance.now node counters }) }
    {
        let hops = instance.hops(node);
        let permitted = instance.permitted(node);
        Ok(Router {
            instance,
            node,
            rib: PathNo::EMPTY,
            rows: fresh_rows(alloc, hops)?,
            order: Vec::from_slice(alloc, permitted)?,
            ranks: vec![in alloc; 0; hops.len()]?,
            greatest: 0,
            altered: false,
            counters,
            barred: unbarred(alloc, permitted)?,
        })
    }

    /// The instance whose router it is.
    pub fn instance(&self) -> &'a Instance
        ensures { result.now ≡ self.now.net }
    {
        self.instance
    }

    /// Its number.
    #[inline(always)]
    pub fn node(&self) -> u32
        ensures value { result ≡ self.now.node }
        ensures below { self.now.node < self.now.net.nodes }
        ensures net { IsNet self.now.net }
        ensures state { IsState self.now.net self.now.node self.now.state }
    {
        self.node
    }

    /// The path that it uses.
    #[inline(always)]
    pub fn rib(&self) -> PathNo
        ensures value { result ≡ self.now.state.rib }
        ensures state { IsState self.now.net self.now.node self.now.state }
    {
        self.rib
    }

    /// What it keeps of each neighbour, in ascending order.
    pub fn rows(&self) -> &[Row]
        ensures value { result.now ≡ self.now.state.rows }
        ensures state { IsState self.now.net self.now.node self.now.state }
    {
        self.rows.as_slice()
    }

    /// What it keeps of the neighbour of a slot.
    #[inline(always)]
    pub fn row(&self, slot: usize) -> Row
        requires { slot < length self.now.state.rows }
        ensures value { result ≡ row_of self.now.state slot }
        ensures heard { IsPath self.now.net result.heard }
        ensures session { result.session ≤ self.now.state.counters.handled }
        ensures state { IsState self.now.net self.now.node self.now.state }
    {
        self.rows[slot]
    }

    /// The path last accepted from the neighbour of a slot.
    pub fn heard(&self, slot: usize) -> PathNo
        requires { slot < length self.now.state.rows }
        ensures value { result ≡ (row_of self.now.state slot).heard }
        ensures path { IsPath self.now.net result }
    {
        self.row(slot).heard
    }

    /// Whether the link to the neighbour of a slot is up.
    pub fn is_up(&self, slot: usize) -> bool
        requires { slot < length self.now.state.rows }
        ensures { result ≡ (row_of self.now.state slot).up }
    {
        self.row(slot).up
    }

    /// How often the link to the neighbour of a slot was repaired.
    pub fn session(&self, slot: usize) -> u64
        requires { slot < length self.now.state.rows }
        ensures value { result ≡ (row_of self.now.state slot).session }
        ensures most { result ≤ self.now.state.counters.handled }
    {
        self.row(slot).session
    }

    /// Its permitted paths, the best first.
    pub fn order(&self) -> &[PathNo]
        ensures value { result.now ≡ self.now.state.order }
        ensures state { IsState self.now.net self.now.node self.now.state }
    {
        self.order.as_slice()
    }

    /// Which of its permitted paths are barred, in the order in which they were given.
    pub fn barred(&self) -> &[bool]
        ensures value { result.now ≡ self.now.state.barred }
        ensures state { IsState self.now.net self.now.node self.now.state }
    {
        self.barred.as_slice()
    }

    /// Whether the path at a place, from 1, among its permitted paths as they were given is barred. Swaps
    /// change no path's place there.
    pub fn is_barred(&self, line: u32) -> bool
        requires first { 0 < line }
        requires within { line ≤ length self.now.state.barred }
        ensures { result ≡ is_barred_of self.now.state line }
    {
        self.barred[line as usize - 1]
    }

    /// The rank of each slot. Of a router with three permitted paths it is 3 where the neighbour offers the
    /// best of them, 1 where it offers the last, and 0 where it offers none: the link is down, or it told no
    /// path, or one that no permitted path goes on with. It is 0 also where it offers a barred path.
    pub fn rank_row(&self) -> &[u32]
        ensures { result.now ≡ rank_row_of self.now }
    {
        &self.ranks
    }

    /// What it counts.
    #[inline(always)]
    pub fn counters(&self) -> Counters
        ensures value { result ≡ self.now.state.counters }
        ensures state { IsState self.now.net self.now.node self.now.state }
    {
        self.counters
    }

    /// How it stands: what it counts, and the path that it uses.
    pub fn end(&self) -> RouterEnd
        ensures { result ≡ end_of self.now.state }
    {
        RouterEnd {
            counters: self.counters,
            rib: self.rib,
        }
    }

    /// The first path of its order that is not barred and that is itself followed by what a neighbour told
    /// it over a link that is up, or else the empty path; at the origin, (0).
    #[inline(always)]
    pub fn best(&self) -> PathNo
        ensures value { result ≡ best_of self.now.net self.now.node self.now.state }
        ensures path { IsPath self.now.net result }
        ensures nodes { path_of self.now.net result
            ≡ best_nodes self.now.node (heard_of self.now.net self.now.state) (order_of self.now.net self.now.node self.now.state) }
    {
        let node = self.node();
        if node == 0 {
            return PathNo::ORIGIN;
        }
        let order = self.order();
        match self.greatest_rank() {
            0 => PathNo::EMPTY,
            rank => order[order.len() - rank as usize],
        }
    }

    /// The greatest rank of a slot, and 0 where there are none.
    #[inline(always)]
    fn greatest_rank(&self) -> u32
        ensures { result ≡ fold max 0 (rank_row_of self.now) }
    {
        self.greatest
    }
}

fn fresh_rows(alloc: Global, hops: &[Hop]) -> Result<Vec<Row>, AllocError>
    ensures { IfOk result (λ rows. rows.items ≡ map fresh_row hops.now) }
{
    let fresh = Row {
        heard: PathNo::EMPTY,
        up: true,
        session: 0,
    };
    vec![in alloc; fresh; hops.len()]
}

fn unbarred(alloc: Global, paths: &[PathNo]) -> Result<Vec<bool>, AllocError>
    ensures { IfOk result (λ bars. bars.items ≡ map (λ q. false) paths.now) }
{
    vec![in alloc; false; paths.len()]
}

fn is_counted(counters: Counters) -> bool
    ensures { IsTrue result ↔ IsCounted counters }
{
    counters.sent <= MOST_COUNTED
        && counters.handled <= MOST_COUNTED
        && counters.dropped <= counters.handled
        && counters.changed <= counters.handled
}
