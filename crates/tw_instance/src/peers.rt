//! The neighbours of each router, and the slot of a neighbour.

ghost use Rattle.std.specs.Prelude.{◌≡◌, ◌+◌, ◌++◌, ◌<◌, ◌≤◌, ℕ, List, [], length, map, slice_index_or, IfOk, IfSome, IsTrue, OnOk, SomeIff};
ghost use Rattle.std.specs.List.{All};
ghost use Rattle.tw_model.specs.declared.limits.TheConstants.{MOST_LINKS, MOST_ROUTERS};
ghost use Rattle.tw_model.specs.Net.{Net};
ghost use Rattle.tw_model.specs.Rules.{IsNet};
ghost use Rattle.tw_model.specs.State.{has_peer, slot as slot_of};
ghost use Rattle.tw_instance.specs.Guesses.{AreGuesses};
ghost use Rattle.tw_instance.specs.Hops.{peers_of};
ghost use Rattle.tw_instance.specs.Orders.{StandAsIn, StandsAt};
ghost use Rattle.tw_instance.specs.Sparse.{AreRowsOf, IsRowWithin, cut};

use crate::instance::Instance;
use std::alloc::{AllocError, Global};
use std::simd::prelude::*;
use tw_lanes::first_equal;
use tw_model::Hop;
use tw_model::limits::MOST_LINKS;

/// How many guesses are kept of each router: one for each neighbour that it may have, so that neighbours
/// with consecutive numbers all have their own.
const GUESSES: usize = 64;

/// Of so many neighbours of a router at most, others have the remainders too, where it keeps guesses: finding these
/// few by counting costs less than counting for all.
const MOST_ASIDE: usize = 8;

/// What stands behind the last neighbour in an order. No router has this number.
const NOBODY: u16 = u16::MAX;

/// A neighbour of a router and its slot, side by side, so that most look-ups read one place of memory.
#[derive(Clone, Copy, Drop, Debug)]
struct Guess {
    peer: u16,
    slot: u16,
}

/// The neighbours of each router in ascending order, in compressed sparse rows, with the slots of most of
/// them by the remainders of their numbers. The slots of the others are found by counting.
#[derive(Drop, Debug)]
pub struct Peers {
    /// Where the row of each router begins, and behind these where the last one ends.
    starts: Vec<u32>,
    /// The neighbours, row by row.
    neighbours: Vec<u32>,
    /// Of each router, by the remainder of a neighbour's number, the neighbour that is looked for first.
    guesses: Vec<[Guess; GUESSES]>,
    /// Whether most routers are crowded: then no guess is looked at, which would drive others out of the nearer caches in
    /// vain.
    is_crowded: bool,
    /// Of each router its neighbours in ascending order, and nobody behind them.
    orders: Vec<[u16; MOST_LINKS]>,
    ghost cuts: { (r : ℕ) → r + 1 < length starts.items → IsRowWithin starts.items r (length neighbours.items) },
    ghost guessed: { length starts.items ≡ length guesses.items + 1 },
}

impl Peers {
    ghost use Rattle.tw_instance.specs.Peers.{HasPeers};

    /// The neighbours of an instance's routers.
    pub fn new(alloc: Global, instance: &Instance) -> Result<Peers, AllocError>
        ensures { IfOk result (HasPeers instance.now) }
    {
        let (starts, neighbours) = rows_of(alloc, instance)?;
        let guesses = guesses_of(alloc, instance)?;
        let orders = orders_of(alloc, instance)?;
        Ok(Peers {
            starts,
            neighbours,
            guesses,
            is_crowded: are_most_crowded(instance),
            orders,
        })
    }

    /// The slot of a neighbour. `None` where the two are no neighbours.
    #[inline(always)]
    pub fn slot(&self, node: u32, peer: u32) -> Option<usize>
        ensures { (net : Net) → HasPeers net self.now → SomeIff result (IsTrue (has_peer net node peer)) (slot_of net node peer) }
    {
        let index = node as usize;
        if index + 1 >= self.starts.len() {
            return None;
        }
        if self.is_crowded {
            return self.slot_aside(index, peer);
        }
        let guess = self.guesses[index][peer as usize % GUESSES];
        if u32::from(guess.peer) == peer {
            return Some(usize::from(guess.slot));
        }
        self.slot_aside(index, peer)
    }

    // Not inlined, since its vectors would take registers on the way of the neighbours that the guess is for.
    /// The slot of a neighbour that the guess is not for.
    #[inline(never)]
    fn slot_aside(&self, index: usize, peer: u32) -> Option<usize>
        requires { index + 1 < length self.now.starts.items }
        ensures { (net : Net) → HasPeers net self.now → SomeIff result (IsTrue (has_peer net index peer)) (slot_of net index peer) }
    {
        if let Some(slot) = self.slot_by_order(index, peer) {
            return Some(slot);
        }
        first_equal(self.row(index), peer)
    }

    /// The slot of a neighbour by counting those below it.
    #[inline(always)]
    fn slot_by_order(&self, index: usize, peer: u32) -> Option<usize>
        ensures { (net : Net) → HasPeers net self.now → IfSome result (StandsAt (peers_of net index) peer) }
    {
        slot_in(self.orders.get(index)?, peer)
    }

    /// The neighbours of a router.
    #[inline(always)]
    fn row(&self, index: usize) -> &[u32]
        requires { index + 1 < length self.now.starts.items }
        ensures { result.now ≡ cut self.now.starts.items index self.now.neighbours.items }
    {
        let (start, end) = (self.starts[index], self.starts[index + 1]);
        &self.neighbours[start as usize..end as usize]
    }
}

/// The place of a number in an order, if it stands there: as many are below it.
#[inline(always)]
fn slot_in(order: &[u16; MOST_LINKS], peer: u32) -> Option<usize>
    ensures { (row : List ℕ) → StandAsIn row order.now → IfSome result (StandsAt row peer) }
{
    let peer = u16::try_from(peer).ok()?;
    let place = count_below(order, peer);
    let found = *order.get(place)?;
    if found == NOBODY || found != peer {
        return None;
    }
    Some(place)
}

/// How many numbers of an order are below a limit.
#[inline(always)]
fn count_below(order: &[u16; MOST_LINKS], limit: u16) -> usize {
    let below = u16x64::from_array(*order).simd_lt(u16x64::splat(limit));
    usize::from(
        below
            .select(u16x64::splat(1), u16x64::splat(0))
            .reduce_sum(),
    )
}

/// Where the row of each router begins, and the neighbours, row by row.
fn rows_of(alloc: Global, instance: &Instance) -> Result<(Vec<u32>, Vec<u32>), AllocError>
    ensures rows { IfOk result (λ rows. AreRowsOf (peers_of instance.now) instance.now.nodes rows.0.items rows.1.items) }
    ensures net { IsNet instance.now }
{
    let mut starts = Vec::with_capacity(alloc, instance.nodes() as usize + 1)?;
    let mut neighbours = Vec::new(alloc);
    starts.push(0)?;
    for node in 0..instance.nodes() {
        push_peers(&mut neighbours, instance.hops(node))?;
        starts.push(neighbours.len() as u32)?;
    }
    Ok((starts, neighbours))
}

/// Puts the neighbours of a router behind others.
fn push_peers(neighbours: &mut Vec<u32>, hops: &[Hop]) -> Result<(), AllocError>
    ensures { OnOk result (neighbours.new.items ≡ neighbours.old.items ++ map (λ h. h.peer) hops.now) }
{
    for hop in hops {
        neighbours.push(hop.peer)?;
    }
    Ok(())
}

/// The guesses of each router.
fn guesses_of(alloc: Global, instance: &Instance) -> Result<Vec<[Guess; GUESSES]>, AllocError>
    ensures long { IfOk result (λ guesses. length guesses.items ≡ instance.now.nodes) }
    ensures right { IfOk result (λ guesses. (v : ℕ) → v < instance.now.nodes
        → AreGuesses (peers_of instance.now v) (slice_index_or guesses.items v [])) }
{
    let mut guesses = Vec::with_capacity(alloc, instance.nodes() as usize)?;
    for node in 0..instance.nodes() {
        guesses.push(guesses_at(instance.hops(node)))?;
    }
    Ok(guesses)
}

/// The guesses of a router with these links: none where it is crowded, so that it is soon known that none serves.
fn guesses_at(hops: &[Hop]) -> [Guess; GUESSES]
    requires few { length hops.now ≤ MOST_LINKS }
    requires low { All (λ h. h.peer < MOST_ROUTERS) hops.now }
    ensures { AreGuesses (map (λ h. h.peer) hops.now) result }
{
    if is_crowded(hops) {
        return no_guesses();
    }
    slots_by_remainder(hops)
}

/// By the remainder of a neighbour's number the neighbour and its slot, of several the last.
fn slots_by_remainder(hops: &[Hop]) -> [Guess; GUESSES]
    requires few { length hops.now ≤ MOST_LINKS }
    requires low { All (λ h. h.peer < MOST_ROUTERS) hops.now }
    ensures { AreGuesses (map (λ h. h.peer) hops.now) result }
{
    let mut guesses = no_guesses();
    for (slot, hop) in hops.iter().enumerate() {
        guesses[hop.peer as usize % GUESSES] = Guess {
            peer: hop.peer as u16,
            slot: slot as u16,
        };
    }
    guesses
}

/// Guesses that are taken for no neighbour: at each place stands a number with another remainder.
fn no_guesses() -> [Guess; GUESSES]
    ensures { (row : List ℕ) → AreGuesses row result }
{
    let mut guesses = [Guess { peer: 0, slot: 0 }; GUESSES];
    guesses[0] = Guess { peer: 1, slot: 0 };
    guesses
}

/// The neighbours of each router in ascending order.
fn orders_of(alloc: Global, instance: &Instance) -> Result<Vec<[u16; MOST_LINKS]>, AllocError>
    ensures long { IfOk result (λ orders. length orders.items ≡ instance.now.nodes) }
    ensures right { IfOk result (λ orders. (v : ℕ) → v < instance.now.nodes
        → StandAsIn (peers_of instance.now v) (slice_index_or orders.items v [])) }
{
    let mut orders = Vec::with_capacity(alloc, instance.nodes() as usize)?;
    for node in 0..instance.nodes() {
        orders.push(order_of(instance.hops(node)))?;
    }
    Ok(orders)
}

/// The neighbours of a router in ascending order, as its links are.
fn order_of(hops: &[Hop]) -> [u16; MOST_LINKS]
    requires few { length hops.now ≤ MOST_LINKS }
    requires low { All (λ h. h.peer < MOST_ROUTERS) hops.now }
    ensures { StandAsIn (map (λ h. h.peer) hops.now) result }
{
    let mut order = [NOBODY; MOST_LINKS];
    for (slot, hop) in hops.iter().enumerate() {
        order[slot] = hop.peer as u16;
    }
    order
}

/// Whether most routers of an instance are crowded.
fn are_most_crowded(instance: &Instance) -> bool {
    let nodes = instance.nodes();
    let crowded = (0..nodes)
        .filter(|node| is_crowded(instance.hops(*node)))
        .count();
    crowded > nodes as usize / 2
}

/// Whether many neighbours have the remainder of another.
fn is_crowded(hops: &[Hop]) -> bool {
    let mut met = 0_u64;
    for hop in hops {
        met |= 1 << (hop.peer % GUESSES as u32);
    }
    met.count_ones() as usize + MOST_ASIDE < hops.len()
}
