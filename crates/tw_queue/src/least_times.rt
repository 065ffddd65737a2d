//! The least time of each router, and the least of all.

ghost use Rattle.std.specs.Prelude.{ℕ, ◌≡◌, ◌<◌, ◌*◌, ◌+◌, ◌/◌, ◌%◌, IfNone, IfOk, IfSome, [], drop, length, min, replicate, slice_index_or, slice_set};
ghost use Rattle.std.specs.Int.{IsPowerOfTwo};
ghost use Rattle.tw_queue.specs.Least.{AreLesser, AreLesserBut, IsFirstLeast, IsFirstOfLevel};
ghost use Rattle.tw_ordered.specs.Times.{never};

use std::alloc::{AllocError, Global};
use std::marker::Model;

/// A row of times, in ticks, as the leaves of a tree in which each other node has the lesser time of its two children.
///
/// Node 1 is the root, and node n has the children 2n and 2n + 1. The leaves begin at the node `leaves`, a power of two;
/// those past the row have the time `u64::MAX`. Node 0 has no meaning.
#[derive(Drop)]
pub(crate) struct LeastTimes {
    count: usize,
    leaves: usize,
    nodes: Vec<u64>,
}

impl Model for LeastTimes {
    ghost use Rattle.std.specs.Prelude.{List, ℕ};
    ghost use Rattle.tw_queue.specs.Least.{IsTree, row_of};

    ghost Value = { List ℕ };

    ghost view = { row_of };

    ghost invariant = { IsTree };
}

impl LeastTimes {
    /// So many times of `u64::MAX` ticks.
    pub(crate) fn new(alloc: Global, count: usize) -> Result<LeastTimes, AllocError>
        ensures { IfOk result (λ row. row ≡ replicate count never) }
    {
        let leaves = count.checked_next_power_of_two().ok_or(AllocError)?;
        let all = leaves.checked_mul(2).ok_or(AllocError)?;
        let nodes = vec![in alloc; u64::MAX; all]?;
        Ok(LeastTimes {
            count,
            leaves,
            nodes,
        })
    }

    /// Puts a time at a place.
    pub(crate) fn set(&mut self, place: usize, time: u64)
        requires { place < length self.old }
        ensures { self.new ≡ slice_set self.old place time }
    {
        let leaf = self.leaves + place;
        self.nodes[leaf] = time;
        mend_above(&mut self.nodes, leaf);
    }

    /// The first place of the least time, and `None` for an empty row.
    pub(crate) fn first_least(&self) -> Option<usize>
        ensures some { IfSome result (λ place. IsFirstLeast self.now place) }
        ensures none { IfNone result (self.now ≡ []) }
    {
        if self.count == 0 {
            return None;
        }
        Some(first_leaf(&self.nodes, self.leaves) - self.leaves)
    }
}

// Gives the nodes above a leaf the lesser times of their children, as far up as that changes them.
fn mend_above(nodes: &mut [u64], leaf: usize)
    requires within { leaf < length nodes.old }
    requires even { length nodes.old % 2 ≡ 0 }
    requires lesser { AreLesserBut (leaf / 2) nodes.old }
    ensures lesser { AreLesser nodes.new }
    ensures len { length nodes.new ≡ length nodes.old }
    ensures leaves { (n : ℕ) → leaf / 2 < n → drop n nodes.new ≡ drop n nodes.old }
{
    let mut node = leaf / 2;
    while node > 0 {
        let least = nodes[2 * node].min(nodes[2 * node + 1]);
        if nodes[node] == least {
            return;
        }
        nodes[node] = least;
        node /= 2;
    }
}

// The first leaf that has the least time of all: from the root on, the first child that has the lesser time.
fn first_leaf(nodes: &[u64], leaves: usize) -> usize
    requires power { IsPowerOfTwo leaves }
    requires len { length nodes.now ≡ 2 * leaves }
    requires lesser { AreLesser nodes.now }
    ensures { IsFirstOfLevel nodes.now leaves result }
{
    let mut level = 1;
    let mut node = 1;
    while level < leaves {
        level *= 2;
        node = first_child(nodes, node);
    }
    node
}

// The first of a node's two children that has the lesser time.
fn first_child(nodes: &[u64], node: usize) -> usize
    requires { 2 * node + 1 < length nodes.now }
    ensures parent { result / 2 ≡ node }
    ensures lesser { slice_index_or nodes.now result 0 ≡ min (slice_index_or nodes.now (2 * node) 0) (slice_index_or nodes.now (2 * node + 1) 0) }
    ensures first { result ≡ 2 * node + 1 → slice_index_or nodes.now result 0 < slice_index_or nodes.now (2 * node) 0 }
{
    let left = 2 * node;
    if nodes[left] <= nodes[left + 1] {
        left
    } else {
        left + 1
    }
}
