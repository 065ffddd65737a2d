//! Which process of a share goes on next (own). Nothing here changes what is computed, only how soon.

use std::alloc::{AllocError, Global};

/// A process of a share, by its place there, and the time of its first event, in ticks: `u64::MAX` where it has none.
#[derive(Clone, Copy)]
struct Next {
    time: u64,
    place: usize,
}

/// The processes of a share by the times of their first events, as the leaves of a tree in which each other node is the
/// earlier one of its two children.
///
/// Node 1 is the root, and node n has the children 2n and 2n + 1. The leaves are the second half. Node 0 has no meaning.
#[derive(Drop)]
pub(crate) struct Schedule {
    nodes: Vec<Next>,
}

impl Schedule {
    /// So many processes with no event.
    pub(crate) fn new(alloc: Global, count: usize) -> Result<Schedule, AllocError> {
        let none = Next {
            time: u64::MAX,
            place: 0,
        };
        let mut nodes = Vec::new(alloc);
        nodes.resize(count.saturating_mul(2), none)?;
        Ok(Schedule { nodes })
    }

    /// The place of the process whose first event is the earliest, where that is before the limit.
    pub(crate) fn first_before(&self, limit: u64) -> Option<usize> {
        let first = self.nodes.get(1)?;
        if first.time >= limit {
            return None;
        }
        Some(first.place)
    }

    /// The first event of the process at this place has this time.
    pub(crate) fn set(&mut self, place: usize, time: u64) {
        let leaf = (self.nodes.len() / 2).saturating_add(place);
        put(&mut self.nodes, leaf, Next { time, place });
    }
}

/// Puts one at a leaf, and the earlier ones above it, as far up as that changes them.
fn put(nodes: &mut [Next], leaf: usize, next: Next) {
    let mut node = leaf;
    let mut first = next;
    for _ in 0..usize::BITS {
        if node == 0 || node >= nodes.len() {
            return;
        }
        let old = nodes[node];
        if old.time == first.time && old.place == first.place {
            return;
        }
        nodes[node] = first;
        let Some(sibling) = nodes.get(node ^ 1) else {
            return;
        };
        if sibling.time < first.time {
            first = *sibling;
        }
        node /= 2;
    }
}
