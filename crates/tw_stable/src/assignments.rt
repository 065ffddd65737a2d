//! The stable assignments of a case.

ghost use Rattle.std.specs.Prelude.{ℕ, ◌≡◌, ◌<◌, length, true, IfOk};
ghost use Rattle.std.specs.List.{All};
ghost use Rattle.tw_event.specs.declared.event.PathNo.{PathNo as PathNumber};
ghost use Rattle.tw_instance.specs.Tables.{items, row};
ghost use Rattle.tw_model.specs.Net.{IsPath};
ghost use Rattle.tw_policy.specs.Search.{Differ};
ghost use Rattle.tw_policy.specs.Stable.{IsStableAssignment};
ghost use Rattle.tw_policy.specs.Standing.{standing};
ghost use Rattle.tw_stable.specs.Splitting.{are_enough, found_by, rib_at};

use crate::lists::lists_left;
use crate::progress::SplitProgress;
use crate::search::{Progress, search_within};
use std::alloc::{AllocError, Global};
use tw_elimination::{eliminate, standing_routers};
use tw_event::PathNo;
use tw_instance::Case;

/// Stable assignments of a case: each router has the best path that its neighbours' paths allow (Griffin,
/// Shepherd, Wilfong 2002).
#[derive(Drop)]
pub struct StableAssignments {
    /// Each has a path for each router, in ascending order of the routers.
    pub ribs: Vec<Vec<PathNo>>,
    /// Whether the case has no other ones.
    pub are_all: bool,
}

/// Lists the stable assignments of a case, each once, by how its routers stand once the script is over.
///
/// Elimination leaves to each router the paths that it may use. Where a router still has a choice, each of its
/// paths is tried alone: that is a split, of which at most so many are made, and elimination goes on within what
/// is left. Where the splits do not suffice, the assignments found so far are listed. What a search takes may
/// grow exponentially in the number of routers. It fails for want of memory alone.
///
/// Each split is told as it is made.
pub fn stable_assignments<P: SplitProgress>(
    alloc: Global,
    case: &Case,
    splits: u64,
    told: &P,
) -> Result<StableAssignments, AllocError>
    ensures stable { IfOk result (λ s. All (λ ribs. IsStableAssignment case.now.net (standing case.now) (rib_at ribs)) (items s.ribs.items)) }
    ensures once { IfOk result (λ s. (j k : ℕ) → j < k → k < length s.ribs.items → Differ case.now.net.nodes (rib_at (row s.ribs.items j)) (rib_at (row s.ribs.items k))) }
    ensures all { IfOk result (λ s. s.are_all ≡ true → (ribs : ℕ → PathNumber) → IsStableAssignment case.now.net (standing case.now) ribs
        → (k : ℕ) × (k < length s.ribs.items) × ((v : ℕ) → v < case.now.net.nodes → rib_at (row s.ribs.items k) v ≡ ribs v)) }
    ensures found { IfOk result (λ s. items s.ribs.items ≡ found_by splits case.now) }
    ensures are_all { IfOk result (λ s. s.are_all ≡ are_enough splits case.now) }
    ensures paths { IfOk result (λ s. All (All (IsPath case.now.net)) (items s.ribs.items)) }
    ensures long { IfOk result (λ s. All (λ ribs. length ribs ≡ case.now.net.nodes) (items s.ribs.items)) }
{
    let elimination = eliminate(alloc, case)?;
    let lists = lists_left(alloc, &elimination)?;
    let mut routers = standing_routers(alloc, case)?;
    let found = Vec::new(alloc);
    let mut progress = Progress {
        found,
        splits,
        is_whole: true,
    };
    search_within(alloc, case, &mut routers, lists, &mut progress, told)?;
    Ok(StableAssignments {
        ribs: progress.found,
        are_all: progress.is_whole,
    })
}
