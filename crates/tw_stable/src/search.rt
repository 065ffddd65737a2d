//! The search for all stable assignments within lists of paths.

ghost use Rattle.std.specs.Prelude.{ℕ, ◌≡◌, ◌<◌, ◌∷◌, [], true, None, length, OnOk};
ghost use Rattle.tw_elimination.specs.Narrowing.{AreLists, total_in};
ghost use Rattle.tw_elimination.specs.Standing.{standing_routers as standing_routers_of};
ghost use Rattle.tw_instance.specs.Tables.{items};
ghost use Rattle.tw_model.specs.Case.{Case};
ghost use Rattle.tw_stable.specs.Progress.{go_on, way_of};
ghost use Rattle.tw_stable.specs.Splitting.{Split, met_at, met_within};

use crate::lists::{first_choice, first_paths, have_all, with_only};
use crate::progress::SplitProgress;
use std::alloc::{AllocError, Global};
use tw_elimination::eliminate_within;
use tw_event::PathNo;
use tw_instance::Case;
use tw_router::Router;

/// What a search has found, and how many splits it may still make.
#[derive(Drop)]
pub(crate) struct Progress {
    /// The assignments found: each has a path for each router.
    pub(crate) found: Vec<Vec<PathNo>>,
    pub(crate) splits: u64,
    /// Whether the splits have sufficed so far.
    pub(crate) is_whole: bool,
}

/// Finds the stable assignments within these lists, the first router's first, in the order of its ranks. Where the
/// splits do not suffice, it stops at the first that is one too many.
///
/// The calls are nested as deep as routers are split, which is less than there are routers.
pub(crate) fn search_within<P: SplitProgress>(
    alloc: Global,
    case: &Case,
    routers: &mut [Router<'_>],
    lists: Vec<Vec<PathNo>>,
    progress: &mut Progress,
    told: &P,
) -> Result<(), AllocError>
    requires routers { routers.old ≡ standing_routers_of case.now }
    requires lists { AreLists case.now (items lists.items) }
    ensures met { (n : ℕ) → total_in case.now (items lists.items) < n
        → OnOk result (way_of progress.new ≡ go_on (way_of progress.old) (met_within case.now n (items lists.items))) }
    ensures same { routers.new ≡ routers.old }
{
    if !progress.is_whole {
        return Ok(());
    }
    let halt = eliminate_within(alloc, case, routers, lists)?;
    let Some(node) = first_choice(&halt) else {
        return settle(alloc, &halt, progress);
    };
    take_split(progress);
    told.has_split(progress.splits, progress.found.as_slice().len());
    for path in &halt[node] {
        let part = with_only(alloc, &halt, node, *path)?;
        search_within(alloc, case, routers, part, progress, told)?;
    }
    Ok(())
}

/// Takes a split, or tells that there are not enough.
fn take_split(progress: &mut Progress)
    ensures { way_of progress.new ≡ go_on (way_of progress.old) (Split ∷ []) }
{
    if progress.is_whole {
        if progress.splits == 0 {
            progress.is_whole = false;
        } else {
            progress.splits -= 1;
        }
    }
}

/// Lists the assignment that lists without a choice leave, where each router has a path.
fn settle(alloc: Global, lists: &[Vec<PathNo>], progress: &mut Progress) -> Result<(), AllocError>
    requires { progress.old.is_whole ≡ true }
    ensures { (case : Case) → length lists.now ≡ case.net.nodes
        → OnOk result (way_of progress.new ≡ go_on (way_of progress.old) (met_at (λ _. []) case (items lists.now) None)) }
{
    if have_all(lists) {
        progress.found.push(first_paths(alloc, lists)?)?;
    }
    Ok(())
}
