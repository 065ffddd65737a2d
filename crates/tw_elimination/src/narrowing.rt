//! Elimination within lists that are given.

ghost use Rattle.std.specs.Prelude.{◌≡◌, length, IfOk};
ghost use Rattle.std.specs.List.{filter};
ghost use Rattle.tw_elimination.specs.Narrowing.{AreLists, halt_within, one_round as one_round_of};
ghost use Rattle.tw_elimination.specs.Standing.{standing_routers as standing_routers_of};
ghost use Rattle.tw_instance.specs.Tables.{items};
ghost use Rattle.tw_model.specs.Case.{IsCase};
ghost use Rattle.tw_policy.specs.Search.{is_one_of};

use crate::elimination::has_fewer;
use crate::remaining::remaining_at;
use std::alloc::{AllocError, Global};
use tw_event::PathNo;
use tw_instance::Case;
use tw_router::Router;

/// Eliminates within lists that are given, one of each router: round by round a router keeps those paths of its
/// list that may be its best one where every neighbour uses one of its own list, until a round takes none.
///
/// The routers are those of `standing_routers`. A router may be left with no path at all: then no assignment
/// within the lists is stable.
pub fn eliminate_within(
    alloc: Global,
    case: &Case,
    routers: &mut [Router<'_>],
    lists: Vec<Vec<PathNo>>,
) -> Result<Vec<Vec<PathNo>>, AllocError>
    requires routers { routers.old ≡ standing_routers_of case.now }
    requires lists { AreLists case.now (items lists.items) }
    ensures value { IfOk result (λ kept. items kept.items ≡ halt_within case.now (items lists.items)) }
    ensures lists { IfOk result (λ kept. AreLists case.now (items kept.items)) }
    ensures case { IsCase case.now }
    ensures same { routers.new ≡ routers.old }
{
    let mut left = lists;
    let mut next = one_round(alloc, case, routers, &left)?;
    while has_fewer(&next, &left) {
        left = next;
        next = one_round(alloc, case, routers, &left)?;
    }
    Ok(left)
}

/// What all routers keep of these lists in one round.
fn one_round(
    alloc: Global,
    case: &Case,
    routers: &[Router<'_>],
    lists: &[Vec<PathNo>],
) -> Result<Vec<Vec<PathNo>>, AllocError>
    requires routers { routers.now ≡ standing_routers_of case.now }
    requires lists { AreLists case.now (items lists.now) }
    ensures value { IfOk result (λ next. items next.items ≡ one_round_of case.now (items lists.now)) }
    ensures case { IsCase case.now }
{
    let instance = case.instance();
    let mut next = Vec::new(alloc);
    for node in 0..routers.len() {
        let remaining = remaining_at(alloc, instance, &routers[node], lists)?;
        next.push(those_among(alloc, &lists[node], &remaining)?)?;
    }
    Ok(next)
}

/// Those of some paths that stand among others, in their order.
fn those_among(
    alloc: Global,
    paths: &[PathNo],
    others: &[PathNo],
) -> Result<Vec<PathNo>, AllocError>
    ensures { IfOk result (λ kept. kept.items ≡ filter (is_one_of others.now) paths.now) }
{
    let mut kept = Vec::new(alloc);
    for path in paths {
        if is_among(others, *path) {
            kept.push(*path)?;
        }
    }
    Ok(kept)
}

/// Whether a path stands among these.
fn is_among(paths: &[PathNo], path: PathNo) -> bool
    ensures { result ≡ is_one_of paths.now path }
{
    paths.iter().any(|other| path.0 == other.0)
}
