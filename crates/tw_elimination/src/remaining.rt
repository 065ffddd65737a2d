//! One round of elimination at one router.

ghost use Rattle.std.specs.Prelude.{ℕ, ◌≡◌, ◌+◌, [], ◌∷◌, length, IfOk};
ghost use Rattle.std.specs.List.{All};
ghost use Rattle.tw_elimination.specs.Marks.{picked};
ghost use Rattle.tw_instance.specs.Tables.{row};
ghost use Rattle.tw_model.specs.Net.{IsPath, origin_path};
ghost use Rattle.tw_model.specs.State.{State};
ghost use Rattle.tw_policy.specs.Left.{round_left};

use crate::marks::mark_all;
use std::alloc::{AllocError, Global};
use tw_event::PathNo;
use tw_instance::Instance;
use tw_router::Router;

/// The paths that a router has left after one round, where all routers have these now. A router's paths
/// are in the order of its ranks, and the empty path is the last.
pub(crate) fn remaining_at(
    alloc: Global,
    instance: &Instance,
    router: &Router<'_>,
    left: &[Vec<PathNo>],
) -> Result<Vec<PathNo>, AllocError>
    requires own { instance.now ≡ router.now.net }
    requires long { length left.now ≡ instance.now.nodes }
    requires paths { (w : ℕ) → All (IsPath router.now.net) (row left.now w) }
    ensures value { IfOk result (λ next. (states : ℕ → State) → states router.now.node ≡ router.now.state
        → next.items ≡ round_left router.now.net states (row left.now) router.now.node) }
{
    if router.node() == 0 {
        return only_origin(alloc);
    }
    let mut given = vec![in alloc; false; router.order().len() + 1]?;
    let reach = mark_all(instance, router, left, &mut given);
    pick(alloc, router.order(), &given, reach)
}

/// The one path of the origin.
pub(crate) fn only_origin(alloc: Global) -> Result<Vec<PathNo>, AllocError>
    ensures { IfOk result (λ paths. paths.items ≡ origin_path ∷ []) }
{
    Ok(vec![in alloc; PathNo::ORIGIN]?)
}

/// Of the first paths of an order, as many as `reach` says, those that are marked; and the empty path
/// where the order has fewer.
fn pick(
    alloc: Global,
    order: &[PathNo],
    given: &[bool],
    reach: usize,
) -> Result<Vec<PathNo>, AllocError>
    requires { length given.now ≡ length order.now + 1 }
    ensures { IfOk result (λ left. left.items ≡ picked order.now given.now reach) }
{
    let mut left = Vec::new(alloc);
    for (place, path) in order.iter().enumerate() {
        if place < reach && given[place] {
            left.push(*path)?;
        }
    }
    if order.len() < reach {
        left.push(PathNo::EMPTY)?;
    }
    Ok(left)
}
