//! Whether all paths of an instance stand in one list.

ghost use Rattle.std.specs.Prelude.{ℕ, ◌≡◌, ◌+◌, ◌<◌, ◌≤◌, true, length, slice_index_or, None, IfOk, IfSome, OnOk};
ghost use Rattle.std.specs.List.{All, range_with_len};
ghost use Rattle.tw_elimination.specs.Placing.{GoesOnNext, IsNextToPlace, PlacesNothing, are_placed, count_of as count_of_router, counts_after, has_one_list as has_one_list_of, has_router, is_placed as is_placed_in, may_follow as may_follow_in};
ghost use Rattle.tw_model.specs.Net.{IsPath, hops_of};
ghost use Rattle.tw_model.specs.Rules.{IsNet};
ghost use Rattle.tw_model.specs.declared.limits.TheConstants.{MOST_LINKS, MOST_PATHS};

use crate::wheel::{first_node, number_of};
use std::alloc::{AllocError, Global};
use tw_event::PathNo;
use tw_instance::Instance;

/// Whether all paths of an instance stand in one list, by the ranks as they were given: each after the better
/// ones of its router and after the path that it goes on with. That is so exactly where there is no dispute
/// wheel (Griffin, Shepherd, Wilfong 2002), and then the instance is robust.
pub fn has_one_list(alloc: Global, instance: &Instance) -> Result<bool, AllocError>
    ensures { IfOk result (λ found. found ≡ has_one_list_of instance.now) }
{
    let mut placed = first_counts(alloc, instance)?;
    let mut work = all_routers(alloc, instance)?;
    while let Some(router) = work.pop() {
        if let Some(path) = next_path(instance, &placed, router) {
            placed[router as usize] += 1;
            work.push(router)?;
            push_waiting(instance, &placed, router, path, &mut work)?;
        }
    }
    Ok(are_all_placed(instance, &placed))
}

/// Of each router that it has put no path into the list.
fn first_counts(alloc: Global, instance: &Instance) -> Result<Vec<usize>, AllocError>
    ensures { IfOk result (λ placed. placed.items ≡ counts_after instance.now 0) }
{
    let mut placed = Vec::new(alloc);
    for _ in 0..instance.nodes() {
        placed.push(0)?;
    }
    Ok(placed)
}

/// Every router.
fn all_routers(alloc: Global, instance: &Instance) -> Result<Vec<u32>, AllocError>
    ensures items { IfOk result (λ routers. routers.items ≡ range_with_len 0 instance.now.nodes) }
    ensures net { IsNet instance.now }
{
    let mut routers = Vec::new(alloc);
    for router in 0..instance.nodes() {
        routers.push(router)?;
    }
    Ok(routers)
}

/// The next path of a router, where the path that it goes on with stands in the list.
fn next_path(instance: &Instance, placed: &[usize], router: u32) -> Option<PathNo>
    ensures some { IfSome result (IsNextToPlace instance.now placed.now router) }
    ensures few { IfSome result (λ q. count_of_router instance.now placed.now router < MOST_PATHS) }
    ensures path { IfSome result (IsPath instance.now) }
    ensures none { result ≡ None → PlacesNothing instance.now placed.now router }
{
    let path = *instance.permitted(router).get(count_of(placed, router))?;
    if may_follow(instance, placed, path) {
        Some(path)
    } else {
        None
    }
}

/// Puts those neighbours of a router behind others whose next path goes on with this one.
fn push_waiting(
    instance: &Instance,
    placed: &[usize],
    router: u32,
    path: PathNo,
    work: &mut Vec<u32>,
) -> Result<(), AllocError>
    requires { IsPath instance.now path }
    ensures kept { OnOk result ((v : ℕ) → has_router work.old.items v ≡ true → has_router work.new.items v ≡ true) }
    ensures waiting { OnOk result (All (λ h. GoesOnNext instance.now placed.now path h.peer → has_router work.new.items h.peer ≡ true) (hops_of instance.now router)) }
    ensures few { OnOk result (length work.new.items ≤ length work.old.items + MOST_LINKS) }
    ensures homes { OnOk result (All (λ v. v < instance.now.nodes) work.old.items → All (λ v. v < instance.now.nodes) work.new.items) }
{
    for hop in instance.hops(router) {
        if goes_on_next(instance, placed, path, hop.peer) {
            work.push(hop.peer)?;
        }
    }
    Ok(())
}

/// Whether the next path of a router goes on with this one.
fn goes_on_next(instance: &Instance, placed: &[usize], path: PathNo, router: u32) -> bool
    requires { IsPath instance.now path }
    ensures { GoesOnNext instance.now placed.now path router → result ≡ true }
{
    match instance.extended_place(router, path) {
        Some(place) => place == count_of(placed, router),
        None => false,
    }
}

/// Whether the path that this one goes on with stands in the list, where that is a path of the net.
fn may_follow(instance: &Instance, placed: &[usize], path: PathNo) -> bool
    requires { IsPath instance.now path }
    ensures { result ≡ may_follow_in instance.now placed.now path }
{
    match instance.path(path) {
        [] => is_placed(instance, placed, number_of(instance, &[])),
        [_, rest @ ..] => is_placed(instance, placed, number_of(instance, rest)),
    }
}

/// Whether a path stands in the list, or is the empty one.
fn is_placed(instance: &Instance, placed: &[usize], path: PathNo) -> bool
    requires { IsPath instance.now path }
    ensures { result ≡ is_placed_in instance.now placed.now path }
{
    if path.0 == 0 {
        return true;
    }
    let router = first_node(instance.path(path));
    instance.place(path) < count_of(placed, router)
}

/// How many paths a router has put into the list.
fn count_of(placed: &[usize], router: u32) -> usize
    ensures { result ≡ slice_index_or placed.now router 0 }
{
    match placed.get(router as usize) {
        Some(count) => *count,
        None => 0,
    }
}

/// Whether each router has put all of its paths into the list.
fn are_all_placed(instance: &Instance, placed: &[usize]) -> bool
    ensures { result ≡ are_placed instance.now placed.now }
{
    (0..instance.nodes()).all(|router| count_of(placed, router) == instance.permitted(router).len())
}
