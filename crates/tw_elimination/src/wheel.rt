//! The dispute wheel that is told where elimination leaves a choice.

ghost use Rattle.std.specs.Prelude.{ℕ, ◌≡◌, ◌≤◌, length, map, slice_index_or, IfOk};
ghost use Rattle.std.specs.List.{All, find, prefix_len, range_with_len};
ghost use Rattle.tw_elimination.specs.Wheel.{after_pivots, from_last_choice, next_pivot as next_pivot_of, number_of as number_of_nodes, pivot_of, ring_to, wheel_in};
ghost use Rattle.tw_instance.specs.Tables.{row};
ghost use Rattle.tw_model.specs.Net.{IsPath};
ghost use Rattle.tw_policy.specs.Search.{first_of, has_choice as has_choice_in};

use std::alloc::{AllocError, Global};
use tw_event::PathNo;
use tw_instance::Instance;

/// A pivot of a dispute wheel (Griffin, Shepherd, Wilfong 2002): a router that ranks its rim path, which leads
/// on to the spoke of the next pivot, no lower than its own spoke.
#[derive(Clone, Copy, PartialEq, Eq, Debug)]
pub struct Pivot {
    /// The router.
    pub router: u32,
    /// A path of the router, with which the rim path of the pivot before ends.
    pub spoke: PathNo,
    /// The path that leads round the rim to the next pivot, and goes on with that one's spoke.
    pub rim: PathNo,
}

/// The pivots of the wheel that lists of paths lead to, in the order of the ring; none where no list has two.
pub(crate) fn wheel_of(
    alloc: Global,
    instance: &Instance,
    left: &[Vec<PathNo>],
) -> Result<Vec<Pivot>, AllocError>
    requires { (w : ℕ) → All (IsPath instance.now) (row left.now w) }
    ensures value { IfOk result (λ pivots. map pivot_of pivots.items ≡ wheel_in instance.now (row left.now)) }
    ensures paths { IfOk result (λ pivots. All (λ p. IsPath instance.now p.spoke × IsPath instance.now p.rim) pivots.items) }
{
    match first_choice(instance, left) {
        Some(router) => {
            let last = walk(instance, left, router);
            ring(alloc, instance, left, last)
        }
        None => Ok(Vec::new(alloc)),
    }
}

/// The first router with two paths left or more.
fn first_choice(instance: &Instance, left: &[Vec<PathNo>]) -> Option<u32>
    ensures { result ≡ find (has_choice_in (row left.now)) (range_with_len 0 instance.now.nodes) }
{
    (0..instance.nodes()).find(|router| has_choice(left, *router))
}

/// The router that is reached after as many pivots as there are routers.
fn walk(instance: &Instance, left: &[Vec<PathNo>], router: u32) -> u32
    requires { (w : ℕ) → All (IsPath instance.now) (row left.now w) }
    ensures { result ≡ after_pivots instance.now (row left.now) instance.now.nodes router }
{
    let mut router = router;
    for _ in 0..instance.nodes() {
        router = next_pivot(instance, left, router).router;
    }
    router
}

/// The pivots from the one behind `last` on, up to that of `last`.
fn ring(
    alloc: Global,
    instance: &Instance,
    left: &[Vec<PathNo>],
    last: u32,
) -> Result<Vec<Pivot>, AllocError>
    requires { (w : ℕ) → All (IsPath instance.now) (row left.now w) }
    ensures value { IfOk result (λ pivots. map pivot_of pivots.items ≡ ring_to instance.now (row left.now) last) }
    ensures paths { IfOk result (λ pivots. All (λ p. IsPath instance.now p.spoke × IsPath instance.now p.rim) pivots.items) }
{
    let mut pivot = next_pivot(instance, left, last);
    let mut pivots = vec![in alloc; pivot]?;
    for _ in 0..instance.nodes() {
        if pivot.router == last {
            return Ok(pivots);
        }
        pivot = next_pivot(instance, left, pivot.router);
        pivots.push(pivot)?;
    }
    Ok(pivots)
}

/// The pivot to which the best path leads that a router has left.
fn next_pivot(instance: &Instance, left: &[Vec<PathNo>], router: u32) -> Pivot
    requires { (w : ℕ) → All (IsPath instance.now) (row left.now w) }
    ensures value { pivot_of result ≡ next_pivot_of instance.now (row left.now) router }
    ensures paths { IsPath instance.now result.spoke × IsPath instance.now result.rim }
{
    let nodes = spoke_nodes(left, instance.path(best_left(left, router)));
    let next = first_node(nodes);
    Pivot {
        router: next,
        spoke: number_of(instance, nodes),
        rim: best_left(left, next),
    }
}

/// These nodes from the last router on that is reached by way of routers with a choice alone, and has one.
fn spoke_nodes<'a>(left: &[Vec<PathNo>], nodes: &'a [u32]) -> &'a [u32]
    ensures { result.now ≡ from_last_choice (row left.now) nodes.now }
{
    match nodes {
        [] => nodes,
        [_, others @ ..] => &nodes[choices(left, others)..],
    }
}

/// How many of these routers, from the first on, have a choice.
fn choices(left: &[Vec<PathNo>], routers: &[u32]) -> usize
    ensures value { result ≡ prefix_len (has_choice_in (row left.now)) routers.now }
    ensures within { result ≤ length routers.now }
{
    routers
        .iter()
        .take_while(|router| has_choice(left, **router))
        .count()
}

/// The first of these nodes, or 0.
pub(crate) fn first_node(nodes: &[u32]) -> u32
    ensures { result ≡ slice_index_or nodes.now 0 0 }
{
    match nodes {
        [] => 0,
        [first, ..] => *first,
    }
}

/// The number of the path with these nodes, or of the empty path where there is none.
pub(crate) fn number_of(instance: &Instance, nodes: &[u32]) -> PathNo
    ensures value { result ≡ number_of_nodes instance.now nodes.now }
    ensures path { IsPath instance.now result }
{
    instance.number(nodes).unwrap_or(PathNo::EMPTY)
}

/// Whether a router has two paths left or more.
fn has_choice(left: &[Vec<PathNo>], router: u32) -> bool
    ensures { result ≡ has_choice_in (row left.now) router }
{
    match left.get(router as usize) {
        Some(paths) => paths.as_slice().len() > 1,
        None => false,
    }
}

/// The best path that a router has left, or the empty path.
fn best_left(left: &[Vec<PathNo>], router: u32) -> PathNo
    ensures { result ≡ first_of (row left.now) router }
{
    match left.get(router as usize) {
        Some(paths) => paths.first().copied().unwrap_or(PathNo::EMPTY),
        None => PathNo::EMPTY,
    }
}
