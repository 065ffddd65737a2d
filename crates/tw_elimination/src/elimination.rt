//! Elimination, round by round, until it comes to a halt.

ghost use Rattle.std.specs.Prelude.{ℕ, suc, ◌≡◌, ◌==◌, ◌+◌, ◌<◌, ◌≤◌, true, false, [], length, map, slice_index_or, IfOk};
ghost use Rattle.std.specs.List.{All, list_all};
ghost use Rattle.tw_elimination.specs.Bound.{is_solved, rests_before};
ghost use Rattle.tw_elimination.specs.Rounds.{AreLeft, AreSettled, left_in, rounds_of};
ghost use Rattle.tw_elimination.specs.Wheel.{AreWheel, pivot_of, wheel_of};
ghost use Rattle.tw_elimination.specs.Standing.{standing_routers as standing_routers_of};
ghost use Rattle.tw_instance.specs.Tables.{items, row};
ghost use Rattle.tw_model.specs.Case.{IsCase};
ghost use Rattle.tw_model.specs.Net.{IsPath, hops_of};
ghost use Rattle.tw_model.specs.State.{State, has_peer};
ghost use Rattle.tw_model.specs.declared.limits.TheConstants.{MOST_PATHS};
ghost use Rattle.tw_policy.specs.Left.{left_after, round_left};
ghost use Rattle.tw_policy.specs.Standing.{standing};

use crate::bound::{last_time, longest_delay, time_after};
use crate::remaining::{only_origin, remaining_at};
use crate::standing::standing_routers;
use crate::wheel::{self, Pivot};
use std::alloc::{AllocError, Global};
use std::marker::Model;
use tw_event::PathNo;
use tw_instance::{Case, Instance};
use tw_router::Router;

/// What elimination leaves to each router of a case, by how the routers stand once the script is over.
///
/// At first a router has all of its paths left, and the empty one. In each round it keeps those that may be
/// its best path where every neighbour uses one of those that it had left before the round.
#[derive(Drop)]
pub struct Elimination<'a> {
    case: &'a Case,
    left: Vec<Vec<PathNo>>,
    rounds: u64,
}

impl<'a> Model for Elimination<'a> {
    ghost use Rattle.tw_elimination.specs.Rounds.{Eliminated};

    ghost Value = { Eliminated };

    ghost use Rattle.tw_elimination.specs.Halt.{IsAt, eliminated_of};

    ghost view = { eliminated_of };

    ghost invariant = { IsAt };
}

impl<'a> Elimination<'a> {
    /// The case.
    pub fn case(&self) -> &'a Case
        ensures value { result.now ≡ self.now.case }
        ensures case { IsCase self.now.case }
    {
        // What a case keeps is told by a read of it.
        let _ = self.case.instance();
        self.case
    }

    /// How many rounds it took.
    pub fn rounds(&self) -> u64
        ensures { result ≡ self.now.rounds }
    {
        self.rounds
    }

    /// The paths that a router has left, in the order of its ranks; the empty path is the last.
    pub fn left(&self, router: u32) -> &[PathNo]
        requires { router < self.now.case.net.nodes }
        ensures value { result.now ≡ left_in self.now.case self.now.rounds router }
        ensures paths { All (IsPath self.now.case.net) result.now }
    {
        let _ = self.case.instance();
        &self.left[router as usize]
    }

    /// Whether each router has one path left.
    pub fn is_solved(&self) -> bool
        ensures { result ≡ is_solved self.now.case self.now.rounds }
    {
        has_one_each(&self.left)
    }

    /// The time, in ticks, from which on nothing is pending any more in any run of the case, where each router
    /// has one path left: as often the longest delay as there were rounds, and once more, after the tick that
    /// follows on the last scripted event.
    pub fn rests_before(&self) -> u128
        ensures { result ≡ rests_before self.now.case self.now.rounds }
    {
        let time = last_time(self.case.openings());
        let delay = longest_delay(self.case.instance().links());
        time_after(time, delay, self.rounds)
    }

    /// The pivots of a dispute wheel, in the order of the ring, by how the routers stand once the script is over;
    /// none where each router has one path left.
    pub fn wheel(&self, alloc: Global) -> Result<Vec<Pivot>, AllocError>
        requires halt { self.now.rounds ≡ rounds_of self.now.case }
        ensures value { IfOk result (λ pivots. map pivot_of pivots.items ≡ wheel_of self.now.case self.now.rounds) }
        ensures wheel { is_solved self.now.case self.now.rounds ≡ false
            → IfOk result (λ pivots. AreWheel self.now.case.net (standing self.now.case) (map pivot_of pivots.items)) }
        ensures none { is_solved self.now.case self.now.rounds ≡ true → IfOk result (λ pivots. pivots.items ≡ []) }
        ensures paths { IfOk result (λ pivots. All (λ p. IsPath self.now.case.net p.spoke × IsPath self.now.case.net p.rim) pivots.items) }
    {
        wheel::wheel_of(alloc, self.case.instance(), &self.left)
    }
}

/// Eliminates until one round more leaves each router as many paths.
pub fn eliminate<'a>(alloc: Global, case: &'a Case) -> Result<Elimination<'a>, AllocError>
    ensures { IfOk result (λ e. e ≡ record { case = case.now; rounds = rounds_of case.now }) }
{
    let routers = standing_routers(alloc, case)?;
    let mut left = opening_lists(alloc, case, &routers)?;
    let none = Vec::new(alloc);
    let mut next = next_lists(alloc, case, &routers, &left, &none)?;
    let mut rounds: u64 = 0;
    while has_fewer(&next, &left) {
        let settled = settled_routers(alloc, case, &next, &left)?;
        left = next;
        next = next_lists(alloc, case, &routers, &left, &settled)?;
        rounds += 1;
    }
    Ok(Elimination { case, left, rounds })
}

/// What each router has left before the first round.
fn opening_lists(
    alloc: Global,
    case: &Case,
    routers: &[Router<'_>],
) -> Result<Vec<Vec<PathNo>>, AllocError>
    requires { routers.now ≡ standing_routers_of case.now }
    ensures lists { IfOk result (λ left. AreLeft case.now 0 (items left.items)) }
    ensures few { IfOk result (λ left. All (λ paths. length paths ≤ MOST_PATHS + 1) (items left.items)) }
    ensures case { IsCase case.now }
{
    let instance = case.instance();
    let mut left = Vec::new(alloc);
    for router in routers {
        left.push(all_paths(alloc, instance, router)?)?;
    }
    Ok(left)
}

/// All paths of a router in the order of its ranks, and the empty one; of the origin its one path.
fn all_paths(
    alloc: Global,
    instance: &Instance,
    router: &Router<'_>,
) -> Result<Vec<PathNo>, AllocError>
    requires { router.now.net ≡ instance.now }
    ensures value { IfOk result (λ paths. (states : ℕ → State) → states router.now.node ≡ router.now.state
        → paths.items ≡ left_after router.now.net states 0 router.now.node) }
    ensures few { IfOk result (λ paths. length paths.items ≤ MOST_PATHS + 1) }
{
    if router.node() == 0 {
        return only_origin(alloc);
    }
    // A router has as many paths as it was given, which are few.
    let _ = instance.permitted(router.node());
    let mut paths = Vec::from_slice(alloc, router.order())?;
    paths.push(PathNo::EMPTY)?;
    Ok(paths)
}

/// What each router has left after one round more, where the settled ones keep what they have.
fn next_lists(
    alloc: Global,
    case: &Case,
    routers: &[Router<'_>],
    left: &[Vec<PathNo>],
    settled: &[bool],
) -> Result<Vec<Vec<PathNo>>, AllocError>
    requires routers { routers.now ≡ standing_routers_of case.now }
    requires left { (n : ℕ) × AreLeft case.now n (items left.now) }
    requires settled { AreSettled case.now (row left.now) settled.now }
    ensures next { (n : ℕ) → AreLeft case.now n (items left.now) → IfOk result (λ next. AreLeft case.now (suc n) (items next.items)) }
{
    // What a case keeps is told by a read of it.
    let _ = case.instance();
    let mut next = Vec::new(alloc);
    for node in 0..routers.len() {
        next.push(next_list(alloc, case, routers, left, settled, node)?)?;
    }
    Ok(next)
}

/// What a router has left after one round more, where a settled one keeps what it has.
fn next_list(
    alloc: Global,
    case: &Case,
    routers: &[Router<'_>],
    left: &[Vec<PathNo>],
    settled: &[bool],
    node: usize,
) -> Result<Vec<PathNo>, AllocError>
    requires routers { routers.now ≡ standing_routers_of case.now }
    requires left { (n : ℕ) × AreLeft case.now n (items left.now) }
    requires settled { AreSettled case.now (row left.now) settled.now }
    requires node { node < length routers.now }
    ensures { IfOk result (λ paths. paths.items ≡ round_left case.now.net (standing case.now) (row left.now) node) }
{
    let instance = case.instance();
    if is_settled(settled, node) {
        return Vec::from_slice(alloc, &left[node]);
    }
    remaining_at(alloc, instance, &routers[node], left)
}

/// Whether a router is among the settled ones.
fn is_settled(settled: &[bool], node: usize) -> bool
    ensures { result ≡ slice_index_or settled.now node false }
{
    match settled.get(node) {
        Some(settled) => *settled,
        None => false,
    }
}

/// Of each router whether all of its neighbours have as many paths left as before the round.
fn settled_routers(
    alloc: Global,
    case: &Case,
    next: &[Vec<PathNo>],
    left: &[Vec<PathNo>],
) -> Result<Vec<bool>, AllocError>
    requires next { length next.now ≡ case.now.net.nodes }
    requires left { length left.now ≡ case.now.net.nodes }
    ensures { IfOk result (λ settled. (v : ℕ) → slice_index_or settled.items v false ≡ true
        → (w : ℕ) → has_peer case.now.net v w ≡ true → length (row next.now w) ≡ length (row left.now w)) }
{
    let instance = case.instance();
    let mut settled = Vec::new(alloc);
    for node in 0..instance.nodes() {
        settled.push(are_as_many(instance, next, left, node))?;
    }
    Ok(settled)
}

/// Whether all neighbours of a router have as many paths left as before the round.
fn are_as_many(instance: &Instance, next: &[Vec<PathNo>], left: &[Vec<PathNo>], node: u32) -> bool
    requires next { length next.now ≡ instance.now.nodes }
    requires left { length left.now ≡ instance.now.nodes }
    ensures { result ≡ true → All (λ h. length (row next.now h.peer) ≡ length (row left.now h.peer)) (hops_of instance.now node) }
{
    for hop in instance.hops(node) {
        let peer = hop.peer as usize;
        if next[peer].as_slice().len() != left[peer].as_slice().len() {
            return false;
        }
    }
    true
}

/// Whether each of these lists has one path.
fn has_one_each(left: &[Vec<PathNo>]) -> bool
    ensures { result ≡ list_all (λ paths. length paths == 1) (items left.now) }
{
    for paths in left {
        if paths.as_slice().len() != 1 {
            return false;
        }
    }
    true
}

/// Whether some router has fewer paths left next than before, or more.
pub(crate) fn has_fewer(next: &[Vec<PathNo>], left: &[Vec<PathNo>]) -> bool
    requires { length next.now ≡ length left.now }
    ensures some { result ≡ true → (v : ℕ) × (v < length next.now) × (length (row next.now v) ≡ length (row left.now v) → ⊥) }
    ensures none { result ≡ false → (v : ℕ) → v < length next.now → length (row next.now v) ≡ length (row left.now v) }
{
    for (node, paths) in next.iter().enumerate() {
        if paths.as_slice().len() != left[node].as_slice().len() {
            return true;
        }
    }
    false
}
