//! The ranks of the paths that neighbours offer, one for each slot (docs/DECISIONS.md, 'Router').

ghost use Rattle.std.specs.Prelude.{◌≡◌, ◌≢◌, ◌<◌, ◌≤◌, ◌-◌, ◌==◌, ◌↔◌, fold, length, map, max, slice_set, slice_get, IfSome, IsSome, IsTrue, Some};
ghost use Rattle.std.specs.List.{All, AllPairs, position_or_len};
ghost use Rattle.tw_event.specs.declared.event.PathNo.{PathNo as APathNo};
ghost use Rattle.tw_model.specs.declared.limits.TheConstants.{MOST_PATHS};
ghost use Rattle.tw_model.specs.Net.{IsPath, hops_of, paths_of};
ghost use Rattle.tw_model.specs.State.{offers};
ghost use Rattle.tw_router.specs.Ranks.{IsOfferedAt, IsOrderOf, rank, rank_of_path};

use tw_event::PathNo;
use tw_instance::Instance;
use tw_lanes::best_rank;
use tw_model::Row;

/// Writes the rank of each slot anew, where paths were exchanged or barred.
pub(crate) fn refresh(
    instance: &Instance,
    node: u32,
    order: &[PathNo],
    barred: &[bool],
    rows: &[Row],
    ranks: &mut [u32],
)
    requires router { node < instance.now.nodes }
    requires slots { length rows.now ≡ length (hops_of instance.now node) }
    requires ranks { length ranks.old ≡ length rows.now }
    requires heard { All (λ row. IsPath instance.now row.heard) rows.now }
    requires bars { length barred.now ≡ length (paths_of instance.now node) }
    requires few { length order.now ≤ MOST_PATHS }
    requires distinct { AllPairs (λ p q. p ≢ q) order.now }
    ensures { ranks.new ≡ map (rank instance.now node order.now barred.now) rows.now }
{
    for (slot, row) in rows.iter().enumerate() {
        refresh_slot(instance, node, slot, order, barred, true, *row, ranks);
    }
}

/// Writes the rank of one slot anew.
#[inline(always)]
pub(crate) fn refresh_slot(
    instance: &Instance,
    node: u32,
    slot: usize,
    order: &[PathNo],
    barred: &[bool],
    altered: bool,
    row: Row,
    ranks: &mut [u32],
)
    requires router { node < instance.now.nodes }
    requires slot { slot < length (hops_of instance.now node) }
    requires rank { slot < length ranks.old }
    requires path { IsPath instance.now row.heard }
    requires order { IsOrderOf instance.now node altered order.now barred.now }
    requires bars { length barred.now ≡ length (paths_of instance.now node) }
    requires few { length order.now ≤ MOST_PATHS }
    requires distinct { AllPairs (λ p q. p ≢ q) order.now }
    ensures { ranks.new ≡ slice_set ranks.old slot (rank instance.now node order.now barred.now row) }
{
    ranks[slot] = rank_of(instance, node, order, barred, altered, row);
}

/// The greatest of the ranks, where that of one slot was another one before, and the greatest with it is
/// known. They are sought through only where the greatest rank fell.
#[inline(always)]
pub(crate) fn greatest_after(greatest: u32, before: u32, ranks: &[u32], slot: usize) -> u32
    requires slot { slot < length ranks.now }
    requires greatest { greatest ≡ fold max 0 (slice_set ranks.now slot before) }
    ensures { result ≡ fold max 0 ranks.now }
{
    let rank = ranks[slot];
    // One test, since each of the two alone is hard to foretell.
    let fell = (before == greatest) & (rank < greatest);
    if fell {
        best_rank(ranks)
    } else {
        rank.max(greatest)
    }
}

/// The rank of the path that a neighbour offers, and 0 where it offers none or that path is barred.
#[inline(always)]
fn rank_of(
    instance: &Instance,
    node: u32,
    order: &[PathNo],
    barred: &[bool],
    altered: bool,
    row: Row,
) -> u32
    requires router { node < instance.now.nodes }
    requires path { IsPath instance.now row.heard }
    requires order { IsOrderOf instance.now node altered order.now barred.now }
    requires bars { length barred.now ≡ length (paths_of instance.now node) }
    requires few { length order.now ≤ MOST_PATHS }
    requires distinct { AllPairs (λ p q. p ≢ q) order.now }
    ensures { result ≡ rank instance.now node order.now barred.now row }
{
    match offered_place(instance, node, row) {
        Some(place) => rank_at(instance, node, order, barred, altered, place),
        None => 0,
    }
}

/// The place, from 0, among the permitted paths of the one that a neighbour offers: none where its link
/// is down.
#[inline(always)]
fn offered_place(instance: &Instance, node: u32, row: Row) -> Option<usize>
    requires { IsPath instance.now row.heard }
    ensures some { IfSome result (IsOfferedAt instance.now node row) }
    ensures none { (q : APathNo) → IsTrue (offers instance.now node q row) → IsSome result }
{
    if !row.up || row.heard.0 == 0 {
        return None;
    }
    instance.extended_place(node, row.heard)
}

/// The rank of the path at a place, from 0, of the permitted paths, and 0 where it is barred.
#[inline(always)]
fn rank_at(
    instance: &Instance,
    node: u32,
    order: &[PathNo],
    barred: &[bool],
    altered: bool,
    place: usize,
) -> u32
    requires place { place < length (paths_of instance.now node) }
    requires order { IsOrderOf instance.now node altered order.now barred.now }
    requires bars { length barred.now ≡ length (paths_of instance.now node) }
    requires few { length order.now ≤ MOST_PATHS }
    requires distinct { AllPairs (λ p q. p ≢ q) order.now }
    ensures { (q : APathNo) → slice_get (paths_of instance.now node) place ≡ Some q
        → result ≡ rank_of_path instance.now node order.now barred.now q }
{
    // Bars are read only where there may be some, so that they cost nothing elsewhere.
    if !altered {
        return (order.len() - place) as u32;
    }
    if barred[place] {
        return 0;
    }
    (order.len() - count_before(order, instance.permitted(node)[place])) as u32
}

fn count_before(order: &[PathNo], path: PathNo) -> usize
    ensures within { result ≤ length order.now }
    ensures value { result ≡ position_or_len (λ q. q.0 == path.0) order.now }
{
    order.iter().take_while(|other| other.0 != path.0).count()
}
