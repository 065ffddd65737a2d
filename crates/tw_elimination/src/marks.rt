//! Which of a router's paths its neighbours' paths give it.

ghost use Rattle.std.specs.Prelude.{ℕ, ◌≡◌, ◌≢◌, ◌+◌, ◌≤◌, ◌==◌, ◌<◌, length, slice_get, IfSome, IsSome, IsTrue, Some};
ghost use Rattle.std.specs.List.{All, AllPairs, position_or_len};
ghost use Rattle.tw_elimination.specs.Marks.{all_marked, least_reach, marked, place_given as place_given_of, place_open, reach as reach_of, telling};
ghost use Rattle.tw_event.specs.declared.event.PathNo.{PathNo as APathNo};
ghost use Rattle.tw_instance.specs.Tables.{row};
ghost use Rattle.tw_model.specs.Net.{IsPath, paths_of};
ghost use Rattle.tw_model.specs.State.{offers};
ghost use Rattle.tw_router.specs.Ranks.{IsOfferedAt};

use tw_event::PathNo;
use tw_instance::Instance;
use tw_router::Router;

/// The place, from 0, in the router's order of the path that it gets where a neighbour tells it this one. It
/// is the number of its paths where it gets none, or one that is barred.
pub(crate) fn place_given(instance: &Instance, router: &Router<'_>, path: PathNo) -> usize
    requires own { instance.now ≡ router.now.net }
    requires path { IsPath router.now.net path }
    ensures value { result ≡ place_given_of router.now path }
    ensures within { result ≤ length router.now.state.order }
{
    match line_given(instance, router.node(), path) {
        Some(line) => place_at(instance, router, line),
        None => router.order().len(),
    }
}

/// The place, from 0, in the router's order of the path at a line of its permitted paths. It is the number of
/// its paths where that one is barred.
fn place_at(instance: &Instance, router: &Router<'_>, line: usize) -> usize
    requires own { instance.now ≡ router.now.net }
    requires line { line < length (paths_of router.now.net router.now.node) }
    ensures value { (q : APathNo) → slice_get (paths_of router.now.net router.now.node) line ≡ Some q → result ≡ place_open router.now q }
    ensures within { result ≤ length router.now.state.order }
{
    let node = router.node();
    if router.barred()[line] {
        return router.order().len();
    }
    place_of(router.order(), instance.permitted(node)[line], line)
}

/// The place, from 0, among the permitted paths of a router of the path that it gets where a neighbour tells
/// it this one.
fn line_given(instance: &Instance, node: u32, path: PathNo) -> Option<usize>
    requires { IsPath instance.now path }
    ensures some { IfSome result (IsOfferedAt instance.now node (telling path)) }
    ensures none { (q : APathNo) → IsTrue (offers instance.now node q (telling path)) → IsSome result }
{
    if path.0 == 0 {
        return None;
    }
    instance.extended_place(node, path)
}

/// The place of a path in an order, which is `line` unless paths were exchanged.
fn place_of(order: &[PathNo], path: PathNo, line: usize) -> usize
    requires { AllPairs (λ p q. p ≢ q) order.now }
    ensures value { result ≡ position_or_len (λ q. q.0 == path.0) order.now }
    ensures within { result ≤ length order.now }
{
    if line < order.len() && order[line].0 == path.0 {
        return line;
    }
    order.iter().take_while(|other| other.0 != path.0).count()
}

/// Marks the places of the paths that a neighbour's paths give the router. The answer is how many of its
/// best paths hold one that it gets whichever of them the neighbour tells it.
pub(crate) fn mark(
    instance: &Instance,
    router: &Router<'_>,
    paths: &[PathNo],
    given: &mut [bool],
) -> usize
    requires own { instance.now ≡ router.now.net }
    requires paths { All (IsPath router.now.net) paths.now }
    requires places { length given.old ≡ length router.now.state.order + 1 }
    ensures reach { result ≡ reach_of router.now paths.now }
    ensures given { given.new ≡ marked router.now given.old paths.now }
{
    let mut reach = 0;
    for path in paths {
        let place = place_given(instance, router, *path);
        given[place] = true;
        reach = reach.max(place + 1);
    }
    reach
}

/// Marks the places of the paths that the neighbours' paths give the router over links that are up. The
/// answer is how many of its best paths hold one that it always gets, or one more than it has paths.
pub(crate) fn mark_all(
    instance: &Instance,
    router: &Router<'_>,
    left: &[Vec<PathNo>],
    given: &mut [bool],
) -> usize
    requires own { instance.now ≡ router.now.net }
    requires long { length left.now ≡ instance.now.nodes }
    requires paths { (w : ℕ) → All (IsPath router.now.net) (row left.now w) }
    requires places { length given.old ≡ length router.now.state.order + 1 }
    ensures reach { result ≡ least_reach router.now (row left.now) }
    ensures given { given.new ≡ all_marked router.now (row left.now) given.old }
{
    let mut least = router.order().len() + 1;
    for (slot, hop) in instance.hops(router.node()).iter().enumerate() {
        if router.is_up(slot) {
            let reach = mark(instance, router, &left[hop.peer as usize], given);
            least = least.min(reach);
        }
    }
    least
}
