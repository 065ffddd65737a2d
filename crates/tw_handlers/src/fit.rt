//! Which events a router handles.

ghost use Rattle.std.specs.Prelude.{◌≡◌, ◌<◌, ◌↔◌, length, IsTrue};
ghost use Rattle.tw_model.specs.Net.{IsPath, begins_at as begins_at_of, hops_of, is_own as is_own_of, is_permitted as is_permitted_of};
ghost use Rattle.tw_model.specs.Rules.{has_line as has_line_of, has_place as has_place_of};
ghost use Rattle.tw_model.specs.State.{has_peer as has_peer_of, slot as slot_of};
ghost use Rattle.tw_model.specs.Effect.{body_suits, fits, suits};

use tw_event::{Body, Event, PathNo};
use tw_instance::Instance;
use tw_model::limits::LATEST;

/// Whether the event is one that the router of this number handles: it suits the router, and its time is
/// at most 1,000,000,000.
pub fn does_fit(instance: &Instance, node: u32, event: &Event) -> bool
    ensures { result ≡ fits instance.now node event.now }
{
    event.time <= LATEST && does_suit(instance, node, event)
}

/// Whether the event is one for the router of this number, the limit on its time aside.
///
/// Its receiver is this router. The start is one for router 0 at time 0. A failure, a repair and an
/// exchange come from the router itself, and name a neighbour or places of its order, from 1. So do a path
/// forbidden and a path allowed, which name a place of the paths as they were given, from 1; the origin was
/// given none. An update comes from a neighbour, with an empty path or one that is permitted there.
pub fn does_suit(instance: &Instance, node: u32, event: &Event) -> bool
    ensures { result ≡ suits instance.now node event.now }
{
    event.dst == node && does_body_suit(instance, node, event)
}

fn does_body_suit(instance: &Instance, node: u32, event: &Event) -> bool
    ensures { result ≡ body_suits instance.now node event.now event.now.body }
{
    match event.body {
        Body::Start => event.src == node && node == 0 && event.time == 0,
        Body::Fail(peer) => event.src == node && has_peer(instance, node, peer),
        Body::Restore(peer) => event.src == node && has_peer(instance, node, peer),
        Body::Swap(first, second) => {
            event.src == node
                && has_place(instance, node, first)
                && has_place(instance, node, second)
        }
        Body::Forbid(line) => event.src == node && has_line(instance, node, line),
        Body::Allow(line) => event.src == node && has_line(instance, node, line),
        Body::Update { path, .. } => {
            has_peer(instance, node, event.src) && is_permitted(instance, event.src, path)
        }
    }
}

fn has_peer(instance: &Instance, node: u32, peer: u32) -> bool
    ensures { result ≡ has_peer_of instance.now node peer }
{
    instance.slot(node, peer).is_some()
}

fn has_place(instance: &Instance, node: u32, place: u32) -> bool
    ensures { result ≡ has_place_of instance.now node place }
{
    1 <= place && place as usize <= instance.permitted(node).len()
}

/// Whether a path was given for the node at the place, from 1.
fn has_line(instance: &Instance, node: u32, line: u32) -> bool
    ensures { result ≡ has_line_of instance.now node line }
{
    node != 0 && has_place(instance, node, line)
}

/// Whether the path is empty or permitted at the node.
fn is_permitted(instance: &Instance, node: u32, path: PathNo) -> bool
    ensures { result ≡ is_permitted_of instance.now node path }
{
    path.0 == 0 || is_own(instance, node, path)
}

/// Whether the path is one of the instance that begins with the node.
fn is_own(instance: &Instance, node: u32, path: PathNo) -> bool
    ensures { result ≡ is_own_of instance.now node path }
{
    is_path(instance, path) && begins_at(instance.path(path), node)
}

fn is_path(instance: &Instance, path: PathNo) -> bool
    ensures { IsTrue result ↔ IsPath instance.now path }
{
    path.0 < 2 || path.0 as usize - 2 < instance.paths().len()
}

fn begins_at(nodes: &[u32], node: u32) -> bool
    ensures { result ≡ begins_at_of nodes.now node }
{
    match nodes {
        [first, ..] => *first == node,
        [] => false,
    }
}

/// The slot of a neighbour.
#[inline(always)]
pub(crate) fn slot_of_peer(instance: &Instance, node: u32, peer: u32) -> usize
    requires { IsTrue (has_peer_of instance.now node peer) }
    ensures value { result ≡ slot_of instance.now node peer }
    ensures within { result < length (hops_of instance.now node) }
{
    instance.slot(node, peer).unwrap()
}
