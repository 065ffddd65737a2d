//! Items judged by the rules of an instance and of a scenario, and a whole case by its version: the
//! first rule that an item breaks.

ghost use Rattle.std.specs.Prelude.{◌≡◌, ℕ, ◌∷◌, ◌==◌, ◌&&◌, ◌||◌, not, nat_le, nat_lt, slice_set, true};
ghost use Rattle.std.specs.List.{list_all, list_any};
ghost use Rattle.tw_model.specs.declared.limits.TheConstants.{LATEST_VERSION, LONGEST_DELAY, MOST_LINKS, MOST_PATHS};
ghost use Rattle.tw_model.specs.Net as net;
ghost use Rattle.tw_model.specs.Rules as defined;
ghost use Rattle.tw_instance.specs.Marks.{is_met as is_met_of};

use crate::instance::Instance;
use tw_model::{Link, PermittedPath, Rule, Scene, limits};

/// The rules in ascending order of their codes. Of those that an item breaks the first decides.
const RULES: [Rule; 14] = [
    Rule::Range,
    Rule::SelfLink,
    Rule::TwiceLink,
    Rule::Delay,
    Rule::PathOwner,
    Rule::PathEnd,
    Rule::PathRepeats,
    Rule::PathNoLink,
    Rule::TwicePath,
    Rule::TooMany,
    Rule::NoSuchLink,
    Rule::NoSuchPlace,
    Rule::Time,
    Rule::Version,
];

/// The first rule that a number of routers breaks.
pub fn nodes_fault(nodes: u32) -> Option<Rule>
    ensures { result ≡ defined.nodes_fault nodes }
{
    if nodes < 1 || limits::MOST_ROUTERS < nodes {
        return Some(Rule::Range);
    }
    None
}

/// The first rule that a link breaks after those of the instance.
pub fn link_fault(instance: &Instance, link: &Link) -> Option<Rule>
    ensures { result ≡ defined.link_fault instance.now link.now }
{
    RULES
        .iter()
        .copied()
        .find(|rule| link_breaks(instance, link, *rule))
}

/// The first rule that a permitted path breaks after those of the instance.
pub fn path_fault(instance: &Instance, path: &PermittedPath) -> Option<Rule>
    ensures { result ≡ defined.path_fault instance.now path.now }
{
    RULES
        .iter()
        .copied()
        .find(|rule| path_breaks(instance, path, *rule))
}

/// The first rule that a scene breaks after so many others.
pub fn scene_fault(instance: &Instance, count: usize, scene: &Scene) -> Option<Rule>
    ensures { result ≡ defined.scene_fault instance.now count scene.now }
{
    RULES
        .iter()
        .copied()
        .find(|rule| scene_breaks(instance, count, scene, *rule))
}

/// The first rule that a whole case breaks in this version.
pub fn case_fault(version: u32, instance: &Instance, scenes: &[Scene]) -> Option<Rule>
    ensures { result ≡ defined.case_fault version instance.now scenes.now }
{
    if has_version(version, instance.links(), scenes) {
        None
    } else {
        Some(Rule::Version)
    }
}

fn link_breaks(instance: &Instance, link: &Link, rule: Rule) -> bool
    ensures { result ≡ defined.link_breaks instance.now link.now rule }
{
    match rule {
        Rule::Range => link.first >= instance.nodes() || link.second >= instance.nodes(),
        Rule::SelfLink => link.first == link.second,
        Rule::TwiceLink => instance.is_linked(link.first, link.second),
        Rule::Delay => !is_delay(link.delay) || !is_delay(link.back),
        Rule::TooMany => has_all_links(instance, link.first)
            || has_all_links(instance, link.second),
        _ => false,
    }
}

fn path_breaks(instance: &Instance, path: &PermittedPath, rule: Rule) -> bool
    ensures { result ≡ defined.path_breaks instance.now path.now rule }
{
    let owner = path.owner;
    let nodes = path.nodes.as_slice();
    match rule {
        Rule::Range => owner >= instance.nodes() || !are_below(nodes, instance.nodes()),
        Rule::PathOwner => is_misowned(owner, nodes),
        Rule::PathEnd => !ends_at_origin(nodes),
        Rule::PathRepeats => repeats(nodes),
        Rule::PathNoLink => leaves_links(instance, nodes),
        Rule::TwicePath => is_given(instance, owner, nodes),
        Rule::TooMany => has_all_paths(instance, owner) || nodes.len() > limits::MOST_NODES,
        _ => false,
    }
}

fn scene_breaks(instance: &Instance, count: usize, scene: &Scene, rule: Rule) -> bool
    ensures { result ≡ defined.scene_breaks instance.now count scene.now rule }
{
    match rule {
        Rule::Range => names_no_router(instance, scene),
        Rule::TooMany => count >= limits::MOST_SCENES,
        Rule::NoSuchLink => names_no_link(instance, scene),
        Rule::NoSuchPlace => names_no_place(instance, scene),
        Rule::Time => is_late(scene),
        _ => false,
    }
}

/// Whether a scene is at a router that is not there.
fn names_no_router(instance: &Instance, scene: &Scene) -> bool
    ensures { (count : ℕ) → result ≡ defined.scene_breaks instance.now count scene.now Rule.Range }
{
    match *scene {
        Scene::Fail { first, second, .. } | Scene::Restore { first, second, .. } => {
            first >= instance.nodes() || second >= instance.nodes()
        }
        Scene::Swap { node, .. } | Scene::Forbid { node, .. } | Scene::Allow { node, .. } => {
            node >= instance.nodes()
        }
    }
}

/// Whether a scene is the failure or the repair of a link that is not there.
fn names_no_link(instance: &Instance, scene: &Scene) -> bool
    ensures { (count : ℕ) → result ≡ defined.scene_breaks instance.now count scene.now Rule.NoSuchLink }
{
    match *scene {
        Scene::Fail { first, second, .. } | Scene::Restore { first, second, .. } => {
            !instance.is_linked(first, second)
        }
        Scene::Swap { .. } | Scene::Forbid { .. } | Scene::Allow { .. } => false,
    }
}

/// Whether a scene is the exchange of a place that the router's order does not have, or forbids or
/// allows a path that was not given.
fn names_no_place(instance: &Instance, scene: &Scene) -> bool
    ensures { (count : ℕ) → result ≡ defined.scene_breaks instance.now count scene.now Rule.NoSuchPlace }
{
    match *scene {
        Scene::Fail { .. } | Scene::Restore { .. } => false,
        Scene::Swap {
            node,
            first,
            second,
            ..
        } => !has_place(instance, node, first) || !has_place(instance, node, second),
        Scene::Forbid { node, line, .. } | Scene::Allow { node, line, .. } => {
            !has_line(instance, node, line)
        }
    }
}

/// Whether the time of a scene is past the latest.
fn is_late(scene: &Scene) -> bool
    ensures { (n : net.Net) (count : ℕ) → result ≡ defined.scene_breaks n count scene.now Rule.Time }
{
    match *scene {
        Scene::Fail { time, .. }
        | Scene::Restore { time, .. }
        | Scene::Swap { time, .. }
        | Scene::Forbid { time, .. }
        | Scene::Allow { time, .. } => time > limits::LATEST,
    }
}

/// Whether a router's order has this place, from 1.
fn has_place(instance: &Instance, node: u32, place: u32) -> bool
    ensures { result ≡ defined.has_place instance.now node place }
{
    1 <= place && place as usize <= instance.permitted(node).len()
}

/// Whether a path was given for a router at this place, from 1; the origin was given none.
fn has_line(instance: &Instance, node: u32, line: u32) -> bool
    ensures { result ≡ defined.has_line instance.now node line }
{
    node != 0 && has_place(instance, node, line)
}

/// Whether a message may take so many ticks over a link.
fn is_delay(ticks: u64) -> bool
    ensures { result ≡ defined.is_within 1 LONGEST_DELAY ticks }
{
    1 <= ticks && ticks <= limits::LONGEST_DELAY
}

/// Whether there is such a version, and a text of it can say these links and scenes.
fn has_version(version: u32, links: &[Link], scenes: &[Scene]) -> bool
    ensures { result ≡ (defined.is_within 1 LATEST_VERSION version && defined.suits_version version links.now scenes.now) }
{
    match version {
        1 => have_one_delay(links) && are_first(scenes),
        _ => 1 <= version && version <= limits::LATEST_VERSION,
    }
}

/// Whether both directions of each link have one delay, as version 1 says it.
fn have_one_delay(links: &[Link]) -> bool
    ensures { result ≡ list_all defined.is_first_link links.now }
{
    links.iter().all(|link| link.delay == link.back)
}

/// Whether version 1 has such scenes.
fn are_first(scenes: &[Scene]) -> bool
    ensures { result ≡ list_all defined.is_first_scene scenes.now }
{
    scenes.iter().all(is_first)
}

/// Whether version 1 has such a scene.
fn is_first(scene: &Scene) -> bool
    ensures { result ≡ defined.is_first_scene scene.now }
{
    match *scene {
        Scene::Fail { .. } | Scene::Restore { .. } | Scene::Swap { .. } => true,
        Scene::Forbid { .. } | Scene::Allow { .. } => false,
    }
}

/// Whether a router has as many links as it may.
fn has_all_links(instance: &Instance, node: u32) -> bool
    ensures { result ≡ nat_le MOST_LINKS (defined.degree instance.now.links node) }
{
    instance.hops(node).len() >= limits::MOST_LINKS
}

/// Whether a router has as many permitted paths as it may.
fn has_all_paths(instance: &Instance, node: u32) -> bool
    ensures { result ≡ nat_le MOST_PATHS (defined.path_count instance.now.permitted node) }
{
    instance.permitted(node).len() >= limits::MOST_PATHS
}

/// Whether these nodes were given for the router.
fn is_given(instance: &Instance, owner: u32, nodes: &[u32]) -> bool
    ensures { result ≡ list_any (λ q. q.owner == owner && net.same_path q.nodes nodes.now) instance.now.permitted }
{
    instance.number(nodes).is_some() && !is_misowned(owner, nodes)
}

fn are_below(nodes: &[u32], count: u32) -> bool
    ensures { result ≡ list_all (λ v. nat_lt v count) nodes.now }
{
    nodes.iter().all(|node| *node < count)
}

/// Whether these nodes cannot be a path of this owner: it is the origin, or they begin elsewhere.
fn is_misowned(owner: u32, nodes: &[u32]) -> bool
    ensures { result ≡ (owner == 0 || not (net.begins_at nodes.now owner)) }
{
    owner == 0 || !begins_at(nodes, owner)
}

fn begins_at(nodes: &[u32], node: u32) -> bool
    ensures { result ≡ net.begins_at nodes.now node }
{
    match nodes {
        [] => false,
        [first, ..] => *first == node,
    }
}

/// Whether the last of these nodes is the origin.
fn ends_at_origin(nodes: &[u32]) -> bool
    ensures { result ≡ defined.ends_at nodes.now 0 }
{
    match nodes {
        [] => false,
        [.., last] => *last == 0,
    }
}

/// Whether a node stands twice among these.
fn repeats(nodes: &[u32]) -> bool
    ensures { result ≡ defined.repeats nodes.now }
{
    let mut marks = [false; limits::MOST_ROUTERS as usize];
    for (i, node) in nodes.iter().enumerate() {
        if is_met(&marks, *node, &nodes[i + 1..]) {
            return true;
        }
        set_mark(&mut marks, *node);
    }
    false
}

/// Whether a node is marked as met, or where no router has its number, stands among those behind it.
fn is_met(marks: &[bool], node: u32, behind: &[u32]) -> bool
    ensures { result ≡ is_met_of marks.now node behind.now }
{
    match marks.get(node as usize) {
        Some(mark) => *mark,
        None => behind.contains(&node),
    }
}

/// Marks a node as met where a router has its number.
fn set_mark(marks: &mut [bool], node: u32)
    ensures { marks.new ≡ slice_set marks.old node true }
{
    let place = node as usize;
    if place < marks.len() {
        marks[place] = true;
    }
}

/// Whether two neighbouring nodes of these have no link.
fn leaves_links(instance: &Instance, nodes: &[u32]) -> bool
    ensures { result ≡ defined.leaves_links instance.now.links nodes.now }
{
    match nodes {
        [] => false,
        [first, rest @ ..] => leaves_links_from(instance, *first, rest),
    }
}

fn leaves_links_from(instance: &Instance, first: u32, rest: &[u32]) -> bool
    ensures { result ≡ defined.leaves_links instance.now.links (first ∷ rest.now) }
{
    let mut last = first;
    for node in rest {
        if !instance.is_linked(last, *node) {
            return true;
        }
        last = *node;
    }
    false
}
