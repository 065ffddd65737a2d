//! Instances, built item by item.

ghost use Rattle.std.specs.Prelude.{◌≡◌, ◌↔◌, ◌+◌, ◌-◌, ◌*◌, ◌==◌, ◌<◌, ◌≤◌, [], ◌∷◌, ◌++◌, length, true, IfOk, OnErr, OnOk, SomeIff, IsTrue, map, drop};
ghost use Rattle.std.specs.List.{All, position};
ghost use Rattle.std.specs.List.Sorted.{IsStrictlyIncreasing};
ghost use Rattle.tw_model.specs.declared.limits.TheConstants.{LONGEST_DELAY, MOST_LINKS, MOST_PATHS, MOST_ROUTERS};
ghost use Rattle.tw_model.specs.declared.rule.Rule.{Rule as ARule};
ghost use Rattle.tw_model.specs.Net.{IsPath, bare_net, hops_of, is_own, path, paths, paths_of};
ghost use Rattle.tw_model.specs.Rules.{IsNet, is_linked, link_fault, nodes_fault, path_fault};
ghost use Rattle.tw_model.specs.State.{has_peer, hop, slot as slot_of};
ghost use Rattle.tw_instance.specs.Build.{TellsOf, judged_instance, judged_links, judged_paths};
ghost use Rattle.tw_instance.specs.Hops.{AreDistinct, IsGoodHop};
ghost use Rattle.tw_instance.specs.Tables.{hash};

mod paths;

use crate::index::Index;
use crate::refusal::{At, Item};
use crate::{adjacency, rules, tables};
use std::alloc::{AllocError, Global};
use std::marker::Model;
use tw_event::PathNo;
use tw_model::{Hop, Link, OrMemory, PermittedPath, Rule};

/// An instance of the stable paths problem: routers, links with delays, and permitted paths.
///
/// It keeps every rule at any time. Routers are 0 to one less than their number; 0 is the origin.
#[derive(Drop, Debug)]
pub struct Instance {
    nodes: u32,
    links: Vec<Link>,
    paths: Vec<PermittedPath>,
    /// Of each router its neighbours, in ascending order.
    hops: Vec<Vec<Hop>>,
    /// Of each router whether each router is its neighbour.
    adjacency: Vec<Vec<bool>>,
    /// Of each router its permitted paths, best first.
    permitted: Vec<Vec<PathNo>>,
    /// Of each of them, in the same order, the hash of the path without its first node.
    tail_hashes: Vec<Vec<u32>>,
    /// Of each path, by its number, its place among the permitted paths of its router.
    places: Vec<u32>,
    /// The tables of the whole, at most once: none before they are made, and after a further link or path.
    index: Vec<Index>,
}

impl Model for Instance {
    ghost use Rattle.tw_model.specs.Net.{Net};

    ghost Value = { Net };

    ghost use Rattle.tw_instance.specs.Instance.{IsInstance, net_of};

    ghost view = { net_of };

    ghost invariant = { IsInstance };
}

impl Instance {
    /// An instance of so many routers, 1 to 1,024, with no link and no permitted path.
    pub fn new(alloc: Global, nodes: u32) -> Result<Instance, OrMemory<Rule>>
        ensures ok { IfOk result (λ i. i ≡ bare_net nodes) }
        ensures rule { (r : ARule) → (result ≡ Err (OrMemory.Fault r)) ↔ (nodes_fault nodes ≡ Some r) }
        ensures kept { OnOk result (nodes_fault nodes ≡ None) }
    {
        if let Some(rule) = rules::nodes_fault(nodes) {
            return Err(OrMemory::Fault(rule));
        }
        let hops = tables::empty_rows(alloc, nodes)?;
        let adjacency = adjacency::empty(alloc, nodes)?;
        let permitted = tables::opening_rows(alloc, nodes, PathNo::ORIGIN)?;
        let tail_hashes = tables::opening_rows(alloc, nodes, tables::hash_of(&[]))?;
        let places = tables::opening_places(alloc)?;
        Ok(Instance {
            nodes,
            links: Vec::new(alloc),
            paths: Vec::new(alloc),
            hops,
            adjacency,
            permitted,
            tail_hashes,
            places,
            index: Vec::new(alloc),
        })
    }

    /// Adds a link, or tells the first rule that it breaks. An error leaves the instance as it was.
    pub fn add_link(&mut self, link: Link) -> Result<(), OrMemory<Rule>>
        ensures ok { OnOk result (self.new ≡ record self.old { links = self.old.links ++ link ∷ [] }) }
        ensures rule { (r : ARule) → (result ≡ Err (OrMemory.Fault r)) ↔ (link_fault self.old link ≡ Some r) }
        ensures kept { OnOk result (link_fault self.old link ≡ None) }
        ensures err { OnErr result (self.new ≡ self.old) }
    {
        if let Some(rule) = rules::link_fault(self, &link) {
            return Err(OrMemory::Fault(rule));
        }
        self.links.reserve(1)?;
        tables::join(&mut self.hops, &link)?;
        adjacency::join(&mut self.adjacency, link.first, link.second);
        self.index.clear();
        self.links.push_reserved(link);
        Ok(())
    }

    /// Adds a permitted path, worse than those of its owner before it, or tells the first rule that it
    /// breaks. An error leaves the instance as it was.
    pub fn add_path(&mut self, path: PermittedPath) -> Result<(), OrMemory<Rule>>
        ensures ok { OnOk result (self.new ≡ record self.old { permitted = self.old.permitted ++ path ∷ [] }) }
        ensures rule { (r : ARule) → (result ≡ Err (OrMemory.Fault r)) ↔ (path_fault self.old path ≡ Some r) }
        ensures kept { OnOk result (path_fault self.old path ≡ None) }
        ensures err { OnErr result (self.new ≡ self.old) }
    {
        if let Some(rule) = rules::path_fault(self, &path) {
            return Err(OrMemory::Fault(rule));
        }
        let number = PathNo(self.paths.len() as u32 + 2);
        let hash = tail_hash(&path.nodes);
        let place = self.permitted(path.owner).len() as u32;
        self.paths.reserve(1)?;
        self.places.reserve(1)?;
        tables::push_path(
            &mut self.permitted,
            &mut self.tail_hashes,
            path.owner,
            number,
            hash,
        )?;
        self.index.clear();
        self.places.push_reserved(place);
        self.paths.push_reserved(path);
        Ok(())
    }

    /// An instance with these links and permitted paths. Items are judged in the order of nodes, links,
    /// paths, each after those before it; an error names the first that breaks a rule, or one before it
    /// for which memory was refused.
    pub fn build(
        alloc: Global,
        nodes: u32,
        links: Vec<Link>,
        paths: Vec<PermittedPath>,
    ) -> Result<Instance, At>
        ensures ok { IfOk result (λ i. i ≡ record { nodes = nodes; links = links.items; permitted = paths.items }) }
        ensures told { TellsOf result (judged_instance nodes links.items paths.items) }
    {
        let mut instance = match Instance::new(alloc, nodes) {
            Ok(instance) => instance,
            Err(fault) => {
                let item = Item::Nodes;
                return Err(At { item, fault });
            }
        };
        instance.add_links(&links)?;
        instance.add_paths(paths)?;
        Ok(instance)
    }

    fn add_links(&mut self, links: &[Link]) -> Result<(), At>
        ensures ok { OnOk result (self.new ≡ record self.old { links = self.old.links ++ links.now }) }
        ensures told { TellsOf result (judged_links self.old 1 links.now) }
    {
        for (i, link) in links.iter().enumerate() {
            if let Err(fault) = self.add_link(*link) {
                let item = Item::Link(i + 1);
                return Err(At { item, fault });
            }
        }
        Ok(())
    }

    fn add_paths(&mut self, paths: Vec<PermittedPath>) -> Result<(), At>
        ensures ok { OnOk result (self.new ≡ record self.old { permitted = self.old.permitted ++ paths.items }) }
        ensures told { TellsOf result (judged_paths self.old 1 paths.items) }
    {
        for (i, path) in paths.into_iter().enumerate() {
            if let Err(fault) = self.add_path(path) {
                let item = Item::Path(i + 1);
                return Err(At { item, fault });
            }
        }
        Ok(())
    }

    /// Makes the tables from which look-ups are answered fast. Until then, and after a further link or
    /// path, they are searched for.
    pub(crate) fn make_index(&mut self, alloc: Global) -> Result<(), AllocError>
        ensures same { self.new ≡ self.old }
    {
        let index = Index::new(alloc, self)?;
        self.index.clear();
        self.index.push(index)?;
        Ok(())
    }

    /// The number of routers, 1 to 1,024.
    pub fn nodes(&self) -> u32
        ensures value { result ≡ self.now.nodes }
        ensures net { IsNet self.now }
        ensures some { 1 ≤ result }
        ensures most { result ≤ MOST_ROUTERS }
        ensures few_paths { length (paths self.now) ≤ MOST_PATHS * (MOST_ROUTERS - 1) + 2 }
        ensures distinct { AreDistinct self.now }
    {
        self.nodes
    }

    /// The links, as they were given.
    pub fn links(&self) -> &[Link]
        ensures value { result.now ≡ self.now.links }
        ensures net { IsNet self.now }
    {
        self.links.as_slice()
    }

    /// The permitted paths, as they were given.
    pub fn paths(&self) -> &[PermittedPath]
        ensures value { result.now ≡ self.now.permitted }
        ensures net { IsNet self.now }
    {
        self.paths.as_slice()
    }

    /// The neighbours of a router in ascending order; none where there is no such router.
    pub fn hops(&self, node: u32) -> &[Hop]
        ensures value { result.now ≡ hops_of self.now node }
        ensures net { IsNet self.now }
        ensures few { length result.now ≤ MOST_LINKS }
        ensures good { All (IsGoodHop self.now.nodes) result.now }
        ensures rising { IsStrictlyIncreasing (map (λ h. h.peer) result.now) }
    {
        tables::row_of(&self.hops, node)
    }

    /// Whether a link joins the two.
    pub(crate) fn is_linked(&self, first: u32, second: u32) -> bool
        ensures { result ≡ is_linked self.now.links first second }
    {
        // Both cells of a link are set. Of each two the one in the later row is read, so that half of the
        // matrix is, and stays in nearer caches.
        adjacency::are_joined(&self.adjacency, first.max(second), first.min(second))
    }

    /// The numbers of a router's permitted paths, best first; none where there is no such router.
    pub fn permitted(&self, node: u32) -> &[PathNo]
        ensures value { result.now ≡ paths_of self.now node }
        ensures net { IsNet self.now }
        ensures few { length result.now ≤ MOST_PATHS }
        ensures paths { All (IsPath self.now) result.now }
        ensures own { All (λ q. is_own self.now node q ≡ true) result.now }
    {
        tables::row_of(&self.permitted, node)
    }

    /// The slot of a neighbour: how many neighbours of the router have a lower number. `None` where the
    /// two are no neighbours.
    #[inline(always)]
    pub fn slot(&self, node: u32, peer: u32) -> Option<usize>
        ensures { SomeIff result (IsTrue (has_peer self.now node peer)) (slot_of self.now node peer) }
    {
        match self.index.first() {
            Some(index) => index.peers.slot(node, peer),
            None => slot_of_peer(self.hops(node), peer),
        }
    }

    /// How many ticks, 1 to 1,000,000, a message to the neighbour of a slot takes.
    pub fn delay(&self, node: u32, slot: usize) -> u64
        requires { slot < length (hops_of self.now node) }
        ensures value { result ≡ (hop self.now node slot).delay }
        ensures some { 1 ≤ result }
        ensures most { result ≤ LONGEST_DELAY }
    {
        self.hops(node)[slot].delay
    }
}

fn slot_of_peer(hops: &[Hop], peer: u32) -> Option<usize>
    ensures { result ≡ position (λ h. h.peer == peer) hops.now }
{
    hops.iter().position(|hop| hop.peer == peer)
}

/// The hash of these nodes without the first.
fn tail_hash(nodes: &[u32]) -> u32
    ensures { result ≡ hash (drop 1 nodes.now) }
{
    match nodes {
        [] => tables::hash_of(&[]),
        [_, rest @ ..] => tables::hash_of(rest),
    }
}
