//! Paths by their numbers: their nodes and places, and what each of them is extended to.

ghost use Rattle.std.specs.Prelude.{◌≡◌, ◌↔◌, ℕ, ◌+◌, ◌-◌, ◌*◌, ◌<◌, ◌≤◌, [], ◌∷◌, length, IfSome, IsSome, IsTrue, slice_get, map};
ghost use Rattle.std.specs.List.{All, find};
ghost use Rattle.tw_event.specs.declared.event.PathNo.{PathNo as APathNo};
ghost use Rattle.tw_model.specs.declared.limits.TheConstants.{MOST_PATHS, MOST_ROUTERS};
ghost use Rattle.tw_model.specs.Net.{IsPath, empty_path, hops_of, is_own, origin_path, path, paths, paths_of, same_path};
ghost use Rattle.tw_model.specs.Rules.{IsNet};
ghost use Rattle.tw_instance.specs.Extensions.{IsExtendedAt, IsPlaceOf};
ghost use Rattle.tw_instance.specs.Hops.{AreDistinct};
ghost use Rattle.tw_instance.specs.Tables.{tail_hash, tail_hashes_of};

use super::Instance;
use crate::tables;
use tw_event::PathNo;
use tw_lanes::first_equal;

impl Instance {
    /// The nodes of a path number: none of 0, the origin alone of 1, and from 2 on those of the
    /// permitted paths, as they were given.
    pub fn path(&self, number: PathNo) -> &[u32]
        requires { IsPath self.now number }
        ensures value { result.now ≡ path self.now number }
        ensures net { IsNet self.now }
        ensures empty { result.now ≡ [] → number ≡ empty_path }
        ensures none { number ≡ empty_path → result.now ≡ [] }
        ensures origin { number ≡ origin_path → result.now ≡ 0 ∷ [] }
    {
        match number.0 {
            0 => &[],
            1 => &[0],
            k => &self.paths[k as usize - 2].nodes,
        }
    }

    /// The number of the path with these nodes, where there is one.
    pub fn number(&self, nodes: &[u32]) -> Option<PathNo>
        ensures some { IfSome result (λ q. IsPath self.now q × (path self.now q ≡ nodes.now)) }
        ensures only { (q : APathNo) → IsPath self.now q → path self.now q ≡ nodes.now → result ≡ Some q }
        ensures net { IsNet self.now }
    {
        // Opens the invariant, from which each answer follows.
        let _ = &self.links;
        match nodes {
            [] => Some(PathNo::EMPTY),
            [first, rest @ ..] => self.number_at(*first, rest),
        }
    }

    /// The place, from 0, of a path among the permitted paths of its router, the best first; 0 of the
    /// empty path.
    pub fn place(&self, number: PathNo) -> usize
        requires { IsPath self.now number }
        ensures own { (v : ℕ) → IsTrue (is_own self.now v number) → slice_get (paths_of self.now v) result ≡ Some number }
        ensures empty { number ≡ empty_path → result ≡ 0 }
    {
        self.stored_place(number) as usize
    }

    /// The place of a path, as it is stored.
    pub(crate) fn stored_place(&self, number: PathNo) -> u32
        requires { IsPath self.now number }
        ensures own { IsPlaceOf self.now number result }
        ensures empty { number ≡ empty_path → result ≡ 0 }
    {
        self.places[number.0 as usize]
    }

    /// How many numbers stand for paths: those of the empty path, of (0), and of the permitted paths.
    pub(crate) fn count(&self) -> u32
        ensures value { result ≡ length (paths self.now) }
        ensures few { result ≤ MOST_PATHS * (MOST_ROUTERS - 1) + 2 }
        ensures distinct { AreDistinct self.now }
    {
        2 + self.paths.len() as u32
    }

    /// Whether a path has this number.
    pub fn has_path(&self, number: PathNo) -> bool
        ensures { IsTrue result ↔ IsPath self.now number }
    {
        (number.0 as usize) < self.paths.len() + 2
    }

    /// The path that is `node` followed by this path, where it is permitted at `node`; `None` where it
    /// is not, and where there is no such router, slot or path. `slot` is that of the neighbour that
    /// the path came from; the answer is the same for each of them.
    pub fn extend(&self, node: u32, slot: usize, number: PathNo) -> Option<PathNo>
        ensures some { IfSome result (λ q. IsTrue (same_path (path self.now q) (node ∷ path self.now number))) }
        ensures own { IfSome result (λ q. IsPath self.now q × IsTrue (is_own self.now node q)) }
        ensures only { slot < length (hops_of self.now node) → IsPath self.now number
            → (q : APathNo) → IsTrue (same_path (path self.now q) (node ∷ path self.now number)) → result ≡ Some q }

        ensures no_router { self.now.nodes ≤ node → result ≡ None }
        ensures no_slot { length (hops_of self.now node) ≤ slot → result ≡ None }
        ensures no_path { length (paths self.now) ≤ number.0 → result ≡ None }
    {
        if slot >= self.hops(node).len() || !self.has_path(number) {
            return None;
        }
        match self.index.first() {
            Some(index) => index.extensions.find(node, number),
            None => self.number_at(node, self.path(number)),
        }
    }

    /// The place, from 0, among the permitted paths of `node`, the best first, of the path that is `node`
    /// followed by this path; `None` where it is not permitted there.
    #[inline(always)]
    pub fn extended_place(&self, node: u32, number: PathNo) -> Option<usize>
        requires { IsPath self.now number }
        ensures some { IfSome result (IsExtendedAt self.now node number) }
        ensures whole { (q : APathNo) → path self.now q ≡ node ∷ path self.now number → IsSome result }
        ensures distinct { AreDistinct self.now }
    {
        match self.index.first() {
            Some(index) => index.extensions.find_place(node, number),
            None => {
                let path = self.number_at(node, self.path(number))?;
                Some(self.place(path))
            }
        }
    }

    /// The number of the path that begins with `node` and goes on with `rest`.
    fn number_at(&self, node: u32, rest: &[u32]) -> Option<PathNo>
        ensures some { IfSome result (λ q. path self.now q ≡ node ∷ rest.now) }
        ensures own { IfSome result (λ q. IsPath self.now q × IsTrue (is_own self.now node q)) }
        ensures only { (q : APathNo) → path self.now q ≡ node ∷ rest.now → result ≡ Some q }
    {
        // Opens the invariant, from which each answer follows.
        let _ = &self.links;
        let numbers = self.permitted(node);
        find_path(self, numbers, self.tail_hashes(node), node, rest)
    }

    /// Of each permitted path of a router, best first, the hash of the path without its first node.
    fn tail_hashes(&self, node: u32) -> &[u32]
        ensures { result.now ≡ tail_hashes_of self.now node }
    {
        tables::row_of(&self.tail_hashes, node)
    }
}

/// The first of these paths that is `node` followed by `rest`, given the hash of each path without
/// its first node. Nodes are compared only where the hash is that of `rest`.
fn find_path(
    instance: &Instance,
    numbers: &[PathNo],
    hashes: &[u32],
    node: u32,
    rest: &[u32],
) -> Option<PathNo>
    requires paths { All (IsPath instance.now) numbers.now }
    requires hashes { hashes.now ≡ map (tail_hash instance.now) numbers.now }
    ensures { result ≡ find (λ q. same_path (path instance.now q) (node ∷ rest.now)) numbers.now }
{
    let hash = tables::hash_of(rest);
    let mut start = 0;
    while let Some(skipped) = first_equal(&hashes[start..], hash) {
        let number = numbers[start + skipped];
        if is_made_of(instance.path(number), node, rest) {
            return Some(number);
        }
        start += skipped + 1;
    }
    None
}

/// Whether these nodes are `first` followed by `rest`.
fn is_made_of(nodes: &[u32], first: u32, rest: &[u32]) -> bool
    ensures { result ≡ same_path nodes.now (first ∷ rest.now) }
{
    match nodes {
        [] => false,
        [node, others @ ..] => *node == first && others == rest,
    }
}
