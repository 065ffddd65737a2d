//! Which paths extend which: a path that is one node followed by another path extends that path.

ghost use Rattle.std.specs.Prelude.{◌≡◌, ◌==◌, ◌<◌, ◌∷◌, length, map, slice_index_or, IfOk, IfSome, IsSome};
ghost use Rattle.std.specs.List.{All, position};
ghost use Rattle.tw_event.specs.declared.event.PathNo.{PathNo as APathNo};
ghost use Rattle.tw_model.specs.Net.{IsPath, Net, path};
ghost use Rattle.tw_instance.specs.Chains.{first_node as first_node_of};
ghost use Rattle.tw_instance.specs.Extensions.{ArePlacesOf, nodes_in, places_in};
ghost use Rattle.tw_instance.specs.Firsts.{AreFirsts, IsFirstOf};
ghost use Rattle.tw_instance.specs.Hops.{AreDistinct};

use crate::chains::{Chains, rests_of};
use crate::instance::Instance;
use std::alloc::{AllocError, Global};
use tw_event::PathNo;

/// A path that extends another.
#[derive(Clone, Copy, Drop, Debug)]
pub struct Extension {
    /// Its first node.
    pub node: u32,
    /// Its place, from 0, among the permitted paths of that router.
    pub place: u32,
}

/// The place that stands for none.
const NOWHERE: u32 = u32::MAX;

/// Of each path of an instance, by its number, the paths that extend it, in compressed sparse rows.
#[derive(Drop, Debug)]
pub struct Extensions {
    /// Where the row of each path begins, and behind these where the last one ends.
    starts: Vec<u32>,
    /// The extensions, row by row.
    extensions: Vec<Extension>,
    /// The number of each extension.
    numbers: Vec<PathNo>,
    /// The first extension of each row, at no place where the row is empty: most look-ups end here.
    firsts: Vec<Extension>,
}

impl Extensions {
    ghost use Rattle.tw_instance.specs.Extensions.{HasExtensions, HasRow, IsExtendedAt};

    /// The table of an instance.
    pub fn new(alloc: Global, instance: &Instance) -> Result<Extensions, AllocError>
        ensures { IfOk result (HasExtensions instance.now) }
    {
        let chains = Chains::new(alloc, rests_of(alloc, instance)?)?;
        let (starts, numbers) = chains.rows(alloc)?;
        let extensions = extensions_of(alloc, instance, &numbers)?;
        let firsts = firsts_of(alloc, &starts, &extensions)?;
        Ok(Extensions {
            starts,
            extensions,
            numbers,
            firsts,
        })
    }

    /// The path that is `node` followed by the path of this number, where there is one.
    #[inline(always)]
    pub fn find(&self, node: u32, number: PathNo) -> Option<PathNo>
        requires { HasRow self.now number.0 }
        ensures some { (net : Net) → HasExtensions net self.now → IsPath net number
            → IfSome result (λ q. path net q ≡ node ∷ path net number) }
        ensures only { (net : Net) → HasExtensions net self.now → IsPath net number → AreDistinct net
            → (q : APathNo) → path net q ≡ node ∷ path net number → result ≡ Some q }
    {
        let index = self.position(node, number)?;
        Some(self.numbers[index])
    }

    /// The place, from 0, among the permitted paths of `node` of the path that is `node` followed by the path
    /// of this number, where there is one.
    #[inline(always)]
    pub fn find_place(&self, node: u32, number: PathNo) -> Option<usize>
        requires { HasRow self.now number.0 }
        ensures some { (net : Net) → HasExtensions net self.now → IsPath net number
            → IfSome result (IsExtendedAt net node number) }
        ensures whole { (net : Net) → HasExtensions net self.now → IsPath net number
            → (q : APathNo) → path net q ≡ node ∷ path net number → IsSome result }
    {
        let first = self.firsts[number.0 as usize];
        if first.node == node && first.place != NOWHERE {
            return Some(first.place as usize);
        }
        let index = self.position(node, number)?;
        Some(self.extensions[index].place as usize)
    }

    /// Where in the table the path stands that is `node` followed by the path of this number.
    #[inline(always)]
    fn position(&self, node: u32, number: PathNo) -> Option<usize>
        requires { HasRow self.now number.0 }
        ensures within { IfSome result (λ i. i < length self.now.numbers.items) }
        ensures some { (net : Net) → HasExtensions net self.now → IsPath net number
            → IfSome result (λ i. (x : APathNo) → x ≡ slice_index_or self.now.numbers.items i x → path net x ≡ node ∷ path net number) }
        ensures none { (net : Net) → HasExtensions net self.now → IsPath net number
            → (q : APathNo) → path net q ≡ node ∷ path net number → IsSome result }
    {
        let row = number.0 as usize;
        let (start, end) = (self.starts[row] as usize, self.starts[row + 1] as usize);
        let place = first_with_node(&self.extensions[start..end], node)?;
        Some(start + place)
    }
}

/// The first extension of each row, where these are the places at which the rows begin, and behind them the
/// one where the last row ends.
fn firsts_of(
    alloc: Global,
    starts: &[u32],
    extensions: &[Extension],
) -> Result<Vec<Extension>, AllocError>
    ensures { IfOk result (λ firsts. AreFirsts starts.now extensions.now firsts.items) }
{
    let mut firsts = Vec::with_capacity(alloc, starts.len())?;
    for row in 1..starts.len() {
        firsts.push(first_of(starts[row - 1], starts[row], extensions))?;
    }
    Ok(firsts)
}

/// The first extension of the row from one place to another.
fn first_of(start: u32, end: u32, extensions: &[Extension]) -> Extension
    ensures { IsFirstOf start end extensions.now result }
{
    match extensions.get(start as usize) {
        Some(extension) if start < end => *extension,
        _ => Extension {
            node: 0,
            place: NOWHERE,
        },
    }
}

/// The first of these extensions that begins with `node`. A row seldom has more than one.
#[inline(always)]
fn first_with_node(extensions: &[Extension], node: u32) -> Option<usize>
    ensures { result ≡ position (λ e. e.node == node) extensions.now }
{
    extensions
        .iter()
        .position(|extension| extension.node == node)
}

/// Of each of these paths its first node, 0 of the empty path, and its place at its router.
fn extensions_of(
    alloc: Global,
    instance: &Instance,
    numbers: &[PathNo],
) -> Result<Vec<Extension>, AllocError>
    requires { All (IsPath instance.now) numbers.now }
    ensures nodes { IfOk result (λ extensions. nodes_in extensions.items ≡ map (first_node_of instance.now) numbers.now) }
    ensures places { IfOk result (λ extensions. ArePlacesOf instance.now numbers.now (places_in extensions.items)) }
{
    let mut extensions = Vec::with_capacity(alloc, numbers.len())?;
    for number in numbers {
        let node = first_node(instance.path(*number));
        let place = instance.stored_place(*number);
        extensions.push(Extension { node, place })?;
    }
    Ok(extensions)
}

fn first_node(nodes: &[u32]) -> u32
    ensures { result ≡ slice_index_or nodes.now 0 0 }
{
    nodes.first().copied().unwrap_or(0)
}
