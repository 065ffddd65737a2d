//! Lists of paths, one of each router.

ghost use Rattle.std.specs.Prelude.{◌≡◌, ◌<◌, [], ◌∷◌, length, map, slice_index_or, slice_set, IfOk, if◌then◌else◌};
ghost use Rattle.std.specs.List.{find, list_all, range_with_len};
ghost use Rattle.tw_elimination.specs.Narrowing.{list_at};
ghost use Rattle.tw_elimination.specs.Rounds.{left_in};
ghost use Rattle.tw_instance.specs.Tables.{items};
ghost use Rattle.tw_model.specs.Case.{IsCase};
ghost use Rattle.tw_model.specs.Net.{empty_path};
ghost use Rattle.tw_policy.specs.Search.{first_of as first_path_of, has_any, has_choice};
ghost use Rattle.tw_stable.specs.Splitting.{with_only as with_only_of};

use std::alloc::{AllocError, Global};
use tw_elimination::Elimination;
use tw_event::PathNo;

/// What elimination has left to each router.
pub(crate) fn lists_left(
    alloc: Global,
    elimination: &Elimination<'_>,
) -> Result<Vec<Vec<PathNo>>, AllocError>
    ensures case { IsCase elimination.now.case }
    ensures lists { let e = elimination.now in IfOk result (λ lists. items lists.items ≡ map (left_in e.case e.rounds) (range_with_len 0 e.case.net.nodes)) }
{
    let instance = elimination.case().instance();
    let mut lists = Vec::new(alloc);
    for node in 0..instance.nodes() {
        lists.push(Vec::from_slice(alloc, elimination.left(node))?)?;
    }
    Ok(lists)
}

/// The first router that has two paths or more.
pub(crate) fn first_choice(lists: &[Vec<PathNo>]) -> Option<usize>
    ensures { result ≡ find (has_choice (list_at (items lists.now))) (range_with_len 0 (length lists.now)) }
{
    for (node, paths) in lists.iter().enumerate() {
        if paths.as_slice().len() > 1 {
            return Some(node);
        }
    }
    None
}

/// These lists, but of one router this path alone.
pub(crate) fn with_only(
    alloc: Global,
    lists: &[Vec<PathNo>],
    router: usize,
    path: PathNo,
) -> Result<Vec<Vec<PathNo>>, AllocError>
    ensures { IfOk result (λ with. items with.items ≡ with_only_of (items lists.now) router path) }
{
    let mut with = Vec::new(alloc);
    for (node, paths) in lists.iter().enumerate() {
        with.push(copy_or_only(alloc, paths, node == router, path)?)?;
    }
    Ok(with)
}

/// A path alone, or these paths.
fn copy_or_only(
    alloc: Global,
    paths: &[PathNo],
    is_only: bool,
    path: PathNo,
) -> Result<Vec<PathNo>, AllocError>
    ensures { IfOk result (λ copy. copy.items ≡ (if is_only then path ∷ [] else paths.now)) }
{
    if is_only {
        Ok(vec![in alloc; path]?)
    } else {
        Vec::from_slice(alloc, paths)
    }
}

/// Whether each router has a path.
pub(crate) fn have_all(lists: &[Vec<PathNo>]) -> bool
    ensures { result ≡ list_all (has_any (list_at (items lists.now))) (range_with_len 0 (length lists.now)) }
{
    for paths in lists {
        if paths.as_slice().is_empty() {
            return false;
        }
    }
    true
}

/// The first path of each router, and the empty one where it has none.
pub(crate) fn first_paths(alloc: Global, lists: &[Vec<PathNo>]) -> Result<Vec<PathNo>, AllocError>
    ensures { IfOk result (λ ribs. ribs.items ≡ map (first_path_of (list_at (items lists.now))) (range_with_len 0 (length lists.now))) }
{
    let mut ribs = Vec::new(alloc);
    for paths in lists {
        ribs.push(first_of(paths))?;
    }
    Ok(ribs)
}

/// The first of these paths, or the empty one where there is none.
fn first_of(paths: &[PathNo]) -> PathNo
    ensures { result ≡ slice_index_or paths.now 0 empty_path }
{
    match paths {
        [first, ..] => *first,
        [] => PathNo::EMPTY,
    }
}
