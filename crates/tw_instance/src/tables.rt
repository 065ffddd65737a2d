//! Tables by router: a row for each, of neighbours, of path numbers, of hashes of paths.

ghost use Rattle.std.specs.Prelude.{◌≡◌, ◌≢◌, ◌<◌, ◌≤◌, ◌-◌, [], ◌∷◌, length, replicate, nat_lt, IfOk, OnErr, OnOk, vec_len, vec_capacity};
ghost use Rattle.std.specs.List.{prefix_len};
ghost use Rattle.tw_instance.specs.Tables.{hash, items, push_at, row, with_hop, with_link, with_node};

use std::alloc::{AllocError, Global};
use tw_event::PathNo;
use tw_model::{Hop, Link};

/// The multiplier of a hash of nodes, as in CPython's hash of strings.
const MULTIPLIER: u32 = 1_000_003;

/// Its square, modulo 2^32.
const SECOND_POWER: u32 = 3_573_587_337;

/// Its fourth power, modulo 2^32.
const FOURTH_POWER: u32 = 1_525_764_945;

/// The row of a router, empty where there is no such router.
pub fn row_of<T>(rows: &[Vec<T>], node: u32) -> &[T]
    ensures { result.now ≡ row rows.now node }
{
    match rows.get(node as usize) {
        Some(row) => row,
        None => &[],
    }
}

/// A table of so many empty rows.
pub fn empty_rows<T: Drop>(alloc: Global, count: u32) -> Result<Vec<Vec<T>>, AllocError>
    ensures { IfOk result (λ rows. items rows.items ≡ replicate count []) }
{
    let mut rows = Vec::new(alloc);
    for _ in 0..count {
        rows.push(Vec::new(alloc))?;
    }
    Ok(rows)
}

/// The rows before any path was given: the origin has one item.
pub fn opening_rows<T: Drop>(alloc: Global, count: u32, item: T) -> Result<Vec<Vec<T>>, AllocError>
    requires { 0 < count }
    ensures { IfOk result (λ rows. items rows.items ≡ (item ∷ []) ∷ replicate (count - 1) []) }
{
    let mut rows = empty_rows(alloc, count)?;
    rows[0].push(item)?;
    Ok(rows)
}

/// The places of the empty path and of the origin's own at their routers.
pub fn opening_places(alloc: Global) -> Result<Vec<u32>, AllocError>
    ensures { IfOk result (λ places. places.items ≡ 0 ∷ 0 ∷ []) }
{
    Ok(vec![in alloc; 0, 0]?)
}

/// Makes the two ends of a link neighbours of each other, each with the delay from it to the other.
pub fn join(rows: &mut [Vec<Hop>], link: &Link) -> Result<(), AllocError>
    requires first { link.now.first < length rows.old }
    requires second { link.now.second < length rows.old }
    requires apart { link.now.first ≢ link.now.second }
    ensures ok { OnOk result (items rows.new ≡ with_link (items rows.old) link.now) }
    ensures err { OnErr result (items rows.new ≡ items rows.old) }
{
    let (first, second) = (link.first as usize, link.second as usize);
    rows[first].reserve(1)?;
    rows[second].reserve(1)?;
    insert_reserved(
        &mut rows[first],
        Hop {
            peer: link.second,
            delay: link.delay,
        },
    );
    insert_reserved(
        &mut rows[second],
        Hop {
            peer: link.first,
            delay: link.back,
        },
    );
    Ok(())
}

/// Puts a neighbour among others in ascending order, where there is room.
fn insert_reserved(row: &mut Vec<Hop>, hop: Hop)
    requires { vec_len row.old < vec_capacity row.old }
    ensures { row.new.items ≡ with_hop hop row.old.items }
{
    let index = count_below(row, hop.peer);
    let _ = row.insert(index, hop);
}

/// How many neighbours stand before the first that has no lower number than this.
fn count_below(row: &[Hop], peer: u32) -> usize
    ensures value { result ≡ prefix_len (λ h. nat_lt h.peer peer) row.now }
    ensures within { result ≤ length row.now }
{
    row.iter().take_while(|hop| hop.peer < peer).count()
}

/// Puts a path number, and the hash of the path, behind those of a router.
pub fn push_path(
    numbers: &mut [Vec<PathNo>],
    hashes: &mut [Vec<u32>],
    node: u32,
    number: PathNo,
    hash: u32,
) -> Result<(), AllocError>
    requires number { node < length numbers.old }
    requires hash { node < length hashes.old }
    ensures numbers { OnOk result (items numbers.new ≡ push_at (items numbers.old) node number) }
    ensures hashes { OnOk result (items hashes.new ≡ push_at (items hashes.old) node hash) }
    ensures err { OnErr result ((items numbers.new ≡ items numbers.old) × (items hashes.new ≡ items hashes.old)) }
{
    let node = node as usize;
    numbers[node].reserve(1)?;
    hashes[node].reserve(1)?;
    numbers[node].push_reserved(number);
    hashes[node].push_reserved(hash);
    Ok(())
}

/// A hash of these nodes: a polynomial in the multiplier, by Horner's rule.
pub fn hash_of(nodes: &[u32]) -> u32
    ensures { result ≡ hash nodes.now }
{
    let mut hash = 0;
    let mut rest = nodes;
    // A multiplication waits for the one before it, so four nodes share one.
    while let [first, second, third, fourth, others @ ..] = rest {
        hash = next_four(hash, *first, *second, *third, *fourth);
        rest = others;
    }
    rest.iter().fold(hash, |hash, node| next_hash(hash, *node))
}

fn next_hash(hash: u32, node: u32) -> u32
    ensures { result ≡ with_node hash node }
{
    hash.wrapping_mul(MULTIPLIER).wrapping_add(node)
}

fn next_four(hash: u32, first: u32, second: u32, third: u32, fourth: u32) -> u32
    ensures { result ≡ with_node (with_node (with_node (with_node hash first) second) third) fourth }
{
    let front = next_hash(first, second).wrapping_mul(SECOND_POWER);
    let back = next_hash(third, fourth);
    hash.wrapping_mul(FOURTH_POWER)
        .wrapping_add(front.wrapping_add(back))
}
