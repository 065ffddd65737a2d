//! Which routers are neighbours: an adjacency matrix.

ghost use Rattle.std.specs.Prelude.{◌≡◌, ◌<◌, false, true, length, replicate, slice_set, IfOk};
ghost use Rattle.tw_instance.specs.Adjacency.{IsSquare, cell, with_joined};
ghost use Rattle.tw_instance.specs.Tables.{items};

use crate::tables;
use std::alloc::{AllocError, Global};

/// A matrix of so many routers, none of which are neighbours.
pub fn empty(alloc: Global, count: u32) -> Result<Vec<Vec<bool>>, AllocError>
    ensures { IfOk result (λ rows. items rows.items ≡ replicate count (replicate count false)) }
{
    let mut rows = Vec::new(alloc);
    for _ in 0..count {
        rows.push(vec![in alloc; false; count as usize]?)?;
    }
    Ok(rows)
}

/// Makes two routers neighbours of each other.
pub fn join(rows: &mut [Vec<bool>], first: u32, second: u32)
    requires first { first < length rows.old }
    requires second { second < length rows.old }
    requires square { IsSquare rows.old (length rows.old) }
    ensures { items rows.new ≡ with_joined (items rows.old) first second }
{
    let (first, second) = (first as usize, second as usize);
    set(&mut rows[first], second);
    set(&mut rows[second], first);
}

fn set(row: &mut Vec<bool>, place: usize)
    requires { place < length row.old.items }
    ensures { row.new.items ≡ slice_set row.old.items place true }
{
    row[place] = true;
}

/// Whether two routers are neighbours.
pub fn are_joined(rows: &[Vec<bool>], first: u32, second: u32) -> bool
    ensures { result ≡ cell (items rows.now) first second }
{
    match tables::row_of(rows, first).get(second as usize) {
        Some(cell) => *cell,
        None => false,
    }
}
