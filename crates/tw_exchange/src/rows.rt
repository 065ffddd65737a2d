//! Rows with a place for each worker.

ghost use Rattle.std.specs.Prelude.{◌≡◌, [], IfOk, replicate};
ghost use Rattle.tw_exchange.specs.Rows.{items};

use smallvec::SmallVec;
use std::alloc::{AllocError, Global};

/// A row of so many places needs no memory of its own: a worker that visits the exchange finds it beside the bound. Of
/// itself `twarp run` takes as many workers at most.
const PLACES_AT_HAND: usize = 4;

/// A row.
pub type Row<T> = SmallVec<T, PLACES_AT_HAND>;

/// No mail for any of so many workers. What mail is of is of no concern here.
pub fn no_mail<T: Copy>(alloc: Global, workers: u32) -> Result<Row<Vec<T>>, AllocError>
    ensures { IfOk result (λ mail. items mail.items ≡ replicate workers []) }
{
    let mut mail = Row::new(alloc);
    for _ in 0..workers {
        mail.push(Vec::new(alloc))?;
    }
    Ok(mail)
}

/// A row with the same item for each of so many workers.
pub fn row<T: Copy + Default>(alloc: Global, workers: u32, item: T) -> Result<Row<T>, AllocError>
    ensures { IfOk result (λ row. row.items ≡ replicate workers item) }
{
    let mut row = Row::new(alloc);
    for _ in 0..workers {
        row.push(item)?;
    }
    Ok(row)
}
