//! Hands with no messages.
ghost use Rattle.std.specs.Prelude.{◌≡◌, IfOk, length};
ghost use Rattle.std.specs.List.{AllByRecursion};
ghost use Rattle.tw_parallel.specs.Hands.{IsEmptyHand};

use std::alloc::{AllocError, Global};
use tw_table::Hand;

/// A hand for each of so many workers.
pub(crate) fn open_hands(alloc: Global, workers: u32) -> Result<Vec<Hand>, AllocError>
    ensures count { IfOk result (λ v. length v.items ≡ workers) }
    ensures empty { IfOk result (λ v. AllByRecursion IsEmptyHand v.items) }
{
    let mut hands = Vec::with_capacity(alloc, workers as usize)?;
    for _ in 0..workers {
        hands.push_reserved(Hand::new(alloc));
    }
    Ok(hands)
}
