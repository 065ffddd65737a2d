//! The shards of a parallel run as they begin.

ghost use Rattle.std.specs.Prelude.{◌≡◌, ◌<◌, ℕ, length, slice_index_or, IfOk};
ghost use Rattle.tw_shard.specs.Shard.{IsOpeningShard, no_shard};

use std::alloc::{AllocError, Global};
use tw_instance::Case;
use tw_shard::Shard;
use tw_shard::shards::open_all;
use tw_sim::Cancel;

/// The shards of so many workers, by rising worker, as they begin. What waits is kept by time.
pub(crate) fn open_shards<'a>(
    alloc: Global,
    case: &'a Case,
    workers: u32,
    retains: bool,
    cancel: Cancel,
) -> Result<Vec<Shard<'a>>, AllocError>
    ensures count { IfOk result (λ v. length v.items ≡ workers) }
    ensures each { IfOk result (λ v. (k : ℕ) → k < workers → IsOpeningShard case.now k workers retains cancel (slice_index_or v.items k no_shard)) }
{
    let mut shards = open_all(alloc, case, workers, retains, cancel)?;
    order_by_time(&mut shards)?;
    Ok(shards)
}

/// The pending events of each of these shards are kept by time from now on.
fn order_by_time(shards: &mut [Shard<'_>]) -> Result<(), AllocError>
    ensures { shards.new ≡ shards.old }
{
    for place in 0..shards.len() {
        shards[place].order_by_time()?;
    }
    Ok(())
}
