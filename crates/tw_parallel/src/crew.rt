//! Workers are made of shards and hands, and taken apart again.
ghost use Rattle.std.specs.Prelude.{◌≡◌, ◌≤◌, [], IfOk, length, map, vec_capacity};
ghost use Rattle.std.specs.List.{AllByRecursion};
ghost use Rattle.tw_parallel.specs.Crew.{IsRoomForCrew};
ghost use Rattle.tw_model.specs.declared.limits.TheConstants.{LATEST};
ghost use Rattle.tw_table.specs.Shares.{shares_of};
ghost use Rattle.tw_workers.specs.Work.{IsAtWork};

use std::alloc::{AllocError, Global};
use tw_shard::Shard;
use tw_table::Hand;
use tw_workers::Worker;

/// Empty lists for workers, and for the shards and hands that they leave.
#[derive(Drop)]
pub(crate) struct Room<'a> {
    pub(crate) workers: Vec<Worker<'a>>,
    pub(crate) shards: Vec<Shard<'a>>,
    pub(crate) hands: Vec<Hand>,
}

/// Room for so many workers.
pub(crate) fn room_for<'a>(alloc: Global, count: usize) -> Result<Room<'a>, AllocError>
    ensures { IfOk result (λ room. IsRoomForCrew count room) }
{
    Ok(Room {
        workers: Vec::with_capacity(alloc, count)?,
        shards: Vec::with_capacity(alloc, count)?,
        hands: Vec::with_capacity(alloc, count)?,
    })
}

/// A worker of each shard, with its hand. The list is empty, with room for all.
pub(crate) fn workers_of<'a>(
    shards: Vec<Shard<'a>>,
    hands: Vec<Hand>,
    stop: u64,
    batch: u32,
    workers: Vec<Worker<'a>>,
) -> Vec<Worker<'a>>
    requires empty { workers.items ≡ [] }
    requires room { length shards.items ≤ vec_capacity workers }
    requires hands { length hands.items ≡ length shards.items }
    requires stop { stop ≤ LATEST }
    requires work { AllByRecursion (IsAtWork stop) (shares_of shards.items hands.items) }
    ensures shares { map (λ w. w.share) result.items ≡ shares_of shards.entry.items hands.items }
    ensures stops { AllByRecursion (λ w. w.stop ≡ stop) result.items }
{
    let mut workers = workers;
    let mut hands = hands.into_iter();
    for shard in shards {
        let Some(hand) = hands.next() else {
            unreachable!()
        };
        workers.push_reserved(Worker::new(shard, hand, stop, batch));
    }
    workers
}

/// The shards and hands of workers. The lists are empty, with room for all.
pub(crate) fn parts_of<'a>(
    workers: Vec<Worker<'a>>,
    shards: Vec<Shard<'a>>,
    hands: Vec<Hand>,
) -> (Vec<Shard<'a>>, Vec<Hand>)
    requires shards { (shards.items ≡ []) × (length workers.items ≤ vec_capacity shards) }
    requires hands { (hands.items ≡ []) × (length workers.items ≤ vec_capacity hands) }
    ensures count { length result.1.items ≡ length result.0.items }
    ensures shares { shares_of result.0.items result.1.items ≡ map (λ w. w.share) workers.entry.items }
{
    let mut shards = shards;
    let mut hands = hands;
    for worker in workers {
        let (shard, hand) = worker.into_parts();
        shards.push_reserved(shard);
        hands.push_reserved(hand);
    }
    (shards, hands)
}
