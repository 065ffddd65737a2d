//! The table that the workers take in turn.
ghost use Rattle.std.specs.Prelude.{◌≡◌, ◌<◌};
ghost use Rattle.crossbeam_queue.specs.Passes.{ruled_capacity};

use crate::hints::Hints;
use crate::rule::Queue;
use crate::seat::Seat;
use tw_exchange::Owners;

/// Where the workers leave the exchange for one another: one of them at a time takes it.
#[derive(Drop)]
pub struct Table {
    pub(crate) queue: Queue,
    pub(crate) workers: u32,
    // What says the worker of each router, which stays while the table is open.
    pub(crate) owners: Owners,
    pub(crate) hints: Hints,
    pub(crate) stop: u64,
    pub(crate) ghost one: { ruled_capacity queue ≡ 1 },
    pub(crate) ghost some: { 0 < workers },
}

/// A table that was not closed, since a seat is absent.
#[derive(Drop)]
pub struct Missing {
    /// The table.
    pub table: Table,
    /// The seats that were handed in.
    pub seats: Vec<Seat>,
}
