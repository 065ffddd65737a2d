//! One worker's routers, which run ahead of the others and are rolled back (after Jefferson, Virtual
//! Time, 1985).
//!
//! Contracts see a `Shard` as the record of its timelines, of what waits for its routers and of what they
//! have sent (`specs/Shard`); `shard_core` of that record is a Time Warp machine (`tw_core`) of these routers.
//! Proved: a shard opens as that machine does; `handle_next`, `undo_last`, `receive` and `commit` are its
//! steps, refusals among them; a refusal changes nothing, nor does want of memory, but that a `receive`
//! may have undone some events that are not before its message. `laws` tells what good states are for
//! every case.
#![tactic(auto)]

mod ahead;
pub mod laws;
mod past;
mod receive;
mod rejection;
mod roster;
mod router_at;
mod shard;
pub mod shards;
mod tally;
mod timeline;

pub use rejection::{Rejection, Returned};
pub use router_at::RouterAt;
pub use shard::{Shard, VacantShard};
pub use tally::Tally;
pub use tw_core::Refusal;
pub use tw_model::OrMemory;
