//! All routers of a case as one Time Warp machine, which a caller drives step by step (after Jefferson,
//! Virtual Time, 1985).
//!
//! Contracts see a `Warp` as the record of its shards, the messages on their way, the bound, the stop and when
//! what undone events have sent is taken back (`specs/Warp`); `warp_core` of that record is the machine of
//! `tw_core`. Proved: each step is that machine's, refusals among them, and the state is good at every
//! return.
#![tactic(auto)]

mod calls;
mod chunks;
mod flight;
pub mod laws;
mod least;
mod warp;

pub use tw_core::Refusal;
pub use tw_model::OrMemory;
pub use warp::{Answer, RunFault, StopLower, Warp};
