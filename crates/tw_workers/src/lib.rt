//! What one worker of a parallel run does, off the table and at it (after Jefferson, Virtual Time, 1985).
//!
//! A `Worker` has a shard and a hand. It delivers the messages in its hand, handles events and receives
//! at once what it sends to its own routers; then it meets the table, where it leaves what is for others
//! and is handed its mail. `Worker::work` takes such turns until the worker may leave. Proved: whatever it
//! does off the table keeps its place as the rule of `tw_rule` asks, at want of memory too, so that it may
//! always give its shard and hand; no message in its hand is ever refused as late, foreign or not its own;
//! and where it leaves since all is settled, it has committed all before the stop. Nothing here starts a
//! thread.
#![tactic(auto)]

mod committing;
mod delivering;
mod gate;
mod handling;
pub mod laws;
mod meeting;
mod policy;
mod releases;
mod resting;
mod rooms;
mod worker;
mod working;

pub use gate::{Gate, OpenGate};
pub use tw_handlers::CounterFull;
pub use tw_model::OrMemory;
pub use worker::Worker;
pub use working::Leaving;
