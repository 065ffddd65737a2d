//! The events that are pending at a shard, by router or by time.
//!
//! The calls of [`Pending`] ask for the events of one router, or the least of all, and take an event out wherever
//! it stands.
#![tactic(auto)]

mod bucket_queue;
mod by_router;
mod far;
mod least_times;
mod merged;
mod pending;
mod policy;
mod queue_table;
mod timed_events;

pub use pending::Pending;
