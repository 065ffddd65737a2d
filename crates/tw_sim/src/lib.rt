//! What every simulation of routers has, whatever its protocol: events in an order, counted lists of
//! them, the sequential run, and lists of events that are closed.
//!
//! The definitions stand in `specs/`, over any `Simulation` that keeps the laws `IsLawful` and
//! `IsNumbered`. Proved, and told by the functions of `laws`: the sequential run to each time ends and
//! is closed, and no other list of events and no other histories are. Nothing here names a kind of
//! event, so that a new kind never checks it again. The only code is plain data, signed messages and
//! the steps of a machine that runs ahead with the two ways in which it takes back what it has sent,
//! and which worker has a router.
#![tactic(auto)]

pub mod laws;
mod machine;
mod owners;

pub use machine::{Cancel, Signed, Step};
pub use owners::owner;
