//! The routing protocol as a model of `tw_process`.
//!
//! A `Routing` is a case whose routers are the processes of a model: an event is handled and taken back as `tw_handlers`
//! does it. Proved: the simulation of this model is the one that `twarp` runs, so that what is said of any model, as by
//! `tw_sequential` and `tw_engine`, is said of that simulation (`laws`); the handlers do what it says, the way back is
//! exact, and the model keeps the laws of `tw_process`.
#![tactic(auto)]

mod handlers;
pub mod laws;
mod routing;
mod sending;
mod state;

pub use routing::Routing;
pub use state::RouterState;
