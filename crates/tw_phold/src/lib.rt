//! PHOLD, the usual workload of parallel simulators, as a model (Fujimoto, Performance of Time Warp under synthetic
//! workloads, 1990).
//!
//! Each process begins with as many jobs as the others. A job that comes to a process goes on after a random delay,
//! to a process that is drawn, or it stays: so as many jobs are there at all times. Random words are those of
//! SplitMix64, whose state has an exact way back, so that the reverse handler needs no note. Proved: the handlers do
//! what `specs/Phold.antt` says, the reverse handler gives back the state that was and all that was sent, and the
//! model keeps the laws that `tw_process` asks for.
#![tactic(auto)]

mod handlers;
pub mod laws;
mod phold;
mod random;
mod state;

pub use phold::Phold;
pub use random::{step, step_back, word};
pub use state::State;
