//! The definitions that the project's contracts speak of, in `specs/`: instances of the stable paths
//! problem, router states, the effect of an event, cases and what they simulate.
//!
//! The code is the plain data that code and definitions share, the limits (`limits`), and the rules
//! with their words. Contracts see each value as its fields. Proved, in `proofs/` for the crates
//! above: what a case simulates is lawful, and a run at rest is stable; `tw_seq::laws` tells it. Not
//! proved here: that any code does what the definitions say.
#![tactic(auto)]

mod case;
pub mod limits;
mod memory;
mod net;
mod outcome;
mod rule;
mod state;

pub use case::Scene;
pub use memory::OrMemory;
pub use net::{Hop, Link, PermittedPath};
pub use outcome::{Outcome, RouterEnd};
pub use rule::Rule;
pub use state::{Counters, Row};
