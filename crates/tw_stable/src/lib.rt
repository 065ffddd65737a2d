//! The stable assignments of a case, each once, by how its routers stand once the script is over.
//!
//! Elimination leaves to each router what it may use in any of them (`tw_elimination`). Where a router still
//! has a choice, each of its paths is tried alone, and elimination goes on within what is left. Proved: each
//! assignment that is listed is stable, none is listed twice, and where the splits suffice none is left out.
#![tactic(auto)]

mod assignments;
pub mod laws;
mod lists;
mod progress;
mod search;

pub use assignments::{StableAssignments, stable_assignments};
pub use progress::{SplitProgress, Untold};
