//! A router of an instance: the path that it uses, what it heard from each neighbour, its ranking of
//! paths and which of them are barred, its counters.
//!
//! Contracts see a `Router` as its net, its number and its state; the ranks that it keeps to find its
//! best path fast stand in the type's invariant, so that no contract above speaks of them. Proved: each
//! read and each writer is the definition's, the ranks are always those of what was heard, and `best`
//! is the first path of the order that is not barred and that a neighbour offers, said of path numbers
//! and of nodes. Which event changes what is the matter of `tw_handlers`.
#![tactic(auto)]

mod ranks;
mod router;

pub use router::{OpenFault, Router};
