//! Shapes of a run, what is found at its checkpoints, and the verdict on it.
//!
//! A shape is what decides how a run goes on: each router's path, rows and order, and the pending
//! events as they are seen from its time. Contracts see a `Shape` as these lists, and a `Watch` as the
//! gaps that it keeps and what it has found. Proved: equality of shapes is the definition's, what a
//! watch finds is the first shape that comes again within `limits::WINDOW` checkpoints, and then it
//! comes again for ever (`laws`). Not proved: that a run which oscillates is ever found to do so.
#![tactic(auto)]

mod builder;
pub mod laws;
mod seen;
mod shape;
mod verdict;
mod watch;

pub use builder::ShapeBuilder;
pub use shape::Shape;
pub use verdict::{Finding, Verdict};
pub use watch::Watch;
