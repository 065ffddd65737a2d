//! How a worker of a parallel run paces its turns: how far it runs ahead of the bound, how much it does between two
//! meetings, and how long it waits for news before it sleeps.
//!
//! Plain functions of figures: ticks of the run, events, and microseconds. Proved: a worker stops at the stop at the
//! latest, and commits where the bound is the stop. No promise rests on the rest, which is tested by figures.
#![tactic(auto)]

mod numbers;
mod pace;
mod rests;
#[cfg(test)]
mod rows;
mod window;

pub use numbers::{ALL_TIME, LOOKS_OF_A_ROUND, NAP_MICROS, NAPS};
pub use pace::Pace;
pub use rests::{Looks, longest_nap};
pub use window::Work;
