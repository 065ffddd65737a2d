//! When a run that is told no number of workers goes on by one thread, and when by several.
//!
//! Plain functions of figures: ticks of the run, events, and microseconds by a clock that may stand still or go back.
//! Proved: a lap or a stretch ends behind where the run is, and not past its stop. No promise rests on the rest, which
//! is tested by figures.
#![tactic(auto)]

mod pace;
#[cfg(test)]
mod rows;

pub use pace::{Alone, Course, MOST_WORKERS_CHOSEN, have_processors};
