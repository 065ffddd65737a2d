//! Worked rows of the input, the router and the one-thread run as tests: cases small enough to follow by hand, with
//! what each call must answer. The rows of the machine and of the programs begin with the same cases.
//!
//! Each test tries a call once more where memory was refused, so that the tests also pass where any one
//! allocation is refused, as `checks/refuse_memory.py` does with each, and `rt try --test --fail-alloc N`
//! with the N-th.
//!
//! To prove a function takes the longer, the more parts the values have that it lets go, at each of its ends: so large
//! ones are let go by `drop`, which does not see what it is given.
#![tactic(auto)]

#[cfg(test)]
mod ample;
pub mod cases;
#[cfg(test)]
mod command_lines;
pub mod events;
#[cfg(test)]
mod handed_over;
#[cfg(test)]
mod handlers;
#[cfg(test)]
mod held;
#[cfg(test)]
mod instances;
#[cfg(test)]
mod lanes;
#[cfg(test)]
mod pending;
#[cfg(test)]
mod readings;
pub mod reports;
pub mod texts;
