//! Four passes over a slice, eight values at a time: its greatest rank, the first place of a rank,
//! its least time, and how many times are below a limit.
//!
//! Each takes whole chunks by vectors and the values after them one by one. None of them fails or
//! takes memory.
#![tactic(auto)]

mod ranks;
mod times;

pub use ranks::{best_rank, first_equal};
pub use times::{count_below, least_time};
