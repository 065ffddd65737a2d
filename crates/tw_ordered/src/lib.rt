//! Events in order: a list that stays in order, and searching lists that are in none.
//!
//! The definitions and facts that the queues of events share stand here: `tw_calendar`, `tw_queue` and `tw_held`
//! are above it.
#![tactic(auto)]

mod ordered_queue;
mod search;

pub use ordered_queue::OrderedQueue;
pub use search::{
    comes_before, count_of, earlier, earlier_of, least_of, place_of, remove_from, sooner,
    soonest_of,
};
