//! The sequential engine for any model: again and again the least pending event is handled.
//!
//! A `Sequential` has the states of a model's processes and its pending events. Proved, once for every model: after
//! `run_to` it is the sequential run that `tw_sim` defines, to that stop; where memory or a counter ends it sooner, its
//! value says how far it has come, and a later call goes on from there. `handle_least` is one turn, for those who keep
//! the states of the processes themselves.
#![tactic(auto)]

mod handling;
pub mod limits;
mod opening;
mod sequential;

pub use handling::handle_least;
pub use sequential::Sequential;
