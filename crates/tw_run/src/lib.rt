//! The program `run` as a call: it does what `seq` of `tw_commands` does, by workers in threads that run
//! ahead of one another (after Jefferson, Virtual Time, 1985).
//!
//! It stands in a crate of its own, since it starts threads and may wait, and the other programs never do.
//! Proved, for sources and sinks that tell their bytes: what is written is exactly the answer that `seq`
//! gives to the text that was read, for every number of workers and every batch, and however routers are
//! dealt out; or nothing where memory or a thread was refused or the one-thread run gets stuck at a full
//! counter, or a prefix where the sink failed.
//! Not proved: that threads run side by side, that the run ends, and that neither memory nor a thread is refused.
#![tactic(auto)]

mod cause;
mod chosen;
mod dealing;
mod laps;
mod ran;
mod run;
mod segments;
mod sounding;

pub use run::run_io;
pub use tw_commands::{Cause, Stages, Status};
pub use tw_options::{Asked, Report};
pub use tw_parallel::Gate;
pub use tw_shard::Tally;
pub use tw_table::Seat;
