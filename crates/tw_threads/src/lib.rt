//! The threads of a parallel run: each worker that has something to do in a thread of its own, at one table.
//!
//! `run_all` starts a thread for each such worker, joins all of them, lets the others take their turns, and closes the table. It knows of a worker
//! what `Work` says, and names no lifetime of a case. Proved: the exchange and what the workers then have
//! are, put together, a good state of the machine of their case, whatever the threads do and in whatever
//! order, where memory or a thread is refused too. Nothing here promises that a thread runs or ends.
#![tactic(auto)]

mod end_cause;
mod join;
mod run;
mod start;
mod work;
mod workers;

pub use end_cause::EndCause;
pub use run::{Ran, run_all};
pub use tw_workers::{Gate, Leaving, OpenGate};
pub use work::Work;
