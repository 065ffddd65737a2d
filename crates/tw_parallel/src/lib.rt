//! A parallel run between two runs of its workers: the shards and hands of all of them, and the exchange
//! (after Jefferson, Virtual Time, 1985).
//!
//! Contracts see a `Sim` as the record of its case, the exchange and each worker's share (`specs/Sim`);
//! `machine` of that record is a Time Warp machine (`tw_core`). Every `Sim` keeps the rule of `tw_rule`, so
//! that what it has committed is the one-thread run; where it is settled at its stop, `outcome` tells
//! all of that run to it, for every number of workers. A settled `Sim` stands at a cut of the one-thread
//! run, and shards at such a cut are a `Sim`, whichever worker has which router (`laws`). Nothing here
//! starts a thread: a `Sim` is taken apart into what a table and its workers take, and put together from
//! what they leave.
#![tactic(auto)]

mod counts;
mod crew;
mod events;
mod hands;
mod into_run;
pub mod laws;
mod moving;
mod of_run;
mod outcome;
mod run;
mod shards;
mod sim;
mod vacancy;

pub use into_run::StillParallel;
pub use moving::UnfitOwners;
pub use of_run::StillAlone;
pub use outcome::NotSettled;
pub use run::{Ended, Options, run_until};
pub use sim::{Parts, Sim};
pub use tw_model::{OrMemory, Outcome};
pub use tw_threads::{EndCause, Gate, OpenGate};
pub use tw_warp::StopLower;
