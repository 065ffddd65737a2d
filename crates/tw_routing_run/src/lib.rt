//! A case run as a model, by the sequential engine for any model, or in threads by the parallel one.
//!
//! Proved: `run_case` and `run_case_by` give the sequential run of the case's own simulation, which is the run of `tw_seq`, and
//! `router_at` and `router_in` the router as that run left it.
#![tactic(auto)]

mod run;
mod threads;

pub use run::{router_at, run_case};
pub use threads::{router_in, run_case_by};
