//! The machine whose routers run ahead of one another and are rolled back, over any simulation, and
//! its theorem (after Jefferson, Virtual Time, 1985).
//!
//! `specs/` has its state, its six steps with their refusals, good states, and states put together
//! from parts that each own some routers. What an undone event had sent is taken back at once, or, by
//! lazy cancellation (after Gafni, Rollback mechanisms for optimistic distributed simulation systems,
//! 1988), held until it is sent again or released. Proved, and told by the functions of `laws`: the
//! opening state is good and every list of steps keeps it so; a good state is the one-thread run, as
//! far as it is committed and as far as its bound; the bound never falls, and no message comes from
//! before it; where nothing is in flight or held, what is pending at the end is what the one-thread
//! run leaves; and a state at a cut of that run is good, whatever has brought it there. Not proved: that
//! a list of steps ever commits anything. The only code is plain data.
#![tactic(auto)]

pub mod laws;
pub mod limits;
mod refusal;

pub use refusal::Refusal;
