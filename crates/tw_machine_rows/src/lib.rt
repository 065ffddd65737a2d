//! Worked rows of Time Warp as tests: the machine, the exchange, shards, routers that go from one to another, and the
//! table; and the messages that they begin with. What a machine answers to steps is in `checks/rows`, as replays.
//!
//! Each test tries a call once more where memory was refused, as those of `tw_rows` do.
#![tactic(auto)]

#[cfg(test)]
mod ample;
#[cfg(test)]
mod calls;
#[cfg(test)]
mod dealt;
#[cfg(test)]
mod exchange;
#[cfg(test)]
mod machine;
pub mod messages;
#[cfg(test)]
mod moving;
#[cfg(test)]
mod owners;
#[cfg(test)]
mod shards;
#[cfg(test)]
mod steps;
#[cfg(test)]
mod table;
