//! Worked rows of runs, of their reports and of the programs as tests. Rows that need no call are in `checks/rows`.
//!
//! Each test tries a call once more where memory was refused, as those of `tw_rows` do.
#![tactic(auto)]

#[cfg(test)]
mod commands;
#[cfg(test)]
mod devices;
#[cfg(test)]
mod events;
#[cfg(test)]
mod moving;
#[cfg(test)]
mod parallel;
#[cfg(test)]
mod programs;
#[cfg(test)]
mod rooms;
#[cfg(test)]
mod runs;
#[cfg(test)]
mod texts;
#[cfg(test)]
mod threads;
