//! The rule of a table that workers take in turn, over any simulation: what each of them may give back
//! so that all that they do together stays the one-thread run (after Jefferson, Virtual Time, 1985).
//!
//! `specs/` has the `Board` that the workers share, the `Place` of each worker, which is a part of the
//! machine of `tw_core` with the messages in its hand, and the `Rule`. Proved, and told by the
//! functions of `laws`: where the rule holds, the board and the places are, put together, a good state
//! of that machine; it holds at the beginning and at each cut of the one-thread run, and every call at a
//! place and every visit keeps it.
//! There is no code: a table's own crate shows that its board and its places are these.
#![tactic(auto)]

pub mod laws;
