//! The limits of a sequential run.

/// How many events a run handles at most.
pub const MOST_EVENTS: u64 = 1 << 63;
