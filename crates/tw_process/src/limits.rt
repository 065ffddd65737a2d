//! The limits of a simulation.

/// No model handles an event at or after this time, in ticks; so a delay up to it never overflows a time.
pub const LATEST: u64 = 1 << 63;
