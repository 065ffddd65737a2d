//! The limits of the machine.

/// How many events that it has not committed a router may have handled at first.
pub const OPENING_ROOM: usize = 256;
