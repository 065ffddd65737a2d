//! What a router keeps of each neighbour, and what it counts.

use tw_event::PathNo;

/// What a router keeps of one neighbour.
#[derive(Clone, Copy, PartialEq, Eq, Debug)]
pub struct Row {
    /// The path last accepted from it; the empty path where there is none.
    pub heard: PathNo,
    /// Whether the link to it is up.
    pub up: bool,
    /// How often the link to it was repaired.
    pub session: u64,
}

/// What a router counts.
#[derive(Clone, Copy, PartialEq, Eq, Debug)]
pub struct Counters {
    /// Messages sent.
    pub sent: u64,
    /// Events handled.
    pub handled: u64,
    /// Events handled and dropped: updates over a link that was down or repaired since.
    pub dropped: u64,
    /// Times that the router's path changed.
    pub changed: u64,
}
