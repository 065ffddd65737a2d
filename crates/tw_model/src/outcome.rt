//! What a run leaves.

use crate::state::Counters;
use tw_event::{Event, PathNo};

/// What a run left.
#[derive(Drop, Debug)]
pub struct Outcome {
    /// The time, in ticks, before which events were to be handled.
    pub stop: u64,
    /// The least of the stop and of the times pending: all events before it were handled.
    pub bound: u64,
    /// The events handled, in their order.
    pub events: Vec<Event>,
    /// How each router stands, in ascending order.
    pub routers: Vec<RouterEnd>,
    /// The events pending, those at or past the stop included, in their order.
    pub pending: Vec<Event>,
    /// The time of the last event that changed a router's path, or 0.
    pub last_change: u64,
}

/// How a router stands when a run is over.
#[derive(Clone, Copy, PartialEq, Eq, Debug)]
pub struct RouterEnd {
    /// What it counted.
    pub counters: Counters,
    /// The path that it uses.
    pub rib: PathNo,
}
