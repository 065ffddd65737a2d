//! A router as it leaves a shard, or comes to one, where a run stands at a time.

use tw_event::Event;
use tw_router::Router;

/// A router without records of its events, and what a shard needs to know of these.
#[derive(Drop)]
pub struct RouterAt<'a> {
    /// The router as its events have left it.
    pub router: Router<'a>,
    /// Its events, the oldest first, where they are retained; else none.
    pub events: Vec<Event>,
    /// The newest of its events, whether these are retained or not.
    pub newest: Option<Event>,
    /// The time, in ticks, of the last of its events that changed its path, or 0.
    pub last_change: u64,
}
