//! How far the sequential run has come.

/// How far a sequential run has come: it has handled all events before a time, and so many more.
#[derive(Clone, Copy, PartialEq, Eq, Debug)]
pub struct Progress {
    /// All events before this time, in ticks, are handled.
    pub since: u64,
    /// So many turns behind them are handled, each of the event that was then the least.
    pub turns: u64,
}
