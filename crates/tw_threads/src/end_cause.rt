//! Why a run ends before its stop.

use thiserror::Error;

/// Why a run ended before its stop.
#[derive(Clone, Copy, PartialEq, Eq, Debug, Error)]
pub enum EndCause {
    /// Memory was refused.
    #[error("no memory")]
    Memory,
    /// A counter of a router would pass its limit.
    #[error("a counter is full")]
    CounterFull,
    /// A thread was refused.
    #[error("no thread")]
    NoThread,
    /// The stop is below that of the run, or past 1,000,000,000. Workers that run never tell this.
    #[error("the stop is lower than that of the run, or past its limit")]
    StopLower,
}
