//! Why a shard refuses a message.

use thiserror::Error;
use tw_event::Event;
use tw_model::OrMemory;
use tw_sim::Signed;

/// Why a message is refused.
#[derive(Clone, Copy, PartialEq, Eq, Debug, Error)]
pub enum Rejection {
    /// Its receiver is none of these routers.
    #[error("the receiver is none of these routers")]
    NotMine,
    /// It lies before the bound.
    #[error("the message lies before the bound, {bound}")]
    Late {
        /// The bound, in ticks.
        bound: u64,
    },
    /// It does not suit its receiver.
    #[error("the event does not suit its receiver")]
    Foreign,
}

/// A message that was not received.
#[derive(Clone, Copy, PartialEq, Eq, Debug)]
pub struct Returned {
    /// The message.
    pub message: Signed<Event>,
    /// Why it was not received.
    pub why: OrMemory<Rejection>,
}

/// Which events a router undoes for an event that comes.
#[derive(Clone, Copy)]
pub(crate) enum Reach {
    /// Each event after it.
    Later,
    /// Each event after it, and itself.
    From,
}
