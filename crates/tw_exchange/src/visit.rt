//! What a visit of the exchange tells.

use tw_model::OrMemory;
use tw_process::Timed;
use tw_sim::Signed;

/// What a worker is told at a visit.
#[derive(Drop, Debug)]
pub struct AnyVisit<E: Timed> {
    /// The messages for its routers, in the order deposited.
    pub mail: Vec<Signed<E>>,
    /// The time before which nothing waits or is on its way, in ticks.
    pub bound: u64,
    /// Whether it shall take no further turn.
    pub halted: bool,
}

/// What a worker is told at a visit beside its mail.
#[derive(Clone, Copy, PartialEq, Eq, Debug)]
pub struct Told {
    /// The time before which nothing waits or is on its way, in ticks.
    pub bound: u64,
    /// Whether it shall take no further turn.
    pub halted: bool,
}

/// A visit that changed nothing.
#[derive(Drop, Debug)]
pub struct AnyBack<E: Timed> {
    /// What the worker wanted to deposit.
    pub out: Vec<Signed<E>>,
    /// Why it was not taken.
    pub why: OrMemory<VisitFault>,
}

/// Why a visit is refused.
#[derive(Clone, Copy, PartialEq, Eq, Debug)]
pub enum VisitFault {
    /// There is no worker of this number.
    NoWorker,
    /// The time of a message or the report lies before the bound.
    Early,
    /// A message is for a router that no worker has.
    NoRouter,
}
