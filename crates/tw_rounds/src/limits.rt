//! The limits of a round.

/// How many messages a share receives after one event at most. What is left waits for the next round.
pub(crate) const MOST_MESSAGES: u64 = 1 << 32;

/// How many events a share handles in one round at most, for each of its processes. What a round costs for a process is
/// then little beside, and notes are let go before they are many.
pub(crate) const EVENTS_PER_PROCESS: u64 = 8;

/// How many events a share may handle in one round, however few its processes.
pub(crate) const LEAST_EVENTS: u64 = 1 << 14;

/// A round by several threads in which fewer events are handled is a small one: to start and join the threads takes as
/// long as so many.
pub(crate) const WORTH_THREADS: u64 = 1000;

/// After so many small rounds in a row one more has one thread go on alone: the window grows from its least in as many, and
/// after much was taken back.
pub(crate) const SMALL_ROUNDS: u32 = 4;

/// How many rounds one thread goes on alone at most before several are tried again.
pub(crate) const MOST_ALONE: u32 = 64;

/// The window of optimism at most, in ticks.
pub(crate) const MOST_WINDOW: u64 = 1 << 62;

/// More than this part of the events handled is much to take back, and no more than that part is little.
pub(crate) const MUCH: u64 = 8;

pub(crate) const LITTLE: u64 = 32;
