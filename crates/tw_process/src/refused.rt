//! Why a forward handler refuses an event.

/// Why a process does not handle an event. It is then as it was before.
#[derive(Clone, Copy, PartialEq, Eq, Debug)]
pub enum Refused {
    /// A counter of the process would pass its limit.
    CounterFull,
    /// There is no memory for what the process would keep.
    Memory,
}
