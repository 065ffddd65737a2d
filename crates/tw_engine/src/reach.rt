//! Which events a logical process undoes.

/// Which of its events a process undoes, the newest first.
#[derive(Clone, Copy)]
pub(crate) enum Reach<E> {
    /// Each event after this one.
    Later(E),
    /// Each event after this one, and itself.
    From(E),
    /// Each event at this time, in ticks, or later.
    Since(u64),
}
