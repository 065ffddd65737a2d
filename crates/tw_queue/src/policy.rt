//! Numbers that no clause sees: another one costs time alone.

// With so many events a router's queue takes to buckets; with fewer the buckets, which stand apart in memory, cost more time than one list.
const MANY_EVENTS: usize = 256;

/// Whether so many events of a router stand best in one list in order.
pub(crate) fn are_few(events: usize) -> bool {
    events < MANY_EVENTS
}
