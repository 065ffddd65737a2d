//! Where an event stands.

ghost use Rattle.std.specs.Prelude.{◌≡◌, ◌≤◌, length};
ghost use Rattle.std.specs.List.{prefix_len};
ghost use Rattle.tw_pending.specs.Order.{is_other};

use std::cmp::Reverse;
use tw_process::Timed;

/// The place of the first event that equals this one, from 0, or how many there are, where none does.
pub(crate) fn place_of<E: Timed>(events: &[E], event: &E) -> usize
    ensures value { result ≡ prefix_len (is_other E.cmp event.now) events.now }
    ensures within { result ≤ length events.now }
{
    events
        .iter()
        .take_while(|other| !event.cmp(*other).is_eq())
        .count()
}

/// The same among those of a heap.
pub(crate) fn place_in_heap<E: Timed>(items: &[Reverse<E>], event: &E) -> usize
    ensures value { result ≡ prefix_len (λ x. is_other E.cmp event.now x.0) items.now }
    ensures within { result ≤ length items.now }
{
    items
        .iter()
        .take_while(|other| !event.cmp(&other.0).is_eq())
        .count()
}
