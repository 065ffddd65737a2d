//! Events of any kind that wait, the least first.
//!
//! `Pending` has the events of the next ticks in a list for each tick, which is put in order when its tick begins, and
//! all others in a heap; `EventHeap` has all in a heap. Contracts see the events of both in rising order. The sequential
//! engine of any model keeps in the one what it has not yet handled, and a logical process in the other.
#![tactic(auto)]

mod calendar;
mod copies;
mod event_heap;
mod heap;
mod pending;
mod places;
mod ring;
mod tick;

pub use event_heap::EventHeap;
pub use pending::Pending;
