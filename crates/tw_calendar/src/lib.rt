//! Events by time, of which the least comes out fast.
//!
//! [`Calendar`] has paths that arrive in the next 2^20 ticks: a ring of 1,024 buckets of one tick, and a wheel of
//! 1,024 buckets of 1,024 ticks above it. [`EventList`] has a calendar and a heap for all other events: it is what a run takes the least
//! of all from again and again.
#![tactic(auto)]

mod bucket;
mod calendar;
mod event_list;
mod marks;
mod policy;
mod ring;
mod tick;
mod ticks;
mod update;
mod wheel;

pub use calendar::Calendar;
pub use event_list::EventList;
