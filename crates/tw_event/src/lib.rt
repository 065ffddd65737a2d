//! Events of the path vector protocol, their order, and what is kept to undo one.
//!
//! An event is plain data: a time, a receiver, a sender, a number and a body. Its order is by time,
//! receiver, class, sender, number and body, as `specs/Order` says; contracts see an event as itself.
//! Proved: comparisons and equality are lawful, and are those of the definition (`laws`). Not proved
//! here: what an event does, and how it is undone (`tw_model`, `tw_handlers`).
#![tactic(auto)]

mod event;
pub mod laws;
mod record;

pub use event::{Body, Class, Event, PathNo};
pub use record::UndoRecord;
