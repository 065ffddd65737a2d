//! What an event does at its router, and how it is undone.
//!
//! `handle` changes a `Router` and adds what the event sends to a list; its answer, an `UndoRecord`, is
//! all that `undo` needs beside the event and the state that it left. A `Trail` is a router with the
//! events that it handled; contracts see it as the router before all of them and the list of events.
//! Proved: handling is exactly the effect that `tw_model` defines, each refusal comes exactly where it
//! says, and undoing gives back exactly the earlier state and, once more, what was sent. Not proved,
//! since no contract can say it: that memory suffices.
#![tactic(auto)]

mod fault;
mod fit;
mod handling;
mod send;
mod settle;
mod trail;
mod undoing;

pub use fault::{CounterFull, Fault};
pub use fit::{does_fit, does_suit};
pub use handling::{handle, handle_fitting};
pub use trail::Trail;
pub use tw_event::UndoRecord;
pub use undoing::{take_back, undo};
