//! The logical process of Time Warp, for any model: it runs ahead, receives messages and antimessages, is rolled back
//! exactly, and commits (after Jefferson, Virtual Time, 1985).
//!
//! A `LogicalProcess` has a model's state, the events that wait for it, those that it has handled with their notes, the
//! antimessages that came before their message, and the messages that it has sent. Its calls are steps of the machine of
//! `tw_core`: what each leaves, and when it is refused, is said by that machine's own `handle`, `undo`,
//! `after_undoing_while`, `after_arrival` and `with_commit`. Where it is settled and its turn has come in the sequential
//! run, it can also handle an event and commit it at once (`handle_in_turn`). Proved once, for every model.
#![tactic(auto)]

mod committed;
mod logical;
mod past;
mod progress;
mod reach;
mod receive;
mod rejection;
mod steps;
mod stopped;

pub use logical::LogicalProcess;
pub use progress::Progress;
pub use rejection::{Rejection, Unreceived};
pub use stopped::Stopped;
