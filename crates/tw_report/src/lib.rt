//! Reports of runs, and replays of steps: the lines of events, routers, verdicts and steps, and writing
//! all of them to a sink.
//!
//! Contracts see a line as its words (`specs/Words`, `Lines`), and a report and a replay each as one
//! text (`specs/Report`, `ReplayText`).
//! Proved: what is put is exactly that text and nothing else, or a prefix of it where the sink failed;
//! no call takes memory. Not proved: what a terminal or a file then holds.
#![tactic(auto)]

mod event_page;
mod gather;
mod lines;
mod numerals;
mod replay;
mod report;
mod short_numbers;
mod spelled;
mod words;

pub use event_page::EventPage;
pub use lines::{Refused, put_refused, put_router};
pub use replay::{Counts, Replay, write_replay};
pub use report::write_report;
pub use words::{Word, put_line};
