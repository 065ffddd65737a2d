//! The programs `check`, `seq`, `trail`, `replay` and `upgrade` as calls: each reads a case, `replay` with
//! steps behind it, from any source, does its work and writes its answer to any sink.
//!
//! A program is a `Command`: what it reads, what it writes for that, and how it ends then. `answer_io` is
//! the one way from input to answer. Proved, for sources and sinks that tell their bytes: what is written is exactly
//! the answer to the text that was read, or nothing where memory was refused or a counter was full, or a
//! prefix where the sink failed; at most `MOST_INPUT` bytes are read. Not proved: what a file or a
//! terminal holds, and that memory is not refused.
#![tactic(auto)]

mod cause;
mod check;
mod command;
mod input;
mod no_memory;
mod played;
mod progress;
mod refusal;
mod replay;
mod seq;
mod stages;
mod told;
mod trail;
mod trail_page;
mod upgrade;

pub use cause::{Cause, Status};
pub use check::check_io;
pub use command::{Command, answer_io, hand_back};
pub use input::{Input, Script};
pub use progress::{Progress, Untold};
pub use refusal::refuse;
pub use replay::replay_io;
pub use seq::{run_on_one_thread, seq_io};
pub use stages::{Stages, count_committed};
pub use told::Told;
pub use trail::trail_io;
pub use tw_options::{Machine, Report, Trail};
pub use upgrade::upgrade_io;
