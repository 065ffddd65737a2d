//! The commands of `twarp-policy` as calls: each reads a case from any source, judges it whatever the delays of
//! its links, and writes its answer to any sink.
//!
//! A command is a `Command` of `tw_commands`, so that `answer_io` is the one way from input to answer here
//! too. Proved: what is written is exactly the answer to the text that was read, or nothing where memory
//! was refused, or a prefix where the sink failed. What the answers say of the runs of a case is the matter of
//! the laws of `tw_elimination` and `tw_policy`.
#![tactic(auto)]

mod lines;
mod safe;
mod stable;

pub use safe::safe_io;
pub use stable::stable_io;
