//! Devices: a `Source` gives bytes and a `Sink` takes them, until it is at its end or fails.
//!
//! Contracts see a source as the bytes that it will give and a sink as those that it holds, where these
//! are known, each with whether it has failed; any reader and any writer can be one (`OverRead`,
//! `OverWrite`). Proved: `read_all` gives the first bytes of its source, as many as a program reads,
//! and takes no more; `put_all` writes all of its bytes and nothing else, or a prefix of them where the
//! sink failed. Not proved: what a file, a pipe or a terminal gives or holds.
#![tactic(auto)]

mod failed;
mod page;
mod sink;
mod source;

pub use failed::Failed;
pub use page::Page;
pub use sink::{OverWrite, Sink, put_all};
pub use source::{OverRead, Source, read_all};
