//! Case texts, step texts and replay texts: reading one, writing a case, and the first fault of a text
//! that is none.
//!
//! A text is bytes in lines. Contracts see a `Case` as the instance and the scenes that it holds with
//! its version, 1 or 2, and a text as its bytes. Which words a version has stands in
//! `specs/Versions.antt`. `text_of_case` (`specs/Text.antt`) is the one text of a case, and
//! `case_of` (`specs/Reading.antt`) what a text is read as, by the table of faults
//! (`specs/FaultTable.antt`). Proved is that `read_case` answers `case_of` and `write_case` writes
//! `text_of_case`, unless memory is refused, and that each undoes the other (`laws`). That memory
//! suffices is not proved.
//!
//! `read_steps` and `read_replay` likewise, with `text_of_steps` and `steps_of`
//! (`specs/StepText.antt`) and `text_of_replay` and `replay_of` (`specs/ReplayText.antt`). The three
//! kinds of text are read line by line by one function, `read_text` of `tw_lines`, and each is a
//! `LineReader` of that crate.
#![tactic(auto)]

mod draft;
mod keyword;
pub mod laws;
mod line;
mod path_line;
mod read;
mod replay_text;
mod step_list;
mod step_text;
mod upgrading;
mod write;

pub use read::read_case;
pub use replay_text::read_replay;
pub use step_text::read_steps;
pub use tw_lines::{LineFault, TextFault};
pub use upgrading::upgrade;
pub use write::write_case;
