//! Texts that are read line by line: the words and the numbers of a line, the faults that a line can have,
//! and how a text is read to its end or to its first line that has one.
//!
//! A text is bytes in lines, and contracts see its bytes. What a line gives is a matter of the kind of
//! text, which is a `LineReader`; `read_text` reads a text of any kind, and gives what `read_from`
//! (`specs/Reading.antt`) says of the kind's `TextReader`, unless memory is refused. A refusal names
//! the first line that has a fault, and the fault by its code and its name (`specs/FaultNames.antt`).
#![tactic(auto)]

mod line_reader;
mod text_fault;
mod words;

pub use line_reader::{LineReader, read_text};
pub use text_fault::{LineFault, TextFault};
pub use words::{is_plain_line, number_of, split_words};
