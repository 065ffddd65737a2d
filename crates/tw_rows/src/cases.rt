//! Cases that the worked rows begin with.

ghost use Rattle.tw_model.specs.Memory.{IsUnlessMemory};
ghost use Rattle.tw_text.specs.Reading.{case_of};

use std::alloc::{AllocError, Global};
use tw_instance::Case;
use tw_model::OrMemory;
use tw_text::{TextFault, read_case};

/// The case of a text, which is read once more where memory was refused (own).
///
/// # Errors
///
/// Those of [`read_case`]; want of memory where it was refused twice.
pub fn case(alloc: Global, text: &str) -> Result<Case, OrMemory<TextFault>>
    ensures exact { IsUnlessMemory result (case_of text.now) }
{
    match read_case(alloc, text.as_bytes()) {
        Err(OrMemory::Memory) => read_case(alloc, text.as_bytes()),
        answer => answer,
    }
}

/// The text of a case of one router with 301 opening events: its start, and 300 exchanges of its only path with itself,
/// all at time 1 (own).
///
/// # Errors
///
/// `AllocError` where memory was refused.
pub fn many_exchanges(alloc: Global) -> Result<String, AllocError> {
    let mut text = String::from_str(alloc, "spp 1\nnodes 1\n")?;
    for _ in 0..300 {
        text.push_str("swap 1 0 1 1\n")?;
    }
    text.push_str("end\n")?;
    Ok(text)
}
