//! Texts that are read, and written again.

use crate::cases::case;
use crate::texts::{DISAGREE, FAILURE_AND_REPAIR, FORBIDDEN_PATH, RANK_EXCHANGE};
use std::alloc::Global;
use tw_instance::Case;
use tw_model::OrMemory;
use tw_sim::Step;
use tw_text::{read_replay, read_steps, write_case};

/// Whether a text of steps is a bound, and is read once more where memory was refused.
fn is_a_bound(alloc: Global, text: &[u8]) -> bool {
    let steps = match read_steps(alloc, text) {
        Err(OrMemory::Memory) => read_steps(alloc, text),
        steps => steps,
    };
    matches!(steps, Ok(steps) if steps.as_slice() == [Step::Bound].as_slice())
}

#[test]
fn a_bound_and_the_end_are_one_step(rt: HostRuntime) {
    assert!(rt; is_a_bound(rt.alloc(), b"bound\nend\n"));
}

/// Whether a replay of a text has a case of one router, and one step; it is read once more where memory was refused.
fn handles_at_0(alloc: Global, text: &[u8]) -> bool {
    let replay = match read_replay(alloc, text) {
        Err(OrMemory::Memory) => read_replay(alloc, text),
        replay => replay,
    };
    let Ok((case, steps)) = replay else {
        return false;
    };
    let is_so = case.instance().nodes() == 1 && steps.as_slice() == [Step::Handle(0)].as_slice();
    drop(steps);
    drop(case);
    is_so
}

#[test]
fn the_steps_of_a_replay_follow_its_case(rt: HostRuntime) {
    assert!(rt; handles_at_0(rt.alloc(), b"spp 1\nnodes 1\nend\nhandle 0\nend\n"));
}

/// Whether a case is written as this text, at the second time where memory was refused.
pub(crate) fn is_written_as(alloc: Global, case: &Case, text: &str) -> bool {
    let written = match write_case(alloc, case) {
        Err(_) => write_case(alloc, case),
        written => written,
    };
    matches!(written, Ok(written) if written.as_slice() == text.as_bytes())
}

/// Whether the case of a text is written as it was.
fn is_written_again(alloc: Global, text: &str) -> bool {
    let Ok(case) = case(alloc, text) else {
        return false;
    };
    let is_so = is_written_as(alloc, &case, text);
    drop(case);
    is_so
}

/// Texts of cases.
const TEXTS: [&str; 4] = [DISAGREE, RANK_EXCHANGE, FAILURE_AND_REPAIR, FORBIDDEN_PATH];

#[test]
fn a_case_that_was_read_is_written_as_it_was(rt: HostRuntime) {
    for text in &TEXTS {
        assert!(rt; is_written_again(rt.alloc(), text), "{text}");
    }
}
