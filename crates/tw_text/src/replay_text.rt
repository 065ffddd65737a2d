//! Reading a replay text: a case, and steps.

ghost use Rattle.std.specs.Prelude.{◌≡◌, List, Ok, IfOk};
ghost use Rattle.tw_model.specs.Case.{Case as ACase, IsCase};
ghost use Rattle.tw_model.specs.Memory.{IsUnlessMemory};
ghost use Rattle.tw_sim.specs.declared.machine.Step.{Step as AStep};
ghost use Rattle.tw_text.specs.ReplayText.{after_case, after_replay_line, replay_of, replay_reader, seen, text_of_replay};
ghost use Rattle.tw_text.specs.StepText.{HasText};

use crate::draft::Draft;
use crate::step_list::StepList;
use crate::step_text::StepDraft;
use std::alloc::Global;
use std::mem;
use tw_instance::Case;
use tw_lines::{LineFault, LineReader, TextFault, read_text};
use tw_model::OrMemory;
use tw_sim::Step;

/// The case and the steps of a text in the grammar of `docs/FORMATS.md`: a case text, followed at
/// once by a step text. A text that is none is refused at its first line that has a fault, with the
/// lowest fault of that line; lines are counted from the first of the case. Whether a router or a
/// place is there is not judged.
pub fn read_replay(alloc: Global, text: &[u8]) -> Result<(Case, Vec<Step>), OrMemory<TextFault>>
    ensures found { IfOk result (λ read. IsCase read.0 × HasText read.1.items × (text.now ≡ text_of_replay read.0 read.1.items)) }
    ensures only { (c : ACase) (steps : List AStep) → IsCase c → HasText steps → text.now ≡ text_of_replay c steps → IsUnlessMemory (seen result) (Ok (c, steps)) }
    ensures exact { IsUnlessMemory (seen result) (replay_of text.now) }
{
    read_exactly(alloc, text)
}

/// What a text is read as, line by line.
#[tactic(auto, unfolding(crate::specs::ReplayText::replay_of))]
fn read_exactly(alloc: Global, text: &[u8]) -> Result<(Case, Vec<Step>), OrMemory<TextFault>>
    ensures { IsUnlessMemory (seen result) (replay_of text.now) }
{
    let (case, steps) = read_text(alloc, ReplayDraft::Case(Draft::Start), text)?;
    Ok((case, steps.into_vec()))
}

/// What the lines of a replay text so far have given.
#[derive(Drop)]
pub(crate) enum ReplayDraft {
    /// No end of the case yet.
    Case(Draft),
    /// The case, and what the lines behind it have given.
    Steps(Case, StepDraft),
}

impl LineReader for ReplayDraft {
    type Whole = (Case, StepList);

    ghost reader = { replay_reader };

    fn read_line(
        &mut self,
        alloc: Global,
        line: &[u8],
        ended: bool,
    ) -> Result<(), OrMemory<LineFault>> {
        let draft = mem::replace(self, ReplayDraft::Case(Draft::Start));
        *self = after_line(alloc, draft, line, ended)?;
        Ok(())
    }

    fn whole(self) -> Option<(Case, StepList)> {
        match self {
            ReplayDraft::Case(_) => None,
            ReplayDraft::Steps(case, draft) => {
                let steps = draft.whole()?;
                Some((case, steps))
            }
        }
    }
}

/// The draft with one more line, or the lowest fault of the line.
fn after_line(
    alloc: Global,
    draft: ReplayDraft,
    line: &[u8],
    ended: bool,
) -> Result<ReplayDraft, OrMemory<LineFault>>
    ensures { IsUnlessMemory result (after_replay_line draft line.now ended) }
{
    match draft {
        ReplayDraft::Case(mut draft) => {
            draft.read_line(alloc, line, ended)?;
            Ok(after_case(alloc, draft))
        }
        ReplayDraft::Steps(case, mut draft) => {
            draft.read_line(alloc, line, ended)?;
            Ok(ReplayDraft::Steps(case, draft))
        }
    }
}

/// The draft of a replay text whose lines have given this of a case.
fn after_case(alloc: Global, draft: Draft) -> ReplayDraft
    ensures { result ≡ after_case draft }
{
    match draft {
        Draft::Done(case) => ReplayDraft::Steps(case, StepDraft::Open(StepList::new(alloc))),
        _ => ReplayDraft::Case(draft),
    }
}
