//! Reading a step text.

ghost use Rattle.std.specs.List.{list_all};
ghost use Rattle.std.specs.Prelude.{◌≡◌, ◌∷◌, ◌++◌, List, [], length, map, true, Ok, IfOk};
ghost use Rattle.tw_model.specs.Memory.{IsUnlessMemory};
ghost use Rattle.tw_sim.specs.declared.machine.Step.{Step as AStep};
ghost use Rattle.tw_lines.specs.Words.{is_plain, words};
ghost use Rattle.tw_text.specs.Drafts.{result_items};
ghost use Rattle.tw_text.specs.StepText.{HasText, after_line, after_said, after_words, router_of, said_alone, said_by, said_with, step_reader, steps_of, text_of_steps};

use crate::step_list::StepList;
use std::alloc::Global;
use std::mem;
use tw_lines::{
    LineFault, LineReader, TextFault, is_plain_line, number_of, read_text, split_words,
};
use tw_model::limits::MOST_STEPS;
use tw_model::{OrMemory, Rule};
use tw_sim::Step;

/// The steps of a text in the grammar of `docs/FORMATS.md`, in order. A text that is none is refused
/// at its first line that has a fault, with the lowest fault of that line. Whether a router or a
/// place is there is not judged.
pub fn read_steps(alloc: Global, text: &[u8]) -> Result<Vec<Step>, OrMemory<TextFault>>
    ensures found { IfOk result (λ v. HasText v.items × (text.now ≡ text_of_steps v.items)) }
    ensures only { (steps : List AStep) → HasText steps → text.now ≡ text_of_steps steps → IsUnlessMemory (result_items result) (Ok steps) }
    ensures exact { IsUnlessMemory (result_items result) (steps_of text.now) }
{
    read_exactly(alloc, text)
}

/// What a text is read as, line by line.
#[tactic(auto, unfolding(crate::specs::StepText::steps_of))]
fn read_exactly(alloc: Global, text: &[u8]) -> Result<Vec<Step>, OrMemory<TextFault>>
    ensures { IsUnlessMemory (result_items result) (steps_of text.now) }
{
    let steps = read_text(alloc, StepDraft::Open(StepList::new(alloc)), text)?;
    Ok(steps.into_vec())
}

/// What the lines of a step text so far have given, by whether more may follow.
#[derive(Drop)]
pub(crate) enum StepDraft {
    /// No end yet.
    Open(StepList),
    /// The last line.
    Done(StepList),
}

impl LineReader for StepDraft {
    type Whole = StepList;

    ghost reader = { step_reader };

    fn read_line(
        &mut self,
        alloc: Global,
        line: &[u8],
        ended: bool,
    ) -> Result<(), OrMemory<LineFault>> {
        if !is_plain_line(line) {
            return Err(OrMemory::Fault(LineFault::Byte));
        }
        let draft = mem::replace(self, StepDraft::Open(StepList::new(alloc)));
        *self = read_plain(alloc, draft, line, ended)?;
        Ok(())
    }

    fn whole(self) -> Option<StepList> {
        match self {
            StepDraft::Done(steps) => Some(steps),
            StepDraft::Open(_) => None,
        }
    }
}

/// What a line of a step text says.
#[derive(Clone, Copy)]
pub(crate) enum StepLine {
    Step(Step),
    End,
}

/// The draft with one more line, or the lowest fault of the line.
fn read_plain(
    alloc: Global,
    draft: StepDraft,
    line: &[u8],
    ended: bool,
) -> Result<StepDraft, OrMemory<LineFault>>
    requires { list_all is_plain line.now ≡ true }
    ensures { IsUnlessMemory result (after_line draft line.now ended) }
{
    let words = split_words(alloc, line)?;
    read_words(draft, &words, ended)
}

fn read_words(
    draft: StepDraft,
    words: &[&[u8]],
    ended: bool,
) -> Result<StepDraft, OrMemory<LineFault>>
    ensures { IsUnlessMemory result (after_words draft (map (λ w. w.now) words.now) ended) }
{
    let said = said_by(words)?;
    take_line(draft, said, ended)
}

/// The draft with a line that says this, or the lowest fault that the line has then.
fn take_line(
    draft: StepDraft,
    said: StepLine,
    ended: bool,
) -> Result<StepDraft, OrMemory<LineFault>>
    ensures { IsUnlessMemory result (after_said draft said ended) }
{
    let StepDraft::Open(steps) = draft else {
        return Err(OrMemory::Fault(LineFault::End));
    };
    if !ended {
        return Err(OrMemory::Fault(LineFault::End));
    }
    match said {
        StepLine::Step(step) => {
            if steps.len() >= MOST_STEPS {
                return Err(OrMemory::Fault(LineFault::Rule(Rule::TooMany)));
            }
            Ok(StepDraft::Open(steps.with(step)?))
        }
        StepLine::End => Ok(StepDraft::Done(steps)),
    }
}

/// What the words of a line say.
#[tactic(auto, unfolding(crate::specs::StepText::said_by))]
fn said_by(words: &[&[u8]]) -> Result<StepLine, LineFault>
    ensures { result ≡ said_by (map (λ w. w.now) words.now) }
{
    match words {
        [word] => said_alone(word),
        [word, number] => said_with(word, number),
        [] | [_, _, _, ..] => Err(LineFault::Word),
    }
}

/// What a word says that stands alone.
fn said_alone(word: &[u8]) -> Result<StepLine, LineFault>
    ensures { result ≡ said_alone word.now }
{
    if word == b"bound".as_slice() {
        Ok(StepLine::Step(Step::Bound))
    } else if word == b"end".as_slice() {
        Ok(StepLine::End)
    } else {
        Err(LineFault::Word)
    }
}

/// What a word says with a number behind it.
fn said_with(word: &[u8], number: &[u8]) -> Result<StepLine, LineFault>
    ensures { result ≡ said_with word.now number.now }
{
    if number.is_empty() {
        return Err(LineFault::Word);
    }
    let step = if word == b"handle".as_slice() {
        Step::Handle(router_of(number)?)
    } else if word == b"undo".as_slice() {
        Step::Undo(router_of(number)?)
    } else if word == b"deliver".as_slice() {
        Step::Deliver(number_of(number)?)
    } else if word == b"commit".as_slice() {
        Step::Commit(router_of(number)?)
    } else if word == b"release".as_slice() {
        Step::Release(router_of(number)?)
    } else {
        return Err(LineFault::Word);
    };
    Ok(StepLine::Step(step))
}

/// The router that a word is.
fn router_of(word: &[u8]) -> Result<u32, LineFault>
    ensures { result ≡ router_of word.now }
{
    let Ok(router) = u32::try_from(number_of(word)?) else {
        return Err(LineFault::Number);
    };
    Ok(router)
}
