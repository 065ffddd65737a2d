//! Reading a case text (docs/DECISIONS.md, 'Input': line by line, with no list of its lines).

ghost use Rattle.std.specs.Prelude.{◌≡◌, Ok, IfOk};
ghost use Rattle.tw_model.specs.Case.{Case as ACase, IsCase};
ghost use Rattle.tw_model.specs.Memory.{IsUnlessMemory};
ghost use Rattle.tw_text.specs.Reading.{case_of, case_reader};
ghost use Rattle.tw_text.specs.Text.{text_of_case};

use crate::draft::{Draft, add_path};
use crate::line::read_line;
use crate::path_line::path_in;
use std::alloc::Global;
use tw_instance::Case;
use tw_lines::{LineFault, LineReader, TextFault, read_text};
use tw_model::OrMemory;

/// The case of a text in the grammar of `docs/FORMATS.md`, of version 1 or 2. A text that is none is
/// refused at its first line that has a fault, with the lowest fault of that line.
pub fn read_case(alloc: Global, text: &[u8]) -> Result<Case, OrMemory<TextFault>>
    ensures found { IfOk result (λ c. IsCase c × (text.now ≡ text_of_case c)) }
    ensures only { (c : ACase) → IsCase c → text.now ≡ text_of_case c → IsUnlessMemory result (Ok c) }
    ensures exact { IsUnlessMemory result (case_of text.now) }
{
    read_exactly(alloc, text)
}

/// What a text is read as, line by line.
#[tactic(auto, unfolding(crate::specs::Reading::case_of))]
fn read_exactly(alloc: Global, text: &[u8]) -> Result<Case, OrMemory<TextFault>>
    ensures { IsUnlessMemory result (case_of text.now) }
{
    read_text(alloc, Draft::Start, text)
}

impl LineReader for Draft {
    type Whole = Case;

    ghost reader = { case_reader };

    fn read_line(
        &mut self,
        alloc: Global,
        line: &[u8],
        ended: bool,
    ) -> Result<(), OrMemory<LineFault>> {
        // A long text has path lines most of all, so these are read without a list of their words.
        if let Draft::Paths(_, instance) = self {
            if ended && let Some(path) = path_in(alloc, line)? {
                return add_path(instance, path);
            }
        }
        read_line(alloc, self, line, ended)
    }

    fn whole(self) -> Option<Case> {
        match self {
            Draft::Done(case) => Some(case),
            _ => None,
        }
    }
}
