//! What commands read: a case, or a case with steps.

ghost use Rattle.std.specs.Prelude.{◌≡◌, List, ℕ, Result};
ghost use Rattle.tw_model.specs.Case.{Case as ACase};
ghost use Rattle.tw_model.specs.Memory.{IsUnlessMemory};
ghost use Rattle.tw_sim.specs.declared.machine.Step.{Step as AStep};
ghost use Rattle.tw_lines.specs.declared.text_fault.TextFault.{TextFault as ATextFault};
ghost use Rattle.tw_text.specs.Reading.{case_of};
ghost use Rattle.tw_text.specs.ReplayText.{replay_of};

use std::alloc::Global;
use std::marker::Model;
use tw_instance::Case;
use tw_model::OrMemory;
use tw_sim::Step;
use tw_text::{TextFault, read_case, read_replay};

/// What a text gives a program: a case, or a case with steps.
pub trait Input: Drop {
    /// What a text is read as.
    ghost of_text: { List ℕ → Result Self ATextFault };

    /// Reads a text, or answers its first line with a fault and that line's lowest fault.
    fn read(alloc: Global, text: &[u8]) -> Result<Self, OrMemory<TextFault>>
        ensures { IsUnlessMemory result (of_text text.now) };
}

impl Input for Case {
    ghost of_text = { case_of };

    fn read(alloc: Global, text: &[u8]) -> Result<Case, OrMemory<TextFault>> {
        read_case(alloc, text)
    }
}

/// A case, and steps of its machine.
#[derive(Drop)]
pub struct Script {
    case: Case,
    steps: Vec<Step>,
}

impl Model for Script {
    ghost Value = { ACase × List AStep };

    ghost view = { λ s. (s.case, s.steps.items) };
}

impl Script {
    /// The case.
    pub fn case(&self) -> &Case
        ensures { result.now ≡ self.now.0 }
    {
        &self.case
    }

    /// The steps.
    pub fn steps(&self) -> &[Step]
        ensures { result.now ≡ self.now.1 }
    {
        &self.steps
    }
}

impl Input for Script {
    ghost of_text = { replay_of };

    fn read(alloc: Global, text: &[u8]) -> Result<Script, OrMemory<TextFault>> {
        let (case, steps) = read_replay(alloc, text)?;
        Ok(Script { case, steps })
    }
}
