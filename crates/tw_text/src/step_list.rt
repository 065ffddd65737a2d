//! A list of steps.

ghost use Rattle.std.specs.Prelude.{◌≡◌, ◌∷◌, ◌++◌, List, [], length, IfOk};
ghost use Rattle.tw_sim.specs.declared.machine.Step.{Step as AStep};

use std::alloc::{AllocError, Global};
use std::marker::Model;
use tw_sim::Step;

/// Steps, in the order of their lines.
#[derive(Drop)]
pub(crate) struct StepList {
    steps: Vec<Step>,
}

impl Model for StepList {
    ghost Value = { List AStep };

    ghost view = { λ s. s.steps.items };
}

impl StepList {
    /// No steps.
    pub(crate) fn new(alloc: Global) -> StepList
        ensures { result ≡ [] }
    {
        StepList {
            steps: Vec::new(alloc),
        }
    }

    /// How many steps there are.
    pub(crate) fn len(&self) -> usize
        ensures { result ≡ length self.now }
    {
        self.steps.len()
    }

    /// These steps and one more.
    pub(crate) fn with(mut self, step: Step) -> Result<StepList, AllocError>
        ensures { IfOk result (λ s. s ≡ self ++ step ∷ []) }
    {
        self.steps.push(step)?;
        Ok(self)
    }

    /// The steps as a vector.
    pub(crate) fn into_vec(self) -> Vec<Step>
        ensures { result.items ≡ self }
    {
        self.steps
    }
}
