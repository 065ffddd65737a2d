//! Laws over the definitions alone.

ghost use Rattle.std.specs.Prelude.{◌≡◌, ◌↔◌, ℕ, List, Ok, Err};
ghost use Rattle.tw_model.specs.Case.{Case, IsCase, simulation};
ghost use Rattle.tw_sim.specs.declared.machine.Step.{Step};
ghost use Rattle.tw_sim.specs.Seq.{at, log, rest};
ghost use Rattle.tw_model.specs.declared.rule.Rule.TheVariants.{Version};
ghost use Rattle.tw_lines.specs.declared.text_fault.LineFault.TheVariants as LineFault;
ghost use Rattle.tw_lines.specs.Reading.{fault_at};
ghost use Rattle.tw_text.specs.Reading.{case_of};
ghost use Rattle.tw_text.specs.ReplayText.{replay_of, text_of_replay};
ghost use Rattle.tw_text.specs.StepText.{HasText, steps_of, text_of_steps};
ghost use Rattle.tw_text.specs.Text.{text_of_case};
ghost use Rattle.tw_text.specs.Upgraded.{upgraded};

/// A text is read as a case exactly where the case keeps the rules and this is its text.
pub fn case_of_text()
    ensures { (text : List ℕ) (c : Case) → (case_of text ≡ Ok c) ↔ (IsCase c × (text ≡ text_of_case c)) }
{}

/// No text is refused for its version: each version has a line for what a case of it may have, and for
/// nothing else.
pub fn no_text_of_another_version()
    ensures { (text : List ℕ) (line : ℕ) → case_of text ≡ Err (fault_at line (LineFault.Rule Version)) → ⊥ }
{}

/// Two cases with the same text are one.
pub fn one_text()
    ensures { (c d : Case) → IsCase c → IsCase d → text_of_case c ≡ text_of_case d → c ≡ d }
{}

/// A text is read as steps exactly where a text can say these and this is theirs.
pub fn steps_of_text()
    ensures { (text : List ℕ) (steps : List Step) → (steps_of text ≡ Ok steps) ↔ (HasText steps × (text ≡ text_of_steps steps)) }
{}

/// Two lists of steps with the same text are one.
pub fn one_text_of_steps()
    ensures { (steps others : List Step) → HasText steps → HasText others → text_of_steps steps ≡ text_of_steps others → steps ≡ others }
{}

/// A text is read as a case and steps exactly where it is the text of the case, followed by that of
/// the steps.
pub fn replay_of_text()
    ensures { (text : List ℕ) (c : Case) (steps : List Step) → (replay_of text ≡ Ok (c, steps)) ↔ (IsCase c × HasText steps × (text ≡ text_of_replay c steps)) }
{}

/// A case in the latest version keeps the rules, and its run to each time is that of the case: the same
/// events are handled and left pending, and every router has the same state.
pub fn upgrading_keeps_the_run()
    ensures rules { (c : Case) → IsCase c → IsCase (upgraded c) }
    ensures log { (c : Case) (t : ℕ) → log (simulation (upgraded c)) t ≡ log (simulation c) t }
    ensures at { (c : Case) (t r : ℕ) → at (simulation (upgraded c)) t r ≡ at (simulation c) t r }
    ensures rest { (c : Case) (t : ℕ) → rest (simulation (upgraded c)) t ≡ rest (simulation c) t }
{}
