//! The laws of the machine for what a case simulates. The function does nothing; its contract is the
//! law.

ghost use Rattle.std.specs.Prelude.{List};
ghost use Rattle.tw_core.specs.Good.{IsGood};
ghost use Rattle.tw_core.specs.Machine.{Core, IsOpening};
ghost use Rattle.tw_core.specs.Run.{IsSeq};
ghost use Rattle.tw_core.specs.Steps.{run};
ghost use Rattle.tw_event.specs.declared.event.Event.{Event};
ghost use Rattle.tw_model.specs.Case.{Case, IsCase, simulation};
ghost use Rattle.tw_sim.specs.declared.machine.Step.{Step};

/// A good state of the machine of a case is its one-thread run as far as it is committed, and as far as
/// its bound; and so is every state that a list of steps leads to from the opening.
pub fn good_is_seq()
    ensures good { (case : Case) → IsCase case → (C : Core Event) → IsGood (simulation case) C → IsSeq (simulation case) C }
    ensures always { (case : Case) → IsCase case → (C : Core Event) (steps : List Step) → IsOpening (simulation case) C
        → IsSeq (simulation case) (run (simulation case) C steps) }
{}
