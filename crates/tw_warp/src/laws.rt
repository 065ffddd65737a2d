//! The laws of a machine that was driven step by step. The function does nothing; its contract is the law.

ghost use Rattle.std.specs.Prelude.{◌≡◌, ℕ, List, reverse};
ghost use Rattle.tw_core.specs.Run.{AreCommitted, IsSeq};
ghost use Rattle.tw_core.specs.Steps.{run};
ghost use Rattle.tw_model.specs.Case.{Case, IsCase, simulation};
ghost use Rattle.tw_sim.specs.Seq.{log};
ghost use Rattle.tw_sim.specs.declared.machine.Cancel.{Cancel};
ghost use Rattle.tw_sim.specs.declared.machine.Step.{Step};
ghost use Rattle.tw_warp.specs.Committed.{committed_events};
ghost use Rattle.tw_warp.specs.Openings.{opening_machine};
ghost use Rattle.tw_warp.specs.Warp.{IsWarp, Warp, warp_core};

/// After any list of steps from its opening, the machine of a case, which takes back what undone events have
/// sent at once or late, is the one-thread run as far as it is committed, and as far as its bound. Where all
/// that is handled below the bound is committed, the committed events of all routers, in their order, are the
/// run to the bound.
pub fn good_is_seq()
    ensures always { (case : Case) → IsCase case → (cancel : Cancel) (stop : ℕ) (steps : List Step) → IsSeq (simulation case) (run (simulation case) (opening_machine case cancel stop) steps) }
    ensures together { (w : Warp) → IsWarp w → AreCommitted (simulation w.case) (warp_core w) → committed_events w ≡ reverse (log (simulation w.case) w.bound) }
{}
