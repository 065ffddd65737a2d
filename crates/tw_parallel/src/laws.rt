//! Laws of a parallel run, over its definitions alone. Each function does nothing; its contract is the law.

ghost use Rattle.std.specs.Prelude.{ℕ, ◌≡◌, ◌<◌, ◌≤◌, Bool, List, length};
ghost use Rattle.tw_core.specs.Cut.{IsCut};
ghost use Rattle.tw_core.specs.Machine.{AreCounted};
ghost use Rattle.tw_core.specs.Run.{IsAtEnd};
ghost use Rattle.tw_exchange.specs.Board.{Board};
ghost use Rattle.tw_model.specs.Case.{Case, simulation};
ghost use Rattle.tw_model.specs.declared.limits.TheConstants.{LATEST};
ghost use Rattle.tw_parallel.specs.Cut.{StandAt};
ghost use Rattle.tw_parallel.specs.Settled.{HasNoRecords, IsSettled};
ghost use Rattle.tw_parallel.specs.Sim.{IsSim, Sim, machine};
ghost use Rattle.tw_sim.specs.declared.machine.Cancel.{Cancel};
ghost use Rattle.tw_table.specs.Shares.{IsRuled, Share};

/// An exchange and shards at a time of the one-thread run, whichever worker has which router, are a parallel
/// run whose machine stands at that cut; and it is settled where the stop is that time. So the one-thread run
/// may be given to workers at any time, as it stands.
pub fn at_a_cut()
    ensures rule { (case : Case) (time : ℕ) (retains : Bool) (cancel : Cancel) (x : Board) (shares : List Share) → StandAt case time retains cancel x shares → IsRuled case x shares }
    ensures sim { (case : Case) (time : ℕ) (retains : Bool) (cancel : Cancel) (x : Board) (shares : List Share) → StandAt case time retains cancel x shares → 0 < length shares
        → x.stop ≤ LATEST → IsSim (record { case = case; board = x; shares = shares }) }
    ensures cut { (case : Case) (time : ℕ) (retains : Bool) (cancel : Cancel) (x : Board) (shares : List Share) → StandAt case time retains cancel x shares
        → IsCut (simulation case) time (machine (record { case = case; board = x; shares = shares })) }
    ensures settled { (case : Case) (time : ℕ) (retains : Bool) (cancel : Cancel) (x : Board) (shares : List Share) → StandAt case time retains cancel x shares → x.stop ≡ time
        → IsSettled (record { case = case; board = x; shares = shares }) }
{}

/// A settled run stands at a cut of the one-thread run, and at that run's end: it may be given back to one
/// thread as it stands.
pub fn over_is_a_cut()
    ensures cut { (s : Sim) → IsSim s → IsSettled s → IsCut (simulation s.case) s.board.stop (machine s) }
    ensures end { (s : Sim) → IsSim s → IsSettled s → IsAtEnd (simulation s.case) (machine s) }
{}

/// As many events of a router are counted as committed as are committed, in every parallel run: so a router is
/// refused to handle for want of room exactly where it has handled as many others as it has room for. And in a
/// settled run no router has an event that it could still undo.
pub fn committed_are_counted()
    ensures counted { (s : Sim) → IsSim s → AreCounted (simulation s.case) (machine s) }
    ensures settled { (s : Sim) → IsSim s → IsSettled s → HasNoRecords s }
{}
