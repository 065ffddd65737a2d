//! Laws of a worker, over its definitions alone. Each function does nothing; its contract is the law.

ghost use Rattle.std.specs.Prelude.{ℕ, ◌≡◌, List, Some, slice_get};
ghost use Rattle.tw_exchange.specs.Board.{Board};
ghost use Rattle.tw_model.specs.Case.{Case};
ghost use Rattle.tw_table.specs.Shares.{IsRuled, Share};
ghost use Rattle.tw_workers.specs.Work.{IsAtWork};

/// Where the exchange and the shares of all workers keep the rule, each of them is at work, to the stop of
/// the exchange. So a worker can be made of each.
pub fn shares_are_at_work()
    ensures { (case : Case) (x : Board) (shares : List Share) (i : ℕ) (s : Share) → IsRuled case x shares → slice_get shares i ≡ Some s → IsAtWork x.stop s }
{}
