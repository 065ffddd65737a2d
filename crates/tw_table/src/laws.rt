//! Laws of the table, over its definitions alone. Each function does nothing; its contract is the law.

ghost use Rattle.std.specs.Prelude.{ℕ, ◌≡◌, ◌<◌, ◌≤◌, false, List, Option, Some, length, map, slice_get, slice_set};
ghost use Rattle.std.specs.List.{range_with_len};
ghost use Rattle.tw_event.specs.declared.event.Event.{Event};
ghost use Rattle.tw_core.specs.Machine.{IsSameMachine};
ghost use Rattle.tw_exchange.specs.Board.{Board, IsBoard, IsListed, handed, is_early, is_homeless, new_board, visited, who, workers};
ghost use Rattle.tw_model.specs.Case.{Case, IsCase, simulation};
ghost use Rattle.tw_rule.specs.Board.{IsVisit};
ghost use Rattle.tw_rule.specs.Place.{IsRunBefore};
ghost use Rattle.tw_rule.specs.Rule.{assembled};
ghost use Rattle.tw_sim.specs.declared.machine.Signed.{Signed};
ghost use Rattle.tw_table.specs.Moving.{HasMoved, moved_board};
ghost use Rattle.tw_table.specs.Openings.{AreNew};
ghost use Rattle.tw_table.specs.Shares.{IsRuled, Share, board_of, place_of};

/// A new exchange, and for each of its workers in turn a shard as it opens and an empty hand, keep the
/// rule. So a table can be opened with them.
pub fn new_is_ruled()
    ensures ruled { (case : Case) (stop : ℕ) (shares : List Share) → IsCase case → 0 < length shares → AreNew case 0 (length shares) shares
        → IsRuled case (new_board (length shares) 0 stop) shares }
    ensures order { (case : Case) (shares : List Share) → AreNew case 0 (length shares) shares → map (λ s. s.shard.terms.worker) shares ≡ range_with_len 0 (length shares) }
{}

/// What `visit` does to an exchange, where each message deposited is for a router that has a worker, is a
/// visit as the rule has it. So what a worker may give back after
/// one follows from `tw_rule::laws::calls_may_be_given`.
pub fn visits_are_exact()
    ensures { (case : Case) (x : Board) (w : ℕ) (out : List (Signed Event)) (report : Option ℕ) → IsCase case → IsBoard x → w < workers x → is_early out report x ≡ false
        → is_homeless out x ≡ false → IsVisit (simulation case) (who x) w out report (handed w out x) (board_of x) (board_of (visited w out report x)) }
{}

/// Where the exchange and the shares of all workers keep the rule, each worker's routers have handled what
/// the one-thread run has, before the bound of the exchange and each earlier time.
pub fn shares_are_the_run()
    ensures { (case : Case) (x : Board) (shares : List Share) (i t : ℕ) (s : Share) → IsRuled case x shares → slice_get shares i ≡ Some s → t ≤ x.bound
        → IsRunBefore (simulation s.shard.terms.case) t (place_of s) }
{}

/// A router goes from one worker's share to another's with all that is its own, its messages in the hand and
/// in the mail included, and is that worker's from then on. Then the rule holds as before, and the machine of
/// all routers is the same but for the order of its lists.
pub fn routers_may_move()
    ensures ruled { (case : Case) (x : Board) (shares : List Share) (r i j : ℕ) (s t s2 t2 : Share) → IsRuled case x shares → slice_get shares i ≡ Some s → slice_get shares j ≡ Some t
        → (s.shard.terms.worker ≡ t.shard.terms.worker → ⊥) → IsListed r x → r < case.net.nodes → who x r ≡ s.shard.terms.worker → HasMoved r x s t s2 t2
        → IsRuled case (moved_board r t.shard.terms.worker x) (slice_set (slice_set shares i s2) j t2) }
    ensures same { (case : Case) (x : Board) (shares : List Share) (r i j : ℕ) (s t s2 t2 : Share) → IsRuled case x shares → slice_get shares i ≡ Some s → slice_get shares j ≡ Some t
        → (s.shard.terms.worker ≡ t.shard.terms.worker → ⊥) → IsListed r x → r < case.net.nodes → who x r ≡ s.shard.terms.worker → HasMoved r x s t s2 t2
        → IsSameMachine (simulation case) (assembled (board_of x) (map place_of shares))
        (assembled (board_of (moved_board r t.shard.terms.worker x)) (map place_of (slice_set (slice_set shares i s2) j t2))) }
{}
