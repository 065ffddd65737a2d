//! Laws of the exchange, over its definitions alone. Each function does nothing; its contract is the law.

ghost use Rattle.std.specs.Prelude.{ℕ, ◌≡◌, ◌+◌, ◌<◌, ◌≤◌, false, true, List, None, Option};
ghost use Rattle.std.specs.List.{AllByRecursion, sum_by};
ghost use Rattle.tw_exchange.specs.AnyBoard.{AnyBoard, IsBoard, all_mail, handed, is_for, is_homeless, visited, who, workers};
ghost use Rattle.tw_sim.specs.declared.machine.Signed.{Signed};

use tw_process::Timed;

/// A visit loses and invents no message, where each that is deposited is for a router that has a worker:
/// whatever is counted of messages, the mail that it leaves and what it hands out have together as much of it
/// as the mail before and what was deposited.
pub fn visits_lose_nothing<E: Timed>()
    ensures { (x : AnyBoard E) (w : ℕ) (out : List (Signed E)) (report : Option ℕ) (weight : Signed E → ℕ) → IsBoard E.parts x → w < workers x → is_homeless E.parts out x ≡ false
        → sum_by weight (all_mail (visited E.parts w out report x)) + sum_by weight (handed E.parts w out x) ≡ sum_by weight (all_mail x) + sum_by weight out }
{}

/// What a visit hands out is for that worker, and neither it nor what is left is before the new bound.
pub fn mail_is_welcome<E: Timed>()
    ensures home { (x : AnyBoard E) (w : ℕ) (out : List (Signed E)) → IsBoard E.parts x → AllByRecursion (λ m. is_for E.parts (who x) w m ≡ true) (handed E.parts w out x) }
    ensures late { (x : AnyBoard E) (w : ℕ) (out : List (Signed E)) (report : Option ℕ) → w < workers x
        → AllByRecursion (λ m. (visited E.parts w out report x).bound ≤ E.parts.time m.event) (handed E.parts w out x) }
    ensures left { (x : AnyBoard E) (w : ℕ) (out : List (Signed E)) (report : Option ℕ)
        → AllByRecursion (λ m. (visited E.parts w out report x).bound ≤ E.parts.time m.event) (all_mail (visited E.parts w out report x)) }
{}

/// Where routers are dealt out in turn, each has a worker.
pub fn in_turn_none_is_homeless<E: Timed>()
    ensures { (x : AnyBoard E) (out : List (Signed E)) → x.owners ≡ None → 0 < workers x → is_homeless E.parts out x ≡ false }
{}
