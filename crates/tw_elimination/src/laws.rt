//! What the number of rounds says, over the definitions alone. Each function does nothing; its contract is the law.

ghost use Rattle.std.specs.Prelude.{ℕ, suc, ◌≡◌, ◌≤◌, ◌<◌, ◌+◌, true, false, List, [], ◌∷◌};
ghost use Rattle.tw_elimination.specs.Bound.{is_solved, rests_before};
ghost use Rattle.tw_elimination.specs.Placing.{has_one_list};
ghost use Rattle.tw_elimination.specs.Rounds.{left_in, rounds_of, total_left};
ghost use Rattle.tw_event.specs.declared.event.PathNo.{PathNo};
ghost use Rattle.tw_model.specs.Case.{Case, IsCase, simulation};
ghost use Rattle.tw_model.specs.Net.{Net};
ghost use Rattle.tw_model.specs.Quiet.{IsQuiet};
ghost use Rattle.tw_model.specs.Rules.{IsNet};
ghost use Rattle.tw_model.specs.State.{opening};
ghost use Rattle.tw_policy.specs.DisputeWheel.{IsDisputeWheel, Pivot};
ghost use Rattle.tw_policy.specs.OneList.{IsOneList};
ghost use Rattle.tw_policy.specs.Safe.{IsRobust, IsSafe};
ghost use Rattle.tw_policy.specs.Standing.{standing};
ghost use Rattle.tw_sim.specs.Seq.{at};

/// Elimination comes to a halt after as many rounds as are told: each of them takes a path, and no later one
/// changes anything.
pub fn rounds_lead_to_the_halt()
    ensures fewer { (case : Case) (n : ℕ) → n < rounds_of case → total_left case (suc n) < total_left case n }
    ensures over { (case : Case) (k v : ℕ) → v < case.net.nodes → left_in case (rounds_of case + k) v ≡ left_in case (rounds_of case) v }
{}

/// Where each router has one path left, the case is safe, and every run of it is at rest from the time told on;
/// also where others have a choice, a router with one path left uses it then.
pub fn solved_rests_in_time()
    ensures safe { (case : Case) → IsCase case → (n : ℕ) → is_solved case n ≡ true → IsSafe case }
    ensures quiet { (case : Case) → IsCase case → (n : ℕ) → is_solved case n ≡ true → (t : ℕ) → rests_before case n ≤ t → IsQuiet case t }
    ensures there { (case : Case) → IsCase case → (n v : ℕ) (q : PathNo) → left_in case n v ≡ q ∷ []
        → (t : ℕ) → rests_before case n ≤ t → (at (simulation case) t v).rib ≡ q }
{}

/// Where all paths stand in one list, by the ranks as they were given, each after the better ones of its router and
/// after the path that it goes on with, the instance is robust.
pub fn one_list_is_robust()
    ensures list { (net : Net) → IsNet net → has_one_list net ≡ true
        → (place : PathNo → ℕ) × (n : ℕ) × IsOneList net (opening net) place × ((q : PathNo) → place q < n) }
    ensures only { (net : Net) → IsNet net → (place : PathNo → ℕ) → IsOneList net (opening net) place → has_one_list net ≡ true }
    ensures robust { (net : Net) → IsNet net → has_one_list net ≡ true → IsRobust net }
{}

/// Where some router has not one path left at the halt, there is a dispute wheel, by how the routers stand once
/// the script is over.
pub fn unsolved_has_a_wheel()
    ensures { (case : Case) → is_solved case (rounds_of case) ≡ false
        → (one : Pivot) × (others : List Pivot) × IsDisputeWheel case.net (standing case) one others }
{}
