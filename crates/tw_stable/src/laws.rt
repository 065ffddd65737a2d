//! What the list of stable assignments says of the runs of a case. Each function does nothing; its contract is the law.

ghost use Rattle.std.specs.Prelude.{ℕ, ◌≡◌, ◌≤◌, ◌<◌, true, List, [], length, slice_index_or};
ghost use Rattle.tw_model.specs.Case.{Case, IsCase, simulation};
ghost use Rattle.tw_model.specs.Quiet.{IsQuiet};
ghost use Rattle.tw_policy.specs.Alike.{AreAlike};
ghost use Rattle.tw_policy.specs.Elimination.{IsScriptedBefore};
ghost use Rattle.tw_sim.specs.Seq.{at};
ghost use Rattle.tw_stable.specs.Splitting.{are_enough, found_by, rib_at};

/// Where the splits suffice, every run that is at rest once the script is over is in one of the assignments listed,
/// whatever the delays; and where none is listed, no run is at rest any more once its script is over.
pub fn rest_is_found()
    ensures listed { (case other : Case) → IsCase case → IsCase other → AreAlike case other → (splits : ℕ) → are_enough splits case ≡ true
        → (start : ℕ) → IsScriptedBefore other start → (t : ℕ) → start ≤ t → IsQuiet other t
        → (k : ℕ) × (k < length (found_by splits case)) × ((v : ℕ) → v < case.net.nodes → rib_at (slice_index_or (found_by splits case) k []) v ≡ (at (simulation other) t v).rib) }
    ensures never { (case other : Case) → IsCase case → IsCase other → AreAlike case other → (splits : ℕ) → are_enough splits case ≡ true
        → found_by splits case ≡ [] → (start : ℕ) → IsScriptedBefore other start → (t : ℕ) → start ≤ t → ¬ IsQuiet other t }
{}
