//! Laws of elimination, stable assignments and dispute wheels, over the definitions alone. Each function
//! does nothing; its contract is the law.

ghost use Rattle.std.specs.Prelude.{ℕ, suc, ◌≡◌, ◌<◌, ◌≤◌, ◌==◌, ◌+◌, ◌⊎◌, false, true, List, [], ◌∷◌, Some, length, map, slice_index_or};
ghost use Rattle.std.specs.List.{All, filter, range_with_len};
ghost use Rattle.tw_event.specs.declared.event.Event.{Event};
ghost use Rattle.tw_event.specs.declared.event.PathNo.{PathNo};
ghost use Rattle.tw_model.specs.Case.{Case, IsCase, opening_events, simulation};
ghost use Rattle.tw_model.specs.History.{state_after};
ghost use Rattle.tw_model.specs.Net.{Net, empty_path, is_own, origin_path};
ghost use Rattle.tw_model.specs.Quiet.{IsQuiet};
ghost use Rattle.tw_model.specs.State.{State, has_peer, opening};
ghost use Rattle.tw_policy.specs.Alike.{AreAlike, AreAlikeNets};
ghost use Rattle.tw_policy.specs.DisputeWheel.{IsDisputeWheel, Pivot};
ghost use Rattle.tw_policy.specs.Elimination.{IsAtMost, IsScriptedBefore, IsSolvedIn, MayUse, after_rounds};
ghost use Rattle.tw_policy.specs.Gadgets.{bad_gadget, disagree, found_in, good_gadget, naughty_gadget, numbered, pivot, ring_of_three};
ghost use Rattle.tw_policy.specs.Left.{IsHalted, left_after, remaining, round_left};
ghost use Rattle.tw_policy.specs.OneList.{IsOneList, LeavesRanks};
ghost use Rattle.tw_policy.specs.Safe.{ComesToRest, IsRobust, IsSafe, RankAlike};
ghost use Rattle.tw_policy.specs.Search.{AreOnce, Differ, all_paths, is_one_of, search, total};
ghost use Rattle.tw_policy.specs.Stable.{IsStableAssignment};
ghost use Rattle.tw_policy.specs.Standing.{standing};
ghost use Rattle.tw_sim.specs.Ordered.{insert_all};
ghost use Rattle.tw_sim.specs.Rising.{IsRising};
ghost use Rattle.tw_sim.specs.Seq.{at};
ghost use Rattle.tw_sim.specs.Simulation.{times};

/// Where elimination leaves no choice, two assignments that are stable agree, and there is one.
pub fn solved_is_unique()
    ensures unique { (net : Net) (states : ℕ → State) (n : ℕ) → IsSolvedIn net states n → (one two : ℕ → PathNo)
        → IsStableAssignment net states one → IsStableAssignment net states two → (v : ℕ) → v < net.nodes → one v ≡ two v }
    ensures exists { (net : Net) (states : ℕ → State) (n : ℕ) → IsSolvedIn net states n
        → (ribs : ℕ → PathNo) × IsStableAssignment net states ribs }
{}

/// Where each router has one path left after so many rounds, elimination leaves no choice after one round more.
pub fn one_left_is_solved()
    ensures { (net : Net) (states : ℕ → State) (n : ℕ)
        → ((v : ℕ) → v < net.nodes → (q : PathNo) × (left_after net states n v ≡ q ∷ [])) → IsSolvedIn net states (suc n) }
{}

/// Where all paths stand in one list, each after the better ones of its router and after the path that it goes on
/// with, elimination leaves no choice.
pub fn one_list_is_solved()
    ensures { (net : Net) (states : ℕ → State) (place : PathNo → ℕ) → IsOneList net states place → (n : ℕ)
        → ((q : PathNo) → place q < n) → IsSolvedIn net states n }
{}

/// Where all paths stand in one list, no pivots make a dispute wheel.
pub fn one_list_has_no_wheel()
    ensures { (net : Net) (states : ℕ → State) (place : PathNo → ℕ) → IsOneList net states place
        → (one : Pivot) (others : List Pivot) → IsDisputeWheel net states one others → ⊥ }
{}

/// What a search lists is stable, all that is stable is listed, and nothing twice.
pub fn search_lists_stable()
    ensures stable { (net : Net) (states : ℕ → State) (n : ℕ) (xs : List (ℕ → PathNo)) → search net states n (all_paths net states) ≡ Some xs
        → (k : ℕ) → k < length xs → IsStableAssignment net states (slice_index_or xs k (λ w. empty_path)) }
    ensures all { (net : Net) (states : ℕ → State) (n : ℕ) (xs : List (ℕ → PathNo)) → search net states n (all_paths net states) ≡ Some xs
        → (ribs : ℕ → PathNo) → IsStableAssignment net states ribs
        → (k : ℕ) × (k < length xs) × ((v : ℕ) → v < net.nodes → slice_index_or xs k (λ w. empty_path) v ≡ ribs v) }
    ensures once { (net : Net) (states : ℕ → State) → ((v : ℕ) → AreOnce (all_paths net states v)) → (n : ℕ) (xs : List (ℕ → PathNo))
        → search net states n (all_paths net states) ≡ Some xs → (j k : ℕ) → j < k → k < length xs
        → Differ net.nodes (slice_index_or xs j (λ w. empty_path)) (slice_index_or xs k (λ w. empty_path)) }
{}

/// A search ends: so many steps down are enough as there are paths in all, and one.
pub fn search_ends()
    ensures { (net : Net) (states : ℕ → State) (n : ℕ) → total (all_paths net states) (range_with_len 0 net.nodes) < n
        → (xs : List (ℕ → PathNo)) × (search net states n (all_paths net states) ≡ Some xs) }
{}

/// Where elimination has come to a halt and a router still has a choice, there is a dispute wheel. So without
/// one elimination solves the case.
pub fn stuck_has_a_wheel()
    ensures { (net : Net) (states : ℕ → State) (left : ℕ → List PathNo) → IsHalted net states left
        → (v : ℕ) → 1 < length (left v) → (one : Pivot) × (others : List Pivot) × IsDisputeWheel net states one others }
{}

/// Where elimination leaves no choice after n rounds, every run comes to rest, whatever the delays: n + 1 times
/// the longest delay after its last scripted event nothing is pending any more. And every router then uses the
/// path that was left.
pub fn solved_rests()
    ensures quiet { (case : Case) → IsCase case → (start most n : ℕ) → IsScriptedBefore case start → IsAtMost case.net most
        → IsSolvedIn case.net (standing case) n → (t : ℕ) → after_rounds start most (suc n) ≤ t → IsQuiet case t }
    ensures there { (case : Case) → IsCase case → (start most n : ℕ) → IsScriptedBefore case start → IsAtMost case.net most
        → IsSolvedIn case.net (standing case) n → (t : ℕ) → after_rounds start most n ≤ t → (v : ℕ) → v < case.net.nodes
        → (q : PathNo) → MayUse case.net (standing case) n v q → (at (simulation case) t v).rib ≡ q }
{}

/// Whatever the delays, and also where there is a choice: so many longest delays after its last scripted event a
/// router uses a path that as many rounds leave.
pub fn only_what_is_left_is_used()
    ensures { (case : Case) → IsCase case → (start most n : ℕ) → IsScriptedBefore case start → IsAtMost case.net most
        → (t : ℕ) → after_rounds start most n ≤ t → (v : ℕ)
        → 0 < length (filter (λ q. q.0 == (at (simulation case) t v).rib.0) (left_after case.net (standing case) n v)) }
{}

/// Where the lists of n rounds leave each router one path, every run comes to rest, whatever the delays: n + 1
/// times the longest delay after its last scripted event nothing is pending any more. And from n longest delays on
/// a router with one path left uses it, also where others have a choice.
pub fn one_left_rests()
    ensures quiet { (case : Case) → IsCase case → (start most n : ℕ) → IsScriptedBefore case start → IsAtMost case.net most
        → ((v : ℕ) → v < case.net.nodes → (q : PathNo) × (left_after case.net (standing case) n v ≡ q ∷ []))
        → (t : ℕ) → after_rounds start most (suc n) ≤ t → IsQuiet case t }
    ensures there { (case : Case) → IsCase case → (start most n : ℕ) → IsScriptedBefore case start → IsAtMost case.net most
        → (t : ℕ) → after_rounds start most n ≤ t → (v : ℕ) (q : PathNo) → left_after case.net (standing case) n v ≡ q ∷ []
        → (at (simulation case) t v).rib ≡ q }
{}

/// A run that is at rest once its script is over has a stable assignment, by how the routers then stand. So where
/// there is none, no run of the case is at rest any more once its script is over, whatever the delays.
pub fn rest_is_stable()
    ensures { (case : Case) → IsCase case → (start : ℕ) → IsScriptedBefore case start → (t : ℕ) → start ≤ t → IsQuiet case t
        → IsStableAssignment case.net (standing case) (λ v. (at (simulation case) t v).rib) }
{}

/// What elimination leaves, and which assignments are stable, is the same for all delays: so one case speaks for
/// every case that differs from it in the delays of links alone.
pub fn delays_do_not_matter()
    ensures solved { (case other : Case) → IsCase case → IsCase other → AreAlike case other → (n : ℕ)
        → IsSolvedIn case.net (standing case) n → IsSolvedIn other.net (standing other) n }
    ensures may_use { (case other : Case) → IsCase case → IsCase other → AreAlike case other → (n v : ℕ) (q : PathNo)
        → MayUse case.net (standing case) n v q → MayUse other.net (standing other) n v q }
    ensures left { (case other : Case) → IsCase case → IsCase other → AreAlike case other → (n v : ℕ)
        → left_after case.net (standing case) n v ≡ left_after other.net (standing other) n v }
    ensures stable { (case other : Case) → IsCase case → IsCase other → AreAlike case other → (ribs : ℕ → PathNo)
        → IsStableAssignment case.net (standing case) ribs → IsStableAssignment other.net (standing other) ribs }
{}

/// Where all paths stand in one list of n places, a case comes to rest n + 1 longest delays after its last scripted
/// event: by the ranks as they were given after every script that leaves them as they are, and by the ranks as the
/// routers of a case stand after every script that leads to those ranks, whatever fails, comes back, is forbidden
/// or allowed, and whatever the delays.
pub fn one_list_rests()
    ensures given { (case : Case) → IsCase case → LeavesRanks case → (place : PathNo → ℕ) → IsOneList case.net (opening case.net) place
        → (n : ℕ) → ((q : PathNo) → place q < n) → (start most : ℕ) → IsScriptedBefore case start → IsAtMost case.net most
        → (t : ℕ) → after_rounds start most (suc n) ≤ t → IsQuiet case t }
    ensures standing { (case other : Case) → IsCase other → AreAlikeNets case.net other.net → RankAlike case other
        → (place : PathNo → ℕ) → IsOneList case.net (standing case) place → (n : ℕ) → ((q : PathNo) → place q < n)
        → (start most : ℕ) → IsScriptedBefore other start → IsAtMost other.net most → (t : ℕ) → after_rounds start most (suc n) ≤ t → IsQuiet other t }
{}

/// Elimination comes to a halt: each round leaves fewer paths in all, or is one that changes nothing, and then no
/// later one does. That comes within as many rounds as there are paths in all.
pub fn elimination_halts()
    ensures fewer { (net : Net) (states : ℕ → State) (n : ℕ)
        → (total (left_after net states (suc n)) (range_with_len 0 net.nodes) < total (left_after net states n) (range_with_len 0 net.nodes))
        ⊎ ((v : ℕ) → v < net.nodes → left_after net states (suc n) v ≡ left_after net states n v) }
    ensures over { (net : Net) (states : ℕ → State) (n : ℕ) → ((v : ℕ) → v < net.nodes → left_after net states (suc n) v ≡ left_after net states n v)
        → (k v : ℕ) → v < net.nodes → left_after net states (n + k) v ≡ left_after net states n v }
    ensures soon { (net : Net) (states : ℕ → State) → (n : ℕ) × (n ≤ total (all_paths net states) (range_with_len 0 net.nodes))
        × ((v : ℕ) → v < net.nodes → left_after net states (suc n) v ≡ left_after net states n v) }
{}

/// What a router has left depends on its neighbours' lists alone. So only routers with a neighbour whose list has
/// changed have to be looked at again.
pub fn elimination_is_local()
    ensures { (net : Net) (states : ℕ → State) (one two : ℕ → List PathNo) (v : ℕ) → ((w : ℕ) → has_peer net v w ≡ true → one w ≡ two w)
        → round_left net states one v ≡ round_left net states two v }
{}

/// In whatever order routers eliminate, one by one or together, they come to the same halt: what a halt has is
/// kept by every round, no halt has more than so many rounds leave, and two halts of the same paths are one.
pub fn order_does_not_matter()
    ensures kept { (net : Net) (states : ℕ → State) (halted left : ℕ → List PathNo) → IsHalted net states halted
        → ((w : ℕ) (q : PathNo) → is_one_of (halted w) q ≡ true → is_one_of (left w) q ≡ true)
        → (v : ℕ) (q : PathNo) → is_one_of (halted v) q ≡ true → is_one_of (round_left net states left v) q ≡ true }
    ensures within { (net : Net) (states : ℕ → State) (halted : ℕ → List PathNo) → IsHalted net states halted
        → (n v : ℕ) (q : PathNo) → is_one_of (halted v) q ≡ true → is_one_of (left_after net states n v) q ≡ true }
    ensures same { (net : Net) (states : ℕ → State) (one two : ℕ → List PathNo) → IsHalted net states one → IsHalted net states two
        → ((w : ℕ) (q : PathNo) → is_one_of (one w) q ≡ true → is_one_of (two w) q ≡ true)
        → ((w : ℕ) (q : PathNo) → is_one_of (two w) q ≡ true → is_one_of (one w) q ≡ true) → (v : ℕ) → one v ≡ two v }
{}

/// Without a dispute wheel elimination leaves each router one path, within as many rounds as there are paths in
/// all.
pub fn no_wheel_leaves_one()
    ensures { (net : Net) (states : ℕ → State) → ((one : Pivot) (others : List Pivot) → IsDisputeWheel net states one others → ⊥)
        → (n : ℕ) × (n ≤ total (all_paths net states) (range_with_len 0 net.nodes))
        × ((v : ℕ) → v < net.nodes → (q : PathNo) × (left_after net states n v ≡ q ∷ [])) }
{}

/// Without a dispute wheel all paths stand in one list, each after the better ones of its router and after the
/// path that it goes on with; of each router it is asked that its ranks hold paths of its own, each once. So
/// there is such a list exactly where there is no wheel.
pub fn no_wheel_has_one_list()
    ensures { (net : Net) (states : ℕ → State) → ((v : ℕ) → All (λ q. is_own net v q ≡ true) (states v).order)
        → ((v : ℕ) → AreOnce (states v).order) → ((one : Pivot) (others : List Pivot) → IsDisputeWheel net states one others → ⊥)
        → (place : PathNo → ℕ) × (n : ℕ) × IsOneList net states place × ((q : PathNo) → place q < n) }
{}

/// What elimination solves is safe: whatever the delays of its links, the case comes to rest.
pub fn solved_is_safe()
    ensures { (case : Case) → IsCase case → (n : ℕ) → IsSolvedIn case.net (standing case) n → IsSafe case }
{}

/// A case without a dispute wheel, by how its routers stand once its script is over, is safe.
pub fn no_wheel_is_safe()
    ensures { (case : Case) → IsCase case → ((one : Pivot) (others : List Pivot) → IsDisputeWheel case.net (standing case) one others → ⊥)
        → IsSafe case }
{}

/// An instance without a dispute wheel, by the ranks as they were given, is robust: it comes to rest after every
/// script that leaves the ranks as they are, whatever the delays. And where there is none by the ranks as the
/// routers of a case stand, so it does after every script that leads to those ranks.
pub fn no_wheel_is_robust()
    ensures given { (net : Net) → ((one : Pivot) (others : List Pivot) → IsDisputeWheel net (opening net) one others → ⊥) → IsRobust net }
    ensures standing { (case other : Case) → IsCase case → IsCase other → AreAlikeNets case.net other.net → RankAlike case other
        → ((one : Pivot) (others : List Pivot) → IsDisputeWheel case.net (standing case) one others → ⊥) → ComesToRest other }
{}

/// Once the script of a case is over, each router ranks paths of its own, each once, and none of them is the
/// empty path. So what the other laws ask of ranks holds for every case.
pub fn ranks_stand_once()
    ensures own { (case : Case) → IsCase case → (v : ℕ) → All (λ q. is_own case.net v q ≡ true) (standing case v).order }
    ensures once { (case : Case) → IsCase case → (v : ℕ) → AreOnce (standing case v).order }
    ensures all { (case : Case) → IsCase case → (v : ℕ) → AreOnce (all_paths case.net (standing case) v) }
{}

/// What the definitions say of instances of the literature, by computing: DISAGREE has two stable assignments and
/// a dispute wheel, NAUGHTY GADGET has one, BAD GADGET and a ring of three that each prefer the next one's way
/// have none, and elimination leaves each router of GOOD GADGET the one path of its only stable assignment.
pub fn gadgets_are_judged()
    ensures disagree { found_in disagree 8 ≡ Some ((1 ∷ 2 ∷ 5 ∷ []) ∷ (1 ∷ 3 ∷ 4 ∷ []) ∷ []) }
    ensures wheel { IsDisputeWheel disagree (opening disagree) (pivot 1 3 2) (pivot 2 5 4 ∷ []) }
    ensures naughty { found_in naughty_gadget 14 ≡ Some ((1 ∷ 2 ∷ 5 ∷ 7 ∷ 8 ∷ []) ∷ []) }
    ensures bad { found_in bad_gadget 14 ≡ Some [] }
    ensures ring { found_in ring_of_three 11 ≡ Some [] }
    ensures good { found_in good_gadget 13 ≡ Some ((1 ∷ 2 ∷ 5 ∷ 6 ∷ 7 ∷ []) ∷ []) }
    ensures left { map (left_after good_gadget (opening good_gadget) 3) (range_with_len 0 5)
        ≡ (numbered 1 ∷ []) ∷ (numbered 2 ∷ []) ∷ (numbered 5 ∷ []) ∷ (numbered 6 ∷ []) ∷ (numbered 7 ∷ []) ∷ [] }
{}

/// How a router stands once the script is over is what it knows after it has handled its own opening events, the
/// first of them first: given as the definition puts them in order, or as any list that ascends and has each as often.
pub fn standing_is_handled_in_order()
    ensures ordered { (case : Case) → IsCase case → (v : ℕ) → standing case v
        ≡ state_after case.net v (opening case.net v) (insert_all (simulation case).before (filter (λ e. e.dst == v) (opening_events case.scenes)) []) }
    ensures rising { (case : Case) → IsCase case → (v : ℕ) (events : List Event) → IsRising (simulation case).before (simulation case).same events
        → ((e : Event) → times (simulation case) e events ≡ times (simulation case) e (filter (λ x. x.dst == v) (opening_events case.scenes)))
        → standing case v ≡ state_after case.net v (opening case.net v) events }
{}

/// A run of a case that is at rest once its script is over is, whatever the delays, in one of the assignments that
/// a search lists; and where it lists none, no run is at rest any more once its script is over.
pub fn rest_is_listed()
    ensures listed { (case other : Case) → IsCase case → IsCase other → AreAlike case other → (n : ℕ) (xs : List (ℕ → PathNo))
        → search case.net (standing case) n (all_paths case.net (standing case)) ≡ Some xs → (start : ℕ) → IsScriptedBefore other start
        → (t : ℕ) → start ≤ t → IsQuiet other t
        → (k : ℕ) × (k < length xs) × ((v : ℕ) → v < case.net.nodes → slice_index_or xs k (λ w. empty_path) v ≡ (at (simulation other) t v).rib) }
    ensures never { (case other : Case) → IsCase case → IsCase other → AreAlike case other → (n : ℕ)
        → search case.net (standing case) n (all_paths case.net (standing case)) ≡ Some [] → (start : ℕ) → IsScriptedBefore other start
        → (t : ℕ) → start ≤ t → ¬ IsQuiet other t }
{}

/// What the lists of n rounds leave, n rounds of elimination leave, and n + 1 rounds of it leave nothing else: so
/// the lists are as exact as the definition, at most one round behind. And where elimination leaves no choice after
/// n rounds, the lists of n rounds leave each router one path.
pub fn lists_are_exact()
    ensures left { (case : Case) → IsCase case → (n v : ℕ) (q : PathNo) → is_one_of (left_after case.net (standing case) n v) q ≡ true
        → MayUse case.net (standing case) n v q }
    ensures may_use { (net : Net) (states : ℕ → State) (n v : ℕ) (q : PathNo) → MayUse net states (suc n) v q → is_one_of (left_after net states n v) q ≡ true }
    ensures one { (case : Case) → IsCase case → (n : ℕ) → IsSolvedIn case.net (standing case) n
        → (v : ℕ) → v < case.net.nodes → (q : PathNo) × (left_after case.net (standing case) n v ≡ q ∷ []) }
{}
