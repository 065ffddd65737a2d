//! Laws of shapes and of what is found at checkpoints, over the definitions alone. Each function does
//! nothing; its contract is the law.

ghost use Rattle.std.specs.Prelude.{ℕ, ◌≡◌, ◌<◌, ◌≤◌, ◌+◌, ◌*◌, true, [], None, Some, map, slice_index};
ghost use Rattle.std.specs.List.{All, range_with_len};
ghost use Rattle.tw_model.specs.Case.{Case, IsCase, simulation};
ghost use Rattle.tw_model.specs.Quiet.{IsQuiet};
ghost use Rattle.tw_sim.specs.Seq.{at, rest};
ghost use Rattle.tw_shape.specs.declared.verdict.Finding.{Finding as AFinding};
ghost use Rattle.tw_shape.specs.Shape.{IsStill, Repeats, bare, can_repeat, later, seen_from, shape};
ghost use Rattle.tw_shape.specs.Verdict.{ComesAgain, IsFirst, finding};
ghost use Rattle.tw_shape.specs.Watch.{HasSeen, Watch as AWatch, checkpoints_in};

/// A shape with events pending, none of them an opening event, that comes again `p` ticks later comes
/// again every `p` ticks for ever, whatever the stop of a run was.
pub fn shape_repeats()
    ensures { (case : Case) → IsCase case → (a p : ℕ) → can_repeat (shape case a) ≡ true → shape case (a + p) ≡ shape case a
        → Repeats case a p }
{}

/// So the run never comes to rest: at each time from the first of the two on, something is pending.
pub fn never_quiet()
    ensures { (case : Case) → IsCase case → (a p : ℕ) → can_repeat (shape case a) ≡ true → shape case (a + p) ≡ shape case a
        → 0 < p → (t : ℕ) → a ≤ t → ¬ IsQuiet case t }
{}

/// While nothing is handled, the shape is the same one later; and while something is pending, no two
/// shapes are the same then, because the times until the next event differ.
pub fn shape_between_events()
    ensures later { (case : Case) → IsCase case → (t d : ℕ) → IsStill d (shape case t) → shape case (t + d) ≡ later d (shape case t) }
    ensures differs { (case : Case) → IsCase case → (t d : ℕ) → 0 < d → IsStill d (shape case t) → ¬ ((shape case t).pending ≡ [])
        → ¬ (shape case (t + d) ≡ shape case t) }
{}

/// The shape is what a `ShapeBuilder` makes of the routers' states and the pending events.
pub fn shape_is_gathered()
    ensures { (case : Case) → IsCase case → (t : ℕ) → let states = map (at (simulation case) t) (range_with_len 0 case.net.nodes) in
        shape case t ≡ record {
          routers = map bare states;
          pending = map (λ e. seen_from t (slice_index (map (λ s. s.counters.sent) states) e.src) e) (rest (simulation case) t);
        } }
{}

/// Two times of a run that have the same shape have the same paths barred at each router.
pub fn bars_are_in_shape()
    ensures { (case : Case) (t u r : ℕ) → r < case.net.nodes → shape case t ≡ shape case u
        → (at (simulation case) t r).barred ≡ (at (simulation case) u r).barred }
{}

/// What is found at checkpoints is the first of them whose shape came before, with events pending and
/// none of them an opening event; it is the only one, and nothing is found where there is none. What was
/// found stays found as checkpoints are added.
pub fn first_found()
    ensures found { (case : Case) (every n : ℕ) (f : AFinding) → 0 < every → finding case every n ≡ Some f → IsFirst case every n f }
    ensures none { (case : Case) (every n : ℕ) → 0 < every → finding case every n ≡ None → (i j : ℕ) → j ≤ n → ¬ ComesAgain case every i j }
    ensures only { (case : Case) (every n : ℕ) (f g : AFinding) → 0 < every → IsFirst case every n f → IsFirst case every n g → f ≡ g }
    ensures stays { (case : Case) (every n k : ℕ) (f : AFinding) → finding case every n ≡ Some f → finding case every (n + k) ≡ Some f }
{}

/// What is found repeats for ever, and from its time on the run never comes to rest.
pub fn finding_repeats()
    ensures repeats { (case : Case) → IsCase case → (every n : ℕ) (f : AFinding) → 0 < every → finding case every n ≡ Some f → Repeats case f.from f.period }
    ensures never_quiet { (case : Case) → IsCase case → (every n : ℕ) (f : AFinding) → 0 < every → finding case every n ≡ Some f
        → (t : ℕ) → f.from ≤ t → ¬ IsQuiet case t }
{}

/// A watch that has seen the checkpoints of a case up to a number has found what is found first there,
/// and keeps none that is not before the next.
pub fn watch_finds()
    ensures found { (case : Case) → IsCase case → (every n : ℕ) (w : AWatch) → 0 < every → HasSeen case every n w → w.found ≡ finding case every n }
    ensures early { (case : Case) → IsCase case → (every n : ℕ) (w : AWatch) → 0 < every → HasSeen case every n w
        → All (λ c. c.time < (n + 1) * every) (checkpoints_in w) }
{}
