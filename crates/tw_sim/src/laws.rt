//! Laws of the sequential run, over its definitions alone and any lawful simulation. Each function does
//! nothing; its contract is the law.

ghost use Rattle.std.specs.Prelude.{ℕ, ◌≡◌, ◌<◌, ◌≤◌, List};
ghost use Rattle.tw_sim.specs.Seq.{log, rest};
ghost use Rattle.tw_sim.specs.Simulation.{AreClosed, IsClosed, IsLawful, IsNumbered, Simulation, only, times};

/// The run to each time exists: nothing that is left pending lies before it.
pub fn run_ends<S, E>()
    ensures { (m : Simulation S E) → IsLawful m → IsNumbered m → (t : ℕ) (e : E) → 0 < times m e (rest m t) → t ≤ m.time e }
{}

/// The events of the run to a time are closed below it, and no other list is: the run is determined.
pub fn closed_unique<S, E>()
    ensures closed { (m : Simulation S E) → IsLawful m → IsNumbered m → (t : ℕ) → IsClosed m t (log m t) }
    ensures unique { (m : Simulation S E) → IsLawful m → (t : ℕ) (one two : List E) → IsClosed m t one → IsClosed m t two → one ≡ two }
{}

/// Histories that are closed below a time are those of the run to it, router by router.
pub fn closed_histories_unique<S, E>()
    ensures closed { (m : Simulation S E) → IsLawful m → IsNumbered m → (t : ℕ) → AreClosed m t (λ r. only m r (log m t)) }
    ensures unique { (m : Simulation S E) → IsLawful m → IsNumbered m → (t : ℕ) (hist : ℕ → List E) → AreClosed m t hist
        → (r : ℕ) → hist r ≡ only m r (log m t) }
{}
