//! Laws of the sequential run, over its definitions alone. Each function does nothing; its contract is
//! the law.

ghost use Rattle.std.specs.Prelude.{ℕ, ◌≡◌, ◌<◌, ◌≤◌, List};
ghost use Rattle.tw_event.specs.declared.event.Event.{Event};
ghost use Rattle.tw_model.specs.Case.{Case, IsCase, simulation};
ghost use Rattle.tw_model.specs.Quiet.{IsQuiet, IsStable};
ghost use Rattle.tw_sim.specs.Seq.{at, log, rest};
ghost use Rattle.tw_sim.specs.Simulation.{AreClosed, IsClosed, IsLawful, IsNumbered, only, times};

/// What every case simulates keeps the laws that the other laws rest on: a message is later than the
/// event that sent it, comes from that event's router, is numbered by the rising counter and suits the
/// router that it is for, and an event sends at most 64.
pub fn simulation_is_lawful()
    ensures lawful { (case : Case) → IsCase case → IsLawful (simulation case) }
    ensures numbered { (case : Case) → IsCase case → IsNumbered (simulation case) }
{}

/// The run to each time exists: nothing that is left pending lies before it.
pub fn run_ends()
    ensures { (case : Case) → IsCase case → (t : ℕ) (e : Event)
        → 0 < times (simulation case) e (rest (simulation case) t) → t ≤ e.time }
{}

/// The events of the run to a time are closed below it, and no other list is: the run is determined.
pub fn closed_unique()
    ensures closed { (case : Case) → IsCase case → (t : ℕ) → IsClosed (simulation case) t (log (simulation case) t) }
    ensures unique { (case : Case) → IsCase case → (t : ℕ) (one two : List Event)
        → IsClosed (simulation case) t one → IsClosed (simulation case) t two → one ≡ two }
{}

/// Histories, a list of events for each router, that are closed below a time are those of the run to
/// it, router by router. Each has its newest event first.
pub fn closed_histories_unique()
    ensures closed { (case : Case) → IsCase case → (t : ℕ)
        → AreClosed (simulation case) t (λ r. only (simulation case) r (log (simulation case) t)) }
    ensures unique { (case : Case) → IsCase case → (t : ℕ) (histories : ℕ → List Event)
        → AreClosed (simulation case) t histories → (r : ℕ) → histories r ≡ only (simulation case) r (log (simulation case) t) }
{}

/// Where nothing is pending any more, every router has the best path that its neighbours' present
/// paths allow.
pub fn quiet_stable()
    ensures { (case : Case) → IsCase case → (t : ℕ) → IsQuiet case t → IsStable case.net (at (simulation case) t) }
{}
