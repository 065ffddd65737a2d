//! Laws of the machine, over its definitions alone and any lawful simulation. Each function does
//! nothing; its contract is the law.

ghost use Rattle.std.specs.Prelude.{ℕ, ◌≡◌, ◌<◌, ◌≤◌, ◌+◌, ◌↔◌, ◌⊎◌, true, List, [], ◌∷◌, ◌++◌, Bool, Err, Ok, Some, length, slice_get};
ghost use Rattle.tw_core.specs.declared.refusal.Refusal.TheVariants.{Nothing};
ghost use Rattle.tw_core.specs.Cut.{IsCut};
ghost use Rattle.tw_core.specs.Good.{IsGood, IsGoodPart, due};
ghost use Rattle.tw_core.specs.Machine.{AreCounted, Core, IsOpening, committed};
ghost use Rattle.tw_core.specs.Parts.{AddUp, IsOwn, Part, PreservesPart, Shared, assembled};
ghost use Rattle.tw_core.specs.Run.{IsAtEnd, IsSeq, IsSettled};
ghost use Rattle.tw_core.specs.Steps.{after_arrival, after_undoing, deliver, first_pending, handle, next, run, undo, with_release, with_room};
ghost use Rattle.tw_sim.specs.declared.machine.Cancel.TheVariants.{Aggressive};
ghost use Rattle.tw_sim.specs.declared.machine.Signed.{Signed};
ghost use Rattle.tw_sim.specs.declared.machine.Step.{Step};
ghost use Rattle.tw_sim.specs.Simulation.{IsLawful, IsNumbered, Simulation, below, sent, times};

/// A machine that begins is good.
pub fn opening_is_good<S, E>()
    ensures { (m : Simulation S E) → IsLawful m → (C : Core E) → IsOpening m C → IsGood m C }
{}

/// Each step keeps good, a refused one too, and so does every list of steps.
pub fn steps_keep_good<S, E>()
    ensures step { (m : Simulation S E) → IsLawful m → (C : Core E) (x : Step) → IsGood m C → IsGood m (next m C x) }
    ensures run { (m : Simulation S E) → IsLawful m → (C : Core E) (xs : List Step) → IsGood m C → IsGood m (run m C xs) }
{}

/// A router has nothing to handle exactly where none of its pending events is before the stop.
pub fn nothing_to_handle<S, E>()
    ensures { (m : Simulation S E) → IsLawful m → (C : Core E) (r : ℕ)
        → (handle m C r (first_pending m C r) ≡ Err Nothing) ↔ ((e : E) → 0 < times m e C.pending → m.dst e ≡ r → C.stop ≤ m.time e) }
{}

/// A good state is the one-thread run as far as it is committed, and as far as its bound; and so is
/// every state that a list of steps leads to from the opening.
pub fn good_is_seq<S, E>()
    ensures good { (m : Simulation S E) → IsLawful m → IsNumbered m → (C : Core E) → IsGood m C → IsSeq m C }
    ensures always { (m : Simulation S E) → IsLawful m → IsNumbered m → (C : Core E) (xs : List Step) → IsOpening m C → IsSeq m (run m C xs) }
{}

/// What is committed stays so: later steps never undo it, and handle nothing more before it.
pub fn committed_stays<S, E>()
    ensures { (m : Simulation S E) → IsLawful m → IsNumbered m → (C : Core E) (xs : List Step) (r : ℕ) → IsGood m C
        → below m (C.done r) ((run m C xs).history r) ≡ committed m C r }
{}

/// As many events of a router are counted as committed as are committed: where a machine begins, after every
/// list of steps, and where a router got more room. So a router is refused to handle for want of room exactly
/// where it has handled as many others as it has room for.
pub fn committed_are_counted<S, E>()
    ensures opens { (m : Simulation S E) (C : Core E) → IsOpening m C → AreCounted m C }
    ensures steps { (m : Simulation S E) → IsLawful m → IsNumbered m → (C : Core E) (xs : List Step) → IsGood m C → AreCounted m C → AreCounted m (run m C xs) }
    ensures widen { (m : Simulation S E) (C : Core E) (r : ℕ) → AreCounted m C → AreCounted m (with_room m C r) }
    ensures always { (m : Simulation S E) → IsLawful m → IsNumbered m → (C : Core E) (xs : List Step) (r : ℕ) → IsOpening m C
        → (run m C xs).past r ≡ length (committed m (run m C xs) r) }
{}

/// A machine that takes back at once what undone events had sent holds nothing, whatever its steps; and
/// no step changes the way in which it takes back.
pub fn eager_holds_nothing<S, E>()
    ensures cancel { (m : Simulation S E) (C : Core E) (xs : List Step) → (run m C xs).cancel ≡ C.cancel }
    ensures held { (m : Simulation S E) (C : Core E) (xs : List Step) → C.cancel ≡ Aggressive → C.held ≡ [] → (run m C xs).held ≡ [] }
{}

/// The bound never falls.
pub fn bound_never_falls<S, E>()
    ensures step { (m : Simulation S E) → IsLawful m → (C : Core E) (x : Step) → IsGood m C → C.bound ≤ (next m C x).bound }
    ensures run { (m : Simulation S E) → IsLawful m → (C : Core E) (xs : List Step) → IsGood m C → C.bound ≤ (run m C xs).bound }
{}

/// A message in flight is never before the bound, is for a router that is there, and suits it.
pub fn messages_are_welcome<S, E>()
    ensures { (m : Simulation S E) → IsLawful m → (C : Core E) (k : ℕ) (x : Signed E) → IsGood m C → slice_get C.flight k ≡ Some x
        → (C.bound ≤ m.time x.event) × (m.dst x.event < m.routers) × (m.suits x.event ≡ true) }
{}

/// Where nothing is in flight, no antimessage is kept; and where nothing is held or pending before the
/// stop either, the state is that at the end of the one-thread run.
pub fn settled_is_end<S, E>()
    ensures kept { (m : Simulation S E) → IsLawful m → (C : Core E) → IsGood m C → C.flight ≡ [] → C.kept ≡ [] }
    ensures end { (m : Simulation S E) → IsLawful m → IsNumbered m → (C : Core E) → IsGood m C → IsSettled m C → IsAtEnd m C }
{}

/// A machine that stands at a cut of the one-thread run is good, whatever has brought it there, and so all that
/// is said of good ones holds from there on. It stands at one where it is settled and its bound has come to
/// the stop; and a machine that begins stands at the cut at time 0.
pub fn cuts_are_good<S, E>()
    ensures good { (m : Simulation S E) → IsLawful m → IsNumbered m → (t : ℕ) (C : Core E) → IsCut m t C → IsGood m C }
    ensures cut { (m : Simulation S E) → IsLawful m → IsNumbered m → (C : Core E) → IsGood m C → IsSettled m C → C.bound ≡ C.stop → IsCut m C.stop C }
    ensures opens { (m : Simulation S E) → IsLawful m → (C : Core E) → IsOpening m C → IsCut m 0 C }
{}

/// An event is asked for at most once: where it is an opening event, or sent by what some router has
/// handled.
pub fn asked_once<S, E>()
    ensures once { (m : Simulation S E) → IsLawful m → IsNumbered m → (C : Core E) (e : E) → due m C e ≤ 1 }
    ensures asked { (m : Simulation S E) → IsLawful m → (C : Core E) (e : E) → IsGood m C
        → (0 < due m C e) ↔ ((0 < times m e m.opening) ⊎ ((r : ℕ) × (0 < times m e (sent m r (C.history r))))) }
{}

/// The stop may rise.
pub fn stop_may_rise<S, E>()
    ensures { (m : Simulation S E) → IsLawful m → (C : Core E) (stop : ℕ) → C.stop ≤ stop → IsGood m C → IsGood m (record C { stop = stop }) }
{}

/// What a call does at some routers keeps their part of a good state, for each time `t` before which
/// nothing of theirs was loose, and every surplus; an undo does so for times that are not beyond the
/// event undone, as within a delivery.
pub fn calls_keep_parts<S, E>()
    ensures handle { (m : Simulation S E) → IsLawful m → (t : ℕ) (C D : Core E) (r : ℕ) → IsGoodPart m t C
        → handle m C r (first_pending m C r) ≡ Ok D → PreservesPart m t C D }
    ensures undo { (m : Simulation S E) → IsLawful m → (t : ℕ) (C D : Core E) (r : ℕ) → t ≤ C.bound → IsGoodPart m t C
        → undo m C r (C.history r) ≡ Ok D → PreservesPart m t C D }
    ensures deliver { (m : Simulation S E) → IsLawful m → (t : ℕ) (C D : Core E) (k : ℕ) → IsGoodPart m t C
        → deliver m C k (slice_get C.flight k) ≡ Ok D → PreservesPart m t C D }
    ensures undoing { (m : Simulation S E) → IsLawful m → (t : ℕ) (C : Core E) (r : ℕ) (e : E) (older : List E) → t ≤ m.time e → IsGoodPart m t C
        → C.history r ≡ e ∷ older → PreservesPart m t C (after_undoing m C r e older) }
    ensures release { (m : Simulation S E) → IsLawful m → (t : ℕ) (C : Core E) (r : ℕ) → IsGoodPart m t C → PreservesPart m t C (with_release m C r) }
    ensures widen { (m : Simulation S E) → IsLawful m → (t : ℕ) (C : Core E) (r : ℕ) → IsGoodPart m t C → PreservesPart m t C (with_room m C r) }
{}

/// What a call does at routers that a part owns leaves in it only what is for these, and holds only what
/// they have sent.
pub fn calls_keep_own<S, E>()
    ensures handle { (m : Simulation S E) → IsLawful m → (owns : ℕ → Bool) (C D : Core E) (r : ℕ) → IsOwn m owns C
        → handle m C r (first_pending m C r) ≡ Ok D → IsOwn m owns D }
    ensures undo { (m : Simulation S E) → IsLawful m → (owns : ℕ → Bool) (t : ℕ) (C D : Core E) (r : ℕ) → IsGoodPart m t C → IsOwn m owns C
        → undo m C r (C.history r) ≡ Ok D → IsOwn m owns D }
    ensures arrival { (m : Simulation S E) → IsLawful m → (owns : ℕ → Bool) (t : ℕ) (C : Core E) (x : Signed E) → IsGoodPart m t C → IsOwn m owns C
        → owns (m.dst x.event) ≡ true → IsOwn m owns (after_arrival m C x) }
    ensures release { (m : Simulation S E) → IsLawful m → (owns : ℕ → Bool) (C : Core E) (r : ℕ) → IsOwn m owns C → IsOwn m owns (with_release m C r) }
{}

/// Where a message arrives, what else is in flight does not count: what it takes back goes behind.
pub fn arrivals_append<S, E>()
    ensures { (m : Simulation S E) (C : Core E) (x : Signed E) (front : List (Signed E))
        → after_arrival m (record C { flight = front ++ C.flight }) x ≡ record (after_arrival m C x) { flight = front ++ (after_arrival m C x).flight } }
{}

/// Parts that add up are, put together, a good state; and each good state adds up from one part that
/// owns every router.
pub fn parts_are_good<S, E>()
    ensures good { (m : Simulation S E) → IsLawful m → (shared : Shared E) (parts : List (Part E)) → AddUp m shared parts → IsGood m (assembled shared parts) }
    ensures whole { (m : Simulation S E) (C : Core E) → IsGood m C
        → AddUp m (record { mail = C.flight; bound = C.bound; stop = C.stop }) (record { owns = λ r. true; core = record C { flight = [] } } ∷ []) }
{}
