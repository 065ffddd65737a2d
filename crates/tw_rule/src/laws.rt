//! Laws of the rule, over its definitions alone and any lawful simulation. Each function does nothing;
//! its contract is the law. `who` names the worker of each router.

ghost use Rattle.std.specs.Prelude.{ℕ, ◌≡◌, ◌<◌, ◌≤◌, ◌+◌, true, IfSome, List, [], ◌++◌, Option, Ok, Some, length, map, min, remove, slice_get, slice_set};
ghost use Rattle.std.specs.List.{AllByRecursion, reduce};
ghost use Rattle.tw_core.specs.Cut.{IsCut};
ghost use Rattle.tw_core.specs.Good.{IsGood};
ghost use Rattle.tw_core.specs.Machine.{AreCounted, Core, IsSameMachine, antimessages, messages};
ghost use Rattle.tw_core.specs.Parts.{total};
ghost use Rattle.tw_core.specs.Run.{IsAtEnd, IsSeq};
ghost use Rattle.tw_core.specs.Steps.{IsRolledBack, after_arrival, first_pending, handle, with_commit, with_release, with_room};
ghost use Rattle.tw_rule.specs.Board.{Board, IsBoard, IsVisit, times_among};
ghost use Rattle.tw_rule.specs.Cut.{AreCutPlaces, IsCutBoard};
ghost use Rattle.tw_rule.specs.Place.{IsPlace, IsRunBefore, NoneLooseBefore, Place, PreservesPlace, Tells, after_visit, in_hand, place_core, report_time, with_core, with_unsent};
ghost use Rattle.tw_rule.specs.Moving.{IsMoved};
ghost use Rattle.tw_rule.specs.Rule.{AreOpeningPlaces, IsOpeningBoard, MayGive, Rule, Stands, assembled, owning};
ghost use Rattle.tw_sim.specs.declared.machine.Signed.{Signed};
ghost use Rattle.tw_sim.specs.Seq.{log};
ghost use Rattle.tw_sim.specs.Simulation.{IsLawful, IsNumbered, Simulation, below, only};

/// Where the rule holds, the board and the places of all workers are, put together, a good state, and so
/// the one-thread run as far as they are committed. The rule holds of a new board and new places; a
/// worker that gives back what it may keeps it; and it still holds when the stop rises.
pub fn running_is_seq<S, E>()
    ensures good { (m : Simulation S E) → IsLawful m → (who : ℕ → ℕ) (x : Board E) (ps : List (Place E)) → Rule m who x ps → IsGood m (assembled x ps) }
    ensures always { (m : Simulation S E) → IsLawful m → IsNumbered m → (who : ℕ → ℕ) (x : Board E) (ps : List (Place E)) → Rule m who x ps
        → IsSeq m (assembled x ps) }
    ensures opens { (m : Simulation S E) → IsLawful m → (who : ℕ → ℕ) (x : Board E) (ps : List (Place E)) → IsOpeningBoard (length ps) x
        → AreOpeningPlaces m who 0 ps → ((r : ℕ) → r < m.routers → who r < length ps) → Rule m who x ps }
    ensures gives { (m : Simulation S E) → IsLawful m → (who : ℕ → ℕ) (x y : Board E) (ps : List (Place E)) (i : ℕ) (p q : Place E) → Rule m who x ps
        → slice_get ps i ≡ Some p → MayGive m who x p y q → Rule m who y (slice_set ps i q) }
    ensures reopens { (m : Simulation S E) → IsLawful m → (who : ℕ → ℕ) (x : Board E) (ps : List (Place E)) (stop : ℕ) → x.stop ≤ stop → Rule m who x ps
        → Rule m who (record x { stop = stop }) ps }
{}

/// The rule holds of a board and places at a cut of the one-thread run, whichever worker has which router: of
/// a board without mail, to which each worker has reported the cut's time, and places that have, each of its
/// own routers, what they have handled of the run to that time, and what that run leaves for them. And the
/// machine of all routers stands at that cut.
pub fn cuts_are_ruled<S, E>()
    ensures rule { (m : Simulation S E) → IsLawful m → IsNumbered m → (who : ℕ → ℕ) (t : ℕ) (x : Board E) (ps : List (Place E)) → IsCutBoard (length ps) t x
        → AreCutPlaces m who t 0 ps → ((r : ℕ) → r < m.routers → who r < length ps) → Rule m who x ps }
    ensures cut { (m : Simulation S E) → IsLawful m → IsNumbered m → (who : ℕ → ℕ) (t : ℕ) (x : Board E) (ps : List (Place E)) → IsCutBoard (length ps) t x
        → AreCutPlaces m who t 0 ps → ((r : ℕ) → r < m.routers → who r < length ps) → IsCut m t (assembled x ps) }
{}

/// Each router has one owner among the places, and what that place has of it is what the whole machine
/// has. So what any place has committed at a router of its own is the one-thread run, and so is what its
/// routers have handled before the board's bound, or any earlier time.
pub fn routers_have_owners<S, E>()
    ensures once { (m : Simulation S E) → IsLawful m → (who : ℕ → ℕ) (x : Board E) (ps : List (Place E)) (r : ℕ) → Rule m who x ps → r < m.routers
        → total (owning r) ps ≡ 1 }
    ensures history { (m : Simulation S E) → IsLawful m → (who : ℕ → ℕ) (x : Board E) (ps : List (Place E)) (i r : ℕ) (p : Place E) → Rule m who x ps
        → slice_get ps i ≡ Some p → r < m.routers → p.owns r ≡ true → (assembled x ps).history r ≡ p.history r }
    ensures committed { (m : Simulation S E) → IsLawful m → IsNumbered m → (who : ℕ → ℕ) (x : Board E) (ps : List (Place E)) (i r : ℕ) (p : Place E) → Rule m who x ps
        → slice_get ps i ≡ Some p → r < m.routers → p.owns r ≡ true → below m (p.done r) (p.history r) ≡ only m r (log m (p.done r)) }
    ensures before { (m : Simulation S E) → IsLawful m → IsNumbered m → (who : ℕ → ℕ) (x : Board E) (ps : List (Place E)) (i t : ℕ) (p : Place E) → Rule m who x ps
        → slice_get ps i ≡ Some p → t ≤ x.bound → IsRunBefore m t p }
{}

/// As many events of a router are counted as committed as are committed, at each place and in the machine of
/// all routers, whatever the workers have done. So a worker's router is refused to handle for want of room
/// exactly where it has handled as many others as it has room for.
pub fn committed_are_counted<S, E>()
    ensures place { (m : Simulation S E) → IsLawful m → (who : ℕ → ℕ) (x : Board E) (ps : List (Place E)) (i : ℕ) (p : Place E) → Rule m who x ps
        → slice_get ps i ≡ Some p → AreCounted m (place_core x.stop p) }
    ensures all { (m : Simulation S E) → IsLawful m → (who : ℕ → ℕ) (x : Board E) (ps : List (Place E)) → Rule m who x ps → AreCounted m (assembled x ps) }
{}

/// Where there is no mail, every hand is empty, nothing is held and the bound is the stop, the places are
/// at the end of the one-thread run: what they have handled is all of it, and what is pending at them is
/// what it leaves. What each router has handled is all of its events as soon as the bound is the stop.
pub fn settled_is_end<S, E>()
    ensures end { (m : Simulation S E) → IsLawful m → IsNumbered m → (who : ℕ → ℕ) (x : Board E) (ps : List (Place E)) → Rule m who x ps → x.mail ≡ []
        → AllByRecursion (λ p. in_hand p ≡ []) ps → AllByRecursion (λ p. p.held ≡ []) ps → x.bound ≡ x.stop → IsAtEnd m (assembled x ps) }
    ensures handled { (m : Simulation S E) → IsLawful m → IsNumbered m → (who : ℕ → ℕ) (x : Board E) (ps : List (Place E)) (i r : ℕ) (p : Place E) → Rule m who x ps
        → slice_get ps i ≡ Some p → r < m.routers → p.owns r ≡ true → x.bound ≡ x.stop → p.history r ≡ only m r (log m x.stop) }
{}

/// What is done at a place, to the board's stop, keeps it: an event is handled; a message of the hand is
/// received, with all that its receiver then undoes; only some of this is undone and the message is still
/// in the hand, as where memory is refused; a commit; what is held for a router is taken back; a router
/// gets more room; and messages move between those that are outgoing and those that are unsent. What is
/// kept by one call and then by another is kept by both. What is kept leaves what was handled before a
/// time before which nothing is loose.
pub fn calls_keep_places<S, E>()
    ensures same { (m : Simulation S E) (stop : ℕ) (p : Place E) → IsPlace m stop p → PreservesPlace m stop p p }
    ensures both { (m : Simulation S E) (stop : ℕ) (p q r : Place E) → PreservesPlace m stop p q → PreservesPlace m stop q r → PreservesPlace m stop p r }
    ensures handle { (m : Simulation S E) → IsLawful m → (stop r : ℕ) (p : Place E) (D : Core E) → IsPlace m stop p
        → handle m (place_core stop p) r (first_pending m (place_core stop p) r) ≡ Ok D → PreservesPlace m stop p (with_core D p) }
    ensures receive { (m : Simulation S E) → IsLawful m → (stop k : ℕ) (p : Place E) (s : Signed E) → IsPlace m stop p → slice_get p.mail k ≡ Some s
        → PreservesPlace m stop p (with_core (after_arrival m (place_core stop p) s) (record p { mail = remove p.mail k })) }
    ensures roll_back { (m : Simulation S E) → IsLawful m → (stop k : ℕ) (p : Place E) (s : Signed E) (D : Core E) → IsPlace m stop p → slice_get p.mail k ≡ Some s
        → IsRolledBack m s.event (place_core stop p) D → PreservesPlace m stop p (with_core D p) }
    ensures commit { (m : Simulation S E) → IsLawful m → (stop r : ℕ) (p : Place E) → IsPlace m stop p → PreservesPlace m stop p (with_core (with_commit m (place_core stop p) r) p) }
    ensures release { (m : Simulation S E) → IsLawful m → (stop r : ℕ) (p : Place E) → IsPlace m stop p → PreservesPlace m stop p (with_core (with_release m (place_core stop p) r) p) }
    ensures widen { (m : Simulation S E) → IsLawful m → (stop r : ℕ) (p : Place E) → IsPlace m stop p → PreservesPlace m stop p (with_core (with_room m (place_core stop p) r) p) }
    ensures unsent { (m : Simulation S E) → IsLawful m → (stop : ℕ) (p : Place E) (unsent outgoing : List (Signed E)) → IsPlace m stop p
        → ((e : E) → messages m e unsent + messages m e outgoing ≡ messages m e p.unsent + messages m e p.outgoing)
        → ((e : E) → antimessages m e unsent + antimessages m e outgoing ≡ antimessages m e p.unsent + antimessages m e p.outgoing)
        → PreservesPlace m stop p (with_unsent unsent outgoing p) }
    ensures before { (m : Simulation S E) → IsLawful m → (stop t : ℕ) (p q : Place E) → IsPlace m stop p → NoneLooseBefore m t p → PreservesPlace m stop p q
        → (r : ℕ) → below m t (q.history r) ≡ below m t (p.history r) }
{}

/// What a worker may give back: what calls have kept, without a visit, as where one was refused; and
/// what a visit leaves, once all that its routers have sent is deposited and its report tells of all that
/// waits. The place may then know any bound from its own to the board's.
pub fn calls_may_be_given<S, E>()
    ensures stay { (m : Simulation S E) → IsLawful m → (who : ℕ → ℕ) (x : Board E) (p q : Place E) → IsBoard m x → Stands m who x p → PreservesPlace m x.stop p q
        → MayGive m who x p x q }
    ensures visit { (m : Simulation S E) → IsLawful m → (who : ℕ → ℕ) (x y : Board E) (p q : Place E) (report : Option ℕ) (mail : List (Signed E)) (bound : ℕ)
        → IsBoard m x → Stands m who x p → PreservesPlace m x.stop p q → q.outgoing ≡ [] → Tells m report q → IsVisit m who p.worker q.unsent report mail x y
        → q.bound ≤ bound → bound ≤ y.bound → MayGive m who x p y (after_visit mail bound q) }
{}

/// What a worker may report is the least time of all that waits at its place: it tells of all of this.
/// Neither it nor what is unsent is ever before the board's bound, so that no visit is refused as early. And
/// what is unsent suits its receiver.
pub fn visits_are_welcome<S, E>()
    ensures tells { (m : Simulation S E) → IsLawful m → (p : Place E) → Tells m (report_time m p) p }
    ensures empty { (m : Simulation S E) (p : Place E) → p.mail ≡ [] → report_time m p ≡ reduce min (map (λ e. m.time e) (p.pending ++ p.kept ++ p.held)) }
    ensures report { (m : Simulation S E) → IsLawful m → (who : ℕ → ℕ) (x : Board E) (p q : Place E) → IsBoard m x → Stands m who x p → PreservesPlace m x.stop p q
        → IfSome (report_time m q) (λ time. x.bound ≤ time) }
    ensures unsent { (m : Simulation S E) → IsLawful m → (who : ℕ → ℕ) (x : Board E) (p q : Place E) (e : E) → IsBoard m x → Stands m who x p → PreservesPlace m x.stop p q
        → 0 < times_among m e q.unsent → x.bound ≤ m.time e }
    ensures suited { (m : Simulation S E) → IsLawful m → (stop : ℕ) (p q : Place E) (e : E) → PreservesPlace m stop p q → 0 < times_among m e q.unsent → m.suits e ≡ true }
{}

/// A message in a worker's hand is never before the bound that its place knows, is for one of its routers,
/// and suits it: so it is never refused there as late, foreign or not its own.
pub fn mail_is_welcome<S, E>()
    ensures { (m : Simulation S E) → IsLawful m → (who : ℕ → ℕ) (x : Board E) (p q : Place E) (k : ℕ) (s : Signed E) → IsBoard m x → Stands m who x p
        → PreservesPlace m x.stop p q → slice_get q.mail k ≡ Some s
        → (q.bound ≤ m.time s.event) × (q.owns (m.dst s.event) ≡ true) × (m.suits s.event ≡ true) }
{}

/// A router goes from one worker's place to another's with all that is its own: what it has handled, what
/// waits for it, what is held that it has sent, and its messages in the first one's hand and in the mail.
/// Then the rule holds of the new board and places, where that worker is named for the router, and the
/// machine of all routers is the same but for the order of its lists.
pub fn routers_may_move<S, E>()
    ensures rule { (m : Simulation S E) → IsLawful m → (who later : ℕ → ℕ) (r i j : ℕ) (x y : Board E) (ps : List (Place E)) (p q p2 q2 : Place E) → Rule m who x ps
        → r < m.routers → slice_get ps i ≡ Some p → slice_get ps j ≡ Some q → (p.worker ≡ q.worker → ⊥) → who r ≡ p.worker → later r ≡ q.worker
        → ((k : ℕ) → (k ≡ r → ⊥) → later k ≡ who k) → IsMoved m r x p q y p2 q2 → Rule m later y (slice_set (slice_set ps i p2) j q2) }
    ensures same { (m : Simulation S E) → IsLawful m → (who later : ℕ → ℕ) (r i j : ℕ) (x y : Board E) (ps : List (Place E)) (p q p2 q2 : Place E) → Rule m who x ps
        → r < m.routers → slice_get ps i ≡ Some p → slice_get ps j ≡ Some q → (p.worker ≡ q.worker → ⊥) → who r ≡ p.worker → later r ≡ q.worker
        → ((k : ℕ) → (k ≡ r → ⊥) → later k ≡ who k) → IsMoved m r x p q y p2 q2
        → IsSameMachine m (assembled x ps) (assembled y (slice_set (slice_set ps i p2) j q2)) }
{}
