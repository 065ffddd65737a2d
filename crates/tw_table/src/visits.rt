//! What a worker reads of its seat, and does with the exchange.
ghost use Rattle.std.specs.Prelude.{◌≡◌, ◌↔◌, ◌<◌, ◌≤◌, [], Err, false, true, IfErr, IfOk, IsTrue, List, OnErr, OnOk, length};
ghost use Rattle.std.specs.Result.{IsErrAnd};
ghost use Rattle.tw_event.specs.declared.event.Event.{Event as AnEvent};
ghost use Rattle.tw_exchange.specs.Board.{AreDealt, IsBoard, NoneDealt, handed, is_early, is_homeless, visited, workers};
ghost use Rattle.tw_exchange.specs.declared.visit.VisitFault.TheVariants.{Early, NoRouter, NoWorker};
ghost use Rattle.tw_model.specs.declared.memory.OrMemory.TheVariants as or_memory;
ghost use Rattle.tw_sim.specs.declared.machine.Signed.{Signed as ASigned};
ghost use Rattle.tw_table.specs.Seats.{IsSameSeat, bound_at, exchange_of, halted_at, share_at, share_of};

use crate::seat::{Held, Seat};
use tw_event::Event;
use tw_exchange::{Back, OrMemory, Parcels, Told, Visit, VisitFault};
use tw_sim::Signed;

impl Seat {
    /// The worker whose seat it is.
    pub fn worker(&self) -> u32
        ensures { result ≡ (share_at self.now).shard.terms.worker }
    {
        self.worker
    }

    /// The bound of the exchange when this worker gave it back last, or when the table was opened, in ticks.
    pub fn bound(&self) -> u64
        ensures { result ≡ bound_at self.now }
    {
        self.bound
    }

    /// Whether all workers had been told to take no further turn when this worker gave the exchange back last,
    /// or when the table was opened.
    pub fn is_halted(&self) -> bool
        ensures { result ≡ halted_at self.now }
    {
        self.halted
    }
}

impl Held {
    /// The seat's worker deposits what it has sent, reports the least time of what it still has, if it has
    /// anything, and is handed its mail, as at `Exchange::visit`.
    ///
    /// It is refused as `Early` where `report` or the time of a message of `out` lies before the bound, and else
    /// as `NoRouter` where a message of `out` is for a router that no worker has. After a refusal and for want of
    /// memory `out` comes back, and nothing has changed.
    pub fn visit(&mut self, out: Vec<Signed<Event>>, report: Option<u64>) -> Result<Visit, Back>
        ensures board { OnOk result (exchange_of self.new ≡ visited (share_of self.old).shard.terms.worker out.items report (exchange_of self.old)) }
        ensures mail { IfOk result (λ visit. visit.mail.items ≡ handed (share_of self.old).shard.terms.worker out.items (exchange_of self.old)) }
        ensures bound { IfOk result (λ visit. visit.bound ≡ (exchange_of self.new).bound) }
        ensures halted { IfOk result (λ visit. visit.halted ≡ (exchange_of self.old).halted) }
        ensures there { IsErrAnd result (λ back. back.why ≡ or_memory.Fault NoWorker) → ⊥ }
        ensures early { IsErrAnd result (λ back. back.why ≡ or_memory.Fault Early) ↔ IsTrue (is_early out.items report (exchange_of self.old)) }
        ensures no_router { IsErrAnd result (λ back. back.why ≡ or_memory.Fault NoRouter)
            ↔ ((is_early out.items report (exchange_of self.old) ≡ false) × IsTrue (is_homeless out.items (exchange_of self.old))) }
        ensures memory { IsErrAnd result (λ back. back.why ≡ or_memory.Memory) → 0 < length out.items }
        ensures back { IfErr result (λ back. back.out ≡ out) }
        ensures err { OnErr result (exchange_of self.new ≡ exchange_of self.old) }
        ensures rising { (exchange_of self.old).bound ≤ (exchange_of self.new).bound }
        ensures whole { IsBoard (exchange_of self.new) }
        ensures same { IsSameSeat self.old self.new }
    {
        self.exchange.visit(self.worker, out, report)
    }

    /// Does for each list of messages what [`Held::visit`] does, where they are dealt to their workers before, as
    /// [`Table::deal`] does it. The worker's mail comes into `mail`, which is empty before. Whole lists change hands,
    /// as at `Exchange::visit_dealt`.
    ///
    /// It is refused as `Early` where `report` or the time of a message lies before the bound. After a refusal and
    /// for want of memory nothing has changed.
    ///
    /// [`Table::deal`]: crate::Table::deal
    pub fn visit_dealt(
        &mut self,
        parcels: &mut Parcels,
        report: Option<u64>,
        mail: &mut Vec<Signed<Event>>,
    ) -> Result<Told, OrMemory<VisitFault>>
        requires dealt { (out : List (ASigned AnEvent)) × AreDealt (exchange_of self.old).owners (workers (exchange_of self.old)) out parcels.old }
        requires empty { mail.old.items ≡ [] }
        ensures board { OnOk result ((out : List (ASigned AnEvent)) → AreDealt (exchange_of self.old).owners (workers (exchange_of self.old)) out parcels.old
            → exchange_of self.new ≡ visited (share_of self.old).shard.terms.worker out report (exchange_of self.old)) }
        ensures mail { OnOk result ((out : List (ASigned AnEvent)) → AreDealt (exchange_of self.old).owners (workers (exchange_of self.old)) out parcels.old
            → mail.new.items ≡ handed (share_of self.old).shard.terms.worker out (exchange_of self.old)) }
        ensures empty { OnOk result (NoneDealt parcels.new) }
        ensures bound { IfOk result (λ told. told.bound ≡ (exchange_of self.new).bound) }
        ensures halted { IfOk result (λ told. told.halted ≡ (exchange_of self.old).halted) }
        ensures there { result ≡ Err (or_memory.Fault NoWorker) → ⊥ }
        ensures early { (out : List (ASigned AnEvent)) → AreDealt (exchange_of self.old).owners (workers (exchange_of self.old)) out parcels.old
            → (result ≡ Err (or_memory.Fault Early) ↔ IsTrue (is_early out report (exchange_of self.old))) }
        ensures no_router { result ≡ Err (or_memory.Fault NoRouter) → ⊥ }
        ensures memory { (out : List (ASigned AnEvent)) → AreDealt (exchange_of self.old).owners (workers (exchange_of self.old)) out parcels.old
            → result ≡ Err or_memory.Memory → 0 < length out }
        ensures err { OnErr result (exchange_of self.new ≡ exchange_of self.old) }
        ensures kept { OnErr result (parcels.new ≡ parcels.old) }
        ensures no_mail { OnErr result (mail.new.items ≡ []) }
        ensures rising { (exchange_of self.old).bound ≤ (exchange_of self.new).bound }
        ensures whole { IsBoard (exchange_of self.new) }
        ensures same { IsSameSeat self.old self.new }
    {
        self.exchange
            .visit_dealt(self.worker, parcels, report, mail)
    }

    /// Tells all workers to take no further turn.
    pub fn halt(&mut self)
        ensures board { exchange_of self.new ≡ record (exchange_of self.old) { halted = true } }
        ensures same { IsSameSeat self.old self.new }
    {
        self.exchange.halt();
    }
}
