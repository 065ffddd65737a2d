//! The exchange: mail, reports and the bound.

ghost use Rattle.std.specs.Prelude.{◌≡◌, ◌↔◌, ◌<◌, ◌≤◌, IfErr, IfOk, IsTrue, OnErr, OnOk, false, true, length, Err};
ghost use Rattle.std.specs.Result.{IsErrAnd};
ghost use Rattle.tw_exchange.specs.AnyBoard.{AreDealt, IsBoard, handed, is_early, is_homeless, mail_of, new_board, opening_owned, report_of, visited, workers};
ghost use Rattle.tw_exchange.specs.Owners.{list_of};
ghost use Rattle.tw_exchange.specs.declared.visit.VisitFault.TheVariants.{Early, NoRouter, NoWorker};
ghost use Rattle.tw_model.specs.declared.memory.OrMemory.TheVariants as or_memory;

mod dealt;
mod moving;

use crate::mail::NEVER;
use crate::owners::Owners;
use crate::parcels::AnyParcels;
use crate::rows::{Row, no_mail, row};
use crate::times::is_early;
use crate::visit::{AnyBack, AnyVisit, VisitFault};
use std::alloc::{AllocError, Global};
use std::marker::Model;
use tw_model::OrMemory;
use tw_process::Timed;
use tw_sim::Signed;

/// Where workers leave messages for one another, and learn the bound.
#[derive(Drop)]
pub struct AnyExchange<E: Timed> {
    alloc: Global,
    workers: u32,
    owners: Owners,
    // By worker, as the rows below: what waits for it, in the order deposited.
    mail: Row<Vec<Signed<E>>>,
    // The least time of its mail, so that a visit need not look through what waits for others.
    soonest: Row<u64>,
    reports: Row<Option<u64>>,
    bound: u64,
    stop: u64,
    halted: bool,
}

impl<E: Timed> Model for AnyExchange<E> {
    ghost use Rattle.tw_exchange.specs.AnyBoard.{AnyBoard};
    ghost use Rattle.tw_exchange.specs.Inside.{IsExchange, board_of};

    ghost Value = { AnyBoard E };

    ghost view = { board_of };

    ghost invariant = { IsExchange E.parts };
}

impl<E: Timed> AnyExchange<E> {
    /// No mail for any of so many workers, each of which has reported the bound. The bound is not beyond the
    /// stop; both are in ticks. Routers are dealt out to workers in turn: router r is worker r mod `workers`'s.
    pub fn new(
        alloc: Global,
        workers: u32,
        bound: u64,
        stop: u64,
    ) -> Result<AnyExchange<E>, AllocError>
        requires { bound ≤ stop }
        ensures { IfOk result (λ x. x ≡ new_board workers bound stop) }
    {
        AnyExchange::open(alloc, workers, bound, stop, Owners::InTurn)
    }

    /// As [`AnyExchange::new`], with the worker of each router by a list, from router 0 on. A router past its end,
    /// or whose worker is not below `workers`, has none. It takes memory for the workers' rows alone.
    pub fn with_owners(
        alloc: Global,
        workers: u32,
        bound: u64,
        stop: u64,
        owners: Vec<u32>,
    ) -> Result<AnyExchange<E>, AllocError>
        requires { bound ≤ stop }
        ensures { IfOk result (λ x. x ≡ opening_owned owners.items workers bound stop) }
    {
        AnyExchange::open(alloc, workers, bound, stop, Owners::Listed(owners))
    }

    /// No mail for any of so many workers, by what says the worker of each router.
    fn open(
        alloc: Global,
        workers: u32,
        bound: u64,
        stop: u64,
        owners: Owners,
    ) -> Result<AnyExchange<E>, AllocError>
        requires { bound ≤ stop }
        ensures { IfOk result (λ x. x ≡ record (new_board workers bound stop) { owners = list_of owners }) }
    {
        Ok(AnyExchange {
            alloc,
            workers,
            owners,
            mail: no_mail(alloc, workers)?,
            soonest: row(alloc, workers, NEVER)?,
            reports: row(alloc, workers, Some(bound))?,
            bound,
            stop,
            halted: false,
        })
    }

    /// How many workers there are. They are numbered from 0.
    pub fn workers(&self) -> u32
        ensures value { result ≡ workers self.now }
        ensures board { IsBoard E.parts self.now }
    {
        self.workers
    }

    /// The time before which nothing waits or is on its way, in ticks. It never falls.
    pub fn bound(&self) -> u64
        ensures value { result ≡ self.now.bound }
        ensures board { IsBoard E.parts self.now }
    {
        self.bound
    }

    /// The time from which on nothing is handled, in ticks.
    pub fn stop(&self) -> u64
        ensures value { result ≡ self.now.stop }
        ensures board { IsBoard E.parts self.now }
    {
        self.stop
    }

    /// Whether the workers shall take no further turn.
    pub fn is_halted(&self) -> bool
        ensures { result ≡ self.now.halted }
    {
        self.halted
    }

    /// The least time, in ticks, of what a worker told that it has: `None` where it has nothing, and where
    /// there is no such worker.
    pub fn report(&self, worker: u32) -> Option<u64>
        ensures value { result ≡ report_of worker self.now }
        ensures board { IsBoard E.parts self.now }
    {
        match self.reports.get(worker as usize) {
            Some(report) => *report,
            None => None,
        }
    }

    /// What waits for a worker, in the order deposited: nothing where there is no such worker.
    pub fn mail(&self, worker: u32) -> &[Signed<E>]
        ensures value { result.now ≡ mail_of worker self.now }
        ensures board { IsBoard E.parts self.now }
    {
        match self.mail.get(worker as usize) {
            Some(mail) => mail,
            None => &[],
        }
    }

    /// A worker deposits what it has sent, reports the least time of what it still has, if it has anything,
    /// and takes its mail. Each message of `out` goes to the mail of the worker that has its receiver, as
    /// [`AnyExchange::owner`] says. The worker is handed all of its own mail in the order deposited, this
    /// deposit's included. Its report becomes the least of `report` and of the times of what it is handed, and
    /// the bound the least of all reports, of all mail that is left, and of the stop. Times are in ticks.
    ///
    /// It is refused as `NoWorker` where there is no such worker, and as `Early` where `report` or the time of
    /// a message of `out` lies before the bound, and else as `NoRouter` where a message of `out` is for a router
    /// that no worker has. After a refusal and for want of memory `out` comes back, and nothing has changed. With nothing to deposit it takes no memory.
    pub fn visit(
        &mut self,
        worker: u32,
        out: Vec<Signed<E>>,
        report: Option<u64>,
    ) -> Result<AnyVisit<E>, AnyBack<E>>
        ensures board { OnOk result (self.new ≡ visited E.parts worker out.items report self.old) }
        ensures mail { IfOk result (λ visit. visit.mail.items ≡ handed E.parts worker out.items self.old) }
        ensures bound { IfOk result (λ visit. visit.bound ≡ self.new.bound) }
        ensures halted { IfOk result (λ visit. visit.halted ≡ self.old.halted) }
        ensures no_worker { IsErrAnd result (λ back. back.why ≡ or_memory.Fault NoWorker) ↔ (workers self.old ≤ worker) }
        ensures early { IsErrAnd result (λ back. back.why ≡ or_memory.Fault Early)
            ↔ ((worker < workers self.old) × IsTrue (is_early E.parts out.items report self.old)) }
        ensures no_router { IsErrAnd result (λ back. back.why ≡ or_memory.Fault NoRouter)
            ↔ ((worker < workers self.old) × (is_early E.parts out.items report self.old ≡ false) × IsTrue (is_homeless E.parts out.items self.old)) }
        ensures memory { IsErrAnd result (λ back. back.why ≡ or_memory.Memory) → 0 < length out.items }
        ensures back { IfErr result (λ back. back.out ≡ out) }
        ensures err { OnErr result (self.new ≡ self.old) }
        ensures rising { self.old.bound ≤ self.new.bound }
        ensures whole { IsBoard E.parts self.new }
    {
        match self.visit_lent(worker, &out, report) {
            Ok(visit) => Ok(visit),
            Err(why) => Err(AnyBack { out, why }),
        }
    }

    /// Does what [`AnyExchange::visit`] does, with messages that are lent.
    fn visit_lent(
        &mut self,
        worker: u32,
        out: &[Signed<E>],
        report: Option<u64>,
    ) -> Result<AnyVisit<E>, OrMemory<VisitFault>>
        ensures board { OnOk result (self.new ≡ visited E.parts worker out.now report self.old) }
        ensures mail { IfOk result (λ visit. visit.mail.items ≡ handed E.parts worker out.now self.old) }
        ensures bound { IfOk result (λ visit. visit.bound ≡ self.new.bound) }
        ensures halted { IfOk result (λ visit. visit.halted ≡ self.old.halted) }
        ensures no_worker { result ≡ Err (or_memory.Fault NoWorker) ↔ (workers self.old ≤ worker) }
        ensures early { result ≡ Err (or_memory.Fault Early) ↔ ((worker < workers self.old) × IsTrue (is_early E.parts out.now report self.old)) }
        ensures no_router { result ≡ Err (or_memory.Fault NoRouter)
            ↔ ((worker < workers self.old) × (is_early E.parts out.now report self.old ≡ false) × IsTrue (is_homeless E.parts out.now self.old)) }
        ensures memory { result ≡ Err or_memory.Memory → 0 < length out.now }
        ensures err { OnErr result (self.new ≡ self.old) }
        ensures rising { self.old.bound ≤ self.new.bound }
        ensures whole { IsBoard E.parts self.new }
    {
        let mut parcels = self.deal_late(worker, out, report)?;
        let mut mail = Vec::new(self.alloc);
        let told = self.visit_dealt(worker, &mut parcels, report, &mut mail)?;
        Ok(AnyVisit {
            mail,
            bound: told.bound,
            halted: told.halted,
        })
    }

    /// Deals messages out for a visit of a worker, of which nothing is early.
    fn deal_late(
        &self,
        worker: u32,
        out: &[Signed<E>],
        report: Option<u64>,
    ) -> Result<AnyParcels<E>, OrMemory<VisitFault>>
        ensures dealt { IfOk result (λ parcels. AreDealt E.parts self.now.owners (workers self.now) out.now parcels) }
        ensures within { OnOk result (worker < workers self.now) }
        ensures late { OnOk result (is_early E.parts out.now report self.now ≡ false) }
        ensures no_worker { result ≡ Err (or_memory.Fault NoWorker) ↔ (workers self.now ≤ worker) }
        ensures early { result ≡ Err (or_memory.Fault Early) ↔ ((worker < workers self.now) × IsTrue (is_early E.parts out.now report self.now)) }
        ensures no_router { result ≡ Err (or_memory.Fault NoRouter)
            ↔ ((worker < workers self.now) × (is_early E.parts out.now report self.now ≡ false) × IsTrue (is_homeless E.parts out.now self.now)) }
        ensures memory { result ≡ Err or_memory.Memory → 0 < length out.now }
    {
        if let Err(fault) = self.may_visit(worker, is_early(out, report, self.bound())) {
            return Err(OrMemory::Fault(fault));
        }
        let mut parcels = AnyParcels::new(self.alloc);
        if let Err(why) = parcels.deal(&self.owners, self.workers, out) {
            return Err(why);
        }
        Ok(parcels)
    }

    /// Whether there is such a worker, and nothing that it may deposit or report is early.
    fn may_visit(&self, worker: u32, is_early: bool) -> Result<(), VisitFault>
        ensures no_worker { result ≡ Err NoWorker ↔ (workers self.now ≤ worker) }
        ensures early { result ≡ Err Early ↔ ((worker < workers self.now) × IsTrue is_early) }
        ensures no_router { result ≡ Err NoRouter → ⊥ }
        ensures board { IsBoard E.parts self.now }
    {
        if worker >= self.workers {
            Err(VisitFault::NoWorker)
        } else if is_early {
            Err(VisitFault::Early)
        } else {
            Ok(())
        }
    }

    /// Tells the workers to take no further turn.
    pub fn halt(&mut self)
        ensures { self.new ≡ record self.old { halted = true } }
    {
        self.halted = true;
    }

    /// Lets the workers go on to another stop, in ticks, which is not before the present one.
    pub fn reopen(&mut self, stop: u64)
        requires { self.old.stop ≤ stop }
        ensures { self.new ≡ record self.old { stop = stop; halted = false } }
    {
        self.stop = stop;
        self.halted = false;
    }
}
