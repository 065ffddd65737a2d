//! A visit with messages that are dealt to their workers already.

ghost use Rattle.std.specs.Prelude.{ℕ, ◌≡◌, ◌↔◌, ◌<◌, ◌≤◌, IfOk, IsTrue, List, OnErr, OnOk, [], Err, false, length, slice_index_or};
ghost use Rattle.tw_exchange.specs.AnyBoard.{AreDealt, IsBoard, NoneDealt, handed, is_early, visited, workers};
ghost use Rattle.tw_exchange.specs.Rows.{any_early};
ghost use Rattle.tw_exchange.specs.declared.visit.VisitFault.TheVariants.{Early, NoRouter, NoWorker};
ghost use Rattle.tw_model.specs.declared.memory.OrMemory.TheVariants as or_memory;
ghost use Rattle.tw_sim.specs.declared.machine.Signed.{Signed as ASigned};

use super::AnyExchange;
use crate::joining::hand_over;
use crate::parcels::AnyParcels;
use crate::times::{least_of, report_with};
use crate::visit::{Told, VisitFault};
use std::alloc::AllocError;
use tw_model::OrMemory;
use tw_process::Timed;
use tw_sim::Signed;

impl<E: Timed> AnyExchange<E> {
    /// Does for each list of messages what [`AnyExchange::visit`] does, where they are dealt to their workers before,
    /// as [`AnyExchange::owner`] says. The worker's mail comes into `mail`, which is empty before. Whole lists change
    /// hands, with their memory; messages move only where they come behind mail that waits.
    ///
    /// It is refused as `NoWorker` where there is no such worker, and as `Early` where `report` or the time of a
    /// message lies before the bound. After a refusal and for want of memory nothing has changed. With nothing to
    /// deposit it takes no memory.
    pub fn visit_dealt(
        &mut self,
        worker: u32,
        parcels: &mut AnyParcels<E>,
        report: Option<u64>,
        mail: &mut Vec<Signed<E>>,
    ) -> Result<Told, OrMemory<VisitFault>>
        requires dealt { (out : List (ASigned E)) × AreDealt E.parts self.old.owners (workers self.old) out parcels.old }
        requires empty { mail.old.items ≡ [] }
        ensures board { OnOk result ((out : List (ASigned E)) → AreDealt E.parts self.old.owners (workers self.old) out parcels.old
            → self.new ≡ visited E.parts worker out report self.old) }
        ensures mail { OnOk result ((out : List (ASigned E)) → AreDealt E.parts self.old.owners (workers self.old) out parcels.old
            → mail.new.items ≡ handed E.parts worker out self.old) }
        ensures empty { OnOk result (NoneDealt parcels.new) }
        ensures bound { IfOk result (λ told. told.bound ≡ self.new.bound) }
        ensures halted { IfOk result (λ told. told.halted ≡ self.old.halted) }
        ensures no_worker { result ≡ Err (or_memory.Fault NoWorker) ↔ (workers self.old ≤ worker) }
        ensures early { (out : List (ASigned E)) → AreDealt E.parts self.old.owners (workers self.old) out parcels.old
            → (result ≡ Err (or_memory.Fault Early) ↔ ((worker < workers self.old) × IsTrue (is_early E.parts out report self.old))) }
        ensures no_router { result ≡ Err (or_memory.Fault NoRouter) → ⊥ }
        ensures memory { (out : List (ASigned E)) → AreDealt E.parts self.old.owners (workers self.old) out parcels.old
            → result ≡ Err or_memory.Memory → 0 < length out }
        ensures err { OnErr result (self.new ≡ self.old) }
        ensures kept { OnErr result (parcels.new ≡ parcels.old) }
        ensures no_mail { OnErr result (mail.new.items ≡ []) }
        ensures rising { self.old.bound ≤ self.new.bound }
        ensures whole { IsBoard E.parts self.new }
    {
        if let Err(fault) = self.may_visit(worker, parcels.is_early(report, self.bound())) {
            return Err(OrMemory::Fault(fault));
        }
        match self.pass_on_dealt(worker, parcels, report, mail) {
            Ok(()) => Ok(Told {
                bound: self.bound,
                halted: self.halted,
            }),
            Err(_) => Err(OrMemory::Memory),
        }
    }

    /// Deposits what is dealt, hands out the worker's mail, and computes its report and the bound.
    fn pass_on_dealt(
        &mut self,
        worker: u32,
        parcels: &mut AnyParcels<E>,
        report: Option<u64>,
        mail: &mut Vec<Signed<E>>,
    ) -> Result<(), AllocError>
        requires within { worker < workers self.old }
        requires late { any_early E.parts report self.old.bound parcels.old ≡ false }
        requires dealt { (out : List (ASigned E)) × AreDealt E.parts self.old.owners (workers self.old) out parcels.old }
        requires empty { mail.old.items ≡ [] }
        ensures board { OnOk result ((out : List (ASigned E)) → AreDealt E.parts self.old.owners (workers self.old) out parcels.old
            → self.new ≡ visited E.parts worker out report self.old) }
        ensures mail { OnOk result ((out : List (ASigned E)) → AreDealt E.parts self.old.owners (workers self.old) out parcels.old
            → mail.new.items ≡ handed E.parts worker out self.old) }
        ensures empty { OnOk result (NoneDealt parcels.new) }
        ensures err { OnErr result (self.new ≡ self.old) }
        ensures kept { OnErr result (parcels.new ≡ parcels.old) }
        ensures no_mail { OnErr result (mail.new.items ≡ []) }
        ensures wanted { OnErr result ((w : ℕ) × (0 < length (slice_index_or parcels.old w []))) }
        ensures rising { self.old.bound ≤ self.new.bound }
    {
        let place = worker as usize;
        parcels.join_to(&mut self.mail, &mut self.soonest)?;
        let least = hand_over(&mut self.mail, &mut self.soonest, place, mail);
        self.reports[place] = report_with(report, mail, least);
        self.bound = least_of(&self.reports, &self.soonest, self.stop);
        Ok(())
    }
}
