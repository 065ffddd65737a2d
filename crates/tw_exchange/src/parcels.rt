//! What is dealt of messages to workers: a list for each.

ghost use Rattle.std.specs.Prelude.{ℕ, ◌≡◌, ◌↔◌, ◌<◌, ◌≤◌, IsTrue, OnErr, OnOk, [], Err, false, length, map, replicate, slice_index_or};
ghost use Rattle.tw_exchange.specs.AnyBoard.{AreDealt, NoneDealt, any_homeless};
ghost use Rattle.tw_exchange.specs.Owners.{list_of};
ghost use Rattle.tw_exchange.specs.Rows.{any_early, behind, items, soonest_of};
ghost use Rattle.tw_exchange.specs.declared.visit.VisitFault.TheVariants.{Early, NoRouter, NoWorker};
ghost use Rattle.tw_model.specs.declared.memory.OrMemory.TheVariants as or_memory;

use crate::joining::{clear_all, join_all, make_room_behind};
use crate::mail::{NEVER, deposit};
use crate::owners::Owners;
use crate::rows::{Row, no_mail, row};
use crate::times::is_any_early;
use crate::visit::VisitFault;
use std::alloc::{AllocError, Global};
use std::marker::Model;
use tw_model::OrMemory;
use tw_process::Timed;
use tw_sim::Signed;

/// Messages that are dealt out: for each worker those that are for it. Contracts see a list of these lists.
#[derive(Drop)]
pub struct AnyParcels<E: Timed> {
    alloc: Global,
    // By worker, as the rows below. Where nothing was dealt yet there are none.
    lists: Row<Vec<Signed<E>>>,
    // The least time of each list, so that a visit need not look through it.
    soonest: Row<u64>,
}

impl<E: Timed> Model for AnyParcels<E> {
    ghost use Rattle.std.specs.Prelude.{List};
    ghost use Rattle.tw_exchange.specs.Parcels.{IsParcels, lists_of};
    ghost use Rattle.tw_sim.specs.declared.machine.Signed.{Signed};

    ghost Value = { List (List (Signed E)) };

    ghost view = { lists_of };

    ghost invariant = { IsParcels E.parts };
}

impl<E: Timed> AnyParcels<E> {
    /// Nothing is dealt. It takes no memory.
    pub fn new(alloc: Global) -> AnyParcels<E>
        ensures { result ≡ [] }
    {
        AnyParcels {
            alloc,
            lists: Row::new(alloc),
            soonest: Row::new(alloc),
        }
    }

    /// What is dealt to a worker, in the order of the messages.
    pub fn list(&self, worker: u32) -> &[Signed<E>]
        ensures { result.now ≡ slice_index_or self.now worker [] }
    {
        match self.lists.get(worker as usize) {
            Some(list) => list,
            None => &[],
        }
    }

    /// Deals messages out by what says the worker of each router, of so many, of which there is one at least.
    /// What was dealt before goes.
    ///
    /// It is refused as `NoRouter` where a message is for a router that no worker has. After that, and for want of
    /// memory, nothing is dealt. With no messages it takes no memory.
    pub fn deal(
        &mut self,
        owners: &Owners,
        workers: u32,
        messages: &[Signed<E>],
    ) -> Result<(), OrMemory<VisitFault>>
        requires some { 0 < workers }
        ensures dealt { OnOk result (AreDealt E.parts (list_of owners.now) workers messages.now self.new) }
        ensures no_router { result ≡ Err (or_memory.Fault NoRouter) ↔ IsTrue (any_homeless E.parts (list_of owners.now) workers messages.now) }
        ensures no_worker { result ≡ Err (or_memory.Fault NoWorker) → ⊥ }
        ensures early { result ≡ Err (or_memory.Fault Early) → ⊥ }
        ensures none { OnErr result (NoneDealt self.new) }
        ensures wanted { OnErr result (0 < length messages.now) }
    {
        self.clear();
        if owners.is_any_homeless(messages, workers as usize) {
            return Err(OrMemory::Fault(VisitFault::NoRouter));
        }
        match self.put(owners, workers, messages) {
            Ok(()) => Ok(()),
            Err(_) => Err(OrMemory::Memory),
        }
    }

    /// Nothing is dealt any more. The lists keep their memory.
    fn clear(&mut self)
        ensures { NoneDealt self.new }
    {
        clear_all(&mut self.lists, &mut self.soonest);
    }

    /// Deals messages out, each of which has a worker, where nothing is dealt.
    fn put(
        &mut self,
        owners: &Owners,
        workers: u32,
        messages: &[Signed<E>],
    ) -> Result<(), AllocError>
        requires some { 0 < workers }
        requires none { NoneDealt self.old }
        requires home { any_homeless E.parts (list_of owners.now) workers messages.now ≡ false }
        ensures dealt { OnOk result (AreDealt E.parts (list_of owners.now) workers messages.now self.new) }
        ensures none { OnErr result (NoneDealt self.new) }
        ensures wanted { OnErr result (0 < length messages.now) }
    {
        if messages.is_empty() {
            return Ok(());
        }
        self.widen(workers)?;
        if self.put_rows(owners, messages).is_err() {
            self.clear();
            return Err(AllocError);
        }
        Ok(())
    }

    /// Has a list for each of so many workers, where nothing is dealt.
    fn widen(&mut self, workers: u32) -> Result<(), AllocError>
        requires { NoneDealt self.old }
        ensures rows { OnOk result (self.new ≡ replicate workers []) }
        ensures err { OnErr result (self.new ≡ self.old) }
    {
        if self.lists.len() == workers as usize {
            return Ok(());
        }
        let lists = no_mail(self.alloc, workers)?;
        let soonest = row(self.alloc, workers, NEVER)?;
        self.lists = lists;
        self.soonest = soonest;
        Ok(())
    }

    /// Deals messages out to as many workers as there are lists, which are empty. For want of memory it is broken off.
    fn put_rows(&mut self, owners: &Owners, messages: &[Signed<E>]) -> Result<(), AllocError>
        requires some { 0 < length self.old }
        requires none { self.old ≡ replicate (length self.old) [] }
        requires home { any_homeless E.parts (list_of owners.now) (length self.old) messages.now ≡ false }
        ensures dealt { OnOk result (AreDealt E.parts (list_of owners.now) (length self.old) messages.now self.new) }
        ensures wanted { OnErr result (0 < length messages.now) }
    {
        deposit(&mut self.lists, &mut self.soonest, messages, owners)
    }

    /// Whether the report or a message lies before the bound.
    pub(crate) fn is_early(&self, report: Option<u64>, bound: u64) -> bool
        ensures { result ≡ any_early E.parts report bound self.now }
    {
        is_any_early(&self.soonest, report, bound)
    }

    /// Puts each list behind the mail at its place, beside which stand the least times of it, and leaves it empty.
    /// Where memory is refused, all is as it was.
    pub(crate) fn join_to(
        &mut self,
        mail: &mut [Vec<Signed<E>>],
        soonest: &mut [u64],
    ) -> Result<(), AllocError>
        requires { soonest.old ≡ map (soonest_of E.parts) (items mail.old) }
        ensures ok { OnOk result (items mail.new ≡ behind (items mail.old) self.old) }
        ensures err { OnErr result (items mail.new ≡ items mail.old) }
        ensures soonest { soonest.new ≡ map (soonest_of E.parts) (items mail.new) }
        ensures empty { OnOk result ((w : ℕ) → w < length mail.old → slice_index_or self.new w [] ≡ []) }
        ensures past { OnOk result ((w : ℕ) → length mail.old ≤ w → slice_index_or self.new w [] ≡ slice_index_or self.old w []) }
        ensures kept { OnErr result (self.new ≡ self.old) }
        ensures wanted { OnErr result ((w : ℕ) × (0 < length (slice_index_or self.old w []))) }
    {
        make_room_behind(mail, &self.lists)?;
        join_all(mail, soonest, &mut self.lists, &mut self.soonest);
        Ok(())
    }
}
