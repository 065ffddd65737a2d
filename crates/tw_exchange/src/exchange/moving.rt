//! Which worker has a router, and how another one comes to have it.

ghost use Rattle.std.specs.Prelude.{◌≡◌, ◌==◌, ◌+◌, ◌<◌, ◌≤◌, ◌++◌, ℕ, IfOk, IsOk, OnErr, OnOk, false, filter, length, map, vec_capacity, vec_len};
ghost use Rattle.std.specs.List.{AllByRecursion, range_with_len};
ghost use Rattle.std.specs.Option.{SomeIff};
ghost use Rattle.tw_exchange.specs.AnyBoard.{IsBoard, IsListed, all_mail, is_to, listed, mail_of, who, with_owner, without_mail, workers};
ghost use Rattle.tw_exchange.specs.Owners.{list_of};

use super::AnyExchange;
use crate::mail::take_out;
use crate::owners::Owners;
use std::alloc::AllocError;
use tw_process::Timed;
use tw_sim::Signed;

impl<E: Timed> AnyExchange<E> {
    /// The worker of a router: `None` where no worker has it.
    pub fn owner(&self, router: u32) -> Option<u32>
        ensures value { SomeIff result (who self.now router < workers self.now) (who self.now router) }
        ensures board { IsBoard E.parts self.now }
    {
        if self.workers == 0 {
            return None;
        }
        let worker = self.owners.worker_for(router, self.workers as usize);
        if worker < self.workers as usize {
            Some(worker as u32)
        } else {
            None
        }
    }

    /// A copy of what says the worker of each router.
    pub fn owners(&self) -> Result<Owners, AllocError>
        ensures { IfOk result (λ owners. list_of owners ≡ self.now.owners) }
    {
        self.owners.copy(self.alloc)
    }

    /// Takes out all mail for one router, and puts it behind `to` in its order. Where memory is refused,
    /// nothing has changed. It cannot fail where `to` has room for all mail of the router's worker.
    pub fn take_for(&mut self, router: u32, to: &mut Vec<Signed<E>>) -> Result<(), AllocError>
        ensures mail { OnOk result (self.new ≡ without_mail E.parts router self.old) }
        ensures none { OnOk result (AllByRecursion (λ m. is_to E.parts router m ≡ false) (all_mail self.new)) }
        ensures taken { OnOk result (to.new.items ≡ to.old.items ++ filter (is_to E.parts router) (all_mail self.old)) }
        ensures err { OnErr result (self.new ≡ self.old) }
        ensures kept { OnErr result (to.new.items ≡ to.old.items) }
        ensures succeeds { vec_len to.old + length (mail_of (who self.old router) self.old) ≤ vec_capacity to.old → IsOk result }
        ensures whole { IsBoard E.parts self.new }
    {
        match self.owner(router) {
            Some(worker) => self.take_out_of(worker as usize, router, to),
            None => Ok(()),
        }
    }

    /// Takes a router's mail out of its worker's.
    fn take_out_of(
        &mut self,
        worker: usize,
        router: u32,
        to: &mut Vec<Signed<E>>,
    ) -> Result<(), AllocError>
        requires whose { who self.old router ≡ worker }
        requires within { worker < workers self.old }
        ensures mail { OnOk result (self.new ≡ without_mail E.parts router self.old) }
        ensures none { OnOk result (AllByRecursion (λ m. is_to E.parts router m ≡ false) (all_mail self.new)) }
        ensures taken { OnOk result (to.new.items ≡ to.old.items ++ filter (is_to E.parts router) (all_mail self.old)) }
        ensures err { OnErr result (self.new ≡ self.old) }
        ensures kept { OnErr result (to.new.items ≡ to.old.items) }
        ensures succeeds { vec_len to.old + length (mail_of (who self.old router) self.old) ≤ vec_capacity to.old → IsOk result }
        ensures whole { IsBoard E.parts self.new }
    {
        take_out(&mut self.mail, &mut self.soonest, worker, router, to)?;
        Ok(())
    }

    /// Gives a router to a worker, whose report falls to the bound. The exchange has a list of owners that
    /// names the router's, and no mail for the router, as [`AnyExchange::take_for`] leaves it.
    pub fn set_owner(&mut self, router: u32, worker: u32)
        requires listed { IsListed router self.old }
        requires within { worker < workers self.old }
        requires no_mail { AllByRecursion (λ m. is_to E.parts router m ≡ false) (all_mail self.old) }
        ensures given { self.new ≡ with_owner router worker self.old }
        ensures whole { IsBoard E.parts self.new }
    {
        self.owners.set(router, worker);
        self.reports[worker as usize] = Some(self.bound);
    }
    /// A list says of each of so many routers the worker that has it now. Each of them has one, and all mail is
    /// for them. For want of memory nothing has changed.
    pub fn list_owners(&mut self, routers: u32) -> Result<(), AllocError>
        requires owned { (r : ℕ) → r < routers → who self.old r < workers self.old }
        requires mail { AllByRecursion (λ m. E.parts.dst m.event < routers) (all_mail self.old) }
        ensures listed { OnOk result (self.new ≡ listed routers self.old) }
        ensures err { OnErr result (self.new ≡ self.old) }
        ensures whole { IsBoard E.parts self.new }
    {
        self.owners = Owners::Listed(self.workers_of(routers)?);
        Ok(())
    }

    /// The worker of each of so many routers.
    fn workers_of(&self, routers: u32) -> Result<Vec<u32>, AllocError>
        requires owned { (r : ℕ) → r < routers → who self.now r < workers self.now }
        ensures { IfOk result (λ list. list.items ≡ map (who self.now) (range_with_len 0 routers)) }
    {
        let mut list = Vec::with_capacity(self.alloc, routers as usize)?;
        for router in 0..routers {
            match self.owner(router) {
                Some(worker) => list.push_reserved(worker),
                None => unreachable!(),
            }
        }
        Ok(list)
    }
}
