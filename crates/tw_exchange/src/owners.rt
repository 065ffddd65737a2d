//! Which worker has a router: a list says it, or routers are dealt out in turn.

ghost use Rattle.std.specs.Prelude.{◌≡◌, ◌<◌, IfOk, length, nat_lt, slice_set};
ghost use Rattle.std.specs.Option.{IsSomeAnd, option_map};
ghost use Rattle.tw_exchange.specs.AnyBoard.{any_homeless, worker_for};
ghost use Rattle.tw_exchange.specs.Owners.{list_of};

use std::alloc::{AllocError, Global};
use tw_process::Timed;
use tw_sim::{Signed, owner};

/// What says the worker of a router.
#[derive(Drop)]
pub enum Owners {
    /// Routers are dealt out in turn: router r is worker r mod their number's.
    InTurn,
    /// The worker of each router, from router 0 on. A number that no worker has, and the list's end, stand
    /// for none.
    Listed(Vec<u32>),
}

impl Owners {
    /// The same, in memory of its own.
    pub(crate) fn copy(&self, alloc: Global) -> Result<Owners, AllocError>
        ensures { IfOk result (λ owners. list_of owners ≡ list_of self.now) }
    {
        match self {
            Owners::InTurn => Ok(Owners::InTurn),
            Owners::Listed(list) => {
                let mut copy = Vec::new(alloc);
                copy.extend_from_slice(list)?;
                Ok(Owners::Listed(copy))
            }
        }
    }

    /// The worker of a router, of so many: a number that none of them has where it has no worker.
    #[inline(always)]
    pub(crate) fn worker_for(&self, router: u32, workers: usize) -> usize
        requires { 0 < workers }
        ensures { result ≡ worker_for (list_of self.now) workers router }
    {
        match self {
            Owners::InTurn => owner(router, workers),
            Owners::Listed(list) => match list.get(router as usize) {
                Some(worker) => *worker as usize,
                None => workers,
            },
        }
    }

    /// Whether one of so many workers has the router that a message is for.
    #[inline(always)]
    fn has_worker<E: Timed>(&self, message: &Signed<E>, workers: usize) -> bool
        requires { 0 < workers }
        ensures { result ≡ nat_lt (worker_for (list_of self.now) workers (E.parts.dst message.now.event)) workers }
    {
        self.worker_for(message.event.dst(), workers) < workers
    }

    /// Whether a message is for a router that none of so many workers has.
    pub(crate) fn is_any_homeless<E: Timed>(&self, out: &[Signed<E>], workers: usize) -> bool
        requires { 0 < workers }
        ensures { result ≡ any_homeless E.parts (list_of self.now) workers out.now }
    {
        match self {
            Owners::InTurn => false,
            Owners::Listed(_) => out.iter().any(|message| !self.has_worker(message, workers)),
        }
    }

    /// Writes another worker of a router, where a list says it.
    pub(crate) fn set(&mut self, router: u32, worker: u32)
        requires { IsSomeAnd (list_of self.old) (λ list. router < length list) }
        ensures { list_of self.new ≡ option_map (λ list. slice_set list router worker) (list_of self.old) }
    {
        if let Owners::Listed(list) = self {
            list[router as usize] = worker;
        }
    }
}
