//! A run on one thread becomes a parallel run, where it stands at its stop.

ghost use Rattle.std.specs.Prelude.{◌≡◌, ◌↔◌, ◌<◌, ℕ, false, true, replicate, slice_get, IfErr, IfOk, Some};
ghost use Rattle.std.specs.Result.{IsErrAnd};
ghost use Rattle.tw_exchange.specs.Board.{who, workers as worker_count};
ghost use Rattle.tw_model.specs.declared.memory.OrMemory.TheVariants as or_memory;
ghost use Rattle.tw_parallel.specs.Moving.{fit, unfit_owners};
ghost use Rattle.tw_parallel.specs.Settled.{IsSettled};
ghost use Rattle.tw_parallel.specs.Sim.{IsSim, RetainsEvents, cancels_of};
ghost use Rattle.tw_seq.specs.Run.{complete_run};

use crate::moving::{UnfitOwners, are_fit};
use crate::sim::Sim;
use crate::vacancy::{Vacancy, move_in};
use std::alloc::{AllocError, Global};
use tw_model::OrMemory;
use tw_seq::TracedRun;
use tw_sim::Cancel;

/// A run on one thread that is as it was, and why it did not become a parallel run.
#[derive(Drop)]
pub struct StillAlone<'a> {
    /// The run.
    pub run: TracedRun<'a>,
    /// A list of owners that does not fit it, or want of memory.
    pub why: OrMemory<UnfitOwners>,
}

impl<'a> Sim<'a> {
    /// A run on one thread that stands at its stop goes on from there by so many workers, each with the routers for
    /// which the list names it. The routers retain their events if the run does. What an undone event has sent is taken
    /// back at once, or as late as may be. No router is copied.
    ///
    /// It is refused where the list has not one of the workers for each router. After a refusal and for want of memory
    /// the run comes back as it was.
    pub fn of_run(
        alloc: Global,
        run: TracedRun<'a>,
        workers: u32,
        owners: &[u32],
        cancel: Cancel,
    ) -> Result<Sim<'a>, StillAlone<'a>>
        requires some { 0 < workers }
        requires complete { run.run ≡ complete_run run.run.case run.run.stop }
        ensures settled { IfOk result (λ sim. IsSettled sim) }
        ensures sim { IfOk result (λ sim. IsSim sim) }
        ensures case { IfOk result (λ sim. sim.case ≡ run.entry.run.case) }
        ensures stop { IfOk result (λ sim. sim.board.stop ≡ run.entry.run.stop) }
        ensures workers { IfOk result (λ sim. worker_count sim.board ≡ workers) }
        ensures owners { IfOk result (λ sim. (r : ℕ) → r < sim.case.net.nodes → slice_get owners.now r ≡ Some (who sim.board r)) }
        ensures retains { IfOk result (λ sim. (run.entry.retains ≡ true) ↔ RetainsEvents sim) }
        ensures cancels { IfOk result (λ sim. cancels_of sim ≡ replicate workers cancel) }
        ensures refused { IsErrAnd result (λ still. still.why ≡ or_memory.Fault unfit_owners) ↔ (fit run.entry.run.case.net.nodes workers owners.now ≡ false) }
        ensures back { IfErr result (λ still. still.run ≡ run.entry) }
    {
        let nodes = run.run().case().instance().nodes();
        if !are_fit(nodes, workers, owners) {
            return Err(StillAlone {
                run,
                why: OrMemory::Fault(UnfitOwners),
            });
        }
        match Vacancy::open(alloc, &run, workers, owners, cancel) {
            Ok(vacancy) => Ok(move_in(run, owners, vacancy)),
            Err(AllocError) => Err(StillAlone {
                run,
                why: OrMemory::Memory,
            }),
        }
    }
}
