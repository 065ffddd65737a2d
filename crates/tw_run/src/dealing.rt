//! Which worker has which router, as the options of `run` say.
ghost use Rattle.std.specs.Prelude.{◌≡◌, ◌<◌, ◌≤◌, true, IfOk, OnOk, replicate};
ghost use Rattle.tw_exchange.specs.Board.{workers};
ghost use Rattle.tw_model.specs.declared.limits.TheConstants.{LATEST};
ghost use Rattle.tw_parallel.specs.Sim.{GoesOn, RetainsEvents, cancels_of};
ghost use Rattle.tw_run.specs.Dealing.{AreDealtAs, first_owner, owner_after, owners_after};

use std::alloc::{AllocError, Global};
use tw_instance::Case;
use tw_options::Asked;
use tw_parallel::{OrMemory, Sim, UnfitOwners};
use tw_sim::owner;

/// A case as it begins, its routers dealt out to so many workers.
pub(crate) fn open_dealt<'a>(
    alloc: Global,
    case: &'a Case,
    crew: u32,
    asked: Asked,
) -> Result<Sim<'a>, AllocError>
    requires { 0 < crew }
    ensures case { IfOk result (λ sim. sim.case ≡ case.now) }
    ensures workers { IfOk result (λ sim. workers sim.board ≡ crew) }
    ensures stop { IfOk result (λ sim. sim.board.stop ≡ 0) }
    ensures retains { asked.report.log ≡ true → IfOk result (λ sim. RetainsEvents sim) }
    ensures cancels { IfOk result (λ sim. cancels_of sim ≡ replicate crew asked.cancel) }
    ensures dealt { IfOk result (λ sim. AreDealtAs asked 0 sim) }
{
    let mut sim = Sim::open_with(alloc, case, crew, asked.report.log, asked.cancel)?;
    if !(asked.blocks || asked.rotate) {
        return Ok(sim);
    }
    deal(alloc, &mut sim, asked, 0)?;
    Ok(sim)
}

/// Deals the routers of a run out to all of its workers, as they are to be after so many checkpoints.
pub(crate) fn deal(
    alloc: Global,
    sim: &mut Sim<'_>,
    asked: Asked,
    checkpoints: u64,
) -> Result<(), AllocError>
    requires some { 0 < workers sim.old.board }
    requires checkpoints { checkpoints ≤ LATEST }
    ensures dealt { OnOk result (AreDealtAs asked checkpoints sim.new) }
    ensures goes_on { GoesOn sim.old sim.new }
    ensures stop { sim.new.board.stop ≡ sim.old.board.stop }
{
    let routers = sim.case().instance().nodes();
    let owners = owners(alloc, asked, sim.workers(), routers, checkpoints)?;
    match sim.move_to(&owners) {
        Ok(()) => Ok(()),
        Err(OrMemory::Memory) => Err(AllocError),
        Err(OrMemory::Fault(UnfitOwners)) => unreachable!(),
    }
}

/// The worker that has each of so many routers after so many checkpoints, by rising router.
pub(crate) fn owners(
    alloc: Global,
    asked: Asked,
    workers: u32,
    routers: u32,
    checkpoints: u64,
) -> Result<Vec<u32>, AllocError>
    requires some { 0 < workers }
    requires checkpoints { checkpoints ≤ LATEST }
    ensures { IfOk result (λ owners. owners.items ≡ owners_after asked workers routers checkpoints) }
{
    let mut owners = Vec::with_capacity(alloc, routers as usize)?;
    for router in 0..routers {
        owners.push(owner_of(router, asked, workers, routers, checkpoints))?;
    }
    Ok(owners)
}

/// The worker that has a router then.
fn owner_of(router: u32, asked: Asked, workers: u32, routers: u32, checkpoints: u64) -> u32
    requires some { 0 < workers }
    requires router { router < routers }
    requires checkpoints { checkpoints ≤ LATEST }
    ensures { result ≡ owner_after asked workers routers checkpoints router }
{
    let first = first_owner_of(router, asked, workers, routers);
    if asked.rotate {
        ((u64::from(first) + checkpoints) % u64::from(workers)) as u32
    } else {
        first
    }
}

/// The worker that has a router at the beginning.
fn first_owner_of(router: u32, asked: Asked, workers: u32, routers: u32) -> u32
    requires some { 0 < workers }
    requires router { router < routers }
    ensures { result ≡ first_owner asked workers routers router }
{
    if asked.blocks {
        (u64::from(router) * u64::from(workers) / u64::from(routers)) as u32
    } else {
        owner(router, workers as usize) as u32
    }
}
