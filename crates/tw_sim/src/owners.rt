//! Which worker has a router: routers are dealt out to workers in turn, which is said here alone.
ghost use Rattle.std.specs.Prelude.{◌≡◌, ◌<◌};
ghost use Rattle.tw_sim.specs.Owners.{owner};

/// The worker, of so many, that has this router. Workers are numbered from 0.
#[inline(always)]
pub fn owner(router: u32, workers: usize) -> usize
    requires { 0 < workers }
    ensures value { result ≡ owner workers router }
    ensures within { result < workers }
{
    router as usize % workers
}
