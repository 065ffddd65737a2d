//! The least time of all that waits or is on its way.

ghost use Rattle.std.specs.Prelude.{ℕ, ◌≡◌, ◌<◌, ◌≤◌, ◌*◌, Some, slice_get};
ghost use Rattle.tw_process.specs.Behaviour.{simulation_of};
ghost use Rattle.tw_rounds.specs.Members.{place_of};
ghost use Rattle.tw_rule.specs.Place.{NoneLooseBefore};
ghost use Rattle.tw_sim.specs.Simulation.{IsLawful};

use crate::member::Member;
use tw_process::ProcessModel;

/// A time, in ticks, that is not beyond this one, nor beyond those of all that waits at some processes or was sent there.
/// It is the latest one.
pub(crate) fn least_of<M: ProcessModel>(members: &[Member<'_, M>], time: u64) -> u64
    ensures most { result ≤ time }
    ensures loose { (i : ℕ) (x : _) → slice_get members.now i ≡ Some x → let m = simulation_of M.Event.parts M.Event.cmp (M.behaviour x.process.model) in
        IsLawful m → NoneLooseBefore m result (place_of x) }
{
    let mut least = time;
    for member in members {
        least = member.least_time(least);
    }
    least
}

/// The least of a time, in ticks, and of those that the first ones of all shares, of so many processes, tell.
pub(crate) fn least_told<M: ProcessModel>(members: &[Member<'_, M>], size: usize, time: u64) -> u64
    requires { 0 < size }
    ensures most { result ≤ time }
    ensures told { (n : ℕ) (x : _) → slice_get members.now (n * size) ≡ Some x → result ≤ x.least }
{
    let mut least = time;
    for share in 0..members.len() {
        let Some(first) = members.get(share.saturating_mul(size)) else {
            break;
        };
        least = least.min(first.least());
    }
    least
}
