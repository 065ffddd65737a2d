//! Calls at one worker's shard, which sends behind all messages on their way.
ghost use Rattle.std.specs.Prelude.{◌≡◌, ◌≤◌, ◌<◌, ◌↔◌, ℕ, Ok, Err, [], length, slice_index_or, slice_set, true, IsErrOf, OnErr, OnOk};
ghost use Rattle.tw_core.specs.declared.refusal.Refusal.{Refusal as ARefusal};
ghost use Rattle.tw_model.specs.declared.limits.TheConstants.{LATEST};
ghost use Rattle.tw_model.specs.declared.memory.OrMemory.TheVariants as or_memory;
ghost use Rattle.tw_shard.specs.Shard.{IsSameShare, Shard as AShard, owns, shard_core};
ghost use Rattle.tw_core.specs.Steps.{after_arrival};
ghost use Rattle.tw_model.specs.Case.{simulation};
ghost use Rattle.tw_shard.specs.Arrival.{IsRolledBack, refusing};
ghost use Rattle.tw_warp.specs.Calls.{FreeAt, calling};
ghost use Rattle.tw_warp.specs.Warp.{behind, no_shard};

use crate::flight::Flight;
use tw_core::Refusal;
use tw_event::Event;
use tw_model::OrMemory;
use tw_shard::Shard;
use tw_sim::Signed;

/// A call at one router of a shard. Each is a step of the machine, but for the one that gives more room.
#[derive(Clone, Copy)]
pub(crate) enum RouterCall {
    /// It handles its first pending event, if that is before the stop.
    Handle,
    /// It undoes the event that it handled last.
    Undo,
    /// It commits its events before the bound, and keeps them.
    Commit,
    /// What is held for it is taken back.
    Release,
    /// It has twice the room for events that are not committed.
    Widen,
}

/// A call at a router of a shard, which sends behind all messages on their way. The stop is at most
/// 1,000,000,000.
pub(crate) fn call_on(
    shard: &mut Shard<'_>,
    flight: &mut Flight,
    call: RouterCall,
    router: u32,
    stop: u64,
) -> Result<(), OrMemory<Refusal>>
    requires stop { stop ≤ LATEST }
    requires retains { shard.old.terms.retains ≡ true }
    ensures ok { OnOk result (calling call stop (behind shard.old flight.old) router ≡ Ok (shard_core stop (behind shard.new flight.new))) }
    ensures refused { (f : ARefusal) → IsErrOf result (or_memory.Fault f) ↔ (calling call stop (behind shard.old flight.old) router ≡ Err f) }
    ensures err { OnErr result (shard.new ≡ shard.old) }
    ensures unsent { OnErr result (flight.new ≡ flight.old) }
    ensures outgoing { shard.new.outgoing ≡ shard.old.outgoing }
    ensures same { IsSameShare shard.old shard.new }
    ensures free { (owns shard.old router ≡ true → FreeAt call shard.old router) → IsErrOf result or_memory.Memory → ⊥ }
{
    flight.settle();
    shard.swap_outgoing(&mut flight.recent);
    let outcome = make(call, shard, router, stop);
    shard.swap_outgoing(&mut flight.recent);
    outcome
}

/// A call at a router of a shard.
fn make(
    call: RouterCall,
    shard: &mut Shard<'_>,
    router: u32,
    stop: u64,
) -> Result<(), OrMemory<Refusal>>
    requires stop { stop ≤ LATEST }
    requires retains { shard.old.terms.retains ≡ true }
    ensures ok { OnOk result (calling call stop shard.old router ≡ Ok (shard_core stop shard.new)) }
    ensures refused { (f : ARefusal) → IsErrOf result (or_memory.Fault f) ↔ (calling call stop shard.old router ≡ Err f) }
    ensures err { OnErr result (shard.new ≡ shard.old) }
    ensures same { IsSameShare shard.old shard.new }
    ensures free { (owns shard.old router ≡ true → FreeAt call shard.old router) → IsErrOf result or_memory.Memory → ⊥ }
{
    match call {
        RouterCall::Handle => shard.handle_next(router, stop),
        RouterCall::Undo => shard.undo_last(router),
        RouterCall::Commit => shard.commit(router),
        RouterCall::Release => shard.release(router),
        RouterCall::Widen => shard.widen(router),
    }
}

/// A message that may come comes to a shard.
pub(crate) fn deliver_on(
    shard: &mut Shard<'_>,
    flight: &mut Flight,
    message: Signed<Event>,
) -> Result<(), OrMemory<Refusal>>
    requires { refusing shard.old message.event ≡ Ok tt }
    ensures ok { (stop : ℕ) → OnOk result (after_arrival (simulation shard.old.terms.case) (shard_core stop (behind shard.old flight.old)) message ≡ shard_core stop (behind shard.new flight.new)) }
    ensures memory { OnErr result (IsErrOf result or_memory.Memory) }
    ensures err { OnErr result ((stop : ℕ) → IsRolledBack (simulation shard.old.terms.case) message.event
        (shard_core stop (behind shard.old flight.old)) (shard_core stop (behind shard.new flight.new))) }
    ensures outgoing { shard.new.outgoing ≡ shard.old.outgoing }
    ensures same { IsSameShare shard.old shard.new }
{
    flight.settle();
    shard.swap_outgoing(&mut flight.recent);
    let outcome = shard.receive(message);
    shard.swap_outgoing(&mut flight.recent);
    match outcome {
        Ok(()) => Ok(()),
        Err(returned) => match returned.why {
            OrMemory::Memory => Err(OrMemory::Memory),
            OrMemory::Fault(_) => unreachable!(),
        },
    }
}
