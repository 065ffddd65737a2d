//! Why a run did not come to its stop, and why the program stops then.
ghost use Rattle.std.specs.Prelude.{◌≡◌};
ghost use Rattle.tw_run.specs.Stopped.{TellsEnd, cause_of, stopped_alone};
ghost use Rattle.tw_run.specs.declared.cause.Stopped.TheVariants as stopped;
ghost use Rattle.tw_threads.specs.declared.end_cause.EndCause.TheVariants as end_cause;

use std::alloc::AllocError;
use tw_commands::Cause;
use tw_model::OrMemory;
use tw_parallel::{EndCause, Ended, Sim};
use tw_seq::CounterFull;

/// Why a run did not come to its stop.
#[derive(Drop)]
pub(crate) enum Stopped<F: Drop> {
    /// Memory was refused.
    Memory,
    /// A thread was refused.
    NoThread,
    /// A counter would pass its limit: of the one-thread run, or where workers run ahead, who have come so far.
    Full(F),
}

impl<F: Drop> From<AllocError> for Stopped<F> {
    ghost from_gives = { λ _ why. why ≡ stopped.Memory };

    fn from(_: AllocError) -> Self {
        Stopped::Memory
    }
}

impl From<OrMemory<CounterFull>> for Stopped<CounterFull> {
    ghost from_gives = { λ fault why. why ≡ stopped_alone fault };

    fn from(fault: OrMemory<CounterFull>) -> Self {
        match fault {
            OrMemory::Fault(full) => Stopped::Full(full),
            OrMemory::Memory => Stopped::Memory,
        }
    }
}

impl From<Stopped<CounterFull>> for Cause {
    ghost from_gives = { λ why cause. cause ≡ cause_of why };

    fn from(why: Stopped<CounterFull>) -> Cause {
        match why {
            Stopped::Memory => Cause::Memory,
            Stopped::NoThread => Cause::NoThread,
            Stopped::Full(_) => Cause::CounterFull,
        }
    }
}

impl<'a> Stopped<Sim<'a>> {
    /// Why workers ended whose stop was allowed.
    pub(crate) fn of(ended: Ended<'a>) -> Stopped<Sim<'a>>
        requires { ended.cause ≡ end_cause.StopLower → ⊥ }
        ensures { TellsEnd ended.entry.cause ended.entry.sim result }
    {
        match ended.cause {
            EndCause::Memory => Stopped::Memory,
            EndCause::CounterFull => Stopped::Full(ended.sim),
            EndCause::NoThread => Stopped::NoThread,
            EndCause::StopLower => unreachable!(),
        }
    }
}
