//! Why an event is not handled.

ghost use Rattle.std.specs.Prelude.{◌≡◌};
ghost use Rattle.tw_handlers.specs.declared.fault.Fault.TheVariants.{CounterFull as FullCounter};

use thiserror::Error;

/// The count of messages sent or of events handled would pass 2^48.
#[derive(Clone, Copy, PartialEq, Eq, Debug, Error)]
#[error("a counter is full")]
pub struct CounterFull;

/// Why an event was not handled.
#[derive(Clone, Copy, PartialEq, Eq, Debug, Error)]
pub enum Fault {
    /// It is not an event for this router.
    #[error("the event is not for this router")]
    Foreign,
    /// The count of messages sent or of events handled would pass 2^48.
    #[error("a counter is full")]
    CounterFull,
}

impl From<CounterFull> for Fault {
    ghost from_gives = { λ _ fault. fault ≡ FullCounter };

    fn from(_: CounterFull) -> Fault {
        Fault::CounterFull
    }
}
