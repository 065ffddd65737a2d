//! Why the machine refuses a step.

ghost use Rattle.std.specs.Prelude.{◌≡◌};
ghost use Rattle.tw_core.specs.RefusalNames.{refusal_label};

use thiserror::Error;

/// Why a step of the machine is refused and changes nothing.
#[derive(Clone, Copy, PartialEq, Eq, Debug, Error)]
pub enum Refusal {
    /// There is no such router here.
    #[error("there is no such router here")]
    NotMine,
    /// The router has no pending event before the stop, or has handled nothing that it could undo.
    #[error("the router has no event before the stop to handle, or none handled to undo")]
    Nothing,
    /// The router's first pending event equals the last one that it handled.
    #[error("the first pending event of the router equals the last one that it handled")]
    Double,
    /// The router has handled as many events as it has room for, and committed none of them.
    #[error("the router has handled as many events as it has room for, and committed none of them")]
    AheadFull,
    /// The last event that the router handled is committed or lies before the bound.
    #[error("the last event that the router handled is committed or lies before the bound")]
    Committed,
    /// No message in flight has this place.
    #[error("no message in flight has this place")]
    NoMessage,
    /// A counter of the router would pass its limit.
    #[error("a counter of the router would pass its limit")]
    CounterFull,
}

impl Refusal {
    /// The code, as `S1`.
    pub fn code(self) -> &'static str
        ensures { result.now ≡ (refusal_label self).0 }
    {
        self.label().0
    }

    /// The name, as `NotMine`.
    pub fn name(self) -> &'static str
        ensures { result.now ≡ (refusal_label self).1 }
    {
        self.label().1
    }

    /// The code and the name.
    fn label(self) -> (&'static str, &'static str)
        ensures code { result.0.now ≡ (refusal_label self).0 }
        ensures name { result.1.now ≡ (refusal_label self).1 }
    {
        match self {
            Refusal::NotMine => ("S1", "NotMine"),
            Refusal::Nothing => ("S2", "Nothing"),
            Refusal::Double => ("S3", "Double"),
            Refusal::AheadFull => ("S4", "AheadFull"),
            Refusal::Committed => ("S5", "Committed"),
            Refusal::NoMessage => ("K1", "NoMessage"),
            Refusal::CounterFull => ("H2", "CounterFull"),
        }
    }
}
