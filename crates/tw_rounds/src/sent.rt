//! What a share has sent, and what it has done.

ghost use Rattle.std.specs.Prelude.{◌≡◌, []};

use crate::counts::Counts;
use std::alloc::Global;
use tw_process::Refused;
use tw_sim::Signed;

/// What the processes of a share have sent and is on its way, and what they have done in a round.
#[derive(Drop)]
pub(crate) struct Sent<E: Copy> {
    /// What is for other shares.
    pub(crate) far: Vec<Signed<E>>,
    /// What was not looked at.
    pub(crate) near: Vec<Signed<E>>,
    pub(crate) counts: Counts,
    /// Why one of them did not go on.
    pub(crate) refused: Option<Refused>,
}

impl<E: Copy> Sent<E> {
    /// Nothing.
    pub(crate) fn new(alloc: Global) -> Sent<E>
        ensures far { result.far.items ≡ [] }
        ensures near { result.near.items ≡ [] }
    {
        Sent {
            far: Vec::new(alloc),
            near: Vec::new(alloc),
            counts: Counts::default(),
            refused: None,
        }
    }
}
