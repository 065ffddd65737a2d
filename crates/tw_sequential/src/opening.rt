//! A model's processes as they begin.

ghost use Rattle.std.specs.Prelude.{[], IfOk};
ghost use Rattle.tw_process.specs.Behaviour.{simulation_of};
ghost use Rattle.tw_sequential.specs.States.{AreStates};

use std::alloc::{AllocError, Global};
use tw_process::ProcessModel;

/// Every process as it begins, in ascending order.
pub(crate) fn opening_states<M: ProcessModel>(
    alloc: Global,
    model: &M,
) -> Result<Vec<M::State>, AllocError>
    ensures { IfOk result (λ states. AreStates (simulation_of M.Event.parts M.Event.cmp (M.behaviour model.now)) (M.is_state model.now) M.known [] states.items) }
{
    let mut states = Vec::new(alloc);
    for number in 0..model.processes() {
        states.push(model.begin(alloc, number)?)?;
    }
    Ok(states)
}
