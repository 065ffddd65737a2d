//! What holds of PHOLD.

ghost use Rattle.tw_phold.specs.Phold.{simulation};
ghost use Rattle.tw_sim.specs.Simulation.{IsLawful, IsNumbered};

use crate::phold::Phold;
use tw_process::laws::model_is_lawful;

/// PHOLD is a lawful simulation, so that its sequential run to each time ends and is the only one.
pub fn phold_is_lawful(phold: &Phold)
    ensures lawful { IsLawful (simulation phold.now) }
    ensures numbered { IsNumbered (simulation phold.now) }
{
    model_is_lawful(phold);
}
