//! What holds of the routing protocol as a model. Each function does nothing; its contract is the law.

ghost use Rattle.std.specs.Prelude.{◌≡◌};
ghost use Rattle.tw_model.specs.Case.{IsCase, simulation};
ghost use Rattle.tw_process.specs.Behaviour.{simulation_of};
ghost use Rattle.tw_routing.specs.Routing.{routing_behaviour};

use crate::routing::Routing;
use tw_event::Event;
use tw_process::{ProcessModel, Timed};

/// The simulation of a case as a model is the case's own, which `twarp` runs: what is proved of the simulation of any model is
/// proved of that one.
pub fn routing_is_simulation<'a>(routing: &Routing<'a>)
    ensures behaviour { ⟦<Routing<'a> as ProcessModel>⟧.behaviour routing.now ≡ routing_behaviour routing.now }
    ensures simulates { simulation_of ⟦<Event as Timed>⟧.parts ⟦<Event as Ord>⟧.cmp (routing_behaviour routing.now) ≡ simulation routing.now }
    ensures case { IsCase routing.now }
{
    let _ = routing.case();
}
