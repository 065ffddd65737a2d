//! What holds of every model.

ghost use Rattle.std.specs.Prelude.{◌≡◌, ◌<◌, ◌≤◌};
ghost use Rattle.tw_process.specs.Behaviour.{IsLookahead, simulation_of};
ghost use Rattle.tw_process.specs.Order.{event_cmp};
ghost use Rattle.tw_process.specs.declared.event.Event.{Event as AnEvent};
ghost use Rattle.tw_process.specs.declared.limits.TheConstants.{LATEST};
ghost use Rattle.std.specs.declared.cmp.Ordering.TheVariants.{Equal};
ghost use Rattle.tw_sim.specs.Simulation.{IsLawful, IsNumbered};

use crate::body::Body;
use crate::event::Event;
use crate::model::ProcessModel;

/// A model's simulation is lawful, so all that `tw_sim` and `tw_core` tell of lawful simulations holds of it: its
/// sequential run ends and is the only one, and a machine that runs ahead and rolls back comes to it.
pub fn model_is_lawful<M: ProcessModel>(model: &M)
    ensures lawful { IsLawful (simulation_of M.Event.parts M.Event.cmp (M.behaviour model.now)) }
    ensures numbered { IsNumbered (simulation_of M.Event.parts M.Event.cmp (M.behaviour model.now)) }
    ensures ahead { IsLookahead (simulation_of M.Event.parts M.Event.cmp (M.behaviour model.now)) (M.behaviour model.now).lookahead }
    ensures positive { 0 < (M.behaviour model.now).lookahead }
    ensures latest { (M.behaviour model.now).latest ≤ LATEST }
{
    model.keeps_laws();
}

/// Events with a body are ordered by time, receiver, sender, number and body, and two that compare alike are one.
pub fn order_of_events<B: Body>()
    ensures order { (d e : AnEvent B) → ⟦<Event<B> as Ord>⟧.cmp d e ≡ event_cmp B.cmp d e }
    ensures exact { (d e : AnEvent B) → event_cmp B.cmp d e ≡ Equal → d ≡ e }
{}
