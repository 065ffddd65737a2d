//! The opening events of a case.

ghost use Rattle.std.specs.Prelude.{◌≡◌, [], ◌∷◌, ◌++◌, IfOk, OnErr, OnOk};
ghost use Rattle.tw_model.specs.Case.{opening_event, opening_events, scene_events};

use std::alloc::{AllocError, Global};
use tw_event::{Body, Event};
use tw_model::Scene;

/// The start of the origin.
pub fn start(alloc: Global) -> Result<Vec<Event>, AllocError>
    ensures { IfOk result (λ events. events.items ≡ opening_events []) }
{
    let mut events = Vec::new(alloc);
    events.push(at(0, 0, 0, Body::Start))?;
    Ok(events)
}

/// Puts the events of a scene behind the others.
pub fn add(events: &mut Vec<Event>, number: u64, scene: &Scene) -> Result<(), AllocError>
    ensures ok { OnOk result (events.new.items ≡ events.old.items ++ scene_events number scene.now) }
    ensures err { OnErr result (events.new.items ≡ events.old.items) }
{
    events.reserve(2)?;
    match *scene {
        Scene::Fail {
            time,
            first,
            second,
        } => {
            events.push_reserved(at(number, time, first, Body::Fail(second)));
            events.push_reserved(at(number, time, second, Body::Fail(first)));
        }
        Scene::Restore {
            time,
            first,
            second,
        } => {
            events.push_reserved(at(number, time, first, Body::Restore(second)));
            events.push_reserved(at(number, time, second, Body::Restore(first)));
        }
        Scene::Swap {
            time,
            node,
            first,
            second,
        } => events.push_reserved(at(number, time, node, Body::Swap(first, second))),
        Scene::Forbid { time, node, line } => {
            events.push_reserved(at(number, time, node, Body::Forbid(line)));
        }
        Scene::Allow { time, node, line } => {
            events.push_reserved(at(number, time, node, Body::Allow(line)));
        }
    }
    Ok(())
}

/// The opening event of scene `number` at a router.
fn at(number: u64, time: u64, node: u32, body: Body) -> Event
    ensures { result ≡ opening_event number time node body }
{
    Event {
        time,
        dst: node,
        src: node,
        seq: number,
        body,
    }
}
