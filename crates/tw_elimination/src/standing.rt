//! How the routers of a case stand once its script is over.

ghost use Rattle.std.specs.Prelude.{◌≡◌, ◌<◌, [], length, slice_set, IfOk, OnOk};
ghost use Rattle.std.specs.List.{All};
ghost use Rattle.tw_elimination.specs.Standing.{script_of, standing_routers as standing_routers_of};
ghost use Rattle.tw_handlers.specs.Calls.{after_event};
ghost use Rattle.tw_model.specs.Case.{IsCase};
ghost use Rattle.tw_seq.specs.Run.{routers_after};
ghost use Rattle.tw_seq.specs.Turn.{receiver};

use smallvec::SmallVec;
use std::alloc::{AllocError, Global};
use tw_event::Event;
use tw_handlers::handle;
use tw_instance::{Case, Instance};
use tw_router::Router;

/// Every router of a case as it stands once the script is over, in ascending order: each has handled its own
/// opening events, the earliest first, and nothing else.
pub fn standing_routers<'a>(alloc: Global, case: &'a Case) -> Result<Vec<Router<'a>>, AllocError>
    ensures { IfOk result (λ routers. routers.items ≡ standing_routers_of case.now) }
{
    let events = script(alloc, case)?;
    let mut routers = opening_routers(alloc, case)?;
    handle_all(alloc, case, &mut routers, &events)?;
    Ok(routers)
}

/// The opening events of a case in their order.
fn script(alloc: Global, case: &Case) -> Result<Vec<Event>, AllocError>
    ensures order { IfOk result (λ events. events.items ≡ script_of case.now) }
    ensures homes { IfOk result (λ events. All (λ e. e.dst < case.now.net.nodes) events.items) }
    ensures case { IsCase case.now }
{
    let mut events = Vec::from_slice(alloc, case.openings())?;
    events.sort_unstable();
    Ok(events)
}

/// Every router of a case as it begins, in ascending order.
fn opening_routers<'a>(alloc: Global, case: &'a Case) -> Result<Vec<Router<'a>>, AllocError>
    ensures { IfOk result (λ routers. routers.items ≡ routers_after case.now []) }
{
    let instance = case.instance();
    let mut routers = Vec::new(alloc);
    for node in 0..instance.nodes() {
        routers.push(Router::new(alloc, instance, node)?)?;
    }
    Ok(routers)
}

/// The routers handle these events one after the other. What that sends is let go.
fn handle_all(
    alloc: Global,
    case: &Case,
    routers: &mut [Router<'_>],
    events: &[Event],
) -> Result<(), AllocError>
    requires opening { routers.old ≡ routers_after case.now [] }
    requires homes { All (λ e. e.dst < case.now.net.nodes) events.now }
    ensures { OnOk result (routers.new ≡ routers_after case.now events.now) }
{
    let instance = case.instance();
    for event in events {
        handle_at(alloc, instance, routers, event)?;
    }
    Ok(())
}

/// Handles an event at its router. What that sends is let go.
fn handle_at(
    alloc: Global,
    instance: &Instance,
    routers: &mut [Router<'_>],
    event: &Event,
) -> Result<(), AllocError>
    requires within { event.now.dst < length routers.old }
    requires net { (receiver routers.old event.now).net ≡ instance.now }
    ensures { OnOk result
        (routers.new ≡ slice_set routers.old event.now.dst (after_event (receiver routers.old event.now) event.now)) }
{
    let mut sends = SmallVec::new(alloc);
    let router = &mut routers[event.dst as usize];
    match handle(instance, router, event, &mut sends) {
        Ok(_) => Ok(()),
        // The opening events of a case are for their routers, and too few to fill a counter: at most 8,193, of
        // which each sends at most 64 messages.
        Err(_) => Err(AllocError),
    }
}
