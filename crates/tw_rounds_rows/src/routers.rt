//! A case of routing that is small enough to follow by hand, by both engines.

ghost use Rattle.std.specs.Prelude.{◌≤◌};
ghost use Rattle.tw_model.specs.declared.limits.TheConstants.{LATEST};

use std::alloc::Global;
use std::sync::Wait;
use std::thread::Threads;
use tw_event::PathNo;
use tw_instance::{Case, Instance};
use tw_model::{Counters, Link, PermittedPath, RouterEnd};
use tw_rounds::TimeWarp;
use tw_routing::Routing;
use tw_routing_run::{router_at, router_in, run_case, run_case_by};
use tw_sequential::Sequential;

/// The origin and router 1, with a link that takes 3 ticks and the path of router 1 over it.
fn two_routers(alloc: Global) -> Option<Case> {
    let mut instance = Instance::new(alloc, 2).ok()?;
    let link = Link {
        first: 0,
        second: 1,
        delay: 3,
        back: 3,
    };
    instance.add_link(link).ok()?;
    let nodes = Vec::from_array(alloc, [1, 0]).ok()?;
    instance.add_path(PermittedPath { owner: 1, nodes }).ok()?;
    Case::new(alloc, instance).ok()
}

/// How a router stands in a run.
fn end_of(run: &Sequential<'_, Routing<'_>>, number: u32) -> Option<RouterEnd> {
    if number >= run.model().case().instance().nodes() {
        return None;
    }
    Some(router_at(run, number).end())
}

/// How a router stands in a run in threads.
fn end_in(run: &TimeWarp<'_, Routing<'_>>, number: u32) -> Option<RouterEnd> {
    if number >= run.model().case().instance().nodes() {
        return None;
    }
    Some(router_in(run, number).end())
}

/// How a router stands that has handled so many events and changed its path once.
fn changed_once(rib: u32, handled: u64) -> RouterEnd {
    RouterEnd {
        counters: Counters {
            sent: 1,
            handled,
            dropped: 0,
            changed: 1,
        },
        rib: PathNo(rib),
    }
}

/// How a router stands to which nothing has come.
const SILENT: RouterEnd = RouterEnd {
    counters: Counters {
        sent: 0,
        handled: 0,
        dropped: 0,
        changed: 0,
    },
    rib: PathNo::EMPTY,
};

/// Whether the routers of the case stand so at a stop.
fn stand_so(alloc: Global, stop: u64, origin: RouterEnd, other: RouterEnd) -> bool
    requires { stop ≤ LATEST }
{
    let Some(case) = two_routers(alloc) else {
        return false;
    };
    let routing = Routing::new(alloc, &case);
    match run_case(alloc, &routing, stop) {
        Ok(run) => end_of(&run, 0) == Some(origin) && end_of(&run, 1) == Some(other),
        Err(_) => false,
    }
}

/// Whether the routers of the case stand so at a stop in a run by two workers.
fn stand_so_by_two<R: Threads + Wait + Sync>(
    rt: &R,
    alloc: Global,
    stop: u64,
    origin: RouterEnd,
    other: RouterEnd,
) -> bool
    requires { stop ≤ LATEST }
{
    let Some(case) = two_routers(alloc) else {
        return false;
    };
    let routing = Routing::new(alloc, &case);
    match run_case_by(rt, alloc, &routing, 2, stop) {
        Ok(run) => end_in(&run, 0) == Some(origin) && end_in(&run, 1) == Some(other),
        Err(_) => false,
    }
}

// Its start makes the origin tell router 1 its path, which comes at time 3. Router 1 takes the path over the link, of number
// 2, and tells the origin, which hears it at time 6 and keeps its own path.
#[test]
fn the_origin_tells_router_1_and_is_told(rt: HostRuntime) {
    let alloc = rt.alloc();
    assert!(rt; stand_so(alloc, 3, changed_once(1, 1), SILENT));
    assert!(rt; stand_so(alloc, 4, changed_once(1, 1), changed_once(2, 1)));
    assert!(rt; stand_so(alloc, 7, changed_once(1, 2), changed_once(2, 1)));
    assert!(rt; stand_so_by_two(&rt, alloc, 7, changed_once(1, 2), changed_once(2, 1)));
}
