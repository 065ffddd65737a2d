//! A parallel run of a router that has more events of one tick to handle than it has room for at first.

use crate::parallel::{committed, sim};
use std::alloc::Global;
use std::sync::Wait;
use std::thread::Threads;
use tw_event::{Body, Event};
use tw_instance::Case;
use tw_parallel::{EndCause, Ended, OpenGate, Options, Sim, run_until};
use tw_rows::cases::{case, many_exchanges};

/// How many events the run handles: the start, and 300 exchanges.
const EVENTS: usize = 301;

/// The event of the run at this place, from 0: the start, then the exchange of each scenario line.
fn event_at(place: usize) -> Event {
    if place == 0 {
        return Event::default();
    }
    Event {
        time: 1,
        dst: 0,
        src: 0,
        seq: place as u64,
        body: Body::Swap(1, 1),
    }
}

/// Whether these are the first events of the run, each of them below the bound.
fn are_first(committed: &[Event], bound: u64) -> bool {
    for (place, event) in committed.iter().enumerate() {
        if *event != event_at(place) || event.time >= bound {
            return false;
        }
    }
    committed.len() <= EVENTS
}

/// How many events are committed, where these are the first of the run and below the bound.
fn committed_count(sim: &Sim<'_>) -> Option<usize> {
    if !sim.retains_events() {
        return None;
    }
    let committed = committed(sim).ok()?;
    are_first(&committed, sim.bound()).then_some(committed.len())
}

/// Whether a run was refused memory or a thread, and what it has committed is of the run.
fn is_refused_on_its_way(ended: &Ended<'_>) -> bool {
    (ended.cause == EndCause::Memory || ended.cause == EndCause::NoThread)
        && ended.bound == ended.sim.bound()
        && committed_count(&ended.sim).is_some()
}

/// Whether a run has come to stop 20 with all its events.
fn is_over(sim: &Sim<'_>) -> bool {
    sim.is_settled() && sim.bound() == 20 && committed_count(sim) == Some(EVENTS)
}

/// Whether a run that ended early has some of the run's events, and comes to stop 20 from there.
fn goes_on_from_there<X: Threads + Wait + Sync>(rt: &X, ended: Ended<'_>) -> bool {
    let is_refused = is_refused_on_its_way(&ended);
    match run_until(rt, ended.sim, 20, Options { batch: 64 }, &OpenGate) {
        Ok(sim) => {
            let is_over = is_over(&sim);
            drop(sim);
            is_over && is_refused
        }
        Err(ended) => {
            drop(ended);
            false
        }
    }
}

/// Whether a run comes to stop 20, if need be from where it ended early, where its events are some of the run's.
fn comes_to_20<X: Threads + Wait + Sync>(rt: &X, sim: Sim<'_>) -> bool {
    match run_until(rt, sim, 20, Options { batch: 64 }, &OpenGate) {
        Ok(sim) => {
            let is_over = is_over(&sim);
            drop(sim);
            is_over
        }
        Err(ended) => goes_on_from_there(rt, ended),
    }
}

/// Whether the run of a case by two workers comes to stop 20.
fn comes_to_its_end<X: Threads + Wait + Sync>(rt: &X, alloc: Global, case: &Case) -> bool {
    match sim(alloc, case) {
        Ok(sim) => comes_to_20(rt, sim),
        Err(_) => false,
    }
}

/// Whether that of the case of a router with many events does; its text is made once more where memory was refused.
fn holds<X: Threads + Wait + Sync>(rt: &X, alloc: Global) -> bool {
    let text = match many_exchanges(alloc) {
        Err(_) => many_exchanges(alloc),
        text => text,
    };
    let Ok(text) = text else {
        return false;
    };
    let Ok(case) = case(alloc, &text) else {
        return false;
    };
    let holds = comes_to_its_end(rt, alloc, &case);
    drop(case);
    holds
}

#[test]
fn a_router_past_its_room_goes_on_where_memory_was_refused(rt: HostRuntime) {
    assert!(rt; holds(&rt, rt.alloc()));
}
