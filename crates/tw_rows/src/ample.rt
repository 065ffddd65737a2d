//! Calls that may answer want of memory, each with memory enough: none of them does, at its first try.
//!
//! Here are those that no program makes; where another one answered so, a program would stop, and its rows tell.

ghost use Rattle.std.specs.Prelude.{◌≡◌, ◌<◌};

mod traced;

use crate::cases::case;
use crate::texts::{DISAGREE, RANK_EXCHANGE};
use smallvec::SmallVec;
use std::alloc::Global;
use tw_event::{Body, Event};
use tw_handlers::{Trail, handle, undo};
use tw_held::HeldSends;
use tw_instance::{Case, Instance};
use tw_router::Router;
use tw_seq::LoggedRun;
use tw_text::read_steps;

#[test]
fn steps_are_read(rt: HostRuntime) {
    assert!(rt; read_steps(rt.alloc(), b"bound\nend\n").is_ok());
}

/// Whether an event is held by its sender, and counted.
fn is_held(held: &mut HeldSends) -> bool
    requires { held.old.routers ≡ 1 }
{
    held.insert(Event::default()).is_ok() && held.count_of_sender(0) == 1
}

#[test]
fn what_is_held_is_counted(rt: HostRuntime) {
    assert!(rt; is_held(&mut HeldSends::new(rt.alloc(), 1)));
}

/// Router 1 exchanges its paths.
const SWAP: Event = Event {
    time: 0,
    dst: 1,
    src: 1,
    seq: 0,
    body: Body::Swap(1, 2),
};

/// Whether a router handles an exchange of its paths and undoes it.
fn goes_and_comes_back(alloc: Global, instance: &Instance, router: &mut Router<'_>) -> bool
    requires { instance.now ≡ router.old.net }
{
    let sends = &mut SmallVec::new(alloc);
    match handle(instance, router, &SWAP, sends) {
        Ok(note) => undo(instance, router, &SWAP, note, sends).is_ok(),
        Err(_) => false,
    }
}

/// Whether router 1 does so.
fn is_handled(alloc: Global, instance: &Instance) -> bool
    requires { 1 < instance.now.nodes }
{
    let Ok(mut router) = Router::new(alloc, instance, 1) else {
        return false;
    };
    let is_so = goes_and_comes_back(alloc, instance, &mut router);
    drop(router);
    is_so
}

/// Whether router 1 handles the exchange on a trail.
fn is_handled_on_a_trail(alloc: Global, instance: &Instance) -> bool
    requires { 1 < instance.now.nodes }
{
    let Ok(router) = Router::new(alloc, instance, 1) else {
        return false;
    };
    let mut trail = Trail::over(alloc, router);
    let is_so = trail.handle(instance, &SWAP).is_ok();
    drop(trail);
    is_so
}

/// Whether router 1 of a case handles the exchange.
fn is_handled_in(alloc: Global, instance: &Instance) -> bool {
    instance.nodes() == 3 && is_handled(alloc, instance) && is_handled_on_a_trail(alloc, instance)
}

/// Whether the run of a case tells what is pending, and what it leaves.
fn tells_what_it_leaves(alloc: Global, case: &Case) -> bool {
    let Ok(run) = LoggedRun::new(alloc, case) else {
        return false;
    };
    let tells = run.pending().err().is_none() && run.outcome().err().is_none();
    drop(run);
    tells
}

/// What is asked of a case.
#[derive(Clone, Copy)]
enum Asked {
    /// An exchange is handled and undone.
    IsHandled,
    /// Its run tells what is pending, and what it leaves.
    TellsWhatItLeaves,
    /// Its run is taken apart, and goes on.
    GoesOn,
}

/// Whether it holds of the case of a text.
fn holds(alloc: Global, text: &str, asked: Asked) -> bool {
    let Ok(case) = case(alloc, text) else {
        return false;
    };
    let holds = match asked {
        Asked::IsHandled => is_handled_in(alloc, case.instance()),
        Asked::TellsWhatItLeaves => tells_what_it_leaves(alloc, &case),
        Asked::GoesOn => traced::goes_on(alloc, &case),
    };
    drop(case);
    holds
}

#[test]
fn an_exchange_is_handled_and_undone(rt: HostRuntime) {
    assert!(rt; holds(rt.alloc(), RANK_EXCHANGE, Asked::IsHandled));
}

#[test]
fn a_run_tells_what_it_leaves(rt: HostRuntime) {
    assert!(rt; holds(rt.alloc(), DISAGREE, Asked::TellsWhatItLeaves));
}

#[test]
fn a_run_is_taken_apart_and_goes_on(rt: HostRuntime) {
    assert!(rt; holds(rt.alloc(), DISAGREE, Asked::GoesOn));
}
