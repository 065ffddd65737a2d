//! Calls that may answer want of memory, each with memory enough: none of them does, at its first try.
//!
//! Here are those that no program makes; where another one answered so, a program would stop, and its rows tell.

use crate::messages::{ORIGIN_TO_1, ORIGIN_TO_2};
use std::alloc::Global;
use tw_exchange::Exchange;

/// Whether a worker deposits two messages.
fn deposits(exchange: &mut Exchange, alloc: Global) -> bool {
    let Ok(out) = Vec::from_slice(alloc, &[ORIGIN_TO_1, ORIGIN_TO_2]) else {
        return false;
    };
    let answer = exchange.visit(0, out, None);
    let is_done = answer.is_ok();
    drop(answer);
    is_done
}

/// Whether a worker visits a new exchange.
fn visits(alloc: Global) -> bool {
    let Ok(mut exchange) = Exchange::new(alloc, 2, 0, 20) else {
        return false;
    };
    let deposits = deposits(&mut exchange, alloc);
    drop(exchange);
    deposits
}

#[test]
fn a_worker_visits_the_exchange(rt: HostRuntime) {
    assert!(rt; visits(rt.alloc()));
}
