//! A parallel run goes on to a stop, with a thread for each worker that has something to do.
ghost use Rattle.std.specs.Prelude.{◌≡◌, ◌↔◌, ◌<◌, ◌⊎◌, IfErr, IfOk, Some, length, true};
ghost use Rattle.std.specs.Result.{IsErrAnd};
ghost use Rattle.tw_model.specs.declared.limits.TheConstants.{LATEST};
ghost use Rattle.tw_parallel.specs.Settled.{IsSettled};
ghost use Rattle.tw_parallel.specs.Inside.{HasHands, sim_of_parts};
ghost use Rattle.tw_parallel.specs.Crew.{IsRoomForCrew};
ghost use Rattle.tw_parallel.specs.Sim.{GoesOn, HasSameOwners, IsSim};
ghost use Rattle.tw_threads.specs.Left.{IsFullAhead};
ghost use Rattle.tw_threads.specs.declared.end_cause.EndCause.TheVariants as end_cause;

use crate::crew::{Room, parts_of, room_for, workers_of};
use crate::sim::{Parts, Sim};
use std::sync::Wait;
use std::thread::Threads;
use tw_table::Table;
use tw_threads::{EndCause, Gate, run_all};
use tw_workers::Worker;
use tw_workers::laws::shares_are_at_work;

/// How the workers of a run work.
#[derive(Clone, Copy, PartialEq, Eq, Debug)]
pub struct Options {
    /// How many events a worker handles at most between two meetings; one that has all routers, and so nobody to meet,
    /// handles eight times as many. 0 is taken as 1.
    pub batch: u32,
}

/// A run that ended before its stop.
#[derive(Drop)]
pub struct Ended<'a> {
    /// The run as it is then. All before its bound stands, and it can go on.
    pub sim: Sim<'a>,
    /// Its bound, in ticks.
    pub bound: u64,
    /// Why it ended.
    pub cause: EndCause,
}

/// A run goes on to a stop, in ticks, that is not below its own and at most 1,000,000,000: each of its workers
/// takes turns in a thread of its own, and asks the gate; each router keeps its worker. One without routers and messages takes its turns once the
/// others have left, so that a gate shall not wait for it.
///
/// Where it ends before, for want of memory or of a thread or at a full counter, the run comes back and can go
/// on, its bound not lower than it was; that a thread was refused is told only where all workers were told to take no
/// further turn. Where the stop is refused nothing has changed.
pub fn run_until<'a, G: Gate + Sync, R: Threads + Wait + Sync>(
    rt: &R,
    sim: Sim<'a>,
    stop: u64,
    options: Options,
    gate: &G,
) -> Result<Sim<'a>, Ended<'a>>
    ensures settled { IfOk result (λ s. IsSettled s) }
    ensures sim { IfOk result (λ s. IsSim s) }
    ensures goes_on { IfOk result (λ s. GoesOn sim.entry s) }
    ensures owners { IfOk result (λ s. HasSameOwners sim.entry s) }
    ensures stop { IfOk result (λ s. s.board.stop ≡ stop) }
    ensures ended_sim { IfErr result (λ e. IsSim e.sim) }
    ensures ended { IfErr result (λ e. GoesOn sim.entry e.sim) }
    ensures ended_stop { IfErr result (λ e. (e.cause ≡ end_cause.StopLower → ⊥) → e.sim.board.stop ≡ stop) }
    ensures bound { IfErr result (λ e. e.bound ≡ e.sim.board.bound) }
    ensures lower { IsErrAnd result (λ e. e.cause ≡ end_cause.StopLower) ↔ ((stop < sim.entry.board.stop) ⊎ (LATEST < stop)) }
    ensures unchanged { IfErr result (λ e. e.cause ≡ end_cause.StopLower → e.sim ≡ sim.entry) }
    ensures full { IfErr result (λ e. e.cause ≡ end_cause.CounterFull → IsFullAhead e.sim.board.stop e.sim.shares) }
    ensures thread { IfErr result (λ e. e.cause ≡ end_cause.NoThread → e.sim.board.halted ≡ true) }
{
    let mut sim = sim;
    if sim.raise_stop(stop).is_err() {
        return Err(end_with(sim, EndCause::StopLower));
    }
    run(rt, sim, options.batch.max(1), gate)
}

/// A run goes on to its stop.
fn run<'a, G: Gate + Sync, R: Threads + Wait + Sync>(
    rt: &R,
    sim: Sim<'a>,
    batch: u32,
    gate: &G,
) -> Result<Sim<'a>, Ended<'a>>
    ensures settled { IfOk result (λ s. IsSettled s) }
    ensures sim { IfOk result (λ s. IsSim s) }
    ensures goes_on { IfOk result (λ s. GoesOn sim.entry s) }
    ensures owners { IfOk result (λ s. HasSameOwners sim.entry s) }
    ensures stop { IfOk result (λ s. s.board.stop ≡ sim.entry.board.stop) }
    ensures ended_sim { IfErr result (λ e. IsSim e.sim) }
    ensures ended { IfErr result (λ e. GoesOn sim.entry e.sim) }
    ensures ended_stop { IfErr result (λ e. e.sim.board.stop ≡ sim.entry.board.stop) }
    ensures bound { IfErr result (λ e. e.bound ≡ e.sim.board.bound) }
    ensures lower { IsErrAnd result (λ e. e.cause ≡ end_cause.StopLower) → ⊥ }
    ensures full { IfErr result (λ e. e.cause ≡ end_cause.CounterFull → IsFullAhead e.sim.board.stop e.sim.shares) }
    ensures thread { IfErr result (λ e. e.cause ≡ end_cause.NoThread → e.sim.board.halted ≡ true) }
{
    let mut sim = sim;
    for _ in rt.forever() {
        if sim.is_settled() {
            return Ok(sim);
        }
        let (next, cause) = run_once(rt, sim, batch, gate);
        sim = next;
        if let Some(cause) = cause {
            return Err(end_with(sim, cause));
        }
    }
    unreachable!()
}

/// A run that ended for this.
fn end_with<'a>(sim: Sim<'a>, why: EndCause) -> Ended<'a>
    ensures run { result.sim ≡ sim.entry }
    ensures bound { result.bound ≡ sim.entry.board.bound }
    ensures cause { result.cause ≡ why }
{
    let bound = sim.bound();
    Ended {
        sim,
        bound,
        cause: why,
    }
}

/// Its workers take turns until they all have left.
fn run_once<'a, G: Gate + Sync, R: Threads + Wait + Sync>(
    rt: &R,
    sim: Sim<'a>,
    batch: u32,
    gate: &G,
) -> (Sim<'a>, Option<EndCause>)
    ensures sim { IsSim result.0 }
    ensures goes_on { GoesOn sim.entry result.0 }
    ensures owners { HasSameOwners sim.entry result.0 }
    ensures stop { result.0.board.stop ≡ sim.entry.board.stop }
    ensures lower { result.1 ≡ Some end_cause.StopLower → ⊥ }
    ensures full { result.1 ≡ Some end_cause.CounterFull → IsFullAhead result.0.board.stop result.0.shares }
    ensures thread { result.1 ≡ Some end_cause.NoThread → result.0.board.halted ≡ true }
{
    let parts = sim.into_parts();
    let Ok(room) = room_for(*parts.shards.allocator(), parts.shards.len()) else {
        return (Sim::of_parts(parts), Some(EndCause::Memory));
    };
    let (parts, cause) = run_at_table(rt, parts, batch, gate, room);
    (Sim::of_parts(parts), cause)
}

/// The workers of a run sit down at a table, take their turns and leave it.
fn run_at_table<'a, G: Gate + Sync, R: Threads + Wait + Sync>(
    rt: &R,
    parts: Parts<'a>,
    batch: u32,
    gate: &G,
    room: Room<'a>,
) -> (Parts<'a>, Option<EndCause>)
    requires sim { IsSim (sim_of_parts parts) }
    requires hands { HasHands parts }
    requires room { IsRoomForCrew (length parts.shards.items) room }
    ensures sim { IsSim (sim_of_parts result.0) }
    ensures hands { HasHands result.0 }
    ensures goes_on { GoesOn (sim_of_parts parts.entry) (sim_of_parts result.0) }
    ensures owners { HasSameOwners (sim_of_parts parts.entry) (sim_of_parts result.0) }
    ensures stop { (sim_of_parts result.0).board.stop ≡ (sim_of_parts parts.entry).board.stop }
    ensures lower { result.1 ≡ Some end_cause.StopLower → ⊥ }
    ensures full { result.1 ≡ Some end_cause.CounterFull → IsFullAhead (sim_of_parts result.0).board.stop (sim_of_parts result.0).shares }
    ensures thread { result.1 ≡ Some end_cause.NoThread → (sim_of_parts result.0).board.halted ≡ true }
{
    let Parts {
        case,
        exchange,
        shards,
        hands,
    } = parts;
    let alloc = *shards.allocator();
    let stop = exchange.stop();
    let (table, seats) = match Table::open(rt, alloc, exchange, &shards, &hands) {
        Ok(opened) => opened,
        Err(exchange) => {
            let parts = Parts {
                case,
                exchange,
                shards,
                hands,
            };
            return (parts, Some(EndCause::Memory));
        }
    };
    shares_are_at_work();
    let workers = workers_of(shards, hands, stop, batch, room.workers);
    let ran = run_all(rt, alloc, table, workers, seats, gate);
    tell_all(&ran.workers, gate);
    let (shards, hands) = parts_of(ran.workers, room.shards, room.hands);
    let parts = Parts {
        case,
        exchange: ran.exchange,
        shards,
        hands,
    };
    (parts, ran.cause)
}

/// Tells a gate what each of these workers has done, who have left.
fn tell_all<G: Gate>(workers: &[Worker<'_>], gate: &G) {
    for worker in workers {
        worker.tell(gate);
    }
}
