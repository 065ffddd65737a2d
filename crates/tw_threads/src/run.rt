//! All workers run.
ghost use Rattle.std.specs.Prelude.{◌≡◌, ◌≤◌, Some, [], false, length, map, true, vec_capacity, vec_len};
ghost use Rattle.std.specs.List.{AllByRecursion, AllZip};
ghost use Rattle.tw_table.specs.Seats.{bound_at, stop_at, workers_at};
ghost use Rattle.tw_table.specs.Shares.{AreGoodTogether};
ghost use Rattle.tw_threads.specs.Left.{IsFullAhead};
ghost use Rattle.tw_threads.specs.Started.{AreSeated, HaveLeft, IsStarted};
ghost use Rattle.tw_workers.specs.Work.{AreSameShares};
ghost use Rattle.tw_threads.specs.declared.end_cause.EndCause.TheVariants as cause;

use crate::end_cause::EndCause;
use crate::join::{Gathered, join_all};
use crate::start::{Started, start_all};
use crate::work::Work;
use std::alloc::Global;
use std::sync::Wait;
use std::sync::atomic::AtomicBool;
use std::thread;
use std::thread::Threads;
use tw_exchange::Exchange;
use tw_table::{Seat, Table};
use tw_workers::Gate;

/// What a run of workers leaves.
#[derive(Drop)]
pub struct Ran<W> {
    /// What the workers left for one another.
    pub exchange: Exchange,
    /// The workers, in their order.
    pub workers: Vec<W>,
    /// Why they did not come to their stop, as far as one of them tells it.
    pub cause: Option<EndCause>,
}

/// Each worker that has routers, or messages, takes its turns in a thread of its own; the others take theirs once those
/// have left, and a gate shall not wait for them. The table is closed once all have left. The seats
/// are all those of the table, one for each worker, in their order, and a worker has what it gave there last.
///
/// Memory is taken before the first thread alone. Where it is refused, no thread is started. Where a thread
/// is refused, its worker and those that have not begun take no turn, and the others take no further one. The
/// cause is that of the first worker in order that has one.
pub fn run_all<W: Work + Send + Drop, G: Gate + Sync, R: Threads + Wait + Sync>(
    rt: &R,
    alloc: Global,
    table: Table,
    workers: Vec<W>,
    seats: Vec<Seat>,
    gate: &G,
) -> Ran<W>
    requires all { vec_len seats ≡ workers_at table }
    requires seated { AreSeated W.share W.stop table seats.items workers.items }
    ensures whole { AreGoodTogether result.exchange (map W.share result.workers.items) }
    ensures same { AreSameShares (map W.share workers.items) (map W.share result.workers.items) }
    ensures stop { AllByRecursion (λ s. stop_at s ≡ result.exchange.stop) seats.items }
    ensures bound { AllByRecursion (λ s. bound_at s ≤ result.exchange.bound) seats.items }
    ensures lower { result.cause ≡ Some cause.StopLower → ⊥ }
    ensures full { result.cause ≡ Some cause.CounterFull → IsFullAhead result.exchange.stop (map W.share result.workers.items) }
    ensures thread { result.cause ≡ Some cause.NoThread → result.exchange.halted ≡ true }
{
    let gathered = gather(rt, alloc, &table, workers, seats, gate);
    let Gathered {
        workers,
        seats,
        cause,
    } = gathered;
    match Table::close(rt, table, seats) {
        Ok(exchange) => Ran {
            exchange,
            workers,
            cause,
        },
        Err(_) => unreachable!(),
    }
}

/// All workers take their turns and leave.
fn gather<W: Work + Send + Drop, G: Gate + Sync, R: Threads + Wait + Sync>(
    rt: &R,
    alloc: Global,
    table: &Table,
    workers: Vec<W>,
    seats: Vec<Seat>,
    gate: &G,
) -> Gathered<W>
    requires { AreSeated W.share W.stop table.now seats.items workers.items }
    ensures { HaveLeft W.share table.now seats.items result.seats.items result.workers.items result.cause }
{
    let count = workers.len();
    let Ok(started) = Vec::with_capacity(alloc, count) else {
        return unchanged(workers, seats);
    };
    let Ok(back) = Vec::with_capacity(alloc, count) else {
        return unchanged(workers, seats);
    };
    let Ok(left) = Vec::with_capacity(alloc, count) else {
        return unchanged(workers, seats);
    };
    let refused = AtomicBool::new(false);
    let told = &refused;
    let started = thread::scope(
        thread::scope_env(),
        rt,
        |scope| -> Vec<Started<W>>
            requires empty { started.items ≡ [] }
            requires room { length workers.items ≤ vec_capacity started }
            requires seated { AreSeated W.share W.stop table.now seats.items workers.items }
            ensures count { vec_len result ≡ vec_len workers }
            ensures started { AllZip (IsStarted W.share W.stop table.entry.now) seats.items result.items }
        { start_all(scope, rt, table, gate, told, workers, seats, started) },
    );
    join_all(rt, table, gate, told, started, back, left)
}

/// Workers that take no turn, for want of memory.
fn unchanged<W: Work>(workers: Vec<W>, seats: Vec<Seat>) -> Gathered<W>
    ensures workers { result.workers ≡ workers }
    ensures seats { result.seats ≡ seats }
    ensures cause { result.cause ≡ Some cause.Memory }
{
    Gathered {
        workers,
        seats,
        cause: Some(EndCause::Memory),
    }
}
