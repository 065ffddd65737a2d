//! The threads of workers are started.
ghost use Rattle.std.specs.Prelude.{◌≡◌, ◌≤◌, [], length, vec_capacity, vec_len};
ghost use Rattle.std.specs.List.{AllZip};
ghost use Rattle.tw_threads.specs.Left.{IsLeft};
ghost use Rattle.tw_threads.specs.Started.{AreSeated, IsStarted};
ghost use Rattle.tw_workers.specs.Seated.{IsSeated};

use crate::work::Work;
use std::snapshot::Snapshot;
use std::sync::Wait;
use std::sync::atomic::{AtomicBool, Ordering};
use std::thread::{Promise, PromisedHandle, Scope, Threads};
use tw_table::{Seat, Table};
use tw_workers::{Gate, Leaving};

/// What a worker leaves.
#[derive(Drop)]
pub(crate) struct Left<W> {
    pub(crate) worker: W,
    pub(crate) seat: Seat,
    pub(crate) why: Leaving,
}

/// That a worker leaves the seat that it had at a table.
#[derive(Drop)]
pub(crate) struct Leaves {
    pub(crate) table: Snapshot<Table>,
    pub(crate) seat: Snapshot<Seat>,
}

impl<W: Work> Promise<Left<W>> for Leaves {
    ghost kept_by = { λ p l. IsLeft (W.share l.worker) p.table.value p.seat.value l.seat l.why };
}

/// A worker that was started.
#[derive(Drop)]
pub(crate) enum Started<W: Work> {
    /// In a thread.
    Running(PromisedHandle<Left<W>, Leaves>),
    /// Its thread was refused, and it has left.
    Here(Left<W>),
    /// It has nothing to do before the others have left, and no thread.
    Aside { worker: W, seat: Seat },
}

/// A thread for each of these workers, who have these seats, that has something to do. Where one is refused, its
/// worker leaves, and so do those that have not taken a turn yet. The list is empty, with room for all.
pub(crate) fn start_all<
    's,
    E,
    W: Work + Send + Drop + 's,
    G: Gate + Sync + 's,
    R: Threads + Wait + Sync + 's,
>(
    scope: &'s Scope<'s, E>,
    rt: &'s R,
    table: &'s Table,
    gate: &'s G,
    refused: &'s AtomicBool,
    workers: Vec<W>,
    seats: Vec<Seat>,
    started: Vec<Started<W>>,
) -> Vec<Started<W>>
    requires empty { started.items ≡ [] }
    requires room { length workers.items ≤ vec_capacity started }
    requires seated { AreSeated W.share W.stop table.now seats.items workers.items }
    ensures count { vec_len result ≡ vec_len workers }
    ensures started { AllZip (IsStarted W.share W.stop table.now) seats.items result.items }
{
    let mut started = started;
    let mut seats = seats.into_iter();
    for worker in workers {
        let Some(seat) = seats.next() else {
            unreachable!()
        };
        let one = start(scope, rt, table, gate, refused, worker, seat);
        started.push_reserved(one);
    }
    started
}

/// A thread for a worker, where it has something to do before the others have left.
fn start<'s, E, W: Work + Send + Drop + 's, G: Gate + Sync + 's, R: Threads + Wait + Sync + 's>(
    scope: &'s Scope<'s, E>,
    rt: &'s R,
    table: &'s Table,
    gate: &'s G,
    refused: &'s AtomicBool,
    worker: W,
    seat: Seat,
) -> Started<W>
    requires { IsSeated table.now seat (W.share worker) (W.stop worker) }
    ensures { IsStarted W.share W.stop table.now seat result }
{
    let mut worker = worker;
    let (seat, is_aside) = worker.step_aside(rt, table, seat);
    if is_aside {
        return Started::Aside { worker, seat };
    }
    start_thread(scope, rt, table, gate, refused, worker, seat)
}

/// A thread for a worker. Where it is refused, all workers are told so, and this one leaves.
fn start_thread<
    's,
    E,
    W: Work + Send + Drop + 's,
    G: Gate + Sync + 's,
    R: Threads + Wait + Sync + 's,
>(
    scope: &'s Scope<'s, E>,
    rt: &'s R,
    table: &'s Table,
    gate: &'s G,
    refused: &'s AtomicBool,
    worker: W,
    seat: Seat,
) -> Started<W>
    requires { IsSeated table.now seat (W.share worker) (W.stop worker) }
    ensures { IsStarted W.share W.stop table.now seat result }
{
    let promise = Leaves {
        table: Snapshot::of(table),
        seat: Snapshot::of(&seat),
    };
    let turns = move || -> Left<W>
        requires { IsSeated table.now seat (W.share worker) (W.stop worker) }
        ensures { IsLeft (W.share result.worker) table.entry.now seat result.seat result.why }
    { run(rt, table, gate, refused, worker, seat) };
    match scope.spawn_with(promise, turns) {
        Ok(handle) => Started::Running(handle),
        Err(back) => {
            refused.store(true, Ordering::SeqCst);
            let turns = back.value;
            Started::Here(turns())
        }
    }
}

/// A worker takes its turns, or leaves at once where a thread was refused.
pub(crate) fn run<W: Work, G: Gate, R: Wait>(
    rt: &R,
    table: &Table,
    gate: &G,
    refused: &AtomicBool,
    worker: W,
    seat: Seat,
) -> Left<W>
    requires { IsSeated table.now seat (W.share worker) (W.stop worker) }
    ensures { IsLeft (W.share result.worker) table.now seat result.seat result.why }
{
    let mut worker = worker;
    if refused.load(Ordering::SeqCst) {
        let seat = worker.leave(rt, table, seat);
        return Left {
            worker,
            seat,
            why: Leaving::Halted,
        };
    }
    let (seat, why) = worker.work(rt, table, gate, seat);
    Left { worker, seat, why }
}
