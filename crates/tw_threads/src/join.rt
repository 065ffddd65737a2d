//! The threads of workers are joined.
ghost use Rattle.std.specs.Prelude.{◌≡◌, ◌≤◌, ◌⊎◌, ◌↔◌, [], false, true, None, Some, length, vec_capacity, List};
ghost use Rattle.std.specs.List.{AllByRecursion, AllZip};
ghost use Rattle.tw_table.specs.declared.seat.Seat.{Seat as ASeat};
ghost use Rattle.tw_threads.specs.Left.{IsLeft};
ghost use Rattle.tw_threads.specs.Started.{HaveLeft, IsStarted, MaySit, was_refused};
ghost use Rattle.tw_threads.specs.declared.end_cause.EndCause.{EndCause as ACause};
ghost use Rattle.tw_threads.specs.declared.end_cause.EndCause.TheVariants as cause;
ghost use Rattle.tw_workers.specs.declared.working.Leaving.TheVariants as leaving;

use crate::end_cause::EndCause;
use crate::start::{Left, Started, run};
use crate::work::Work;
use std::sync::Wait;
use std::sync::atomic::AtomicBool;
use std::thread::Threads;
use tw_table::{Seat, Table};
use tw_workers::{Gate, Leaving};

/// What all workers leave.
#[derive(Drop)]
pub(crate) struct Gathered<W> {
    pub(crate) workers: Vec<W>,
    pub(crate) seats: Vec<Seat>,
    pub(crate) cause: Option<EndCause>,
}

/// What these workers leave, once they all have left, in their order. The lists are empty, with room for all. The
/// cause is the first that one of them has: that a thread was refused only where one of theirs was.
pub(crate) fn join_all<W: Work + Drop, G: Gate, R: Threads + Wait>(
    rt: &R,
    table: &Table,
    gate: &G,
    refused: &AtomicBool,
    started: Vec<Started<W>>,
    workers: Vec<W>,
    seats: Vec<Seat>,
) -> Gathered<W>
    requires workers { (workers.items ≡ []) × (length started.items ≤ vec_capacity workers) }
    requires seats { (seats.items ≡ []) × (length started.items ≤ vec_capacity seats) }
    requires aside { AllByRecursion (MaySit W.share W.stop table.now) started.items }
    ensures left { (before : List ASeat) → AllZip (IsStarted W.share W.stop table.now) before started.items
        → HaveLeft W.share table.now before result.seats.items result.workers.items result.cause }
    ensures thread { AllByRecursion (λ one. was_refused one ≡ false) started.items → result.cause ≡ Some cause.NoThread → ⊥ }
{
    let mut workers = workers;
    let mut seats = seats;
    let mut cause = None;
    for one in started {
        let no_thread = was_refused(&one);
        let left = join(rt, table, gate, refused, one);
        cause = worse(cause, left.why, no_thread);
        workers.push_reserved(left.worker);
        seats.push_reserved(left.seat);
    }
    Gathered {
        workers,
        seats,
        cause,
    }
}

/// Whether a worker's thread was refused.
fn was_refused<W: Work>(one: &Started<W>) -> bool
    ensures { result ≡ was_refused one.now }
{
    matches!(one, Started::Here(_))
}

/// What a worker leaves, once it has left. One that waits for the others to leave takes its turns here.
fn join<W: Work, G: Gate, R: Threads + Wait>(
    rt: &R,
    table: &Table,
    gate: &G,
    refused: &AtomicBool,
    started: Started<W>,
) -> Left<W>
    requires { MaySit W.share W.stop table.now started }
    ensures { (before : ASeat) → IsStarted W.share W.stop table.now before started → IsLeft (W.share result.worker) table.now before result.seat result.why }
{
    match started {
        Started::Running(handle) => handle.join(rt),
        Started::Here(left) => left,
        Started::Aside { worker, seat } => run(rt, table, gate, refused, worker, seat),
    }
}

/// The cause of a run's end, of which a further worker tells why it left, and whether its thread was refused.
fn worse(known: Option<EndCause>, why: Leaving, no_thread: bool) -> Option<EndCause>
    ensures first { (c : ACause) → known ≡ Some c → result ≡ Some c }
    ensures memory { known ≡ None → (result ≡ Some cause.Memory) ↔ (why ≡ leaving.Memory) }
    ensures counter { known ≡ None → (result ≡ Some cause.CounterFull) ↔ (why ≡ leaving.CounterFull) }
    ensures thread { known ≡ None → (result ≡ Some cause.NoThread) ↔ ((why ≡ leaving.Halted) × (no_thread ≡ true)) }
    ensures lower { result ≡ Some cause.StopLower → known ≡ Some cause.StopLower }
    ensures full { result ≡ Some cause.CounterFull → (known ≡ Some cause.CounterFull) ⊎ (why ≡ leaving.CounterFull) }
    ensures refused { result ≡ Some cause.NoThread → (known ≡ Some cause.NoThread) ⊎ ((why ≡ leaving.Halted) × (no_thread ≡ true)) }
{
    if known.is_some() {
        return known;
    }
    match why {
        Leaving::Halted if no_thread => Some(EndCause::NoThread),
        Leaving::Settled | Leaving::Halted => None,
        Leaving::Memory => Some(EndCause::Memory),
        Leaving::CounterFull => Some(EndCause::CounterFull),
    }
}
