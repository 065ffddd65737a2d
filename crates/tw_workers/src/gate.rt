//! What is told of each turn of a worker, and may hold it.

use std::sync::Wait;
use tw_shard::Tally;
use tw_table::Seat;

/// What is told of the turns of each worker, and may hold a worker between them. Turns are numbered from 1.
/// A worker that has no router and no message takes its turns once the others have left, so that none is to be held
/// for it. No promise rests on it.
pub trait Gate {
    /// The worker is about to handle events, and doesn't have the exchange. It goes on when this returns.
    fn handling<R: Wait>(&self, rt: &R, worker: u32, turn: u64);

    /// Since its last meeting the worker has handled so many events, and undone about so many, which may be
    /// handled once more.
    fn worked(&self, _worker: u32, _handled: u64, _undone: u64) {}

    /// What a clock shows, in microseconds, where there is one. It may stand still or go back: a worker that has nothing
    /// to do looks by it how long it has waited, before it sleeps.
    fn micros(&self) -> Option<u64> {
        None
    }

    /// The worker has nothing to do, and is about to wait.
    fn waiting(&self, _worker: u32) {}

    /// The worker has waited for something to do, and has slept so often meanwhile: for some 20 microseconds each time,
    /// and longer where other work has its processor.
    fn waited(&self, _worker: u32, _naps: u32) {}

    /// The worker is about to take the exchange. It goes on when this returns.
    fn enter<R: Wait>(&self, rt: &R, worker: u32, turn: u64);

    /// The worker has given the exchange back, and has this seat.
    fn turned(&self, seat: &Seat, turn: u64);

    /// The worker has left the table, and takes no further turn there. Since it sat down it has handled so many events.
    /// What its routers have undone, and what came of that, is counted since it left the table before, or from the
    /// beginning of the run.
    fn left(&self, _worker: u32, _handled: u64, _tally: &Tally) {}
}

/// A gate that never holds a worker.
#[derive(Clone, Copy, Debug)]
pub struct OpenGate;

impl Gate for OpenGate {
    fn handling<R: Wait>(&self, _rt: &R, _worker: u32, _turn: u64) {}

    fn enter<R: Wait>(&self, _rt: &R, _worker: u32, _turn: u64) {}

    fn turned(&self, _seat: &Seat, _turn: u64) {}
}
