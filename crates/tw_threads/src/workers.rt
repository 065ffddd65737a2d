//! The workers of a run are such as threads run.

use crate::work::Work;
use std::sync::Wait;
use tw_table::{Seat, Table};
use tw_workers::{Gate, Leaving, Worker};

impl<'a> Work for Worker<'a> {
    ghost share = { λ w. w.share };

    ghost stop = { λ w. w.stop };

    fn work<G: Gate, R: Wait>(
        &mut self,
        rt: &R,
        table: &Table,
        gate: &G,
        seat: Seat,
    ) -> (Seat, Leaving) {
        Worker::work(self, rt, table, gate, seat)
    }

    fn step_aside<R: Wait>(&mut self, rt: &R, table: &Table, seat: Seat) -> (Seat, bool) {
        Worker::step_aside(self, rt, table, seat)
    }

    fn leave<R: Wait>(&self, rt: &R, table: &Table, seat: Seat) -> Seat {
        // What a worker keeps is told by a read of it.
        let _ = self.shard();
        Worker::leave(self, rt, table, seat)
    }
}
