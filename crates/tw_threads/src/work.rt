//! What a thread knows of a worker.
ghost use Rattle.std.specs.Prelude.{◌≡◌, ◌↔◌, ℕ, false, true};
ghost use Rattle.tw_table.specs.Seats.{halted_at, share_at, stop_at};
ghost use Rattle.tw_table.specs.Shares.{Share};
ghost use Rattle.tw_threads.specs.Left.{IsLaterSeat};
ghost use Rattle.tw_workers.specs.Seated.{IsSeated};
ghost use Rattle.tw_workers.specs.Work.{IsFull, IsIdle};
ghost use Rattle.tw_workers.specs.declared.working.Leaving.TheVariants.{CounterFull, Halted, Settled};

use std::sync::Wait;
use tw_table::{Seat, Table};
use tw_workers::{Gate, Leaving};

/// A worker, as a thread knows it.
pub trait Work {
    ghost share: { Self → Share };

    ghost stop: { Self → ℕ };

    /// It takes turns until it may take no further one, and it is answered why: none where all workers were
    /// told before to take none. The seat is its own, at this table, and what it gave there last it still has.
    fn work<G: Gate, R: Wait>(
        &mut self,
        rt: &R,
        table: &Table,
        gate: &G,
        seat: Seat,
    ) -> (Seat, Leaving)
        requires { IsSeated table.now seat (share self.old) (stop self.old) }
        ensures left { IsLaterSeat table.now seat result.0 }
        ensures share { share_at result.0 ≡ share self.new }
        ensures halts { (result.1 ≡ Settled → ⊥) → halted_at result.0 ≡ true }
        ensures open { result.1 ≡ Settled → halted_at result.0 ≡ false }
        ensures obeys { halted_at seat ≡ true → (result.0 ≡ seat) × (result.1 ≡ Halted) }
        ensures full { result.1 ≡ CounterFull → IsFull (stop_at result.0) (share_at result.0).shard };

    /// Where it has nothing to do before the others have left, it tells so at the table, and true is answered. Else
    /// nothing changes. The seat is its own, at this table, and what it gave there last it still has.
    fn step_aside<R: Wait>(&mut self, rt: &R, table: &Table, seat: Seat) -> (Seat, bool)
        requires { IsSeated table.now seat (share self.old) (stop self.old) }
        ensures left { IsLaterSeat table.now seat result.0 }
        ensures seated { IsSeated table.now result.0 (share self.new) (stop self.new) }
        ensures aside { (result.1 ≡ true) ↔ IsIdle (share self.old) }
        ensures stays { result.1 ≡ false → (result.0 ≡ seat) × (self.new ≡ self.old) };

    /// It takes no turn, and tells all workers to take no further one. The seat is its own, at this table, and
    /// what it gave there last it still has.
    fn leave<R: Wait>(&self, rt: &R, table: &Table, seat: Seat) -> Seat
        requires { IsSeated table.now seat (share self.now) (stop self.now) }
        ensures left { IsLaterSeat table.now seat result }
        ensures share { share_at result ≡ share self.now }
        ensures halts { halted_at result ≡ true };
}
