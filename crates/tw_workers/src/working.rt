//! A worker takes turn after turn, until it may leave.
ghost use Rattle.std.specs.Prelude.{◌≡◌, [], IfSome, IsErrOf, None, OnOk, Some, false, true};
ghost use Rattle.tw_handlers.specs.Calls.{counter_full};
ghost use Rattle.tw_model.specs.declared.memory.OrMemory.TheVariants as or_memory;
ghost use Rattle.tw_table.specs.Seats.{bound_at, halted_at, was_halted_at};
ghost use Rattle.tw_workers.specs.declared.working.Leaving.TheVariants as leaving;
ghost use Rattle.tw_workers.specs.Seated.{HasTurned, IsSeated};
ghost use Rattle.tw_workers.specs.Work.{HasCommitted, IsAtWork, IsFull, StillPreserves};

use crate::gate::Gate;
use crate::worker::Worker;
use std::alloc::AllocError;
use std::sync::Wait;
use tw_handlers::CounterFull;
use tw_model::OrMemory;
use tw_table::{Seat, Table};

/// Why a worker takes no further turn.
#[derive(Clone, Copy, PartialEq, Eq, Debug)]
pub enum Leaving {
    /// The bound is the stop, its routers have committed all before it, and nothing is held for them.
    Settled,
    /// The workers were told to take no further turn.
    Halted,
    /// Memory was refused.
    Memory,
    /// A counter of one of its routers would pass its limit.
    CounterFull,
}

impl<'a> Worker<'a> {
    /// The worker takes turns, until the bound is the stop and it has committed all before it, or until it
    /// can't go on, or another worker can't. In a turn it delivers its hand and handles events, and then
    /// meets the table, where it gives its shard and hand. The seat is its own, at this table, with its
    /// shard and hand as they are.
    ///
    /// Where it can't go on, it tells all workers to take no further turn, and gives its shard and hand as
    /// they are then. Where it was told so itself, it takes none.
    pub fn work<G: Gate, R: Wait>(
        &mut self,
        rt: &R,
        table: &Table,
        gate: &G,
        seat: Seat,
    ) -> (Seat, Leaving)
        requires seated { IsSeated table.now seat self.old.share self.old.stop }
        ensures turned { HasTurned table.now seat result.0 self.old self.new }
        ensures settled { result.1 ≡ leaving.Settled → bound_at result.0 ≡ self.new.stop }
        ensures committed { result.1 ≡ leaving.Settled → HasCommitted self.new }
        ensures released { result.1 ≡ leaving.Settled → self.new.share.shard.held ≡ [] }
        ensures halts { (result.1 ≡ leaving.Settled → ⊥) → halted_at result.0 ≡ true }
        ensures open { result.1 ≡ leaving.Settled → halted_at result.0 ≡ false }
        ensures last { halted_at seat ≡ false → was_halted_at result.0 ≡ false }
        ensures obeys { halted_at seat ≡ true → (result.0 ≡ seat) × (result.1 ≡ leaving.Halted) × (self.new ≡ self.old) }
        ensures full { result.1 ≡ leaving.CounterFull → IsFull self.new.stop self.new.share.shard }
    {
        if seat.is_halted() {
            return (seat, Leaving::Halted);
        }
        let mut seat = seat;
        let mut turn: u64 = 0;
        for _ in rt.forever() {
            turn = turn.saturating_add(1);
            let known = self.shard.bound();
            let (next, leaving) = self.take_turn(rt, table, gate, seat, turn);
            if let Some(leaving) = leaving {
                return (next, leaving);
            }
            seat = next;
            let naps = self.rest(rt, table, gate, known);
            self.pace.begin_turn(naps);
        }
        unreachable!()
    }

    /// The worker, who was not told to take no further turn, takes one, and is told whether it leaves.
    fn take_turn<G: Gate, R: Wait>(
        &mut self,
        rt: &R,
        table: &Table,
        gate: &G,
        seat: Seat,
        turn: u64,
    ) -> (Seat, Option<Leaving>)
        requires seated { IsSeated table.now seat self.old.share self.old.stop }
        requires open { halted_at seat ≡ false }
        ensures turned { HasTurned table.now seat result.0 self.old self.new }
        ensures settled { result.1 ≡ Some leaving.Settled → bound_at result.0 ≡ self.new.stop }
        ensures committed { result.1 ≡ Some leaving.Settled → HasCommitted self.new }
        ensures released { result.1 ≡ Some leaving.Settled → self.new.share.shard.held ≡ [] }
        ensures halts { IfSome result.1 (λ why. (why ≡ leaving.Settled → ⊥) → halted_at result.0 ≡ true) }
        ensures goes_on { result.1 ≡ None → halted_at result.0 ≡ false }
        ensures last { was_halted_at result.0 ≡ false }
        ensures open { result.1 ≡ Some leaving.Settled → halted_at result.0 ≡ false }
        ensures full { result.1 ≡ Some leaving.CounterFull → IsFull self.new.stop self.new.share.shard }
    {
        match self.prepare(rt, gate, seat.worker(), turn) {
            Ok(()) => {}
            Err(OrMemory::Memory) => return (self.leave(rt, table, seat), Some(Leaving::Memory)),
            Err(OrMemory::Fault(_)) => {
                return (self.leave(rt, table, seat), Some(Leaving::CounterFull));
            }
        }
        let work = self.pace.turn();
        gate.worked(seat.worker(), work.handled, work.undone);
        // A bound that is first told at this meeting leaves events that are not committed yet; and what is held
        // is taken back in the next turn.
        let last = self.shard.bound() == self.stop && self.shard.held_len() == 0;
        gate.enter(rt, seat.worker(), turn);
        let (seat, leaving) = self.meet(rt, table, seat);
        gate.turned(&seat, turn);
        match leaving {
            Some(Leaving::Settled) if !last => (seat, None),
            _ => (seat, leaving),
        }
    }

    /// The worker does all that it does in a turn before it takes the exchange. Where it can't, it is told
    /// why.
    fn prepare<G: Gate, R: Wait>(
        &mut self,
        rt: &R,
        gate: &G,
        worker: u32,
        turn: u64,
    ) -> Result<(), OrMemory<CounterFull>>
        ensures preserved { StillPreserves self.old self.new }
        ensures mail { OnOk result (self.new.share.mail ≡ []) }
        ensures sorted { OnOk result (self.new.share.shard.outgoing ≡ []) }
        ensures stop { self.new.stop ≡ self.old.stop }
        ensures work { IsAtWork self.old.stop self.old.share }
        ensures committed { OnOk result (self.new.share.shard.bound ≡ self.new.stop → HasCommitted self.new) }
        ensures full { IsErrOf result (or_memory.Fault counter_full) → IsFull self.new.stop self.new.share.shard }
    {
        // What a worker keeps is told by a read of it.
        let _ = &self.shard;
        self.deliver()?;
        gate.handling(rt, worker, turn);
        self.handle_some()?;
        self.commit_where_due()?;
        Ok(())
    }

    /// It commits where it knows that the bound is the stop, and now and then before.
    fn commit_where_due(&mut self) -> Result<(), AllocError>
        ensures preserved { StillPreserves self.old self.new }
        ensures mail { self.new.share.mail ≡ self.old.share.mail }
        ensures sorted { self.new.share.shard.outgoing ≡ self.old.share.shard.outgoing }
        ensures stop { self.new.stop ≡ self.old.stop }
        ensures committed { OnOk result (self.new.share.shard.bound ≡ self.new.stop → HasCommitted self.new) }
    {
        if !self.pace.is_commit_due(self.shard.bound(), self.stop) {
            return Ok(());
        }
        self.commit()?;
        self.pace.count_commit();
        Ok(())
    }
}
