//! A worker meets the table.
ghost use Rattle.std.specs.Prelude.{ℕ, ◌≡◌, ◌++◌, ◌≤◌, ◌<◌, [], None, OnErr, Some, length, map, min, true};
ghost use Rattle.std.specs.List.{reduce};
ghost use Rattle.tw_exchange.specs.Board.{report_of};
ghost use Rattle.tw_model.specs.declared.memory.OrMemory.TheVariants as or_memory;
ghost use Rattle.tw_shard.specs.Shard.{IsSameShare, shard_core};
ghost use Rattle.tw_table.specs.Seats.{IsSameSeat, IsSeatOf, bound_at, exchange_of, halted_at, report_at, share_at, share_of, stop_at, taken_by, was_halted_at};
ghost use Rattle.tw_table.specs.Shares.{MayBeGiven, board_of, share};
ghost use Rattle.tw_workers.specs.declared.working.Leaving.TheVariants as leaving;
ghost use Rattle.tw_workers.specs.Meeting.{HasJustTaken, HasTold, IsAnswered, IsDealtTo, MayMeet};
ghost use Rattle.tw_workers.specs.Seated.{HasTurned};
ghost use Rattle.tw_workers.specs.Work.{IsAtWork, PreservesShare};

use crate::worker::Worker;
use crate::working::Leaving;
use std::sync::Wait;
use tw_shard::Shard;
use tw_table::{Hand, Held, OrMemory, Parcels, Seat, Table, VisitFault};

impl<'a> Worker<'a> {
    /// The worker deals what is unsent to the workers that it is for. Then it takes the exchange from the table,
    /// deposits that, reports the least time of what waits for its routers, is handed its mail and told the bound,
    /// and gives the exchange back, with its shard and hand as they are then. The seat is its own, at this table, and what it gave there last
    /// has been kept since. It has delivered its hand.
    ///
    /// It is answered nothing where it goes on, and `Settled` where the bound is the stop; `Halted` where the workers shall
    /// take no further turn; and `Memory` exactly where memory was refused for what it would deposit; then it has told all
    /// workers to take no further turn. Its visit is never refused as early, nor for a router without a worker.
    pub fn meet<R: Wait>(&mut self, rt: &R, table: &Table, seat: Seat) -> (Seat, Option<Leaving>)
        requires seat { IsSeatOf table.now seat }
        requires preserved { PreservesShare self.old.stop (share_at seat) self.old.share }
        requires stop { stop_at seat ≡ self.old.stop }
        requires delivered { self.old.share.mail ≡ [] }
        requires sorted { self.old.share.shard.outgoing ≡ [] }
        ensures turned { HasTurned table.now seat result.0 self.old self.new }
        ensures preserved { PreservesShare self.new.stop (share_at result.0) self.new.share }
        ensures done { (r : ℕ) → (shard_core 0 self.new.share.shard).done r ≡ (shard_core 0 self.old.share.shard).done r }
        ensures held { self.new.share.shard.held ≡ self.old.share.shard.held }
        ensures told { (result.1 ≡ Some leaving.Memory → ⊥) → HasTold (bound_at result.0) (report_at result.0) self.new.share }
        ensures was_halted { was_halted_at result.0 ≡ halted_at seat }
        ensures answer { IsAnswered (length self.old.share.unsent) (bound_at result.0) self.new.stop (halted_at result.0) result.1 }
    {
        // What is done before takes no time at the table.
        let dealt = table.deal(&mut self.parcels, &self.hand.out);
        let report = self.shard.report_time();
        let mut held = table.take(rt, seat);
        let leaving = visit(
            &mut held,
            &mut self.shard,
            &mut self.hand,
            &mut self.parcels,
            dealt,
            report,
            self.stop,
        );
        let seat = table.give(rt, held, &self.shard, &self.hand);
        (seat, leaving)
    }

    /// The worker tells all workers to take no further turn, and leaves its shard and hand as they are. The
    /// seat is its own, at this table, and what it gave there last has been kept since.
    pub fn leave<R: Wait>(&self, rt: &R, table: &Table, seat: Seat) -> Seat
        requires seat { IsSeatOf table.now seat }
        requires preserved { PreservesShare self.now.stop (share_at seat) self.now.share }
        requires stop { stop_at seat ≡ self.now.stop }
        ensures turned { HasTurned table.now seat result self.now self.now }
        ensures halts { halted_at result ≡ true }
        ensures was_halted { was_halted_at result ≡ halted_at seat }
    {
        let mut taken = table.take(rt, seat);
        halt_all(&mut taken);
        table.give(rt, taken, &self.shard, &self.hand)
    }
}

/// A worker with this shard and hand visits the exchange that it has just taken, where what is unsent is dealt to the
/// workers that it is for, and reports the least time of what waits for its routers or is held.
fn visit(
    held: &mut Held,
    shard: &mut Shard<'_>,
    hand: &mut Hand,
    parcels: &mut Parcels,
    dealt: Result<(), OrMemory<VisitFault>>,
    report: Option<u64>,
    stop: u64,
) -> Option<Leaving>
    requires taken { HasJustTaken stop held.old }
    requires ready { MayMeet stop (share_of held.old) (share shard.old hand.old) }
    requires dealt { IsDealtTo (exchange_of held.old) hand.old.out.items parcels.old dealt }
    requires report { report ≡ reduce min (map (λ e. e.time) (shard.old.pending ++ shard.old.kept ++ shard.old.held)) }
    ensures seat { IsSameSeat held.old held.new }
    ensures given { MayBeGiven (taken_by held.old) (share_of held.old) (exchange_of held.new) (share shard.new hand.new) }
    ensures work { IsAtWork stop (share shard.new hand.new) }
    ensures same { IsSameShare shard.old shard.new }
    ensures done { (r : ℕ) → (shard_core 0 shard.new).done r ≡ (shard_core 0 shard.old).done r }
    ensures held { shard.new.held ≡ shard.old.held }
    ensures rises { (taken_by held.old).bound ≤ (exchange_of held.new).bound }
    ensures told { (result ≡ Some leaving.Memory → ⊥) → HasTold (exchange_of held.new).bound
        (report_of (share_of held.old).shard.terms.worker (exchange_of held.new)) (share shard.new hand.new) }
    ensures answer { IsAnswered (length hand.old.out.items) (exchange_of held.new).bound stop (exchange_of held.new).halted result }
    ensures wanted { OnErr dealt (result ≡ Some leaving.Memory) }
{
    if let Err(why) = dealt {
        return refuse(held, why);
    }
    // The messages in it are delivered, and its memory goes round.
    hand.mail.clear();
    hand.next = 0;
    match held.visit_dealt(parcels, report, &mut hand.mail) {
        Ok(news) => {
            shard.raise_bound(news.bound);
            hand.out.clear();
            told(news.bound, news.halted, stop)
        }
        Err(why) => refuse(held, why),
    }
}

/// All workers are told to take no further turn, since memory was refused, which alone can refuse a visit.
fn refuse(held: &mut Held, why: OrMemory<VisitFault>) -> Option<Leaving>
    requires memory { why ≡ or_memory.Memory }
    ensures refused { result ≡ Some leaving.Memory }
    ensures same { IsSameSeat held.old held.new }
    ensures board { board_of (exchange_of held.new) ≡ board_of (exchange_of held.old) }
    ensures halts { (exchange_of held.new).halted ≡ true }
{
    match why {
        OrMemory::Memory => {
            halt_all(held);
            Some(Leaving::Memory)
        }
        OrMemory::Fault(_) => unreachable!(),
    }
}

/// All workers are told to take no further turn.
fn halt_all(held: &mut Held)
    ensures same { IsSameSeat held.old held.new }
    ensures board { board_of (exchange_of held.new) ≡ board_of (exchange_of held.old) }
    ensures halts { (exchange_of held.new).halted ≡ true }
{
    held.halt();
}

/// What a worker is told that knows this bound.
fn told(bound: u64, halted: bool, stop: u64) -> Option<Leaving>
    requires { bound ≤ stop }
    ensures not_refused { result ≡ Some leaving.Memory → ⊥ }
    ensures not_full { result ≡ Some leaving.CounterFull → ⊥ }
    ensures open { result ≡ None → bound < stop }
    ensures settled { result ≡ Some leaving.Settled → bound ≡ stop }
    ensures heard { result ≡ Some leaving.Halted → halted ≡ true }
    ensures obeys { halted ≡ true → result ≡ Some leaving.Halted }
{
    if halted {
        Some(Leaving::Halted)
    } else if bound == stop {
        Some(Leaving::Settled)
    } else {
        None
    }
}
