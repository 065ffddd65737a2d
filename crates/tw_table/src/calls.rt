//! What workers do at a table.
ghost use Rattle.std.specs.Prelude.{◌≡◌, ◌<◌, ◌≤◌, ◌↔◌, ℕ, Err, IfErr, IfOk, IsOk, IsTrue, OnErr, OnOk, false, true, List, [], ◌∷◌, drop, length, map, take, vec_len};
ghost use Rattle.std.specs.List.{AllByRecursion};
ghost use Rattle.crossbeam_queue.specs.Fifo.{Learns, Pushes};
ghost use Rattle.crossbeam_queue.specs.Passes.{IsPassOf, IsSamePass, ruled_capacity, view};
ghost use Rattle.tw_exchange.specs.Board.{AreDealt, Board, IsBoard, NoneDealt, any_homeless, report_of, workers};
ghost use Rattle.tw_exchange.specs.declared.visit.VisitFault.TheVariants.{Early, NoRouter, NoWorker};
ghost use Rattle.tw_model.specs.Case.{Case};
ghost use Rattle.tw_model.specs.declared.memory.OrMemory.TheVariants as or_memory;
ghost use Rattle.tw_table.specs.declared.rule.View.{View as AView};
ghost use Rattle.tw_table.specs.Seats.{IsHeldOf, IsSeatOf, bound_at, exchange_of, halted_at, halted_of, owners_on, report_at, share_at, share_of, stop_at, stop_of, stop_on, taken_by, was_halted_at, workers_at};
ghost use Rattle.tw_table.specs.Shares.{AreGoodTogether, IsRuled, MayBeGiven, Share as AShare, share, shares_of};
ghost use Rattle.tw_table.specs.Views.{Holds, IsMet, Knows, first_view, given, opened, took};

use crate::hand::Hand;
use crate::hints::Hints;
use crate::patience::Patience;
use crate::rule::{Deals, Joins, Laid, Queue, Takes, Ticket, View};
use crate::seat::{Held, Seat};
use crate::table::{Missing, Table};
use crossbeam_queue::protocol::{Lesson, Outcome};
use std::alloc::Global;
use std::marker::Brand;
use std::sync::Wait;
use tw_event::Event;
use tw_exchange::{Exchange, OrMemory, Parcels, VisitFault};
use tw_shard::Shard;
use tw_sim::Signed;

impl Table {
    /// A table with the exchange on it, and a seat for each of its workers, who have these shards and
    /// hands, in any order, in which the seats then are; there is one at least. With the exchange they keep
    /// the rule, as new ones do. For want of memory the exchange comes back. Of the other calls at the table none
    /// takes any but [`Table::deal`] and the visits.
    pub fn open<R: Wait>(
        rt: &R,
        alloc: Global,
        exchange: Exchange,
        shards: &[Shard<'_>],
        hands: &[Hand],
    ) -> Result<(Table, Vec<Seat>), Exchange>
        requires some { 0 < workers exchange }
        requires ruled { (case : Case) × IsRuled case exchange (shares_of shards.now hands.now) }
        ensures workers { IfOk result (λ r. workers_at r.0 ≡ workers exchange) }
        ensures owners { IfOk result (λ r. owners_on r.0 ≡ exchange.owners) }
        ensures stop { IfOk result (λ r. stop_on r.0 ≡ exchange.stop) }
        ensures seats { IfOk result (λ r. AllByRecursion (IsSeatOf r.0) r.1.items) }
        ensures shares { IfOk result (λ r. map share_at r.1.items ≡ shares_of shards.now hands.now) }
        ensures bounds { IfOk result (λ r. AllByRecursion (λ s. bound_at s ≡ exchange.bound) r.1.items) }
        ensures stops { IfOk result (λ r. AllByRecursion (λ s. stop_at s ≡ exchange.stop) r.1.items) }
        ensures halted { IfOk result (λ r. AllByRecursion (λ s. halted_at s ≡ exchange.halted) r.1.items) }
        ensures back { IfErr result (λ x. x ≡ exchange) }
    {
        let workers = exchange.workers();
        let Ok(mut seats) = Vec::with_capacity(alloc, workers as usize) else {
            return Err(exchange);
        };
        let Ok((queue, mut pass)) = Queue::ruled(alloc, 1) else {
            return Err(exchange);
        };
        let Ok(owners) = exchange.owners() else {
            return Err(exchange);
        };
        let bound = exchange.bound();
        let stop = exchange.stop();
        let halted = exchange.is_halted();
        let exchange = match Box::new(alloc, exchange) {
            Ok(exchange) => exchange,
            Err(refused) => return Err(refused.value),
        };
        lay::<Brand, R>(rt, &queue, &mut pass, Laid { exchange }, shards, hands);
        for shard in &shards[..workers as usize] {
            let seat = deal(&queue, &mut pass, shard.worker(), bound, halted);
            seats.push_reserved(seat);
        }
        let table = Table {
            queue,
            workers,
            owners,
            hints: Hints::new(),
            stop,
        };
        Ok((table, seats))
    }

    /// Takes the exchange, once it is on the table. The seat is one of this table.
    ///
    /// The exchange keeps the rule with what the seat's worker gave last and with what some others gave,
    /// and its bound is not below the one that this seat saw last. Where all workers were told to take no further
    /// turn when this seat's worker gave it back last, they still are.
    pub fn take<R: Wait>(&self, rt: &R, seat: Seat) -> Held
        requires seat { IsSeatOf self.now seat }
        ensures held { IsHeldOf self.now result }
        ensures share { share_of result ≡ share_at seat }
        ensures exchange { exchange_of result ≡ taken_by result }
        ensures met { IsMet (share_at seat ∷ []) (taken_by result) }
        ensures board { IsBoard (taken_by result) }
        ensures bound { bound_at seat ≤ (taken_by result).bound }
        ensures halted { halted_at seat ≡ true → (taken_by result).halted ≡ true }
        ensures workers { workers (taken_by result) ≡ workers_at self.now }
        ensures owners { (taken_by result).owners ≡ owners_on self.now }
        ensures stop { (taken_by result).stop ≡ stop_at seat }
        ensures knows { stop_of result ≡ stop_at seat }
        ensures left { halted_of result ≡ halted_at seat }
    {
        let Seat {
            worker,
            mut pass,
            ..
        } = seat;
        let Laid { exchange } = pop(rt, &self.queue, &mut pass);
        // What an exchange keeps is told by a read of it.
        let _ = exchange.bound();
        Held {
            exchange,
            worker,
            pass,
        }
    }

    /// Lays the exchange back on the table, and beside it the worker's shard and hand as they are now.
    ///
    /// Of the caller it is asked that this worker may leave them with the exchange, which says nothing of the
    /// other workers' shards, hands and reports.
    pub fn give<R: Wait>(&self, rt: &R, held: Held, shard: &Shard<'_>, hand: &Hand) -> Seat
        requires held { IsHeldOf self.now held }
        requires fair { MayBeGiven (taken_by held) (share_of held) (exchange_of held) (share shard.now hand.now) }
        ensures seat { IsSeatOf self.now result }
        ensures share { share_at result ≡ share shard.now hand.now }
        ensures bound { bound_at result ≡ (exchange_of held).bound }
        ensures halted { halted_at result ≡ (exchange_of held).halted }
        ensures was_halted { was_halted_at result ≡ halted_of held }
        ensures report { report_at result ≡ report_of (share_of held).shard.terms.worker (exchange_of held) }
        ensures stop { stop_at result ≡ stop_of held }
    {
        let Held {
            exchange,
            worker,
            mut pass,
        } = held;
        let bound = exchange.bound();
        let halted = exchange.is_halted();
        self.hints.tell(&exchange);
        push::<Brand, R>(rt, &self.queue, &mut pass, Laid { exchange }, shard, hand);
        Seat {
            worker,
            bound,
            halted,
            pass,
        }
    }

    /// Deals messages out to the workers, as the exchange says, which need not be taken for it: while the table is
    /// open no router goes to another worker. What was dealt before goes.
    ///
    /// It is refused as `NoRouter` where a message is for a router that no worker has. After that, and for want of
    /// memory, nothing is dealt. With no messages it takes no memory.
    pub fn deal(
        &self,
        parcels: &mut Parcels,
        messages: &[Signed<Event>],
    ) -> Result<(), OrMemory<VisitFault>>
        ensures dealt { OnOk result (AreDealt (owners_on self.now) (workers_at self.now) messages.now parcels.new) }
        ensures no_router { result ≡ Err (or_memory.Fault NoRouter) ↔ IsTrue (any_homeless (owners_on self.now) (workers_at self.now) messages.now) }
        ensures no_worker { result ≡ Err (or_memory.Fault NoWorker) → ⊥ }
        ensures early { result ≡ Err (or_memory.Fault Early) → ⊥ }
        ensures none { OnErr result (NoneDealt parcels.new) }
        ensures wanted { OnErr result (0 < length messages.now) }
    {
        parcels.deal(&self.owners, self.workers, messages)
    }

    /// Whether the exchange may have something for a worker: a bound beyond this one, in ticks, or mail, where its
    /// bound is `mail_bound` at least. It is told beside the exchange, and no promise rests on it.
    pub fn is_news_for(&self, worker: u32, bound: u64, mail_bound: u64) -> bool {
        self.hints.is_news_for(worker, bound, mail_bound)
    }

    /// Takes the exchange off the table for good, where all its seats are handed in: it and what the
    /// workers gave last are, put together, a good state of the machine. Its stop is the one that each seat
    /// knows, and its bound is not below the one that any of them saw last. It is halted where any of them left it
    /// so. Else both come back.
    pub fn close<R: Wait>(rt: &R, table: Table, seats: Vec<Seat>) -> Result<Exchange, Missing>
        requires seats { AllByRecursion (IsSeatOf table) seats.items }
        ensures all { IsOk result ↔ (vec_len seats ≡ workers_at table) }
        ensures whole { IfOk result (λ x. AreGoodTogether x (map share_at seats.items)) }
        ensures stop { IfOk result (λ x. AllByRecursion (λ s. stop_at s ≡ x.stop) seats.items) }
        ensures bound { IfOk result (λ x. AllByRecursion (λ s. bound_at s ≤ x.bound) seats.items) }
        ensures halted { IfOk result (λ x. AllByRecursion (λ s. halted_at s ≡ true → x.halted ≡ true) seats.items) }
        ensures back { IfErr result (λ m. (m.table ≡ table) × (m.seats ≡ seats)) }
    {
        if seats.len() != table.workers as usize {
            return Err(Missing { table, seats });
        }
        let mut pass = join_all(&table, seats);
        let Laid { exchange } = pop(rt, &table.queue, &mut pass);
        Ok(Box::into_inner(exchange))
    }
}

/// Waits until the exchange is in the queue, and takes it out.
fn pop<R: Wait>(rt: &R, queue: &Queue, pass: &mut Ticket) -> Laid
    requires queue { IsPassOf queue.now pass.old }
    requires begun { (view pass.old).opening ≡ false }
    requires empty { (view pass.old).held ≡ [] }
    ensures queue { IsSamePass pass.old pass.new }
    ensures view { view pass.new ≡ took (view pass.old) result }
    ensures met { IsMet (view pass.old).shares result }
    ensures knows { Knows result (view pass.old) }
{
    let mut patience = Patience::new();
    for _ in rt.forever() {
        if let Some(exchange) = queue.try_pop_as::<Takes>(pass) {
            return exchange;
        }
        patience.wait();
    }
    unreachable!()
}

/// Puts the exchange into the queue, which is empty, and leaves a worker's share.
fn push<M: Outcome<Laid, View> + Lesson<Laid, View>, R: Wait>(
    rt: &R,
    queue: &Queue,
    pass: &mut Ticket,
    exchange: Laid,
    shard: &Shard<'_>,
    hand: &Hand,
)
    requires queue { IsPassOf queue.now pass.old × (ruled_capacity queue.now ≡ 1) }
    requires keeps { Pushes Holds 1 pass.old.id (view pass.old) exchange (M.then (view pass.old) exchange) }
    requires learns { Learns Holds pass.old.id (view pass.old) (M.fact (view pass.old)) }
    requires means { (v : AView) (x : Board) (w : AView) → M.then v x w → w ≡ given (share shard.now hand.now) v x }
    requires empty { (v : AView) (items : List Board) → M.fact v items → items ≡ [] }
    ensures queue { IsSamePass pass.old pass.new }
    ensures view { view pass.new ≡ given (share shard.now hand.now) (view pass.old) exchange }
{
    if queue.push_as::<M, R>(rt, pass, exchange).is_err() {
        unreachable!()
    }
}

/// Puts the exchange into the queue for the first time, and leaves the shares of all workers.
fn lay<M: Outcome<Laid, View> + Lesson<Laid, View>, R: Wait>(
    rt: &R,
    queue: &Queue,
    pass: &mut Ticket,
    exchange: Laid,
    shards: &[Shard<'_>],
    hands: &[Hand],
)
    requires queue { IsPassOf queue.now pass.old × (ruled_capacity queue.now ≡ 1) }
    requires keeps { Pushes Holds 1 pass.old.id (view pass.old) exchange (M.then (view pass.old) exchange) }
    requires learns { Learns Holds pass.old.id (view pass.old) (M.fact (view pass.old)) }
    requires means { (v : AView) (x : Board) (w : AView) → M.then v x w → w ≡ opened (shares_of shards.now hands.now) x }
    requires empty { (v : AView) (items : List Board) → M.fact v items → items ≡ [] }
    ensures queue { IsSamePass pass.old pass.new }
    ensures view { view pass.new ≡ opened (shares_of shards.now hands.now) exchange }
{
    if queue.push_as::<M, R>(rt, pass, exchange).is_err() {
        unreachable!()
    }
}

/// The seat of the first worker that a pass still stands for; the pass then stands for the others.
fn deal(queue: &Queue, pass: &mut Ticket, worker: u32, bound: u64, halted: bool) -> Seat
    requires queue { IsPassOf queue.now pass.old }
    requires begun { (view pass.old).opening ≡ false }
    requires first { map (λ s. s.shard.terms.worker) (take 1 (view pass.old).shares) ≡ worker ∷ [] }
    requires seen { (view pass.old).seen ≡ bound }
    requires left { (view pass.old).halted ≡ halted }
    requires empty { (view pass.old).held ≡ [] }
    ensures queue { IsSamePass pass.old pass.new × IsPassOf queue.now result.pass }
    ensures others { view pass.new ≡ record (view pass.old) { shares = drop 1 (view pass.old).shares } }
    ensures first { view result.pass ≡ record (view pass.old) { shares = take 1 (view pass.old).shares; held = [] } }
    ensures bound { result.bound ≡ bound }
    ensures halted { result.halted ≡ halted }
{
    let pass = queue.another::<Deals>(pass);
    Seat {
        worker,
        bound,
        halted,
        pass,
    }
}

/// One pass that stands for the workers of all seats, of which there is one at least.
fn join_all(table: &Table, seats: Vec<Seat>) -> Ticket
    requires some { 0 < vec_len seats }
    requires seats { AllByRecursion (IsSeatOf table.now) seats.items }
    ensures queue { IsPassOf table.now.queue result }
    ensures workers { (view result).workers ≡ table.now.workers }
    ensures begun { (view result).opening ≡ false }
    ensures empty { (view result).held ≡ [] }
    ensures shares { (view result).shares ≡ map share_at seats.items }
    ensures stop { (view result).stop ≡ table.now.stop }
    ensures seen { AllByRecursion (λ s. bound_at s ≤ (view result).seen) seats.items }
    ensures halted { AllByRecursion (λ s. halted_at s ≡ true → (view result).halted ≡ true) seats.items }
{
    let mut seats = seats.into_iter();
    let Some(first) = seats.next() else {
        unreachable!()
    };
    let Seat { mut pass, .. } = first;
    for seat in seats {
        table.queue.absorb::<Joins>(&mut pass, seat.pass);
    }
    pass
}
