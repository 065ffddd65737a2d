//! Routers move between the workers of a parallel run.
ghost use Rattle.std.specs.Prelude.{◌≡◌, ◌↔◌, ◌<◌, ◌≤◌, ◌+◌, ℕ, false, true, IsErrOf, OnErr, OnOk, Some, length, nat_lt, slice_get, slice_index_or, if◌then◌else◌, ◌==◌, vec_capacity, vec_len};
ghost use Rattle.std.specs.List.{list_all};
ghost use Rattle.tw_core.specs.Machine.{IsSameMachine};
ghost use Rattle.tw_exchange.specs.Board.{IsListed, who, workers};
ghost use Rattle.tw_model.specs.Case.{simulation};
ghost use Rattle.tw_model.specs.declared.memory.OrMemory.TheVariants as or_memory;
ghost use Rattle.tw_parallel.specs.Moving.{AreEnds, AreLike, AreListed, AreOldOrNamed, HasHanded, HasMovedBetween, HasPassed, HasRoomFor, IsHanded, IsRearranged, MayPass, are_owners, fit, unfit_owners};
ghost use Rattle.tw_parallel.specs.Sim.{GoesOn, IsSim, machine};
ghost use Rattle.tw_shard.specs.Moving.{HasMovedIn, HasMovedOut};
ghost use Rattle.tw_shard.specs.Shard.{owns};
ghost use Rattle.tw_table.specs.declared.hand.Hand.{Hand as AHand};
ghost use Rattle.tw_table.specs.Moving.{moved_board};
ghost use Rattle.tw_table.specs.Shares.{shares_of};

use crate::sim::Sim;
use std::alloc::AllocError;
use std::mem;
use thiserror::Error;
use tw_exchange::Exchange;
use tw_model::OrMemory;
use tw_shard::Shard;
use tw_table::Hand;

/// A list of owners that does not fit a run: it has not one for each router, or names a worker that there is
/// not.
#[derive(Clone, Copy, PartialEq, Eq, Debug, Error)]
#[error("the owners are not one of the workers for each router")]
pub struct UnfitOwners;

impl<'a> Sim<'a> {
    /// Each router goes to the worker that the list names for it, from router 0 on, with all that is its own:
    /// its state, its history with the records, its room, what waits for it and what is held that it has sent,
    /// and the messages for it in hands and in the exchange.
    ///
    /// It is refused where the list has not one of the workers for each router; then nothing has changed. For
    /// want of memory some routers stand moved, each whole and to the worker that is named for it. After every answer the machine of all routers is
    /// the same but for the order of its lists.
    pub fn move_to(&mut self, owners: &[u32]) -> Result<(), OrMemory<UnfitOwners>>
        ensures owners { OnOk result ((r : ℕ) → r < self.old.case.net.nodes → slice_get owners.now r ≡ Some (who self.new.board r)) }
        ensures each { AreOldOrNamed owners.now self.old self.new }
        ensures refused { IsErrOf result (or_memory.Fault unfit_owners) ↔ (are_owners self.old owners.now ≡ false) }
        ensures unchanged { IsErrOf result (or_memory.Fault unfit_owners) → self.new ≡ self.old }
        ensures same { IsSameMachine (simulation self.old.case) (machine self.old) (machine self.new) }
        ensures goes_on { GoesOn self.old self.new }
        ensures stop { self.new.board.stop ≡ self.old.board.stop }
        ensures sim { IsSim self.new }
    {
        if !self.are_owners(owners) {
            return Err(OrMemory::Fault(UnfitOwners));
        }
        self.exchange.list_owners(self.case.instance().nodes())?;
        self.move_each(owners)?;
        Ok(())
    }

    /// Whether a list has one of the workers for each router.
    fn are_owners(&self, owners: &[u32]) -> bool
        ensures { result ≡ are_owners self.now owners.now }
    {
        are_fit(
            self.case.instance().nodes(),
            self.exchange.workers(),
            owners,
        )
    }

    /// Each router goes to its worker of the list, from router 0 on.
    fn move_each(&mut self, owners: &[u32]) -> Result<(), AllocError>
        requires fit { are_owners self.old owners.now ≡ true }
        requires listed { AreListed self.old }
        ensures owners { OnOk result ((r : ℕ) → r < self.old.case.net.nodes → slice_get owners.now r ≡ Some (who self.new.board r)) }
        ensures each { AreOldOrNamed owners.now self.old self.new }
        ensures rearranged { IsRearranged self.old self.new }
        ensures sim { IsSim self.new }
    {
        for router in 0..self.case.instance().nodes() {
            self.move_router(router, owners[router as usize])?;
        }
        Ok(())
    }

    /// A router goes to a worker, if it is not that worker's.
    fn move_router(&mut self, router: u32, worker: u32) -> Result<(), AllocError>
        requires known { router < self.old.case.net.nodes }
        requires there { worker < workers self.old.board }
        requires listed { AreListed self.old }
        ensures moved { OnOk result (who self.new.board router ≡ worker) }
        ensures stays { OnErr result (who self.new.board router ≡ who self.old.board router) }
        ensures others { (r : ℕ) → (r ≡ router → ⊥) → who self.new.board r ≡ who self.old.board r }
        ensures listed { AreListed self.new }
        ensures rearranged { IsRearranged self.old self.new }
        ensures sim { IsSim self.new }
    {
        match self.exchange.owner(router) {
            Some(from) if from != worker => hand_over(
                &mut self.exchange,
                &mut self.shards,
                &mut self.hands,
                router,
                from,
                worker,
            ),
            _ => Ok(()),
        }
    }
}

/// Whether a list has one of so many workers for each of so many routers.
pub(crate) fn are_fit(nodes: u32, workers: u32, owners: &[u32]) -> bool
    ensures { result ≡ fit nodes workers owners.now }
{
    owners.len() == nodes as usize && are_below(owners, workers)
}

/// Whether all of these numbers are below one.
fn are_below(numbers: &[u32], end: u32) -> bool
    ensures { result ≡ list_all (λ n. nat_lt n end) numbers.now }
{
    numbers.iter().all(|number| *number < end)
}

/// A router goes from one worker to another, with its messages in the hand and in the exchange. For want of
/// memory it stays where it is.
fn hand_over<'a>(
    exchange: &mut Exchange,
    shards: &mut Vec<Shard<'a>>,
    hands: &mut [Hand],
    router: u32,
    from: u32,
    to: u32,
) -> Result<(), AllocError>
    requires hands { length hands.old ≡ vec_len shards.old }
    requires workers { vec_len shards.old ≡ workers exchange.old }
    requires ends { AreEnds from to (vec_len shards.old) }
    requires listed { IsListed router exchange.old }
    requires owner { who exchange.old router ≡ from }
    requires fit { MayPass router from to shards.old.items }
    ensures board { OnOk result (exchange.new ≡ moved_board router to exchange.old) }
    ensures moved { OnOk result (HasMovedBetween router from to exchange.old (shares_of shards.old.items hands.old) (shares_of shards.new.items hands.new)) }
    ensures err_board { OnErr result (exchange.new ≡ exchange.old) }
    ensures err_shares { OnErr result (shares_of shards.new.items hands.new ≡ shares_of shards.old.items hands.old) }
    ensures shards { vec_len shards.new ≡ vec_len shards.old }
    ensures hands { length hands.new ≡ length hands.old }
{
    let source = from as usize;
    let target = to as usize;
    let waiting = exchange.mail(from).len();
    reserve_mail(hands, source, target, waiting)?;
    hand_over_router(shards, router, source, target)?;
    hand_over_mail(hands, router, source, target);
    exchange.take_for(router, &mut hands[target].mail).unwrap();
    exchange.set_owner(router, to);
    Ok(())
}

/// Makes room in one hand for all mail of another, and for so many messages more.
fn reserve_mail(hands: &mut [Hand], from: usize, to: usize, more: usize) -> Result<(), AllocError>
    requires ends { AreEnds from to (length hands.old) }
    ensures room { (d : AHand) → OnOk result (vec_len (slice_index_or hands.new to d).mail + vec_len (slice_index_or hands.new from d).mail + more
        ≤ vec_capacity (slice_index_or hands.new to d).mail) }
    ensures mail { (k : ℕ) (d : AHand) → (slice_index_or hands.new k d).mail.items ≡ (slice_index_or hands.old k d).mail.items }
    ensures next { (k : ℕ) (d : AHand) → (slice_index_or hands.new k d).next ≡ (slice_index_or hands.old k d).next }
    ensures out { (k : ℕ) (d : AHand) → (slice_index_or hands.new k d).out ≡ (slice_index_or hands.old k d).out }
    ensures count { length hands.new ≡ length hands.old }
{
    let Some(messages) = hands[from].mail.len().checked_add(more) else {
        return Err(AllocError);
    };
    hands[to].mail.reserve(messages)
}

/// A router goes from the shard at one place to that at another.
fn hand_over_router<'a>(
    shards: &mut Vec<Shard<'a>>,
    router: u32,
    from: usize,
    to: usize,
) -> Result<(), AllocError>
    requires ends { AreEnds from to (vec_len shards.old) }
    requires fit { MayPass router from to shards.old.items }
    ensures passed { OnOk result (HasPassed router from to shards.old.items shards.new.items) }
    ensures err { OnErr result (shards.new.items ≡ shards.old.items) }
    ensures count { vec_len shards.new ≡ vec_len shards.old }
{
    // The shard stands outside the list for as long as it hands over, and the last one at its place.
    let last = shards.len() - 1;
    let mut source = shards.swap_remove(from);
    let target = place_without(from, to, last);
    let handed = pass(&mut source, &mut shards[target], router);
    shards.push_reserved(source);
    shards.swap(from, last);
    handed
}

/// Where an item stands once another one is taken out, at whose place the last one then stands.
fn place_without(out: usize, place: usize, last: usize) -> usize
    ensures { result ≡ (if place == last then out else place) }
{
    if place == last { out } else { place }
}

/// A router that one shard has, and another does not have, goes to it.
fn pass<'a>(from: &mut Shard<'a>, to: &mut Shard<'a>, router: u32) -> Result<(), AllocError>
    requires like { AreLike from.old to.old }
    requires own { owns from.old router ≡ true }
    requires new { owns to.old router ≡ false }
    ensures left { OnOk result (HasMovedOut router from.old from.new) }
    ensures came { OnOk result (HasMovedIn router from.old to.old to.new) }
    ensures err { OnErr result (from.new ≡ from.old) }
    ensures none_came { OnErr result (to.new ≡ to.old) }
{
    match from.hand_over(router, to) {
        Ok(()) => Ok(()),
        Err(OrMemory::Memory) => Err(AllocError),
        Err(OrMemory::Fault(_)) => unreachable!(),
    }
}

/// The mail for a router that is not delivered goes from one hand to another, which has room for it.
fn hand_over_mail(hands: &mut [Hand], router: u32, from: usize, to: usize)
    requires ends { AreEnds from to (length hands.old) }
    requires room { (d : AHand) → HasRoomFor (slice_index_or hands.old from d) (slice_index_or hands.old to d) }
    ensures { (d : AHand) → HasHanded router from to hands.old hands.new d }
{
    let none = Hand::new(*hands[from].mail.allocator());
    let mut hand = mem::replace(&mut hands[from], none);
    pass_mail(&mut hand, &mut hands[to], router);
    hands[from] = hand;
}

/// The mail for a router goes to a hand that has room for it.
fn pass_mail(from: &mut Hand, to: &mut Hand, router: u32)
    requires { HasRoomFor from.old to.old }
    ensures { IsHanded router from.old to.old from.new to.new }
{
    from.hand_over(router, to).unwrap();
}
