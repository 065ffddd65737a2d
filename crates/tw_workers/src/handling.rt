//! Events are handled, and what they send is sorted: what is for the worker's own routers comes to them
//! at once.
ghost use Rattle.std.specs.List.{list_all};
ghost use Rattle.std.specs.Prelude.{◌≡◌, ◌++◌, ◌≤◌, ◌+◌, [], not, true, IsErrOf, OnOk, filter, length, vec_capacity, vec_len};
ghost use Rattle.tw_handlers.specs.Calls.{counter_full};
ghost use Rattle.tw_model.specs.declared.memory.OrMemory.TheVariants as or_memory;
ghost use Rattle.tw_shard.specs.Shard.{owns};
ghost use Rattle.tw_workers.specs.Work.{AreAwaited, IsFull, StillPreserves};

use crate::worker::Worker;
use std::alloc::AllocError;
use tw_handlers::CounterFull;
use tw_model::OrMemory;
use tw_shard::{Refusal, Shard};
use tw_sim::Signed;
use tw_table::Hand;

impl<'a> Worker<'a> {
    /// Its routers handle their least pending events, one after the other, until as many are handled as
    /// it may handle between two meetings, or the next is at or past the stop or its window. What is in the
    /// hand is delivered before, and what is held and can't be sent again is taken back behind. What they send to
    /// one another comes at once; what is for others is unsent.
    ///
    /// An event that equals the one that its router handled last waits for its antimessage, and ends this.
    ///
    /// It is refused as `CounterFull` where a counter of a router would pass its limit. For that and for
    /// want of memory it is broken off, and what was done before stands.
    pub fn handle_some(&mut self) -> Result<(), OrMemory<CounterFull>>
        ensures preserved { StillPreserves self.old self.new }
        ensures empty { OnOk result (self.new.share.mail ≡ []) }
        ensures sorted { OnOk result (self.new.share.shard.outgoing ≡ []) }
        ensures full { IsErrOf result (or_memory.Fault counter_full) → IsFull self.new.stop self.new.share.shard }
        ensures stop { self.new.stop ≡ self.old.stop }
    {
        self.deliver()?;
        let limit = self.pace.limit(self.shard.bound(), self.stop);
        let at_window = self.handle_and_release(limit)?;
        self.receive_own()?;
        self.send_rest()?;
        self.pace.adapt(at_window);
        Ok(())
    }

    /// Its routers handle a batch of events that are before a time, and take back what is held and can't be sent
    /// again. It is answered whether the batch ended since none was left.
    fn handle_and_release(&mut self, limit: u64) -> Result<bool, OrMemory<CounterFull>>
        requires mail { self.old.share.mail ≡ [] }
        requires limit { limit ≤ self.old.stop }
        ensures preserved { StillPreserves self.old self.new }
        ensures empty { OnOk result (self.new.share.mail ≡ []) }
        ensures awaited { OnOk result (AreAwaited self.new.stop self.new.share.shard) }
        ensures full { IsErrOf result (or_memory.Fault counter_full) → IsFull self.new.stop self.new.share.shard }
        ensures stop { self.new.stop ≡ self.old.stop }
    {
        let at_window = self.handle_until(limit)?;
        self.release_where_due()?;
        Ok(at_window)
    }

    /// Its routers handle a batch of events that are before a time, and it is answered whether the batch
    /// ended since none was left. What they send to one another comes when the events of a tick are
    /// handled: messages take a tick at least.
    fn handle_until(&mut self, limit: u64) -> Result<bool, OrMemory<CounterFull>>
        requires mail { self.old.share.mail ≡ [] }
        requires limit { limit ≤ self.old.stop }
        ensures preserved { StillPreserves self.old self.new }
        ensures empty { OnOk result (self.new.share.mail ≡ []) }
        ensures full { IsErrOf result (or_memory.Fault counter_full) → IsFull self.new.stop self.new.share.shard }
        ensures stop { self.new.stop ≡ self.old.stop }
    {
        for _ in 0..self.pace.until_meeting(self.batch) {
            if self.handle_before(self.limit_now(limit))? {
                continue;
            }
            if self.shard.outgoing().is_empty() {
                return Ok(true);
            }
            self.receive_own()?;
        }
        Ok(false)
    }

    /// The time before which an event is handled now: at most the end of the tick, where its routers have sent
    /// something, which is to come before later events are handled.
    fn limit_now(&self, limit: u64) -> u64
        ensures { result ≤ limit }
    {
        if self.shard.outgoing().is_empty() {
            limit
        } else {
            limit.min(self.pace.end_of_tick())
        }
    }

    /// What its routers have sent is sorted: what is for them comes to them.
    fn receive_own(&mut self) -> Result<(), AllocError>
        requires { self.old.share.mail ≡ [] }
        ensures preserved { StillPreserves self.old self.new }
        ensures empty { OnOk result (self.new.share.mail ≡ []) }
        ensures stop { self.new.stop ≡ self.old.stop }
    {
        if sends_to_itself(&self.shard) {
            self.take_own();
        } else {
            self.sort_out()?;
        }
        self.deliver()
    }

    /// What its routers have sent, all of which is for them, goes into the hand as mail. No message is moved.
    fn take_own(&mut self)
        requires mail { self.old.share.mail ≡ [] }
        requires own { list_all (λ m. owns self.old.share.shard m.event.dst) self.old.share.shard.outgoing ≡ true }
        ensures preserved { StillPreserves self.old self.new }
        ensures stop { self.new.stop ≡ self.old.stop }
    {
        self.hand.mail.clear();
        self.hand.next = 0;
        self.shard.swap_outgoing(&mut self.hand.mail);
    }

    /// What its routers have sent goes into the hand, which is delivered: what is for them as mail, and what
    /// is for others as unsent.
    fn sort_out(&mut self) -> Result<(), AllocError>
        requires { self.old.share.mail ≡ [] }
        ensures preserved { StillPreserves self.old self.new }
        ensures stop { self.new.stop ≡ self.old.stop }
    {
        let count = self.shard.outgoing().len();
        self.hand.mail.reserve(count)?;
        self.hand.out.reserve(count)?;
        self.hand.mail.clear();
        self.hand.next = 0;
        sort(&self.shard, &mut self.hand);
        self.shard.swap_outgoing(&mut self.outgoing);
        self.outgoing.clear();
        Ok(())
    }

    /// What its routers have sent is unsent, whomever it is for.
    fn send_rest(&mut self) -> Result<(), AllocError>
        ensures preserved { StillPreserves self.old self.new }
        ensures mail { self.new.share.mail ≡ self.old.share.mail }
        ensures sorted { OnOk result (self.new.share.shard.outgoing ≡ []) }
        ensures stop { self.new.stop ≡ self.old.stop }
    {
        self.hand.out.extend_from_slice(self.shard.outgoing())?;
        self.shard.swap_outgoing(&mut self.outgoing);
        self.outgoing.clear();
        Ok(())
    }

    /// The router of the least of all pending events handles it, where it is before a time, and is not the event that
    /// its router handled last, which then waits for its antimessage. Where its router has no room for one more that
    /// is not committed, room is made, or the event waits until the bound has risen. It is answered whether the
    /// worker goes on.
    fn handle_before(&mut self, limit: u64) -> Result<bool, OrMemory<CounterFull>>
        requires { limit ≤ self.old.stop }
        ensures preserved { StillPreserves self.old self.new }
        ensures full { IsErrOf result (or_memory.Fault counter_full) → IsFull self.new.stop self.new.share.shard }
        ensures mail { self.new.share.mail ≡ self.old.share.mail }
        ensures stop { self.new.stop ≡ self.old.stop }
    {
        match self.shard.handle_least(limit) {
            Ok(time) => {
                self.pace.count_handled(time);
                Ok(true)
            }
            Err(OrMemory::Memory) => Err(OrMemory::Memory),
            Err(OrMemory::Fault(Refusal::CounterFull)) => Err(OrMemory::Fault(CounterFull)),
            Err(OrMemory::Fault(Refusal::AheadFull)) => Ok(self.make_room_for_least()?),
            Err(OrMemory::Fault(_)) => Ok(false),
        }
    }
}

/// Whether all that a shard's routers have sent is for them.
fn sends_to_itself(shard: &Shard<'_>) -> bool
    ensures { result ≡ list_all (λ m. owns shard.now m.event.dst) shard.now.outgoing }
{
    shard
        .outgoing()
        .iter()
        .all(|message| shard.owns(message.event.dst))
}

/// Puts what a shard has sent into a hand, in which there is room for it: what is for its own routers
/// with the mail, the rest with what is unsent.
fn sort(shard: &Shard<'_>, hand: &mut Hand)
    requires mail { vec_len hand.old.mail + length shard.now.outgoing ≤ vec_capacity hand.old.mail }
    requires out { vec_len hand.old.out + length shard.now.outgoing ≤ vec_capacity hand.old.out }
    ensures mail { hand.new.mail.items ≡ hand.old.mail.items ++ filter (λ m. owns shard.now m.event.dst) shard.now.outgoing }
    ensures out { hand.new.out.items ≡ hand.old.out.items ++ filter (λ m. not (owns shard.now m.event.dst)) shard.now.outgoing }
    ensures next { hand.new.next ≡ hand.old.next }
{
    for message in shard.outgoing() {
        if shard.owns(message.event.dst) {
            hand.mail.push_reserved(*message);
        } else {
            hand.out.push_reserved(*message);
        }
    }
}
