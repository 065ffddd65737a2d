//! A queue for each router, beside a row of their least times.

ghost use Rattle.std.specs.Prelude.{◌≡◌, ◌<◌, ◌+◌, ◌==◌, ◌↔◌, ◌^◌, filter, IfNone, IfOk, IfSome, IsTrue, [], OnOk, replicate, slice_get, slice_index_or};
ghost use Rattle.tw_event.specs.Order.{event_before, event_same};
ghost use Rattle.tw_ordered.specs.Buckets.{together};
ghost use Rattle.std.specs.Bool.{OnFalse, OnTrue};
ghost use Rattle.std.specs.Option.{option_copied};
ghost use Rattle.tw_event.specs.declared.event.Event.{Event};
ghost use Rattle.tw_queue.specs.InTable.{IsInOrder};
ghost use Rattle.tw_ordered.specs.Times.{first_time};
ghost use Rattle.tw_sim.specs.Ordered.{insert, take_out, times};
ghost use Rattle.tw_sim.specs.Rising.{IsRising};

use crate::bucket_queue::BucketQueue;
use crate::least_times::LeastTimes;
use std::alloc::{AllocError, Global};
use std::marker::Model;
use tw_event::Event;

/// A queue for each router, and a row of their least times.
#[derive(Drop)]
pub(crate) struct QueueTable {
    queues: Vec<BucketQueue>,
    least_times: LeastTimes,
}

impl Model for QueueTable {
    ghost use Rattle.std.specs.Prelude.{length};
    ghost use Rattle.tw_event.specs.Order.{event_before};
    ghost use Rattle.tw_ordered.specs.Buckets.{together};
    ghost use Rattle.tw_ordered.specs.InOrder.{in_order};
    ghost use Rattle.tw_queue.specs.InTable.{Table};
    ghost use Rattle.tw_queue.specs.Table.{IsQueueTable};

    ghost Value = { Table };

    ghost view = { λ a. record { routers = length a.queues.items; events = in_order event_before (together a.queues.items) } };

    ghost invariant = { IsQueueTable };
}

impl QueueTable {
    /// No events, for routers below `routers`.
    pub(crate) fn new(alloc: Global, routers: u32) -> Result<QueueTable, AllocError>
        ensures routers { IfOk result (λ table. table.routers ≡ routers) }
        ensures empty { IfOk result (λ table. table.events ≡ []) }
    {
        let queues = empty_queues(alloc, routers as usize)?;
        let least_times = LeastTimes::new(alloc, routers as usize)?;
        Ok(QueueTable {
            queues,
            least_times,
        })
    }

    /// Adds an event to its router's queue, and tells whether it did: not where memory was refused, nor at
    /// the last tick, which stands for no event in the row of least times.
    pub(crate) fn insert(&mut self, event: Event) -> bool
        requires { event.dst < self.old.routers }
        ensures added { OnTrue result (self.new.events ≡ insert event_before event self.old.events) }
        ensures same { OnFalse result (self.new ≡ self.old) }
        ensures routers { self.new.routers ≡ self.old.routers }
        ensures order { OnTrue result (IsInOrder self.new) }
    {
        if event.time >= u64::MAX {
            return false;
        }
        let router = event.dst as usize;
        let queue = &mut self.queues[router];
        if let Err(_) = queue.insert(event) {
            return false;
        }
        let time = first_time(queue);
        self.least_times.set(router, time);
        true
    }

    /// Takes out one event that equals `event`, and tells whether there was one.
    pub(crate) fn remove(&mut self, event: &Event) -> bool
        ensures found { IsTrue result ↔ (0 < times event_same event.now self.old.events) }
        ensures events { self.new.events ≡ take_out event_same event.now self.old.events }
        ensures routers { self.new.routers ≡ self.old.routers }
        ensures order { IsInOrder self.new }
    {
        let router = event.dst as usize;
        if router >= self.queues.len() {
            return false;
        }
        let queue = &mut self.queues[router];
        let removed = queue.remove(event);
        let time = first_time(queue);
        self.least_times.set(router, time);
        removed
    }

    /// How often an event is pending.
    pub(crate) fn count(&self, event: &Event) -> usize
        ensures times { result ≡ times event_same event.now self.now.events }
        ensures bound { result < 2 ^ 63 }
    {
        match queue_of(&self.queues, event.dst) {
            Some(queue) => queue.count(event),
            None => 0,
        }
    }

    /// The least event of all.
    pub(crate) fn least(&self) -> Option<Event>
        ensures { result ≡ slice_get self.now.events 0 }
    {
        let router = self.least_times.first_least()?;
        self.queues[router].first().copied()
    }

    /// The least event of one router.
    pub(crate) fn first_at(&self, router: u32) -> Option<&Event>
        ensures { option_copied result ≡ slice_get (filter (λ e. e.dst == router) self.now.events) 0 }
    {
        queue_of(&self.queues, router)?.first()
    }

    /// Puts its events at the end of a list.
    pub(crate) fn append_to(&self, events: &mut Vec<Event>) -> Result<(), AllocError>
        ensures ok { OnOk result ((e : Event) → times event_same e events.new.items ≡ times event_same e self.now.events + times event_same e events.old.items) }
    {
        append_all(&self.queues, events)?;
        Ok(())
    }
}

// One router's queue, if it has one.
fn queue_of(queues: &[BucketQueue], router: u32) -> Option<&BucketQueue>
    ensures some { IfSome result (λ queue. queue.now ≡ slice_index_or queues.now router []) }
    ensures none { IfNone result (slice_index_or queues.now router [] ≡ []) }
{
    queues.get(router as usize)
}

// Puts the events of queues at the end of a list.
fn append_all(queues: &[BucketQueue], events: &mut Vec<Event>) -> Result<(), AllocError>
    ensures ok { OnOk result ((e : Event) → times event_same e events.new.items ≡ times event_same e (together queues.now) + times event_same e events.old.items) }
{
    for queue in queues {
        queue.append_to(events)?;
    }
    Ok(())
}

// So many queues with no event.
fn empty_queues(alloc: Global, count: usize) -> Result<Vec<BucketQueue>, AllocError>
    ensures { IfOk result (λ queues. queues.items ≡ replicate count []) }
{
    let mut queues = Vec::with_capacity(alloc, count)?;
    for _ in 0..count {
        queues.push(BucketQueue::new(alloc))?;
    }
    Ok(queues)
}

// The time of a queue's least event, in ticks, and the last tick where it has none.
fn first_time(queue: &BucketQueue) -> u64
    ensures time { result ≡ first_time queue.now }
    ensures rising { IsRising event_before event_same queue.now }
{
    match queue.first() {
        Some(event) => event.time,
        None => u64::MAX,
    }
}
