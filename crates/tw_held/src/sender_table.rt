//! A queue for each router of what it has sent, and is held.

ghost use Rattle.std.specs.Prelude.{◌≡◌, ◌<◌, ◌↔◌, IfNone, IfOk, IfSome, IsTrue, [], length, replicate, slice_get, slice_index_or};
ghost use Rattle.std.specs.Bool.{OnFalse, OnTrue};
ghost use Rattle.std.specs.Option.{option_copied};
ghost use Rattle.tw_event.specs.declared.event.Event.{Event};
ghost use Rattle.tw_event.specs.Order.{event_before, event_same};
ghost use Rattle.tw_ordered.specs.Buckets.{together};
ghost use Rattle.tw_held.specs.Held.{sent_by};
ghost use Rattle.tw_ordered.specs.InOrder.{earlier_of, in_order};
ghost use Rattle.tw_sim.specs.Ordered.{insert, take_out, times};
ghost use Rattle.tw_sim.specs.Rising.{IsRising};

use std::alloc::{AllocError, Global};
use std::marker::Model;
use tw_event::Event;
use tw_ordered::{OrderedQueue, sooner};

/// A queue for each router, and none at all before the first event.
///
/// Events are undone from the newest back, and handled again from the oldest on: what comes goes to the front of its
/// queue as a rule, and what goes comes from there.
#[derive(Drop)]
pub(crate) struct SenderTable {
    queues: Vec<OrderedQueue>,
}

impl Model for SenderTable {
    ghost use Rattle.std.specs.Prelude.{List};
    ghost use Rattle.tw_event.specs.declared.event.Event.{Event};

    ghost Value = { List Event };

    ghost use Rattle.tw_event.specs.Order.{event_before};
    ghost use Rattle.tw_ordered.specs.Buckets.{together};
    ghost use Rattle.tw_ordered.specs.InOrder.{in_order};
    ghost use Rattle.tw_held.specs.SenderTable.{IsSenderTable};

    ghost view = { λ a. in_order event_before (together a.queues.items) };

    ghost invariant = { IsSenderTable };
}

impl SenderTable {
    /// No events, and no queue.
    pub(crate) fn new(alloc: Global) -> SenderTable
        ensures { result ≡ [] }
    {
        SenderTable {
            queues: Vec::new(alloc),
        }
    }

    /// Makes a queue for each router below `routers`, where there is none yet and memory is not refused.
    pub(crate) fn open(&mut self, alloc: Global, routers: u32)
        ensures { self.new ≡ self.old }
    {
        if !self.queues.is_empty() {
            return;
        }
        if let Ok(queues) = empty_queues(alloc, routers as usize) {
            self.queues = queues;
        }
    }

    /// Adds an event to its sender's queue, and tells whether it did: not where memory was refused, for the
    /// event or for the queue.
    pub(crate) fn insert(&mut self, event: Event) -> bool
        ensures added { OnTrue result (self.new ≡ insert event_before event self.old) }
        ensures same { OnFalse result (self.new ≡ self.old) }
        ensures rising { IsRising event_before event_same self.new }
    {
        let router = event.src as usize;
        if router >= self.queues.len() {
            return false;
        }
        let queue = &mut self.queues[router];
        if let Err(_) = queue.insert(event) {
            return false;
        }
        true
    }

    /// Takes out one event that equals `event`, and tells whether there was one.
    pub(crate) fn remove(&mut self, event: &Event) -> bool
        ensures found { IsTrue result ↔ (0 < times event_same event.now self.old) }
        ensures events { self.new ≡ take_out event_same event.now self.old }
        ensures rising { IsRising event_before event_same self.new }
    {
        let router = event.src as usize;
        if router >= self.queues.len() {
            return false;
        }
        let queue = &mut self.queues[router];
        queue.remove(event)
    }

    /// The least event of all.
    pub(crate) fn least(&self) -> Option<&Event>
        ensures { option_copied result ≡ slice_get self.now 0 }
    {
        least_first(&self.queues)
    }

    /// The least event of one router.
    pub(crate) fn first_of(&self, router: u32) -> Option<&Event>
        ensures { option_copied result ≡ slice_get (sent_by router self.now) 0 }
    {
        queue_of(&self.queues, router)?.first()
    }

    /// How many events of one router there are.
    pub(crate) fn count_of(&self, router: u32) -> usize
        ensures { result ≡ length (sent_by router self.now) }
    {
        match queue_of(&self.queues, router) {
            Some(queue) => queue.len(),
            None => 0,
        }
    }
}

// One router's queue, if it has one.
fn queue_of(queues: &[OrderedQueue], router: u32) -> Option<&OrderedQueue>
    ensures some { IfSome result (λ queue. queue.now ≡ slice_index_or queues.now router []) }
    ensures none { IfNone result (slice_index_or queues.now router [] ≡ []) }
{
    queues.get(router as usize)
}

// The least event of all queues.
fn least_first(queues: &[OrderedQueue]) -> Option<&Event>
    ensures { option_copied result ≡ slice_get (in_order event_before (together queues.now)) 0 }
{
    let mut least = None;
    for queue in queues {
        least = soonest(least, queue.first());
    }
    least
}

// The one of two events that comes first, where there are any.
fn soonest<'a>(least: Option<&'a Event>, other: Option<&'a Event>) -> Option<&'a Event>
    ensures { option_copied result ≡ earlier_of (option_copied least.entry) (option_copied other.entry) }
{
    match other {
        Some(event) => Some(sooner(event, least)),
        None => least,
    }
}

// So many queues with no event.
fn empty_queues(alloc: Global, count: usize) -> Result<Vec<OrderedQueue>, AllocError>
    ensures { IfOk result (λ queues. queues.items ≡ replicate count []) }
{
    let mut queues = Vec::with_capacity(alloc, count)?;
    for _ in 0..count {
        queues.push(OrderedQueue::new(alloc))?;
    }
    Ok(queues)
}
