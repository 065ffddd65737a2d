//! The pending events of a shape, as they are seen from its time.

ghost use Rattle.std.specs.Prelude.{◌≡◌, map, slice_index};
ghost use Rattle.std.specs.List.{list_all};
ghost use lib.Pointwise.{pointwise};
ghost use Rattle.tw_event.specs.Order.{event_same};
ghost use Rattle.tw_shape.specs.Packed.{hash_by, hash_spans, in_order, least_time, next_hash, path_in, seen, word};
ghost use Rattle.tw_shape.specs.Shape.{is_update, seen_from, sooner};

use crate::shape::Span;
use tw_event::{Body, Event};

/// Pending events, in any order, the time from which they are seen, and how many messages each router had
/// sent by then.
#[derive(Drop, Debug)]
pub(crate) struct Seen {
    pub(crate) time: u64,
    pub(crate) sent: Vec<u64>,
    pub(crate) events: Vec<Event>,
}

impl Seen {
    /// The event as it is seen so many ticks later.
    fn see(&self, event: Event, ticks: u64) -> Event
        ensures { result ≡ sooner ticks (seen_from self.now.time (slice_index self.now.sent.items event.src) event) }
    {
        let event = seen_from(event, self.time, &self.sent);
        Event {
            time: event.time.saturating_sub(ticks),
            ..event
        }
    }

    /// What the event adds to a hash, as it is seen so many ticks later. How many messages ago it was sent
    /// is left out, and the session of an update: they are seldom all that tells two shapes apart.
    #[tactic(auto, unfolding(crate::specs::Packed::word))]
    fn word_of(&self, event: &Event, ticks: u64) -> u64
        ensures { result ≡ word (sooner ticks (seen_from self.now.time (slice_index self.now.sent.items event.now.src) event.now)) }
    {
        let left = event.time.saturating_sub(self.time).saturating_sub(ticks);
        let link = next_hash(next_hash(left, u64::from(event.dst)), u64::from(event.src));
        let hash = next_hash(link, path_of(event.body));
        hash.wrapping_mul(hash)
    }
}

/// The number of the path that an update tells, or 0.
fn path_of(body: Body) -> u64
    ensures { result ≡ path_in body }
{
    match body {
        Body::Update { path, .. } => u64::from(path.0),
        _ => 0,
    }
}

/// The event as it is seen from `time`, when each router has sent so many messages.
fn seen_from(event: Event, time: u64, sent: &[u64]) -> Event
    ensures { result ≡ seen_from time (slice_index sent.now event.src) event }
{
    let sent = sent.get(event.src as usize).copied().unwrap_or(0);
    let seq = match event.body {
        Body::Update { .. } => sent.saturating_sub(event.seq),
        _ => event.seq,
    };
    Event {
        time: event.time.saturating_sub(time),
        seq,
        ..event
    }
}

/// Puts the events in their order.
pub(crate) fn put_in_order(events: &mut [Event])
    ensures { events.new ≡ in_order events.old }
{
    events.sort_unstable();
}

/// Whether the events are seen alike, one by one, so many ticks later each.
pub(crate) fn are_alike(some: &Seen, ticks: u64, others: &Seen, other_ticks: u64) -> bool
    ensures { result ≡ pointwise event_same
        (map (λ e. sooner ticks (seen_from some.now.time (slice_index some.now.sent.items e.src) e)) some.now.events.items)
        (map (λ e. sooner other_ticks (seen_from others.now.time (slice_index others.now.sent.items e.src) e)) others.now.events.items) }
{
    let (left, right) = (some.events.as_slice(), others.events.as_slice());
    if left.len() != right.len() {
        return false;
    }
    for i in 0..left.len() {
        let is_same = some.see(left[i], ticks) == others.see(right[i], other_ticks);
        if !is_same {
            return false;
        }
    }
    true
}

/// The least time of the events, or 0.
pub(crate) fn least_time(events: &[Event]) -> u64
    ensures { result ≡ least_time events.now }
{
    let [first, rest @ ..] = events else {
        return 0;
    };
    rest.iter()
        .fold(first.time, |least, event| least.min(event.time))
}

pub(crate) fn all_updates(events: &[Event]) -> bool
    ensures { result ≡ list_all (λ e. is_update e.body) events.now }
{
    events
        .iter()
        .all(|event| matches!(event.body, Body::Update { .. }))
}

/// What a hash is multiplied by before one more number is added to it: the odd number next to 2^64 over
/// the golden ratio. Odd, so that no number before is lost; and with ones and zeros in all parts, so that
/// small numbers count in the high bits too.
const MULTIPLIER: u64 = 0x9E37_79B9_7F4A_7C15;

/// A hash of the spans and the pending events, seen so many ticks later. It is a sum over the events, so
/// that their order does not count.
pub(crate) fn hash_of(spans: &[Span], pending: &Seen, ticks: u64) -> u64
    ensures { result ≡ hash_by spans.now
        (map (sooner ticks) (seen pending.now.time pending.now.sent.items pending.now.events.items)) }
{
    let mut sum = hash_of_spans(spans);
    for event in &pending.events {
        sum = sum.wrapping_add(pending.word_of(event, ticks));
    }
    sum
}

#[tactic(auto, unfolding(crate::specs::Packed::hash_spans))]
fn hash_of_spans(spans: &[Span]) -> u64
    ensures { result ≡ hash_spans spans.now }
{
    spans
        .iter()
        .fold(0, |hash, span| next_hash(hash, u64::from(span.rib.0)))
}

/// The hash with one more number.
fn next_hash(hash: u64, number: u64) -> u64
    ensures { result ≡ next_hash hash number }
{
    hash.wrapping_mul(MULTIPLIER).wrapping_add(number)
}
