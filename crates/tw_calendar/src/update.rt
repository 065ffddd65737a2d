//! A path that arrives, without its time.

ghost use Rattle.std.specs.Option.{option_copied};
ghost use Rattle.std.specs.Prelude.{ℕ, ◌≡◌, ◌++◌, None, IfSome, OnOk, option_map};
ghost use Rattle.tw_ordered.specs.InOrder.{earlier, least_with};
ghost use Rattle.tw_calendar.specs.Update.{event_at, events_at};
ghost use Rattle.std.specs.Prelude.{◌==◌, ◌+◌, ◌^◌, ◌<◌, Some, count_by, filter, position};
ghost use Rattle.std.specs.List.{list_any};

use std::alloc::AllocError;
use tw_event::{Body, Event, PathNo};
use tw_ordered::earlier;

/// A neighbour's path that arrives, without the time at which it does: 24 bytes in place of 40.
///
/// Updates are ordered as their events of one time are.
#[derive(Clone, Copy, PartialEq, Eq, PartialOrd, Ord)]
pub(crate) struct Update {
    pub(crate) dst: u32,
    src: u32,
    seq: u64,
    path: PathNo,
    session: u32,
}

/// An end of the link that a path comes by.
#[derive(Clone, Copy)]
pub(crate) enum End {
    Sender,
    Receiver,
}

impl Update {
    /// The router at one end.
    #[inline(always)]
    pub(crate) fn router_at(&self, end: End) -> u32 {
        match end {
            End::Sender => self.src,
            End::Receiver => self.dst,
        }
    }

    /// An event without its time, where it is a path that arrives in a session below 2^32.
    #[inline(always)]
    pub(crate) fn of(event: &Event) -> Option<Update>
        ensures { IfSome result (λ update. event_at event.now.time update ≡ event.now) }
    {
        match event.body {
            Body::Update { path, session } => Some(Update {
                dst: event.dst,
                src: event.src,
                seq: event.seq,
                path,
                session: u32::try_from(session).ok()?,
            }),
            _ => None,
        }
    }

    /// The event that it is at a time, in ticks.
    #[inline(always)]
    pub(crate) fn at(&self, time: u64) -> Event
        ensures { result ≡ event_at time self.now }
    {
        Event {
            time,
            dst: self.dst,
            src: self.src,
            seq: self.seq,
            body: Body::Update {
                path: self.path,
                session: u64::from(self.session),
            },
        }
    }
}

/// The least of these, where it stands.
pub(crate) fn first_of(updates: &[Update]) -> Option<&Update>
    ensures { (time : ℕ) → option_map (event_at time) (option_copied result) ≡ least_with None (events_at time updates.now) }
{
    let mut least = None;
    for update in updates {
        least = Some(sooner(update, least));
    }
    least
}

// The one of the two updates that comes first, where it stands.
fn sooner<'a>(update: &'a Update, other: Option<&'a Update>) -> &'a Update
    ensures { (time : ℕ) → event_at time result.now ≡ earlier (event_at time update.now) (option_map (event_at time) (option_copied other.entry)) }
{
    match other {
        Some(other) if other < update => other,
        _ => update,
    }
}

/// Puts the events that these are at a time, in ticks, at the end of a list.
pub(crate) fn append_at(
    time: u64,
    updates: &[Update],
    events: &mut Vec<Event>,
) -> Result<(), AllocError>
    ensures { OnOk result (events.new.items ≡ events.old.items ++ events_at time updates.now) }
{
    for update in updates {
        events.push(update.at(time))?;
    }
    Ok(())
}

/// The first place of an event among updates of a time, in ticks.
pub(crate) fn place_of(time: u64, updates: &[Update], event: &Event) -> Option<usize>
    ensures { result ≡ position (λ update. ⟦<Event as PartialEq>⟧.eq event.now (event_at time update)) updates.now }
{
    // Most others differ in their number, which is read at once.
    updates.iter().position(|update| update.seq == event.seq && *event == update.at(time))
}

/// How often an event stands among updates of a time, in ticks.
pub(crate) fn count_of(time: u64, updates: &[Update], event: &Event) -> usize
    ensures { result ≡ count_by (λ update. ⟦<Event as PartialEq>⟧.eq event.now (event_at time update)) updates.now }
{
    updates
        .iter()
        .filter(|update| *event == update.at(time))
        .count()
}

/// Whether one of these updates is for a router.
pub(crate) fn has_receiver(updates: &[Update], router: u32) -> bool
    ensures { result ≡ list_any (λ update. update.dst == router) updates.now }
{
    updates.iter().any(|update| update.dst == router)
}

/// The least of an event, if there is one, and of those updates of a time, in ticks, that are for a router.
pub(crate) fn least_for(
    time: u64,
    updates: &[Update],
    router: u32,
    first: Option<Event>,
) -> Option<Event>
    ensures { result ≡ least_with first (filter (λ e. e.dst == router) (events_at time updates.now)) }
{
    let mut least = first;
    for update in updates {
        if update.dst == router {
            least = Some(earlier(update.at(time), least));
        }
    }
    least
}
