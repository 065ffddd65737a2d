//! Searching lists of events.

ghost use Rattle.std.specs.Option.{option_copied};
ghost use Rattle.std.specs.Prelude.{◌≡◌, ◌==◌, ◌<◌, ◌↔◌, None, IsTrue, count_by, filter, position, vec_capacity};
ghost use Rattle.tw_event.specs.Order.{event_before, event_same};
ghost use Rattle.tw_ordered.specs.InOrder.{earlier, earlier_of, least_with};
ghost use Rattle.tw_sim.specs.Ordered.{take_out, times};

use tw_event::Event;

/// The first place of an event.
pub fn place_of(events: &[Event], event: &Event) -> Option<usize>
    ensures { result ≡ position (λ x. ⟦<Event as PartialEq>⟧.eq event.now x) events.now }
{
    events.iter().position(|other| *event == *other)
}

/// Takes one event that equals `event` out of these, and tells whether there was one.
pub fn remove_from(events: &mut Vec<Event>, event: &Event) -> bool
    ensures found { IsTrue result ↔ (0 < times event_same event.now events.old.items) }
    ensures items { events.new.items ≡ take_out event_same event.now events.old.items }
    ensures capacity { vec_capacity events.new ≡ vec_capacity events.old }
{
    match place_of(events, event) {
        Some(place) => {
            events.remove(place);
            true
        }
        None => false,
    }
}

/// How often an event stands among these.
pub fn count_of(events: &[Event], event: &Event) -> usize
    ensures { result ≡ count_by (λ x. ⟦<Event as PartialEq>⟧.eq event.now x) events.now }
{
    events.iter().filter(|other| *event == **other).count()
}

/// The least of an event, if there is one, and of these.
pub fn least_of(first: Option<Event>, events: &[Event]) -> Option<Event>
    ensures { result ≡ least_with first events.now }
{
    let mut least = first;
    for event in events {
        least = Some(earlier(*event, least));
    }
    least
}

/// The one of the two events that comes first.
#[inline(always)]
pub fn earlier(event: Event, other: Option<Event>) -> Event
    ensures { result ≡ earlier event other }
{
    match other {
        Some(other) if other < event => other,
        _ => event,
    }
}

/// The one of the two events that comes first, where there are any.
#[inline(always)]
pub fn earlier_of(least: Option<Event>, other: Option<Event>) -> Option<Event>
    ensures { result ≡ earlier_of least other }
{
    match other {
        Some(event) => Some(earlier(event, least)),
        None => least,
    }
}

/// Whether an event comes before another.
#[inline(always)]
pub fn comes_before(event: &Event, other: &Event) -> bool
    ensures { result ≡ event_before event.now other.now }
{
    // Times mostly differ.
    if event.time != other.time {
        return event.time < other.time;
    }
    event < other
}

/// The one of the two events that comes first, where it stands.
#[inline(always)]
pub fn sooner<'a>(event: &'a Event, other: Option<&'a Event>) -> &'a Event
    ensures { result.now ≡ earlier event.now (option_copied other.entry) }
{
    match other {
        Some(other) if comes_before(other, event) => other,
        _ => event,
    }
}

/// The least of an event, if there is one, and of these, where it stands.
pub fn soonest_of<'a>(first: Option<&'a Event>, events: &'a [Event]) -> Option<&'a Event>
    ensures { option_copied result ≡ least_with (option_copied first.entry) events.now }
{
    let mut least = first;
    for event in events {
        least = Some(sooner(event, least));
    }
    least
}
