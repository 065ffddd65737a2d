//! The time from which on a case rests where elimination leaves no choice.

ghost use Rattle.std.specs.Prelude.{◌≡◌, ◌+◌, ◌<◌, ◌^◌, suc};
ghost use Rattle.tw_elimination.specs.Bound.{last_time as last_time_of, longest_delay as longest_delay_of};
ghost use Rattle.tw_policy.specs.Elimination.{after_rounds};

use tw_event::Event;
use tw_model::Link;

/// The time of the last of these events, or 0.
pub(crate) fn last_time(events: &[Event]) -> u64
    ensures { result ≡ last_time_of events.now }
{
    events
        .iter()
        .fold(0, |time: u64, event| time.max(event.time))
}

/// The longest delay of these links, in either direction, or 0.
pub(crate) fn longest_delay(links: &[Link]) -> u64
    ensures { result ≡ longest_delay_of links.now }
{
    links
        .iter()
        .fold(0, |delay: u64, link| delay.max(link.delay).max(link.back))
}

/// The time so many times this delay, and once more, after the tick that follows on a time.
pub(crate) fn time_after(time: u64, delay: u64, rounds: u64) -> u128
    requires { rounds < 2 ^ 32 }
    ensures { result ≡ after_rounds (time + 1) delay (suc rounds) }
{
    u128::from(time) + 1 + (u128::from(rounds) + 1) * u128::from(delay)
}
