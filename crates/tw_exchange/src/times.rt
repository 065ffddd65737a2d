//! Times of messages and of reports: what is too early, and the least ones.

ghost use Rattle.std.specs.Prelude.{◌≡◌, ◌||◌, false, fold, min, nat_lt};
ghost use Rattle.std.specs.List.{flat_map, list_any};
ghost use Rattle.std.specs.Option.{option_map_or, option_to_list};
ghost use Rattle.tw_exchange.specs.AnyBoard.{least_report};
ghost use Rattle.tw_exchange.specs.Rows.{lesser_time, soonest_of};

use crate::mail::NEVER;
use tw_lanes::least_time;
use tw_process::Timed;
use tw_sim::Signed;

/// Whether the report or a message lies before the bound.
pub fn is_early<E: Timed>(out: &[Signed<E>], report: Option<u64>, bound: u64) -> bool
    ensures { result ≡ (option_map_or (λ time. nat_lt time bound) report false || list_any (λ m. nat_lt (E.parts.time m.event) bound) out.now) }
{
    report.is_some_and(|time| time < bound) || is_any_before(out, bound)
}

// Whether a message lies before the bound.
fn is_any_before<E: Timed>(out: &[Signed<E>], bound: u64) -> bool
    ensures { result ≡ list_any (λ m. nat_lt (E.parts.time m.event) bound) out.now }
{
    out.iter().any(|message| message.event.time() < bound)
}

/// Whether the report or one of the times lies before the bound.
pub fn is_any_early(times: &[u64], report: Option<u64>, bound: u64) -> bool
    ensures { result ≡ (option_map_or (λ time. nat_lt time bound) report false || list_any (λ time. nat_lt time bound) times.now) }
{
    report.is_some_and(|time| time < bound) || is_any_time_before(times, bound)
}

// Whether a time lies before the bound.
fn is_any_time_before(times: &[u64], bound: u64) -> bool
    ensures { result ≡ list_any (λ time. nat_lt time bound) times.now }
{
    times.iter().any(|time| *time < bound)
}

/// The least of the report, if there is one, and of the times of the messages, the least of which is at hand.
pub fn report_with<E: Timed>(report: Option<u64>, messages: &[Signed<E>], least: u64) -> Option<u64>
    requires { least ≡ soonest_of E.parts messages.now }
    ensures { result ≡ least_report E.parts report messages.now }
{
    if messages.is_empty() {
        return report;
    }
    // That a time fits its type is told by a read of it.
    let _time = messages[0].event.time();
    Some(lesser(least, report))
}

/// The least time of messages, and the end of time where there are none.
pub fn soonest<E: Timed>(messages: &[Signed<E>]) -> u64
    ensures { result ≡ soonest_of E.parts messages.now }
{
    messages
        .iter()
        .fold(NEVER, |least, message| least.min(message.event.time()))
}

/// The least of the stop, of a row of times, and of the reports.
pub fn least_of(reports: &[Option<u64>], times: &[u64], stop: u64) -> u64
    ensures { result ≡ fold min (fold min stop times.now) (flat_map option_to_list reports.now) }
{
    let least = least_time(times).map_or(stop, |time| time.min(stop));
    reports
        .iter()
        .fold(least, |time, report| lesser(time, *report))
}

// The lesser of a time and of a report, if there is one.
fn lesser(time: u64, report: Option<u64>) -> u64
    ensures { result ≡ lesser_time time report }
{
    report.map_or(time, |reported| reported.min(time))
}
