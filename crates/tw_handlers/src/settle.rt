//! Choosing the best path, and telling the neighbours.

ghost use Rattle.std.specs.Prelude.{◌≡◌, ◌+◌, ◌≤◌, ◌<◌, ◌==◌, not, length, nat_lt, IfOk};
ghost use Rattle.tw_model.specs.Net.{IsPath};
ghost use Rattle.tw_model.specs.declared.limits.TheConstants.{MOST_COUNTED};
ghost use Rattle.tw_model.specs.State.{row as row_of};
ghost use Rattle.tw_model.specs.Effect.{settle as settle_of, ups, with_bar, with_handled, with_row};
ghost use Rattle.tw_handlers.specs.Calls.{CanReact, Reacts, with_count};

use crate::fault::CounterFull;
use crate::send::{count_up, push_updates};
use smallvec::SmallVec;
use tw_event::{Event, PathNo};
use tw_instance::Instance;
use tw_model::limits::MOST_COUNTED;
use tw_model::{Counters, OrMemory, Row};
use tw_router::Router;

/// Takes the best path, tells each neighbour whose link is up where that is a change, and counts an
/// event as handled. Answers whether the path changed.
#[inline(always)]
pub(crate) fn settle(
    instance: &Instance,
    router: &mut Router<'_>,
    time: u64,
    sends: &mut SmallVec<Event, 8>,
) -> Result<bool, OrMemory<CounterFull>>
    requires { CanReact instance.now router.old time }
    ensures reaction { Reacts router.old router.new sends.old.items sends.new.items
        (with_count (settle_of router.old.net router.old.node time router.old.state)) result }
    ensures changed { IfOk result (λ changed. changed ≡ not (router.old.state.rib.0 == router.new.state.rib.0)) }
{
    let best = router.best();
    if router.rib().0 == best.0 {
        count_handled(router);
        return Ok(false);
    }
    if sends_too_many(instance, router) {
        return Err(OrMemory::Fault(CounterFull));
    }
    let counters = router.counters();
    sends.reserve(router.rows().len())?;
    let sent = push_updates(instance, router, time, best, counters.sent, sends);
    router.set_rib(best);
    router.set_counters(Counters {
        sent,
        handled: counters.handled + 1,
        dropped: counters.dropped,
        changed: counters.changed + 1,
    });
    Ok(true)
}

/// Whether an update to each neighbour whose link is up is more than can be counted as sent.
#[inline(always)]
fn sends_too_many(instance: &Instance, router: &Router<'_>) -> bool
    requires { instance.now ≡ router.now.net }
    ensures { result ≡ nat_lt MOST_COUNTED (router.now.state.counters.sent + length (ups router.now.net router.now.node router.now.state)) }
{
    let sent = router.counters().sent;
    // Links are counted where it depends on how many are up.
    sent + router.rows().len() as u64 > MOST_COUNTED
        && sent + count_up(instance, router) > MOST_COUNTED
}

/// Writes the row of a slot and settles. After an error the row is as it was.
#[inline(always)]
pub(crate) fn settle_with_row(
    instance: &Instance,
    router: &mut Router<'_>,
    slot: usize,
    row: Row,
    time: u64,
    sends: &mut SmallVec<Event, 8>,
) -> Result<bool, OrMemory<CounterFull>>
    requires reaction { CanReact instance.now router.old time }
    requires slot { slot < length router.old.state.rows }
    requires path { IsPath router.old.net row.heard }
    requires session { row.session ≤ router.old.state.counters.handled }
    ensures reaction { Reacts router.old router.new sends.old.items sends.new.items
        (with_count (settle_of router.old.net router.old.node time (with_row router.old.state slot row))) result }
    ensures changed { IfOk result (λ changed. changed ≡ not (router.old.state.rib.0 == router.new.state.rib.0)) }
{
    let kept = router.row(slot);
    router.set_row(instance, slot, row);
    match settle(instance, router, time, sends) {
        Ok(changed) => Ok(changed),
        Err(error) => {
            router.set_row(instance, slot, kept);
            Err(error)
        }
    }
}

/// Writes the path that was heard from the neighbour of a slot and settles. After an error the row is as
/// it was.
#[inline(always)]
pub(crate) fn settle_with_heard(
    instance: &Instance,
    router: &mut Router<'_>,
    slot: usize,
    path: PathNo,
    time: u64,
    sends: &mut SmallVec<Event, 8>,
) -> Result<bool, OrMemory<CounterFull>>
    requires reaction { CanReact instance.now router.old time }
    requires slot { slot < length router.old.state.rows }
    requires path { IsPath router.old.net path }
    ensures reaction { Reacts router.old router.new sends.old.items sends.new.items
        (with_count (settle_of router.old.net router.old.node time (with_row router.old.state slot (record (row_of router.old.state slot) { heard = path })))) result }
    ensures changed { IfOk result (λ changed. changed ≡ not (router.old.state.rib.0 == router.new.state.rib.0)) }
{
    let kept = router.row(slot);
    router.set_heard(instance, slot, path);
    match settle(instance, router, time, sends) {
        Ok(changed) => Ok(changed),
        Err(error) => {
            router.set_row(instance, slot, kept);
            Err(error)
        }
    }
}

/// Bars one of the paths as they were given, or allows it, and settles. After an error its bar is as it was.
#[inline(never)]
pub(crate) fn settle_with_bar(
    instance: &Instance,
    router: &mut Router<'_>,
    line: u32,
    barred: bool,
    time: u64,
    sends: &mut SmallVec<Event, 8>,
) -> Result<bool, OrMemory<CounterFull>>
    requires reaction { CanReact instance.now router.old time }
    requires first { 0 < line }
    requires within { line ≤ length router.old.state.barred }
    ensures reaction { Reacts router.old router.new sends.old.items sends.new.items
        (with_count (settle_of router.old.net router.old.node time (with_bar router.old.state line barred))) result }
    ensures changed { IfOk result (λ changed. changed ≡ not (router.old.state.rib.0 == router.new.state.rib.0)) }
{
    let kept = router.is_barred(line);
    router.set_barred(instance, line, barred);
    match settle(instance, router, time, sends) {
        Ok(changed) => Ok(changed),
        Err(error) => {
            router.set_barred(instance, line, kept);
            Err(error)
        }
    }
}

/// Counts an event as handled.
#[inline(always)]
pub(crate) fn count_handled(router: &mut Router<'_>)
    requires { router.old.state.counters.handled < MOST_COUNTED }
    ensures { router.new ≡ record router.old { state = with_handled router.old.state } }
{
    let counters = router.counters();
    router.set_counters(Counters {
        handled: counters.handled + 1,
        ..counters
    });
}
