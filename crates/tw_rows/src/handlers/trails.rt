//! A router that goes on and back on its trail.

ghost use Rattle.std.specs.Prelude.{◌≡◌, ◌<◌};

use super::{NO_COUNTS, event, router, times, update};
use smallvec::SmallVec;
use std::alloc::Global;
use tw_event::{Body, Event, PathNo};
use tw_handlers::{Fault, Trail};
use tw_instance::Instance;
use tw_lanes::first_equal;
use tw_model::OrMemory;

/// Handles the event on the trail, and answers the router's path and messages sent then.
fn step(
    trail: &mut Trail<'_>,
    instance: &Instance,
    event: &Event,
) -> Result<(PathNo, u64), OrMemory<Fault>>
    requires { instance.now ≡ trail.old.opening.net }
    ensures { trail.new.opening ≡ trail.old.opening }
{
    match trail.handle(instance, event) {
        Err(OrMemory::Memory) => trail.handle(instance, event)?,
        answer => answer?,
    }
    let router = trail.router();
    Ok((router.rib(), router.counters().sent))
}

/// Undoes to so many events, and answers the router's path and messages sent then.
fn back(
    trail: &mut Trail<'_>,
    instance: &Instance,
    len: usize,
    sends: &mut SmallVec<Event, 8>,
) -> (PathNo, u64)
    requires { instance.now ≡ trail.old.opening.net }
    ensures { trail.new.opening ≡ trail.old.opening }
{
    if trail.undo_to(instance, len, sends).is_err() {
        let _ = trail.undo_to(instance, len, sends);
    }
    let router = trail.router();
    (router.rib(), router.counters().sent)
}

/// What happens to router 1 on its trail, and what it shows then. A pair is the router's path and the messages that it
/// has sent.
#[derive(Clone, Copy)]
pub(super) enum Line<'a> {
    /// A path comes: the time, the neighbour, the number of the event and the path.
    Hears(u64, u32, u64, u32, (u32, u64)),
    /// A line of the scenario: the time, the number of the event and what happens.
    Meets(u64, u64, Body, (u32, u64)),
    /// A line of the scenario that is not for this router.
    Refuses(u64, u64, Body),
    /// All events but so many are undone.
    Undoes(usize, (u32, u64)),
    /// The trail has so many events.
    Keeps(usize),
    /// The times and numbers of all that was sent by what is undone.
    Unsent(&'a [(u64, u64)]),
    /// The ranks that its neighbours' paths have.
    Ranks([u32; 2]),
    /// The first neighbour whose path has this rank.
    FirstOfRank(u32, usize),
    /// Which of its paths are forbidden.
    Bars([bool; 2]),
    /// Its paths in their order.
    Orders([PathNo; 2]),
    /// Nothing is counted.
    CountsNothing,
}

/// Whether a line holds that changes the trail, or is shown by it.
fn holds_on(
    trail: &mut Trail<'_>,
    instance: &Instance,
    sends: &mut SmallVec<Event, 8>,
    line: Line<'_>,
) -> bool
    requires { instance.now ≡ trail.old.opening.net }
    ensures { trail.new.opening ≡ trail.old.opening }
{
    let (event, due) = match line {
        Line::Hears(time, src, seq, path, (rib, sent)) => {
            (update(time, src, seq, path, 0), Ok((PathNo(rib), sent)))
        }
        Line::Meets(time, seq, body, (rib, sent)) => {
            (event(time, 1, seq, body), Ok((PathNo(rib), sent)))
        }
        Line::Refuses(time, seq, body) => {
            (
                event(time, 1, seq, body),
                Err(OrMemory::Fault(Fault::Foreign)),
            )
        }
        Line::Undoes(len, (rib, sent)) => {
            return back(trail, instance, len, sends) == (PathNo(rib), sent);
        }
        line => return shows(trail, sends, line),
    };
    step(trail, instance, &event) == due
}

/// Whether the trail shows what a line says, which changes nothing.
fn shows(trail: &Trail<'_>, sends: &[Event], line: Line<'_>) -> bool {
    let router = trail.router();
    match line {
        Line::Keeps(len) => trail.len() == len,
        Line::Unsent(expected) => times(sends, expected),
        Line::Ranks(ranks) => router.rank_row() == ranks.as_slice(),
        Line::FirstOfRank(rank, place) => first_equal(router.rank_row(), rank) == Some(place),
        Line::Bars(barred) => router.barred() == barred.as_slice(),
        Line::Orders(order) => router.order() == order.as_slice(),
        Line::CountsNothing => router.counters() == NO_COUNTS,
        _ => false,
    }
}

/// Whether the lines hold one after the other.
fn goes_by(
    trail: &mut Trail<'_>,
    instance: &Instance,
    sends: &mut SmallVec<Event, 8>,
    lines: &[Line<'_>],
) -> bool
    requires { instance.now ≡ trail.old.opening.net }
{
    for line in lines {
        if !holds_on(trail, instance, sends, *line) {
            return false;
        }
    }
    true
}

/// Whether the lines hold of a trail that begins with no event.
pub(super) fn goes_from_the_start(alloc: Global, instance: &Instance, lines: &[Line<'_>]) -> bool
    requires { 1 < instance.now.nodes }
{
    let Ok(router) = router(alloc, instance, NO_COUNTS) else {
        return false;
    };
    let (mut trail, mut sends) = (Trail::over(alloc, router), SmallVec::new(alloc));
    let holds = goes_by(&mut trail, instance, &mut sends, lines);
    drop(sends);
    drop(trail);
    holds
}

/// A trail goes back to each earlier state.
pub(super) const STATES: [Line<'static>; 12] = [
    Line::Hears(1, 0, 0, 1, (3, 2)),
    Line::Hears(3, 2, 1, 5, (2, 4)),
    Line::Hears(4, 2, 2, 0, (3, 6)),
    Line::Undoes(3, (3, 6)),
    Line::Unsent(&[]),
    Line::Keeps(3),
    Line::Undoes(1, (3, 2)),
    Line::Unsent(&[(5, 4), (5, 5), (4, 2), (4, 3)]),
    Line::Keeps(1),
    Line::Undoes(0, (0, 0)),
    Line::Unsent(&[(5, 4), (5, 5), (4, 2), (4, 3), (2, 0), (2, 1)]),
    Line::CountsNothing,
];

/// The rank row follows what is heard, and goes back.
pub(super) const RANKS: [Line<'static>; 8] = [
    Line::Ranks([0, 0]),
    Line::Hears(1, 0, 0, 1, (3, 2)),
    Line::Ranks([1, 0]),
    Line::Hears(3, 2, 1, 5, (2, 4)),
    Line::Ranks([1, 2]),
    Line::FirstOfRank(2, 1),
    Line::Undoes(0, (0, 0)),
    Line::Ranks([0, 0]),
];

/// An exchange of ranks is taken back.
pub(super) const EXCHANGE: [Line<'static>; 6] = [
    Line::Hears(1, 0, 0, 1, (2, 2)),
    Line::Meets(8, 1, Body::Swap(1, 2), (2, 2)),
    Line::Orders([PathNo(3), PathNo(2)]),
    Line::Undoes(1, (2, 2)),
    Line::Unsent(&[]),
    Line::Orders([PathNo(2), PathNo(3)]),
];

/// A path that is forbidden is given up, and comes back where that is undone.
pub(super) const FORBIDDEN: [Line<'static>; 10] = [
    Line::Hears(1, 0, 0, 1, (3, 2)),
    Line::Meets(2, 1, Body::Forbid(2), (0, 4)),
    Line::Ranks([0, 0]),
    Line::Meets(3, 2, Body::Forbid(2), (0, 4)),
    Line::Undoes(2, (0, 4)),
    Line::Bars([false, true]),
    Line::Undoes(1, (3, 2)),
    Line::Unsent(&[(3, 2), (3, 3)]),
    Line::Bars([false, false]),
    Line::Ranks([1, 0]),
];

/// A path that is allowed again is taken up, and is forbidden where that is undone.
pub(super) const ALLOWED: [Line<'static>; 9] = [
    Line::Meets(0, 1, Body::Forbid(2), (0, 0)),
    Line::Hears(1, 0, 0, 1, (0, 0)),
    Line::Meets(2, 2, Body::Allow(2), (3, 2)),
    Line::Meets(3, 3, Body::Allow(2), (3, 2)),
    Line::Undoes(2, (0, 0)),
    Line::Bars([false, true]),
    Line::Ranks([0, 0]),
    Line::Hears(4, 2, 0, 5, (2, 2)),
    Line::Refuses(5, 4, Body::Forbid(3)),
];
