//! Handling and undoing by calls.

ghost use Rattle.std.specs.Prelude.{◌≡◌, ◌<◌, IfOk};

mod trails;

use crate::cases::case;
use crate::texts::{DISAGREE, RANK_EXCHANGE};
use smallvec::SmallVec;
use std::alloc::Global;
use trails::{ALLOWED, EXCHANGE, FORBIDDEN, Line, RANKS, STATES, goes_from_the_start};
use tw_event::{Body, Event, PathNo};
use tw_handlers::{Fault, handle, undo};
use tw_instance::Instance;
use tw_model::limits::MOST_COUNTED;
use tw_model::{Counters, OrMemory};
use tw_router::{OpenFault, Router};

/// An event of router 1.
fn event(time: u64, src: u32, seq: u64, body: Body) -> Event {
    Event {
        time,
        dst: 1,
        src,
        seq,
        body,
    }
}

/// The update that router 1 gets from a neighbour.
fn update(time: u64, src: u32, seq: u64, path: u32, session: u64) -> Event {
    let path = PathNo(path);
    event(time, src, seq, Body::Update { path, session })
}

fn router(
    alloc: Global,
    instance: &Instance,
    counters: Counters,
) -> Result<Router<'_>, OrMemory<OpenFault>>
    requires { 1 < instance.now.nodes }
    ensures { IfOk result (λ router. router.net ≡ instance.now) }
{
    match Router::with_counters(alloc, instance, 1, counters) {
        Err(OrMemory::Memory) => Router::with_counters(alloc, instance, 1, counters),
        answer => answer,
    }
}

const NO_COUNTS: Counters = Counters {
    sent: 0,
    handled: 0,
    dropped: 0,
    changed: 0,
};

/// Whether these are the times and numbers of the events.
fn times(sends: &[Event], expected: &[(u64, u64)]) -> bool {
    for (event, (time, seq)) in sends.iter().zip(expected) {
        if event.time != *time || event.seq != *seq {
            return false;
        }
    }
    sends.len() == expected.len()
}

/// Whether a router has counted one event, which it dropped, and is as it was but for that.
fn has_dropped_one(router: &Router<'_>) -> bool {
    let counters = router.counters();
    counters.handled == 1
        && counters.dropped == 1
        && counters.sent == 0
        && router.rib() == PathNo::EMPTY
        && matches!(router.rows().first(), Some(row) if row.heard == PathNo::EMPTY)
}

/// Whether the router drops an update of another session, and is as it was where that is undone.
fn takes_a_drop_back(
    instance: &Instance,
    router: &mut Router<'_>,
    sends: &mut SmallVec<Event, 8>,
) -> bool
    requires { instance.now ≡ router.old.net }
{
    let event = update(1, 0, 0, 1, 1);
    let Ok(note) = handle(instance, router, &event, sends) else {
        return false;
    };
    has_dropped_one(router)
        && sends.is_empty()
        && undo(instance, router, &event, note, sends).is_ok()
        && router.counters() == NO_COUNTS
        && sends.is_empty()
}

/// Counts of a router that has so many sends, each of its five events having changed its path.
fn counts(sent: u64) -> Counters {
    Counters {
        sent,
        handled: 5,
        dropped: 0,
        changed: 5,
    }
}

/// Whether the router, which may send once more, refuses an update that it would send on, and is as it was.
fn is_full(instance: &Instance, router: &mut Router<'_>, sends: &mut SmallVec<Event, 8>) -> bool
    requires { instance.now ≡ router.old.net }
{
    handle(instance, router, &update(1, 0, 0, 1, 0), sends)
        == Err(OrMemory::Fault(Fault::CounterFull))
        && router.counters() == counts(MOST_COUNTED - 1)
        && router.rib() == PathNo::EMPTY
        && sends.is_empty()
}

/// Whether the router, which may send twice more, sends an update on to both its neighbours.
fn sends_the_last(
    instance: &Instance,
    router: &mut Router<'_>,
    sends: &mut SmallVec<Event, 8>,
) -> bool
    requires { instance.now ≡ router.old.net }
{
    handle(instance, router, &update(1, 0, 0, 1, 0), sends).is_ok()
        && times(sends, &[(2, MOST_COUNTED - 2), (2, MOST_COUNTED - 1)])
        && router.counters().sent == 1 << 48
}

/// What is asked of router 1.
#[derive(Clone, Copy)]
enum Asked<'a> {
    /// It goes on and back on a trail.
    Goes(&'a [Line<'a>]),
    /// It takes an update back that it has dropped.
    TakesADropBack,
    /// It may send once more, and refuses to send twice.
    IsFull,
    /// It may send twice more, and does.
    SendsTheLast,
    /// It is not opened with counters that no run has.
    RefusesCounters,
}

impl Asked<'_> {
    /// The counters that the router begins with.
    fn counters(self) -> Counters {
        match self {
            Asked::IsFull => counts(MOST_COUNTED - 1),
            Asked::SendsTheLast => counts(MOST_COUNTED - 2),
            _ => NO_COUNTS,
        }
    }
}

/// Whether it holds of a router.
fn holds_of(
    instance: &Instance,
    router: &mut Router<'_>,
    sends: &mut SmallVec<Event, 8>,
    asked: Asked<'_>,
) -> bool
    requires { instance.now ≡ router.old.net }
{
    match asked {
        Asked::TakesADropBack => takes_a_drop_back(instance, router, sends),
        Asked::IsFull => is_full(instance, router, sends),
        Asked::SendsTheLast => sends_the_last(instance, router, sends),
        _ => false,
    }
}

/// Whether it holds of router 1 with its counters.
fn holds_of_router_1(alloc: Global, instance: &Instance, asked: Asked<'_>) -> bool
    requires { 1 < instance.now.nodes }
{
    let Ok(mut router) = router(alloc, instance, asked.counters()) else {
        return false;
    };
    let mut sends = SmallVec::new(alloc);
    let holds = holds_of(instance, &mut router, &mut sends, asked);
    drop(sends);
    drop(router);
    holds
}

fn refuses_impossible_counters(alloc: Global, instance: &Instance) -> bool
    requires { 1 < instance.now.nodes }
{
    let mut counters = NO_COUNTS;
    counters.handled = 2;
    counters.dropped = 3;
    let refused = router(alloc, instance, counters).err();
    counters.dropped = 2;
    let is_opened = router(alloc, instance, counters).err().is_none();
    refused == Some(OrMemory::Fault(OpenFault::Counters)) && is_opened
}

/// Whether it holds in the instance of a case, which has three routers.
fn holds_in(alloc: Global, instance: &Instance, asked: Asked<'_>) -> bool {
    if instance.nodes() != 3 {
        return false;
    }
    match asked {
        Asked::Goes(lines) => goes_from_the_start(alloc, instance, lines),
        Asked::RefusesCounters => refuses_impossible_counters(alloc, instance),
        asked => holds_of_router_1(alloc, instance, asked),
    }
}

/// Whether it holds in the case of a text.
fn holds(alloc: Global, text: &str, asked: Asked<'_>) -> bool {
    let Ok(case) = case(alloc, text) else {
        return false;
    };
    let holds = holds_in(alloc, case.instance(), asked);
    drop(case);
    holds
}

/// What router 1 of a case does.
struct Row {
    name: &'static str,
    text: &'static str,
    asked: Asked<'static>,
}

/// What router 1 does.
const ROWS: [Row; 9] = [
    Row {
        name: "each state",
        text: DISAGREE,
        asked: Asked::Goes(&STATES),
    },
    Row {
        name: "the rank row",
        text: DISAGREE,
        asked: Asked::Goes(&RANKS),
    },
    Row {
        name: "an exchange",
        text: RANK_EXCHANGE,
        asked: Asked::Goes(&EXCHANGE),
    },
    Row {
        name: "a forbidden path",
        text: DISAGREE,
        asked: Asked::Goes(&FORBIDDEN),
    },
    Row {
        name: "an allowed path",
        text: DISAGREE,
        asked: Asked::Goes(&ALLOWED),
    },
    Row {
        name: "a drop is taken back",
        text: DISAGREE,
        asked: Asked::TakesADropBack,
    },
    Row {
        name: "a counter is full",
        text: DISAGREE,
        asked: Asked::IsFull,
    },
    Row {
        name: "the last two sends",
        text: DISAGREE,
        asked: Asked::SendsTheLast,
    },
    Row {
        name: "impossible counters",
        text: DISAGREE,
        asked: Asked::RefusesCounters,
    },
];

#[test]
fn router_1_goes_on_and_back(rt: HostRuntime) {
    for row in &ROWS {
        assert!(rt; holds(rt.alloc(), row.text, row.asked), "{}", row.name);
    }
}
