//! What a machine of all routers does and shows, by calls.

use crate::machine::{Line, Machine};
use std::alloc::Global;
use tw_core::limits::OPENING_ROOM;
use tw_rows::cases::many_exchanges;
use tw_rows::texts::DISAGREE;
use tw_sim::{Cancel, Step};
use tw_warp::{OrMemory, Refusal, StopLower};

/// One worker, who takes back at once.
const ONE: Machine = Machine {
    workers: 1,
    cancel: Cancel::Aggressive,
};

/// Two workers, who take back at once.
const TWO: Machine = Machine {
    workers: 2,
    cancel: Cancel::Aggressive,
};

/// A worker for each router of DISAGREE, who takes back at once.
const THREE: Machine = Machine {
    workers: 3,
    cancel: Cancel::Aggressive,
};

/// Two workers, who hold what undone events had sent.
const LAZY: Machine = Machine {
    workers: 2,
    cancel: Cancel::Lazy,
};

/// The stop never falls, nor rises past its limit.
const STOP_IS_KEPT: [Line<'static>; 7] = [
    Line::SetsStop(19, Err(StopLower)),
    Line::SetsStop(1_000_000_001, Err(StopLower)),
    Line::HasStop(20),
    Line::SetsStop(20, Ok(())),
    Line::HasStop(20),
    Line::SetsStop(30, Ok(())),
    Line::HasStop(30),
];

/// Steps of the machine, each with the messages on their way after it: router 2 hears the origin before
/// router 1, and takes back what it has sent when the earlier offer of router 1 comes.
pub(crate) const STRAGGLER: [(Step, &str); 11] = [
    (Step::Handle(0), "mn"),
    (Step::Deliver(2), "m"),
    (Step::Handle(2), "mab"),
    (Step::Deliver(1), "ab"),
    (Step::Handle(1), "abcd"),
    (Step::Deliver(4), "abcAB"),
    (Step::Handle(2), "abcABef"),
    (Step::Handle(2), "abcABef"),
    (Step::Deliver(1), "bcABef"),
    (Step::Deliver(3), "bcBef"),
    (Step::Deliver(3), "bcef"),
];

/// The rest of these steps.
pub(crate) const AFTER_STRAGGLER: [(Step, &str); 7] = [
    (Step::Deliver(1), "cef"),
    (Step::Deliver(1), "ef"),
    (Step::Handle(0), "ef"),
    (Step::Deliver(1), "f"),
    (Step::Handle(0), "f"),
    (Step::Deliver(1), ""),
    (Step::Handle(1), ""),
];

/// A straggler is rolled back.
const ROLLED_BACK: [Line<'static>; 5] = [
    Line::Goes(&STRAGGLER),
    Line::HasLoose(4, 0, 1),
    Line::HasAhead(4),
    Line::Goes(&AFTER_STRAGGLER),
    Line::HasLoose(0, 0, 0),
];

/// A straggler is rolled back in one call, which goes on where it was broken off, and begins again.
const ROLLED_BACK_IN_ONE_CALL: [Line<'static>; 3] = [
    Line::RollsBackInOneCall,
    Line::HasLoose(0, 0, 0),
    Line::HasAhead(7),
];

/// Router 1 has an event pending twice, handles it, and then hears that it is taken back.
const PENDING_TWICE: [Line<'static>; 2] = [
    Line::Goes(&[
        (Step::Handle(0), "mn"),
        (Step::Undo(0), "mnMN"),
        (Step::Handle(0), "mnMNmn"),
        (Step::Deliver(1), "nMNmn"),
        (Step::Deliver(4), "nMNn"),
        (Step::Handle(1), "nMNncd"),
        (Step::Deliver(2), "nNncd"),
    ]),
    Line::HasLoose(5, 0, 0),
];

/// Routers are dealt out in turn.
const DEALT_OUT: [Line<'static>; 3] = [
    Line::HasWorkers(2),
    Line::HasRouters(0, [true, false, true]),
    Line::HasRouters(1, [false, true, false]),
];

/// The origin handles its start and undoes it, four hundred times, and all that it offers is on its way.
const STARTS_OVER: [Line<'static>; 3] = [
    Line::StartsOften(400),
    Line::HasLoose(1_600, 1, 0),
    Line::HasStarts(1_600),
];

/// What holds of a machine of DISAGREE.
struct Row {
    name: &'static str,
    machine: Machine,
    lines: &'static [Line<'static>],
}

/// What holds of a machine of DISAGREE.
const ROWS: [Row; 7] = [
    Row {
        name: "the stop never falls",
        machine: ONE,
        lines: &STOP_IS_KEPT,
    },
    Row {
        name: "a straggler is rolled back",
        machine: ONE,
        lines: &ROLLED_BACK,
    },
    Row {
        name: "a straggler in one call",
        machine: TWO,
        lines: &ROLLED_BACK_IN_ONE_CALL,
    },
    Row {
        name: "a straggler once more",
        machine: TWO,
        lines: &ROLLED_BACK_IN_ONE_CALL,
    },
    Row {
        name: "a router for each worker",
        machine: THREE,
        lines: &ROLLED_BACK,
    },
    Row {
        name: "an event is pending twice",
        machine: ONE,
        lines: &PENDING_TWICE,
    },
    Row {
        name: "routers are dealt out",
        machine: TWO,
        lines: &DEALT_OUT,
    },
];

#[test]
fn a_machine_takes_its_steps(rt: HostRuntime) {
    for row in &ROWS {
        assert!(rt;
            row.machine.holds(rt.alloc(), DISAGREE, row.lines),
            "{}",
            row.name
        );
    }
}

#[test]
fn many_messages_are_on_their_way(rt: HostRuntime) {
    assert!(rt; TWO.holds(rt.alloc(), DISAGREE, &STARTS_OVER));
}

/// Lazy cancellation: router 2 undoes an offer when a straggler comes, and sends another; after the bound it releases
/// what it had sent first, in the order of events, and the antimessage reaches a router that has handled the message.
/// What is held counts for the bound until it is released.
const RELEASED: [Line<'static>; 13] = [
    Line::GoesInOneCall(&[
        Step::Handle(0),
        Step::Deliver(2),
        Step::Handle(2),
        Step::Deliver(1),
        Step::Handle(1),
        Step::Deliver(4),
        Step::Handle(2),
        Step::Handle(2),
        Step::Deliver(3),
        Step::Handle(0),
        Step::Deliver(4),
        Step::Handle(1),
        Step::Deliver(3),
        Step::Handle(0),
        Step::Deliver(2),
        Step::Handle(1),
        Step::Bound,
    ]),
    Line::HasBound(6),
    Line::HasHeld(2),
    Line::HoldsFor(0, 2, Some(6)),
    Line::GoesInOneCall(&[Step::Release(2)]),
    Line::HoldsFor(0, 2, None),
    Line::HasLoose(5, 0, 0),
    Line::HasMessage(4, b'B'),
    Line::HasMessage(5, b'A'),
    Line::GoesInOneCall(&[Step::Deliver(4)]),
    Line::HasLoose(4, 0, 0),
    Line::HasHeld(2),
    Line::HasAhead(7),
];

#[test]
fn what_is_held_counts_for_the_bound_until_it_is_released(rt: HostRuntime) {
    assert!(rt; LAZY.holds(rt.alloc(), DISAGREE, &RELEASED));
}

/// The origin has no room.
const FULL: Line<'static> = Line::Takes(Step::Handle(0), Err(OrMemory::Fault(Refusal::AheadFull)));

/// The origin has room for as many events as a router begins with, and for one more once one is committed, and for twice
/// as many once it is given more; and no other router is.
const ROOM: [Line<'static>; 10] = [
    Line::HandlesOften(OPENING_ROOM),
    FULL,
    Line::Takes(Step::Bound, Ok(())),
    Line::Takes(Step::Commit(0), Ok(())),
    Line::HandlesOften(1),
    FULL,
    Line::Widens(1, Err(OrMemory::Fault(Refusal::NotMine))),
    Line::Widens(0, Ok(())),
    Line::HandlesOften(44),
    Line::HasAhead(300),
];

/// Whether the origin of a case of many exchanges has its room; the text is made once more where memory was refused.
fn has_its_room(alloc: Global) -> bool {
    let text = match many_exchanges(alloc) {
        Err(_) => many_exchanges(alloc),
        text => text,
    };
    match text {
        Ok(text) => ONE.holds(alloc, &text, &ROOM),
        Err(_) => false,
    }
}

#[test]
fn a_router_handles_no_more_than_it_has_room_for(rt: HostRuntime) {
    assert!(rt; has_its_room(rt.alloc()));
}
