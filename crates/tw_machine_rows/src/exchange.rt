//! The exchange by calls.

use crate::dealt::{DealRow, are_dealt_so, is_dealt_so};
use crate::messages::{ONE_TO_2, ONE_TO_ORIGIN, ORIGIN_TO_1, ORIGIN_TO_2, list};
use crate::owners::owned_at_last;
use std::alloc::Global;
use tw_event::Event;
use tw_exchange::{Back, Exchange, Signed, Visit, VisitFault};
use tw_model::OrMemory;

/// Who says the worker of a router.
#[derive(Clone, Copy)]
pub(crate) enum Dealing {
    /// Routers are dealt out in turn.
    InTurn,
    /// A list has the worker of each router.
    By(&'static [u32]),
}

/// A worker's visit, how it is answered, and what it leaves.
#[derive(Clone, Copy)]
pub(crate) struct Row<'a> {
    pub(crate) worker: u32,
    /// What it deposits.
    pub(crate) out: &'a [Signed<Event>],
    /// The least time that it reports.
    pub(crate) told: Option<u64>,
    /// The mail that it is handed, or the fault for which the visit is refused.
    pub(crate) answer: Result<&'a [Signed<Event>], VisitFault>,
    /// The bound that is left.
    pub(crate) bound: u64,
    /// The report of the worker that is left.
    pub(crate) report: Option<u64>,
}

/// What happens at an exchange, or what it shows.
#[derive(Clone, Copy)]
pub(crate) enum Line<'a> {
    /// A visit, where what is deposited goes message by message.
    Visits(Row<'a>),
    /// A visit, where what is deposited was dealt before.
    VisitsDealt(Row<'a>),
    /// Messages are dealt to the workers before any visit, one list after another.
    Deals(&'a [DealRow<'a>]),
    /// The mail for a router is taken out.
    TakesFor(u32, &'a [Signed<Event>]),
    Halts,
    /// It is opened again to this stop, which is not before its own.
    Reopens(u64),
    /// It has this stop, and whether it is halted.
    HasStop(u64, bool),
    HasWorkers(u32),
    HasBound(u64),
    /// The mail that is left for a worker.
    HasMail(u32, &'a [Signed<Event>]),
    /// The worker of a router.
    HasOwner(u32, Option<u32>),
}

/// An exchange of two workers, with the bound 0 and the stop 20, made once more where memory was refused.
fn made(alloc: Global, dealing: Dealing) -> Option<Exchange> {
    let Dealing::By(owners) = dealing else {
        return match Exchange::new(alloc, 2, 0, 20) {
            Err(_) => Exchange::new(alloc, 2, 0, 20).ok(),
            made => made.ok(),
        };
    };
    owned_at_last(alloc, owners)
}

/// A visit, once more where memory was refused.
fn visit(
    exchange: &mut Exchange,
    worker: u32,
    out: Vec<Signed<Event>>,
    report: Option<u64>,
) -> Result<Visit, Back> {
    match exchange.visit(worker, out, report) {
        Err(
            Back {
                out,
                why: OrMemory::Memory,
            },
        ) => exchange.visit(worker, out, report),
        answer => answer,
    }
}

/// Whether a visit is answered so: by what is handed out and the bound, or by the fault and what would be deposited.
fn is_answer(answer: &Result<Visit, Back>, row: &Row<'_>, halted: bool) -> bool {
    match (answer, row.answer) {
        (Ok(visit), Ok(mail)) => {
            visit.mail.as_slice() == mail && visit.bound == row.bound && visit.halted == halted
        }
        (Err(back), Err(fault)) => {
            back.out.as_slice() == row.out && back.why == OrMemory::Fault(fault)
        }
        _ => false,
    }
}

/// Whether a visit is answered so where nothing is dealt before.
fn is_so(exchange: &mut Exchange, row: &Row<'_>, alloc: Global) -> bool {
    let halted = exchange.is_halted();
    let Ok(out) = list(alloc, row.out) else {
        return false;
    };
    let answer = visit(exchange, row.worker, out, row.told);
    let is_so = is_answer(&answer, row, halted);
    drop(answer);
    is_so
}

/// Whether an exchange is left so by a visit.
fn is_left(exchange: &Exchange, row: &Row<'_>) -> bool {
    exchange.bound() == row.bound && exchange.report(row.worker) == row.report
}

/// Whether this is the mail for a router, which is taken out, once more where memory was refused.
fn takes_for(exchange: &mut Exchange, router: u32, mail: &[Signed<Event>], alloc: Global) -> bool {
    let mut to = Vec::new(alloc);
    (exchange.take_for(router, &mut to).is_ok() || exchange.take_for(router, &mut to).is_ok())
        && to.as_slice() == mail
}

/// Whether an exchange is opened again to a stop that is not before its own.
fn reopens(exchange: &mut Exchange, stop: u64) -> bool {
    if stop < exchange.stop() {
        return false;
    }
    exchange.reopen(stop);
    true
}

/// Whether a line holds that changes an exchange, or is shown by it.
fn holds_on(exchange: &mut Exchange, line: &Line<'_>, alloc: Global) -> bool {
    match line {
        Line::Visits(row) => is_so(exchange, row, alloc) && is_left(exchange, row),
        Line::VisitsDealt(row) => is_dealt_so(exchange, row, alloc) && is_left(exchange, row),
        Line::Deals(deals) => are_dealt_so(exchange, deals, alloc),
        Line::TakesFor(router, mail) => takes_for(exchange, *router, mail, alloc),
        Line::Halts => {
            exchange.halt();
            true
        }
        Line::Reopens(stop) => reopens(exchange, *stop),
        line => shows(exchange, line),
    }
}

/// Whether an exchange is as a line says, which changes nothing.
fn shows(exchange: &Exchange, line: &Line<'_>) -> bool {
    match line {
        Line::HasStop(stop, halted) => exchange.stop() == *stop && exchange.is_halted() == *halted,
        Line::HasWorkers(workers) => exchange.workers() == *workers,
        Line::HasBound(bound) => exchange.bound() == *bound,
        Line::HasMail(worker, mail) => exchange.mail(*worker) == *mail,
        Line::HasOwner(router, owner) => exchange.owner(*router) == *owner,
        _ => false,
    }
}

/// Whether the lines hold one after the other.
fn goes_by(exchange: &mut Exchange, lines: &[Line<'_>], alloc: Global) -> bool {
    for line in lines {
        if !holds_on(exchange, line, alloc) {
            return false;
        }
    }
    true
}

/// Whether the lines of all groups hold, one after the other.
fn goes_by_all(exchange: &mut Exchange, groups: &[&[Line<'_>]], alloc: Global) -> bool {
    for lines in groups {
        if !goes_by(exchange, lines, alloc) {
            return false;
        }
    }
    true
}

/// What holds of an exchange.
pub(crate) struct Holding {
    pub(crate) name: &'static str,
    pub(crate) dealing: Dealing,
    /// The lines, in groups.
    pub(crate) groups: &'static [&'static [Line<'static>]],
}

/// Whether all its lines hold of a new exchange.
pub(crate) fn holds(alloc: Global, row: &Holding) -> bool {
    let Some(mut exchange) = made(alloc, row.dealing) else {
        return false;
    };
    let holds = goes_by_all(&mut exchange, row.groups, alloc);
    drop(exchange);
    holds
}

/// No mail is left, and the workers may go on.
pub(crate) const NO_MAIL: [Line<'static>; 3] = [
    Line::HasMail(0, &[]),
    Line::HasMail(1, &[]),
    Line::HasStop(20, false),
];

/// Visits hand out mail and raise the bound.
const BOUND_RISES: [Line<'static>; 4] = [
    Line::Visits(Row {
        worker: 0,
        out: &[ORIGIN_TO_1, ORIGIN_TO_2],
        told: None,
        answer: Ok(&[ORIGIN_TO_2]),
        bound: 0,
        report: Some(5),
    }),
    Line::Visits(Row {
        worker: 1,
        out: &[],
        told: None,
        answer: Ok(&[ORIGIN_TO_1]),
        bound: 1,
        report: Some(1),
    }),
    Line::Visits(Row {
        worker: 1,
        out: &[ONE_TO_ORIGIN, ONE_TO_2],
        told: None,
        answer: Ok(&[]),
        bound: 2,
        report: None,
    }),
    Line::Visits(Row {
        worker: 0,
        out: &[],
        told: Some(5),
        answer: Ok(&[ONE_TO_ORIGIN, ONE_TO_2]),
        bound: 2,
        report: Some(2),
    }),
];

/// Two visits raise the bound to 2.
pub(crate) const RISES_TO_2: [Line<'static>; 2] = [
    Line::Visits(Row {
        worker: 0,
        out: &[],
        told: Some(5),
        answer: Ok(&[]),
        bound: 0,
        report: Some(5),
    }),
    Line::Visits(Row {
        worker: 1,
        out: &[ONE_TO_ORIGIN, ONE_TO_2],
        told: None,
        answer: Ok(&[]),
        bound: 2,
        report: None,
    }),
];

/// A visit of nobody, where the bound is 2.
pub(crate) const OF_NOBODY: Row<'static> = Row {
    worker: 2,
    out: &[],
    told: None,
    answer: Err(VisitFault::NoWorker),
    bound: 2,
    report: None,
};

/// A visit with a message of the past, where the bound is 2.
pub(crate) const OF_THE_PAST: Row<'static> = Row {
    worker: 0,
    out: &[ORIGIN_TO_1],
    told: Some(5),
    answer: Err(VisitFault::Early),
    bound: 2,
    report: Some(5),
};

/// A visit of nobody with such a message.
pub(crate) const OF_NOBODY_OF_THE_PAST: Row<'static> = Row {
    worker: 2,
    out: &[ORIGIN_TO_1],
    told: Some(5),
    answer: Err(VisitFault::NoWorker),
    bound: 2,
    report: None,
};

/// Visits of nobody and of the past are refused.
const REFUSED: [Line<'static>; 3] = [
    Line::Visits(OF_NOBODY),
    Line::Visits(OF_THE_PAST),
    Line::Visits(OF_NOBODY_OF_THE_PAST),
];

/// What was deposited where the bound rose to 2 is left, and the workers may go on.
pub(crate) const MAIL_FOR_0: [Line<'static>; 3] = [
    Line::HasMail(0, &[ONE_TO_ORIGIN, ONE_TO_2]),
    Line::HasMail(1, &[]),
    Line::HasStop(20, false),
];

/// An exchange that is halted tells a visit so, and is opened again to another stop.
const HALTED: [Line<'static>; 7] = [
    Line::Halts,
    Line::Visits(Row {
        worker: 1,
        out: &[],
        told: Some(30),
        answer: Ok(&[]),
        bound: 0,
        report: Some(30),
    }),
    Line::HasStop(20, true),
    Line::HasWorkers(2),
    Line::Reopens(25),
    Line::HasStop(25, false),
    Line::HasBound(0),
];

/// What holds of an exchange whose routers are dealt out in turn.
const ROWS: [Holding; 3] = [
    Holding {
        name: "the bound rises",
        dealing: Dealing::InTurn,
        groups: &[&BOUND_RISES, &NO_MAIL],
    },
    Holding {
        name: "nobody and the past",
        dealing: Dealing::InTurn,
        groups: &[&RISES_TO_2, &REFUSED, &MAIL_FOR_0],
    },
    Holding {
        name: "halted",
        dealing: Dealing::InTurn,
        groups: &[&HALTED],
    },
];

#[test]
fn visits_hand_out_mail_and_raise_the_bound(rt: HostRuntime) {
    for row in &ROWS {
        assert!(rt; holds(rt.alloc(), row), "{}", row.name);
    }
}
