//! Messages that are dealt before a visit, by calls.

ghost use Rattle.std.specs.Prelude.{◌≡◌, [], IfOk, List, OnOk};
ghost use Rattle.tw_event.specs.declared.event.Event.{Event as AnEvent};
ghost use Rattle.tw_exchange.specs.Board.{AreDealt, workers};
ghost use Rattle.tw_exchange.specs.Owners.{list_of};
ghost use Rattle.tw_sim.specs.declared.machine.Signed.{Signed as ASigned};

use crate::exchange::{
    Dealing, Holding, Line, MAIL_FOR_0, NO_MAIL, OF_NOBODY, OF_NOBODY_OF_THE_PAST, OF_THE_PAST,
    RISES_TO_2, Row, holds,
};
use crate::messages::{
    EARLY_TO_1, EARLY_TO_ORIGIN, ONE_TO_2, ONE_TO_ORIGIN, ORIGIN_TO_1, ORIGIN_TO_2,
};
use std::alloc::{AllocError, Global};
use tw_event::Event;
use tw_exchange::{Exchange, Owners, Parcels, Signed, Told, VisitFault};
use tw_model::OrMemory;

/// What says the worker of each router, once more where memory was refused.
fn owners_of(exchange: &Exchange) -> Result<Owners, AllocError>
    ensures { IfOk result (λ owners. list_of owners ≡ exchange.now.owners) }
{
    match exchange.owners() {
        Err(_) => exchange.owners(),
        made => made,
    }
}

/// How a deal is answered.
type Dealt = Result<(), OrMemory<VisitFault>>;

/// Deals messages to so many workers, once more where memory was refused.
fn deal_by(owners: &Owners, workers: u32, parcels: &mut Parcels, out: &[Signed<Event>]) -> Dealt
    ensures { OnOk result (AreDealt (list_of owners.now) workers out.now parcels.new) }
{
    if workers == 0 {
        return Err(OrMemory::Fault(VisitFault::NoRouter));
    }
    match parcels.deal(owners, workers, out) {
        Err(OrMemory::Memory) => parcels.deal(owners, workers, out),
        answer => answer,
    }
}

/// Deals messages to the workers of an exchange.
fn deal(exchange: &Exchange, parcels: &mut Parcels, out: &[Signed<Event>]) -> Dealt
    ensures { OnOk result (AreDealt exchange.now.owners (workers exchange.now) out.now parcels.new) }
{
    match owners_of(exchange) {
        Ok(owners) => deal_by(&owners, exchange.workers(), parcels, out),
        Err(_) => Err(OrMemory::Memory),
    }
}

/// A visit with what is dealt, once more where memory was refused.
fn visit_dealt(
    exchange: &mut Exchange,
    worker: u32,
    parcels: &mut Parcels,
    report: Option<u64>,
    mail: &mut Vec<Signed<Event>>,
) -> Result<Told, OrMemory<VisitFault>>
    requires dealt { (out : List (ASigned AnEvent)) × AreDealt exchange.old.owners (workers exchange.old) out parcels.old }
    requires empty { mail.old.items ≡ [] }
{
    match exchange.visit_dealt(worker, parcels, report, mail) {
        Err(OrMemory::Memory) => exchange.visit_dealt(worker, parcels, report, mail),
        answer => answer,
    }
}

/// Deals messages, and visits with them.
fn deposit(
    exchange: &mut Exchange,
    row: &Row<'_>,
    parcels: &mut Parcels,
    mail: &mut Vec<Signed<Event>>,
) -> Result<Told, OrMemory<VisitFault>> {
    deal(exchange, parcels, row.out)?;
    mail.clear();
    visit_dealt(exchange, row.worker, parcels, row.told, mail)
}

/// Whether a visit with what is dealt before is answered so, and leaves nothing dealt, or all where it is refused.
fn deposits(
    exchange: &mut Exchange,
    row: &Row<'_>,
    parcels: &mut Parcels,
    mail: &mut Vec<Signed<Event>>,
) -> bool {
    let (bound, halted) = (row.bound, exchange.is_halted());
    let answer = deposit(exchange, row, parcels, mail);
    match row.answer {
        Ok(due) => {
            answer == Ok(Told { bound, halted })
                && mail.as_slice() == due
                && parcels.list(0).is_empty()
                && parcels.list(1).is_empty()
        }
        Err(fault) => answer == Err(OrMemory::Fault(fault)) && parcels.list(1) == row.out,
    }
}

/// The same where nothing is dealt yet.
pub(crate) fn is_dealt_so(exchange: &mut Exchange, row: &Row<'_>, alloc: Global) -> bool {
    let (mut parcels, mut mail) = (Parcels::new(alloc), Vec::new(alloc));
    let is_so = deposits(exchange, row, &mut parcels, &mut mail);
    drop(mail);
    drop(parcels);
    is_so
}

/// Messages that are dealt.
#[derive(Clone, Copy)]
pub(crate) struct DealRow<'a> {
    pub(crate) out: &'a [Signed<Event>],
    pub(crate) answer: Dealt,
    /// What is then dealt to workers 0, 1 and 2.
    pub(crate) lists: [&'a [Signed<Event>]; 3],
}

/// Whether messages are dealt so to the workers of an exchange.
fn is_so(exchange: &Exchange, row: &DealRow<'_>, parcels: &mut Parcels) -> bool {
    let [first, second, third] = row.lists;
    deal(exchange, parcels, row.out) == row.answer
        && parcels.list(0) == first
        && parcels.list(1) == second
        && parcels.list(2) == third
}

/// Whether all are dealt so, one list after another.
fn are_so(exchange: &Exchange, deals: &[DealRow<'_>], parcels: &mut Parcels) -> bool {
    for row in deals {
        if !is_so(exchange, row, parcels) {
            return false;
        }
    }
    true
}

/// The same where nothing is dealt yet.
pub(crate) fn are_dealt_so(exchange: &Exchange, deals: &[DealRow<'_>], alloc: Global) -> bool {
    let mut parcels = Parcels::new(alloc);
    let are_so = are_so(exchange, deals, &mut parcels);
    drop(parcels);
    are_so
}

/// Messages are dealt by worker.
const DEALT: [Line<'static>; 1] = [Line::Deals(&[
    DealRow {
        out: &[ORIGIN_TO_1, ORIGIN_TO_2],
        answer: Ok(()),
        lists: [&[ORIGIN_TO_2], &[ORIGIN_TO_1], &[]],
    },
    DealRow {
        out: &[ONE_TO_ORIGIN, ONE_TO_2],
        answer: Ok(()),
        lists: [&[ONE_TO_ORIGIN, ONE_TO_2], &[], &[]],
    },
])];

/// Visits hand out what is dealt.
const HANDED_OUT: [Line<'static>; 3] = [
    Line::VisitsDealt(Row {
        worker: 0,
        out: &[ORIGIN_TO_1, ORIGIN_TO_2],
        told: None,
        answer: Ok(&[ORIGIN_TO_2]),
        bound: 0,
        report: Some(5),
    }),
    Line::VisitsDealt(Row {
        worker: 0,
        out: &[EARLY_TO_ORIGIN, EARLY_TO_1],
        told: Some(7),
        answer: Ok(&[EARLY_TO_ORIGIN]),
        bound: 0,
        report: Some(7),
    }),
    Line::VisitsDealt(Row {
        worker: 1,
        out: &[],
        told: None,
        answer: Ok(&[ORIGIN_TO_1, EARLY_TO_1]),
        bound: 1,
        report: Some(1),
    }),
];

/// Dealt messages of nobody and of the past are refused.
const REFUSED: [Line<'static>; 3] = [
    Line::VisitsDealt(OF_NOBODY),
    Line::VisitsDealt(OF_THE_PAST),
    Line::VisitsDealt(OF_NOBODY_OF_THE_PAST),
];

/// Messages for nobody are not dealt.
const FOR_NOBODY: [Line<'static>; 1] = [Line::Deals(&[DealRow {
    out: &[ORIGIN_TO_1, ORIGIN_TO_2],
    answer: Err(OrMemory::Fault(VisitFault::NoRouter)),
    lists: [&[], &[], &[]],
}])];

/// What holds of an exchange with which messages are dealt before a visit.
const ROWS: [Holding; 4] = [
    Holding {
        name: "dealt by worker",
        dealing: Dealing::InTurn,
        groups: &[&DEALT],
    },
    Holding {
        name: "handed out",
        dealing: Dealing::InTurn,
        groups: &[&HANDED_OUT, &NO_MAIL],
    },
    Holding {
        name: "nobody and the past",
        dealing: Dealing::InTurn,
        groups: &[&RISES_TO_2, &REFUSED, &MAIL_FOR_0],
    },
    Holding {
        name: "for nobody",
        dealing: Dealing::By(&[1, 1]),
        groups: &[&FOR_NOBODY],
    },
];

#[test]
fn messages_are_dealt_by_worker(rt: HostRuntime) {
    for row in &ROWS {
        assert!(rt; holds(rt.alloc(), row), "{}", row.name);
    }
}
