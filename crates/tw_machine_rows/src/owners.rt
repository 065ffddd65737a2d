//! An exchange with a list of owners by calls.

ghost use Rattle.std.specs.Prelude.{◌≡◌, [], ◌∷◌, IfSome};
ghost use Rattle.tw_exchange.specs.Board.{opening_owned, visited};

use crate::exchange::{Dealing, Holding, Line, NO_MAIL, Row, holds};
use crate::messages::{ONE_TO_2, ONE_TO_ORIGIN, ORIGIN_TO_1, ORIGIN_TO_2};
use std::alloc::Global;
use tw_exchange::{Exchange, VisitFault};

/// An exchange of two workers with these owners, with the bound 0 and the stop 20.
fn owned(alloc: Global, owners: &[u32]) -> Option<Exchange>
    ensures { IfSome result (λ x. x ≡ opening_owned owners.now 2 0 20) }
{
    let owners = Vec::from_slice(alloc, owners).ok()?;
    Exchange::with_owners(alloc, 2, 0, 20, owners).ok()
}

/// The same, made once more where memory was refused.
pub(crate) fn owned_at_last(alloc: Global, owners: &[u32]) -> Option<Exchange>
    ensures { IfSome result (λ x. x ≡ opening_owned owners.now 2 0 20) }
{
    match owned(alloc, owners) {
        None => owned(alloc, owners),
        exchange => exchange,
    }
}

/// Owners are those of the list.
const LISTED: [Line<'static>; 4] = [
    Line::HasOwner(0, Some(1)),
    Line::HasOwner(1, Some(1)),
    Line::HasOwner(2, Some(0)),
    Line::HasOwner(3, None),
];

/// A worker that the exchange has not has no router.
const LISTED_IN_PART: [Line<'static>; 4] = [
    Line::HasOwner(0, Some(0)),
    Line::HasOwner(1, None),
    Line::HasOwner(2, None),
    Line::HasOwner(3, None),
];

/// Mail goes by owners.
const HANDED_OUT: [Line<'static>; 2] = [
    Line::Visits(Row {
        worker: 0,
        out: &[ORIGIN_TO_1, ORIGIN_TO_2],
        told: None,
        answer: Ok(&[ORIGIN_TO_2]),
        bound: 0,
        report: Some(5),
    }),
    Line::Visits(Row {
        worker: 1,
        out: &[],
        told: None,
        answer: Ok(&[ORIGIN_TO_1]),
        bound: 1,
        report: Some(1),
    }),
];

/// What worker 0 deposits for router 2 of worker 1 is taken out, and the other mail is left.
const TAKEN_OUT: [Line<'static>; 4] = [
    Line::Visits(Row {
        worker: 0,
        out: &[ORIGIN_TO_1, ORIGIN_TO_2],
        told: None,
        answer: Ok(&[]),
        bound: 0,
        report: None,
    }),
    Line::Visits(Row {
        worker: 0,
        out: &[ONE_TO_ORIGIN, ONE_TO_2],
        told: None,
        answer: Ok(&[]),
        bound: 0,
        report: None,
    }),
    Line::TakesFor(2, &[ORIGIN_TO_2, ONE_TO_2]),
    Line::HasMail(1, &[ORIGIN_TO_1, ONE_TO_ORIGIN]),
];

/// A visit for a router without a worker is refused.
const FOR_NOBODY: [Line<'static>; 1] = [Line::Visits(Row {
    worker: 0,
    out: &[ORIGIN_TO_1, ORIGIN_TO_2],
    told: Some(3),
    answer: Err(VisitFault::NoRouter),
    bound: 0,
    report: Some(0),
})];

/// What holds of an exchange with a list of owners.
const ROWS: [Holding; 5] = [
    Holding {
        name: "listed",
        dealing: Dealing::By(&[1, 1, 0]),
        groups: &[&LISTED],
    },
    Holding {
        name: "listed in part",
        dealing: Dealing::By(&[0, 2]),
        groups: &[&LISTED_IN_PART],
    },
    Holding {
        name: "handed out",
        dealing: Dealing::By(&[1, 1, 0]),
        groups: &[&HANDED_OUT, &NO_MAIL],
    },
    Holding {
        name: "taken out",
        dealing: Dealing::By(&[1, 1, 1]),
        groups: &[&TAKEN_OUT],
    },
    Holding {
        name: "for nobody",
        dealing: Dealing::By(&[1, 1]),
        groups: &[&FOR_NOBODY, &NO_MAIL],
    },
];

#[test]
fn mail_goes_by_owners(rt: HostRuntime) {
    for row in &ROWS {
        assert!(rt; holds(rt.alloc(), row), "{}", row.name);
    }
}

/// Whether worker 0, which has told 5, comes to have router 1, and its report then is the bound.
fn is_given(exchange: &mut Exchange) -> bool
    requires { exchange.old ≡ visited 0 [] (Some 5) (opening_owned (1 ∷ 1 ∷ 0 ∷ []) 2 0 20) }
{
    let told = exchange.report(0) == Some(5);
    exchange.set_owner(1, 0);
    told && exchange.owner(1) == Some(0)
        && exchange.owner(0) == Some(1)
        && exchange.report(0) == Some(0)
}

fn gives_a_router(alloc: Global) -> bool {
    let Some(mut exchange) = owned_at_last(alloc, &[1, 1, 0]) else {
        return false;
    };
    match exchange.visit(0, Vec::new(alloc), Some(5)) {
        Ok(_) => is_given(&mut exchange),
        Err(_) => false,
    }
}

#[test]
fn a_router_is_given_to_another_worker(rt: HostRuntime) {
    assert!(rt; gives_a_router(rt.alloc()));
}
