//! A worker's right to take the table: without the exchange, and with it.
ghost use Rattle.std.specs.Prelude.{◌≡◌, ◌↔◌, ◌<◌, ◌≤◌, IfErr, IfOk, IsTrue, OnErr, OnOk, length};
ghost use Rattle.std.specs.Result.{IsErrAnd};
ghost use Rattle.crossbeam_queue.specs.Passes.{view};
ghost use Rattle.tw_exchange.specs.Board.{workers};
ghost use Rattle.tw_table.specs.Views.{IsHolding, IsVisitedBy, IsWaiting, taken};

use crate::rule::Ticket;
use tw_exchange::Exchange;

/// A worker's seat at a table.
#[derive(Drop)]
pub struct Seat {
    pub(crate) worker: u32,
    pub(crate) bound: u64,
    pub(crate) halted: bool,
    pub(crate) pass: Ticket,
    pub(crate) ghost waits: { IsWaiting worker bound halted (view pass) },
}

/// A worker's seat, with the exchange.
#[derive(Drop)]
pub struct Held {
    pub(crate) exchange: Box<Exchange>,
    pub(crate) worker: u32,
    pub(crate) pass: Ticket,
    pub(crate) ghost holds: { IsHolding worker (view pass) },
    pub(crate) ghost there: { worker < workers exchange.value },
    pub(crate) ghost visited: { IsVisitedBy worker (taken (view pass)) exchange.value },
}
