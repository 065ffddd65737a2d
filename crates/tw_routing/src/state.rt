//! What a router knows.

use std::marker::Model;
use tw_event::PathNo;
use tw_model::{Counters, Row};

/// What a router knows, without its net and its number: what contracts say of a process of this model. No value of it
/// need be made, as a `Router` of `tw_router` keeps the same.
#[derive(Drop)]
pub struct RouterState {
    rib: PathNo,
    rows: Vec<Row>,
    order: Vec<PathNo>,
    barred: Vec<bool>,
    counters: Counters,
}

impl Model for RouterState {
    ghost use Rattle.tw_model.specs.State.{State};

    ghost Value = { State };

    ghost view = { λ a. record { rib = a.rib; rows = a.rows.items; order = a.order.items; barred = a.barred.items; counters = a.counters } };
}
