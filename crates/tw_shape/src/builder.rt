//! Making shapes.

ghost use Rattle.std.specs.Prelude.{◌≡◌, ◌≤◌, ◌+◌, [], ◌∷◌, ◌++◌, length, map, slice_index, vec_capacity, vec_len, OnErr, OnOk};
ghost use Rattle.tw_event.specs.Order.{event_before};
ghost use Rattle.tw_shape.specs.Shape.{seen_from};
ghost use Rattle.tw_sim.specs.Ordered.{insert_all};

use crate::seen::Seen;
use crate::shape::{Parts, Shape, Span};
use std::alloc::{AllocError, Global};
use std::marker::Model;
use tw_event::{Event, PathNo};
use tw_model::Row;

/// Gathers a run's routers, in ascending order, and then its pending events, into the shape at a time.
#[derive(Drop, Debug)]
pub struct ShapeBuilder {
    time: u64,
    spans: Vec<Span>,
    rows: Vec<Row>,
    order: Vec<PathNo>,
    barred: Vec<bool>,
    sent: Vec<u64>,
}

impl Model for ShapeBuilder {
    ghost use Rattle.tw_shape.specs.Shape as shape;
    ghost use Rattle.tw_shape.specs.Packed.{Covers, routers_of};

    ghost Value = { shape.Draft };

    ghost view = { λ a. record { time = a.time; routers = routers_of a.spans.items a.rows.items a.order.items a.barred.items; sent = a.sent.items } };

    ghost invariant = { λ a. Covers a.spans.items a.rows.items a.order.items a.barred.items };
}

impl ShapeBuilder {
    /// No routers, for the shape at `time`, in ticks.
    pub fn new(alloc: Global, time: u64) -> ShapeBuilder
        ensures { result ≡ record { time = time; routers = []; sent = [] } }
    {
        ShapeBuilder {
            time,
            spans: Vec::new(alloc),
            rows: Vec::new(alloc),
            order: Vec::new(alloc),
            barred: Vec::new(alloc),
            sent: Vec::new(alloc),
        }
    }

    /// Takes room for so many routers, rows and paths of orders, and for as many bars as paths, before they
    /// are added, so that no list grows while they are. It adds nothing.
    pub fn reserve(&mut self, routers: usize, rows: usize, paths: usize) -> Result<(), AllocError>
        ensures { self.new ≡ self.old }
    {
        self.spans.reserve(routers)?;
        self.rows.reserve(rows)?;
        self.order.reserve(paths)?;
        self.barred.reserve(paths)?;
        self.sent.reserve(routers)
    }

    /// Adds the next router: its path, its rows, its order, which of its paths are barred, and how many
    /// messages it has sent. An error changes nothing.
    pub fn add_router(
        &mut self,
        rib: PathNo,
        rows: &[Row],
        order: &[PathNo],
        barred: &[bool],
        sent: u64,
    ) -> Result<(), AllocError>
        ensures ok { OnOk result
            (self.new ≡ record self.old { routers = self.old.routers ++ record { rib = rib; rows = rows.now; order = order.now; barred = barred.now } ∷ []; sent = self.old.sent ++ sent ∷ [] }) }
        ensures err { OnErr result (self.new ≡ self.old) }
    {
        self.spans.reserve(1)?;
        self.rows.reserve(rows.len())?;
        self.order.reserve(order.len())?;
        self.barred.reserve(barred.len())?;
        self.sent.push(sent)?;
        self.spans.push_reserved(Span {
            rib,
            rows: rows.len(),
            order: order.len(),
            barred: barred.len(),
        });
        put_each(&mut self.rows, rows);
        put_each(&mut self.order, order);
        put_each(&mut self.barred, barred);
        Ok(())
    }

    /// The shape, with these events pending, in any order.
    pub fn finish(self, pending: Vec<Event>) -> Shape
        ensures { result ≡ record {
          routers = self.routers;
          pending = map (λ e. seen_from self.time (slice_index self.sent e.src) e) (insert_all event_before pending.items []);
        } }
    {
        let parts = Parts {
            spans: self.spans,
            rows: self.rows,
            order: self.order,
            barred: self.barred,
        };
        let pending = Seen {
            time: self.time,
            sent: self.sent,
            events: pending,
        };
        Shape::of_parts(parts, pending)
    }
}

// So many items are put in one by one: a call to copy them all costs more.
const FEW_ITEMS: usize = 8;

/// Puts items at the end of a list that has room for them.
#[inline(always)]
fn put_each<T: Copy>(list: &mut Vec<T>, items: &[T])
    requires { vec_len list.old + length items.now ≤ vec_capacity list.old }
    ensures { list.new.items ≡ list.old.items ++ items.now }
{
    if items.len() > FEW_ITEMS {
        list.extend_from_slice(items).unwrap();
        return;
    }
    for item in items {
        list.push_reserved(*item);
    }
}
