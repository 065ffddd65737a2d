//! The writers of a router: each changes one part of it, and the ranks that rest on that part.

ghost use Rattle.std.specs.Prelude.{◌≡◌, ◌≤◌, ◌<◌, length};
ghost use Rattle.std.specs.List.{All};
ghost use Rattle.tw_model.specs.Net.{IsPath};
ghost use Rattle.tw_model.specs.State.{IsCounted, row as row_of};
ghost use Rattle.tw_model.specs.Effect.{with_bar, with_row, with_swap};

use super::Router;
use crate::ranks::{greatest_after, refresh, refresh_slot};
use tw_event::PathNo;
use tw_instance::Instance;
use tw_lanes::best_rank;
use tw_model::{Counters, Row};

impl<'a> Router<'a> {
    /// Changes the path that it uses.
    #[inline(always)]
    pub fn set_rib(&mut self, path: PathNo)
        requires { IsPath self.old.net path }
        ensures { self.new ≡ record self.old { state = record self.old.state { rib = path } } }
    {
        self.rib = path;
    }

    /// Changes what it keeps of the neighbour of a slot. The instance is the router's own.
    #[inline(always)]
    pub fn set_row(&mut self, instance: &Instance, slot: usize, row: Row)
        requires own { instance.now ≡ self.old.net }
        requires slot { slot < length self.old.state.rows }
        requires path { IsPath self.old.net row.heard }
        requires session { row.session ≤ self.old.state.counters.handled }
        ensures { self.new ≡ record self.old { state = with_row self.old.state slot row } }
    {
        let node = self.node;
        let before = self.ranks[slot];
        refresh_slot(
            instance,
            node,
            slot,
            &self.order,
            &self.barred,
            self.altered,
            row,
            &mut self.ranks,
        );
        self.greatest = greatest_after(self.greatest, before, &self.ranks, slot);
        self.rows[slot] = row;
    }

    /// Writes the rank of a slot anew. The instance is the router's own.
    ///
    /// The writers do this themselves where a rank may change, so a router's ranks are always those of its
    /// rows, its order and its bars, and the call changes nothing that can be read.
    pub fn refresh_slot(&mut self, instance: &Instance, slot: usize)
        requires own { instance.now ≡ self.old.net }
        requires slot { slot < length self.old.state.rows }
        ensures { self.new ≡ self.old }
    {
        let node = self.node;
        let row = self.row(slot);
        refresh_slot(
            instance,
            node,
            slot,
            &self.order,
            &self.barred,
            self.altered,
            row,
            &mut self.ranks,
        );
    }

    /// Changes the path that was heard from the neighbour of a slot. The instance is the router's own.
    #[inline(always)]
    pub fn set_heard(&mut self, instance: &Instance, slot: usize, path: PathNo)
        requires own { instance.now ≡ self.old.net }
        requires slot { slot < length self.old.state.rows }
        requires path { IsPath self.old.net path }
        ensures { self.new
            ≡ record self.old { state = with_row self.old.state slot (record (row_of self.old.state slot) { heard = path }) } }
    {
        let row = Row {
            heard: path,
            ..self.row(slot)
        };
        let node = self.node;
        let before = self.ranks[slot];
        refresh_slot(
            instance,
            node,
            slot,
            &self.order,
            &self.barred,
            self.altered,
            row,
            &mut self.ranks,
        );
        self.greatest = greatest_after(self.greatest, before, &self.ranks, slot);
        // The row's other fields stay, so they are not written.
        self.rows[slot].heard = path;
    }

    /// Changes whether the link to the neighbour of a slot is up. The instance is the router's own.
    pub fn set_up(&mut self, instance: &Instance, slot: usize, up: bool)
        requires own { instance.now ≡ self.old.net }
        requires slot { slot < length self.old.state.rows }
        ensures { self.new
            ≡ record self.old { state = with_row self.old.state slot (record (row_of self.old.state slot) { up = up }) } }
    {
        let row = Row {
            up,
            ..self.row(slot)
        };
        self.set_row(instance, slot, row);
    }

    /// Changes the number of repairs of the link to the neighbour of a slot.
    pub fn set_session(&mut self, slot: usize, session: u64)
        requires slot { slot < length self.old.state.rows }
        requires session { session ≤ self.old.state.counters.handled }
        ensures { self.new
            ≡ record self.old { state = with_row self.old.state slot (record (row_of self.old.state slot) { session = session }) } }
    {
        self.rows[slot].session = session;
    }

    /// Exchanges the paths at two places of its order, from 1. The instance is the router's own.
    pub fn swap(&mut self, instance: &Instance, first: u32, second: u32)
        requires own { instance.now ≡ self.old.net }
        requires first_place { 0 < first }
        requires first_within { first ≤ length self.old.state.order }
        requires second_place { 0 < second }
        requires second_within { second ≤ length self.old.state.order }
        ensures { self.new ≡ record self.old { state = with_swap self.old.state first second } }
    {
        self.order.swap(first as usize - 1, second as usize - 1);
        let node = self.node;
        refresh(
            instance,
            node,
            &self.order,
            &self.barred,
            &self.rows,
            &mut self.ranks,
        );
        self.greatest = best_rank(&self.ranks);
        self.altered = true;
    }

    /// Bars the path at a place, from 1, among its permitted paths as they were given, or allows it. The
    /// instance is the router's own.
    pub fn set_barred(&mut self, instance: &Instance, line: u32, barred: bool)
        requires own { instance.now ≡ self.old.net }
        requires first { 0 < line }
        requires within { line ≤ length self.old.state.barred }
        ensures { self.new ≡ record self.old { state = with_bar self.old.state line barred } }
    {
        self.barred[line as usize - 1] = barred;
        let node = self.node;
        refresh(
            instance,
            node,
            &self.order,
            &self.barred,
            &self.rows,
            &mut self.ranks,
        );
        self.greatest = best_rank(&self.ranks);
        self.altered |= barred;
    }

    /// Changes what it counts.
    #[inline(always)]
    pub fn set_counters(&mut self, counters: Counters)
        requires counted { IsCounted counters }
        requires sessions { All (λ row. row.session ≤ counters.handled) self.old.state.rows }
        ensures { self.new ≡ record self.old { state = record self.old.state { counters = counters } } }
    {
        self.counters = counters;
    }
}
