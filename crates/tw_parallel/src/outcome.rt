//! What a parallel run leaves at its stop.
ghost use Rattle.std.specs.Prelude.{◌≡◌, ◌↔◌, ◌++◌, [], map, true, IfOk, IsErrOf, IsTrue, OnOk};
ghost use Rattle.std.specs.List.{range_with_len};
ghost use Rattle.tw_model.specs.Case.{simulation};
ghost use Rattle.tw_model.specs.declared.memory.OrMemory.TheVariants as or_memory;
ghost use Rattle.tw_model.specs.Quiet.{last_change};
ghost use Rattle.tw_model.specs.Summary.{end_of};
ghost use Rattle.tw_parallel.specs.Settled.{IsSettled, change_of, logged, not_settled, states_at, states_of};
ghost use Rattle.tw_parallel.specs.Sim.{IsSim, RetainsEvents, machine};
ghost use Rattle.tw_shard.specs.Shards.{greatest};
ghost use Rattle.tw_shape.specs.Shape.{bare, shape as shape_at};
ghost use Rattle.tw_sim.specs.Seq.{log as run_log, rest};

use crate::counts::{count_in_hands, count_mail};
use crate::sim::Sim;
use std::alloc::AllocError;
use thiserror::Error;
use tw_model::{OrMemory, Outcome, RouterEnd};
use tw_shape::{Shape, ShapeBuilder};
use tw_shard::shards::{count_held, count_outgoing, last_change, router_ends};

/// The bound is below the stop, a message is on its way or held, or a handled event is not committed.
#[derive(Clone, Copy, PartialEq, Eq, Debug, Error)]
#[error("the run has not come to its stop")]
pub struct NotSettled;

impl Sim<'_> {
    /// Whether the run has come to its stop: the bound is the stop, no message is on its way or held, and every
    /// handled event is committed.
    pub fn is_settled(&self) -> bool
        ensures value { IsTrue result ↔ IsSettled self.now }
        ensures sim { IsSim self.now }
    {
        if self.bound() != self.stop() {
            return false;
        }
        if !self.is_still() {
            return false;
        }
        if !self.holds_nothing() {
            return false;
        }
        self.ahead() == 0
    }

    /// Whether no message is on its way.
    fn is_still(&self) -> bool
        ensures { IsTrue result ↔ ((machine self.now).flight ≡ []) }
    {
        if count_mail(&self.exchange) > 0 {
            return false;
        }
        if count_in_hands(&self.hands) > 0 {
            return false;
        }
        count_outgoing(&self.shards) == 0
    }

    /// Whether no message is held.
    fn holds_nothing(&self) -> bool
        ensures { IsTrue result ↔ ((machine self.now).held ≡ []) }
    {
        count_held(&self.shards) == 0
    }

    /// What the run leaves at its stop, its events only where `log` asks for them: all of it is that of the
    /// one-thread run, whatever the number of workers. A run of which they are asked keeps them. It is refused
    /// where the run has not come to its stop.
    pub fn outcome(&self, log: bool) -> Result<Outcome, OrMemory<NotSettled>>
        requires { log ≡ true → RetainsEvents self.now }
        ensures settled { OnOk result (IsSettled self.now) }
        ensures refused { IsErrOf result (or_memory.Fault not_settled) ↔ (IsSettled self.now → ⊥) }
        ensures stop { IfOk result (λ left. left.stop ≡ self.now.board.stop) }
        ensures bound { IfOk result (λ left. left.bound ≡ self.now.board.stop) }
        ensures events { IfOk result (λ left. left.events.items ≡ logged log self.now.case self.now.board.stop) }
        ensures routers { IfOk result (λ left. left.routers.items ≡ map end_of (states_at self.now.case self.now.board.stop)) }
        ensures pending { IfOk result (λ left. left.pending.items ≡ rest (simulation self.now.case) self.now.board.stop) }
        ensures last_change { IfOk result (λ left. left.last_change ≡ last_change self.now.case (run_log (simulation self.now.case) self.now.board.stop)) }
    {
        if !self.is_settled() {
            return Err(OrMemory::Fault(NotSettled));
        }
        match self.settled_outcome(log) {
            Ok(outcome) => Ok(outcome),
            Err(AllocError) => Err(OrMemory::Memory),
        }
    }

    /// What a run leaves that has come to its stop.
    fn settled_outcome(&self, log: bool) -> Result<Outcome, AllocError>
        requires settled { IsSettled self.now }
        requires log { log ≡ true → RetainsEvents self.now }
        ensures stop { IfOk result (λ left. left.stop ≡ self.now.board.stop) }
        ensures bound { IfOk result (λ left. left.bound ≡ self.now.board.stop) }
        ensures events { IfOk result (λ left. left.events.items ≡ logged log self.now.case self.now.board.stop) }
        ensures routers { IfOk result (λ left. left.routers.items ≡ map end_of (states_at self.now.case self.now.board.stop)) }
        ensures pending { IfOk result (λ left. left.pending.items ≡ rest (simulation self.now.case) self.now.board.stop) }
        ensures last_change { IfOk result (λ left. left.last_change ≡ last_change self.now.case (run_log (simulation self.now.case) self.now.board.stop)) }
    {
        let events = if log {
            self.committed()?
        } else {
            Vec::new(*self.shards.allocator())
        };
        Ok(Outcome {
            stop: self.stop(),
            // Nothing pending is before the stop, so all before it is handled.
            bound: self.stop(),
            events,
            routers: self.router_ends()?,
            pending: self.pending()?,
            last_change: self.last_change(),
        })
    }

    /// The time of the last event that changed a router's path, or 0.
    pub(crate) fn last_change(&self) -> u64
        ensures { result ≡ greatest (λ r. change_of self.now r) (range_with_len 0 self.now.case.net.nodes) }
    {
        last_change(self.case, &self.shards)
    }

    /// How each router stands.
    fn router_ends(&self) -> Result<Vec<RouterEnd>, AllocError>
        ensures { IfOk result (λ ends. ends.items ≡ map end_of (states_of self.now)) }
    {
        let ends = router_ends(*self.shards.allocator(), self.case, &self.shards)?;
        Ok(ends)
    }

    /// The shape of the run at its stop. It is refused where the run has not come to its stop.
    pub fn shape(&self) -> Result<Shape, OrMemory<NotSettled>>
        ensures value { IfOk result (λ shape. shape ≡ shape_at self.now.case self.now.board.stop) }
        ensures settled { OnOk result (IsSettled self.now) }
        ensures refused { IsErrOf result (or_memory.Fault not_settled) ↔ (IsSettled self.now → ⊥) }
    {
        if !self.is_settled() {
            return Err(OrMemory::Fault(NotSettled));
        }
        match self.settled_shape() {
            Ok(shape) => Ok(shape),
            Err(AllocError) => Err(OrMemory::Memory),
        }
    }

    /// The shape of a run that has come to its stop.
    fn settled_shape(&self) -> Result<Shape, AllocError>
        requires { IsSettled self.now }
        ensures { IfOk result (λ shape. shape ≡ shape_at self.now.case self.now.board.stop) }
    {
        let mut builder = ShapeBuilder::new(*self.shards.allocator(), self.stop());
        self.gather(&mut builder)?;
        Ok(builder.finish(self.pending()?))
    }

    /// Adds each router to a shape.
    fn gather(&self, builder: &mut ShapeBuilder) -> Result<(), AllocError>
        ensures { OnOk result (builder.new ≡ record builder.old {
          routers = builder.old.routers ++ map bare (states_of self.now);
          sent = builder.old.sent ++ map (λ known. known.counters.sent) (states_of self.now);
        }) }
    {
        for number in 0..self.case.instance().nodes() {
            let router = self.router(number);
            let sent = router.counters().sent;
            builder.add_router(
                router.rib(),
                router.rows(),
                router.order(),
                router.barred(),
                sent,
            )?;
        }
        Ok(())
    }
}
