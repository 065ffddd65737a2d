//! A logical process whose events are handled in the order of the sequential run, one by one.

ghost use Rattle.std.specs.Prelude.{◌≡◌, ◌+◌, ◌<◌, ◌≤◌, ◌↔◌, ◌∷◌, [], true, IsErrOf, OnErr, OnOk, drop, length, vec_capacity, vec_len};
ghost use Rattle.std.specs.Bool.{OnFalse, OnTrue};
ghost use Rattle.tw_engine.specs.Past.{log_after};
ghost use Rattle.tw_engine.specs.Process.{handled_in_turn};
ghost use Rattle.tw_pending.specs.Order.{is_before};
ghost use Rattle.tw_process.specs.Behaviour.{simulation_of};
ghost use Rattle.tw_process.specs.declared.refused.Refused.TheVariants.{CounterFull};
ghost use Rattle.tw_sim.specs.Ordered.{insert_all};
ghost use Rattle.tw_sim.specs.Simulation.{only, state, times};

use super::LogicalProcess;
use crate::progress::Progress;
use std::alloc::AllocError;
use tw_pending::Pending;
use tw_process::laws::model_is_lawful;
use tw_process::{ProcessModel, Refused, Timed};

impl<'a, M: ProcessModel> LogicalProcess<'a, M> {
    /// Handles an event in the sequential run's own turn, and commits it at once, without a note: it can never be undone.
    /// Its bound is then behind the event.
    ///
    /// `pending` has what is pending of the whole run: the event is its least, and what it sends takes its place there.
    /// `progress` says how far the run has come with this event. `sends` is an empty list with room for what one event
    /// sends at most, and is empty again afterwards. Of what the process itself has pending nothing changes.
    ///
    /// A refusal leaves it and `pending` as they were: it is `CounterFull` exactly where handling the event would pass
    /// the limit of one of the model's counters, and want of memory else.
    #[inline(always)]
    pub fn handle_in_turn(
        &mut self,
        event: &M::Event,
        progress: Progress,
        pending: &mut Pending<M::Event>,
        sends: &mut Vec<M::Event>,
    ) -> Result<(), Refused>
        requires settled { self.old.ahead ≡ [] }
        requires own { M.Event.parts.dst event.now ≡ self.old.number }
        requires suits { (M.behaviour self.old.model).suits event.now ≡ true }
        requires time { M.Event.parts.time event.now < (M.behaviour self.old.model).latest }
        requires turn { let m = simulation_of M.Event.parts M.Event.cmp (M.behaviour self.old.model) in
            only m self.old.number (log_after m progress.since progress.turns) ≡ event.now ∷ self.old.past }
        requires room { (M.behaviour self.old.model).most ≤ vec_capacity sends.old }
        requires empty { vec_len sends.old ≡ 0 }
        ensures room { vec_capacity sends.old ≤ vec_capacity sends.new }
        ensures empty { vec_len sends.new ≡ 0 }
        ensures ok { let m = simulation_of M.Event.parts M.Event.cmp (M.behaviour self.old.model) in OnOk result (self.new ≡ handled_in_turn m event.now self.old) }
        ensures err { OnErr result (self.new ≡ self.old) }
        ensures pending { let m = simulation_of M.Event.parts M.Event.cmp (M.behaviour self.old.model) in
            OnOk result (pending.new ≡ insert_all (is_before M.Event.cmp) (m.sends (state m self.old.number self.old.past) event.now) (drop 1 pending.old)) }
        ensures kept { OnErr result (pending.new ≡ pending.old) }
        ensures full { let m = simulation_of M.Event.parts M.Event.cmp (M.behaviour self.old.model) in
            IsErrOf result CounterFull ↔ (m.full (state m self.old.number self.old.past) event.now ≡ true) }
    {
        model_is_lawful(self.past.model());
        self.past.handle_in_turn(event, progress, pending, sends)?;
        self.bound = self.bound.max(event.time() + 1);
        Ok(())
    }

    /// Puts a copy of what waits for it behind other events, in no order. Where there is no room for all of it, nothing
    /// is copied.
    pub fn copy_pending(&self, events: &mut Vec<M::Event>) -> Result<(), AllocError>
        ensures ok { let m = simulation_of M.Event.parts M.Event.cmp (M.behaviour self.now.model) in
            OnOk result ((e : M.Event) → times m e events.new.items ≡ times m e self.now.pending + times m e events.old.items) }
        ensures err { OnErr result (events.new.items ≡ events.old.items) }
    {
        self.pending.copy_to(events)
    }

    /// Nothing waits for it any more.
    pub fn clear_pending(&mut self)
        ensures { self.new ≡ record self.old { pending = [] } }
    {
        self.pending.clear();
    }

    /// Whether it is settled: it has nothing to undo, and nothing that it has sent is still to be taken out.
    pub fn is_settled(&self) -> bool
        ensures done { OnTrue result (self.now.ahead ≡ []) }
        ensures sent { OnTrue result (self.now.flight ≡ []) }
        ensures not_yet { OnFalse result (0 < length self.now.ahead + length self.now.flight) }
    {
        self.past.len() == 0 && self.flight.is_empty()
    }

    /// What it has committed is what the sequential run has handled of it so far, and takes no memory from then on: only
    /// what it commits later does.
    pub fn forget(&mut self, progress: Progress)
        requires turn { let m = simulation_of M.Event.parts M.Event.cmp (M.behaviour self.old.model) in
            only m self.old.number (log_after m progress.since progress.turns) ≡ self.old.past }
        ensures { self.new ≡ self.old }
    {
        self.past.forget(progress);
    }
}
