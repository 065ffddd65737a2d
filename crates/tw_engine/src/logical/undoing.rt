//! A logical process undoes what it has handled, the last event first.

ghost use Rattle.std.specs.Prelude.{ℕ, ◌≡◌, ◌<◌, ◌≤◌, ◌↔◌, false, true, length, max, IsErrOf, OnErr, OnOk, Ok, Err};
ghost use Rattle.std.specs.Result.{result_and};
ghost use Rattle.tw_core.specs.Steps.{IsRolledBack, after_undoing_while, undo};
ghost use Rattle.tw_core.specs.declared.refusal.Refusal.{Refusal as AnyRefusal};
ghost use Rattle.tw_engine.specs.Process.{IsOneUndone, IsSameProcess, begins, has_newest, history, is_from, process_core, rolls};
ghost use Rattle.tw_engine.specs.declared.stopped.Stopped.TheVariants as stopped;
ghost use Rattle.tw_process.specs.Behaviour.{simulation_of};

use super::LogicalProcess;
use crate::reach::Reach;
use crate::steps::undo_newest;
use crate::stopped::Stopped;
use std::alloc::AllocError;
use tw_core::Refusal;
use tw_process::{ProcessModel, Timed};

impl<'a, M: ProcessModel> LogicalProcess<'a, M> {
    /// Undoes the event that it handled last: what it knows is what it knew before, the event waits once more, and for
    /// each message that it had sent an antimessage goes out.
    ///
    /// It is the machine's own step, whatever the stop, and refused for the machine's own reasons: as `Nothing` where it
    /// has handled nothing, and as `Committed` where the event lies before the bound. Where there is no memory it is as it
    /// was.
    pub fn undo_last(&mut self) -> Result<(), Stopped>
        ensures ok { let m = simulation_of M.Event.parts M.Event.cmp (M.behaviour self.old.model) in
            (stop : ℕ) → OnOk result (undo m (process_core stop self.old) self.old.number (history self.old) ≡ Ok (process_core stop self.new)) }
        ensures refused { let m = simulation_of M.Event.parts M.Event.cmp (M.behaviour self.old.model) in
            (stop : ℕ) (f : AnyRefusal) → IsErrOf result (stopped.Refused f)
            ↔ (undo m (process_core stop self.old) self.old.number (history self.old) ≡ Err f) }
        ensures err { OnErr result (self.new ≡ self.old) }
        ensures same { IsSameProcess self.old self.new }
    {
        if let Err(refusal) = self.may_undo() {
            return Err(Stopped::Refused(refusal));
        }
        self.step_back()?;
        Ok(())
    }

    /// Undoes all events at this time, in ticks, or at the bound where that is later, and later, the last one first.
    ///
    /// Where there is no memory, some of them are undone, and undoing what is left leads to the same.
    pub fn undo_to(&mut self, time: u64) -> Result<(), AllocError>
        ensures ok { let m = simulation_of M.Event.parts M.Event.cmp (M.behaviour self.old.model) in
            (stop : ℕ) → OnOk result (process_core stop self.new ≡ after_undoing_while m (is_from m (max time self.old.bound)) self.old.number (history self.old) (process_core stop self.old)) }
        ensures err { let m = simulation_of M.Event.parts M.Event.cmp (M.behaviour self.old.model) in
            (stop : ℕ) → OnErr result (after_undoing_while m (is_from m (max time self.old.bound)) self.old.number (history self.new) (process_core stop self.new)
            ≡ after_undoing_while m (is_from m (max time self.old.bound)) self.old.number (history self.old) (process_core stop self.old)) }
        ensures same { IsSameProcess self.old self.new }
    {
        self.undo_all(Reach::Since(time.max(self.bound)))
    }

    /// Undoes its newest events as far as this reaches.
    pub(crate) fn undo_all(&mut self, reach: Reach<M::Event>) -> Result<(), AllocError>
        requires late { self.old.bound ≤ begins (simulation_of M.Event.parts M.Event.cmp (M.behaviour self.old.model)) reach }
        ensures ok { let m = simulation_of M.Event.parts M.Event.cmp (M.behaviour self.old.model) in
            (stop : ℕ) → OnOk result (process_core stop self.new ≡ after_undoing_while m (rolls m reach) self.old.number (history self.old) (process_core stop self.old)) }
        ensures rest { let m = simulation_of M.Event.parts M.Event.cmp (M.behaviour self.old.model) in
            (stop : ℕ) → after_undoing_while m (rolls m reach) self.old.number (history self.new) (process_core stop self.new)
            ≡ after_undoing_while m (rolls m reach) self.old.number (history self.old) (process_core stop self.old) }
        ensures undone { let m = simulation_of M.Event.parts M.Event.cmp (M.behaviour self.old.model) in
            (stop : ℕ) (x : M.Event) → M.Event.parts.dst x ≡ self.old.number → ((e : M.Event) → rolls m reach e ≡ true → m.before e x ≡ false)
            → IsRolledBack m x (process_core stop self.old) (process_core stop self.new) }
        ensures kept { self.new.kept ≡ self.old.kept }
        ensures same { IsSameProcess self.old self.new }
    {
        self.keeps_laws();
        while self.must_undo(reach) {
            self.step_back()?;
        }
        Ok(())
    }

    /// Whether the newest event that it can undo is to be undone.
    fn must_undo(&self, reach: Reach<M::Event>) -> bool
        ensures { result ≡ has_newest (rolls (simulation_of M.Event.parts M.Event.cmp (M.behaviour self.now.model)) reach) self.now.ahead }
    {
        let Some(newest) = self.past.newest_ahead() else {
            return false;
        };
        match reach {
            Reach::Later(event) => event.cmp(&newest).is_lt(),
            Reach::From(event) => !newest.cmp(&event).is_lt(),
            Reach::Since(time) => newest.time() >= time,
        }
    }

    /// Whether it has an event to undo.
    fn may_undo(&self) -> Result<(), Refusal>
        ensures told { let m = simulation_of M.Event.parts M.Event.cmp (M.behaviour self.now.model) in
            (stop : ℕ) → result ≡ result_and (undo m (process_core stop self.now) self.now.number (history self.now)) (Ok tt) }
        ensures some { OnOk result (0 < length self.now.ahead) }
    {
        self.keeps_laws();
        let Some(event) = self.past.newest() else {
            return Err(Refusal::Nothing);
        };
        if event.time() < self.bound {
            return Err(Refusal::Committed);
        }
        Ok(())
    }

    /// Undoes the newest event that it can undo.
    fn step_back(&mut self) -> Result<(), AllocError>
        requires { 0 < length self.old.ahead }
        ensures ok { OnOk result (IsOneUndone (simulation_of M.Event.parts M.Event.cmp (M.behaviour self.old.model)) self.old self.new) }
        ensures err { OnErr result (self.new ≡ self.old) }
    {
        undo_newest(
            &mut self.past,
            &mut self.pending,
            &mut self.flight,
            &mut self.sends,
        )
    }
}
