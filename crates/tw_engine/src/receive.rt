//! A message comes to a logical process: where it has run past it, it is rolled back.

ghost use Rattle.std.specs.Prelude.{ℕ, ◌≡◌, ◌≤◌, ◌↔◌, true, IsErrOf, OnErr, OnOk, Ok, Err};
ghost use Rattle.tw_core.specs.Steps.{IsRolledBack, after_antimessage, after_arrival, after_message};
ghost use Rattle.tw_engine.specs.Arrival.{refusing};
ghost use Rattle.tw_engine.specs.Process.{IsSameProcess, process_core};
ghost use Rattle.tw_engine.specs.declared.rejection.Rejection.{Rejection as ARejection};
ghost use Rattle.tw_engine.specs.declared.rejection.Unreceived.TheVariants.{Rejected};
ghost use Rattle.tw_process.specs.Behaviour.{simulation_of};

use crate::logical::LogicalProcess;
use crate::reach::Reach;
use crate::rejection::{Rejection, Unreceived};
use std::alloc::AllocError;
use tw_process::{ProcessModel, Timed};
use tw_sim::Signed;

impl<'a, M: ProcessModel> LogicalProcess<'a, M> {
    /// A message, or an antimessage, comes.
    ///
    /// A message whose antimessage is kept vanishes with it (annihilation). Else the process undoes each event after it,
    /// the last first, where it is a straggler, and it becomes pending. An antimessage vanishes with an equal event that
    /// is pending. Else, where the process has handled an equal event, it undoes the events down to and including that
    /// one, which vanishes too; and where it has not, the antimessage is kept. What undone events had sent is taken back.
    ///
    /// It is refused as `NotMine` where its receiver is another process, as `Late` where it lies before the bound, and as
    /// `Foreign` where it does not suit its receiver; then nothing has changed. For want of memory the process may have
    /// undone some events that are not before it, and nothing else has changed.
    pub fn receive(&mut self, message: Signed<M::Event>) -> Result<(), Unreceived>
        ensures ok { let m = simulation_of M.Event.parts M.Event.cmp (M.behaviour self.old.model) in
            (stop : ℕ) → OnOk result (process_core stop self.new ≡ after_arrival m (process_core stop self.old) message) }
        ensures refused { let m = simulation_of M.Event.parts M.Event.cmp (M.behaviour self.old.model) in
            (f : ARejection) → IsErrOf result (Rejected f) ↔ (refusing m self.old message.event ≡ Err f) }
        ensures unchanged { (f : ARejection) → IsErrOf result (Rejected f) → self.new ≡ self.old }
        ensures memory { let m = simulation_of M.Event.parts M.Event.cmp (M.behaviour self.old.model) in
            (stop : ℕ) → OnErr result (IsRolledBack m message.event (process_core stop self.old) (process_core stop self.new)) }
        ensures same { IsSameProcess self.old self.new }
    {
        if let Err(rejection) = self.may_receive(&message.event) {
            return Err(Unreceived::Rejected(rejection));
        }
        self.take_in(message)?;
        Ok(())
    }

    /// Whether an event, or what takes it back, may come.
    fn may_receive(&self, event: &M::Event) -> Result<(), Rejection>
        ensures value { result ≡ refusing (simulation_of M.Event.parts M.Event.cmp (M.behaviour self.now.model)) self.now event.now }
        ensures own { OnOk result (M.Event.parts.dst event.now ≡ self.now.number) }
        ensures late { OnOk result (self.now.bound ≤ M.Event.parts.time event.now) }
        ensures suit { OnOk result ((M.behaviour self.now.model).suits event.now ≡ true) }
    {
        if event.dst() != self.number() {
            return Err(Rejection::NotMine);
        }
        if event.time() < self.bound() {
            return Err(Rejection::Late {
                bound: self.bound(),
            });
        }
        if !self.model().does_suit(event) {
            return Err(Rejection::Foreign);
        }
        Ok(())
    }

    /// A message comes that may come.
    fn take_in(&mut self, message: Signed<M::Event>) -> Result<(), AllocError>
        requires own { M.Event.parts.dst message.event ≡ self.old.number }
        requires late { self.old.bound ≤ M.Event.parts.time message.event }
        requires suit { (M.behaviour self.old.model).suits message.event ≡ true }
        ensures ok { let m = simulation_of M.Event.parts M.Event.cmp (M.behaviour self.old.model) in
            (stop : ℕ) → OnOk result (process_core stop self.new ≡ after_arrival m (process_core stop self.old) message) }
        ensures err { let m = simulation_of M.Event.parts M.Event.cmp (M.behaviour self.old.model) in
            (stop : ℕ) → OnErr result (IsRolledBack m message.event (process_core stop self.old) (process_core stop self.new)) }
        ensures same { IsSameProcess self.old self.new }
    {
        if message.plus {
            self.arrive(message.event)
        } else {
            self.withdraw(message.event)
        }
    }

    /// A message comes.
    fn arrive(&mut self, event: M::Event) -> Result<(), AllocError>
        requires own { M.Event.parts.dst event ≡ self.old.number }
        requires late { self.old.bound ≤ M.Event.parts.time event }
        requires suit { (M.behaviour self.old.model).suits event ≡ true }
        ensures ok { let m = simulation_of M.Event.parts M.Event.cmp (M.behaviour self.old.model) in
            (stop : ℕ) → OnOk result (process_core stop self.new ≡ after_message m (process_core stop self.old) event) }
        ensures err { let m = simulation_of M.Event.parts M.Event.cmp (M.behaviour self.old.model) in
            (stop : ℕ) → OnErr result (IsRolledBack m event (process_core stop self.old) (process_core stop self.new)) }
        ensures same { IsSameProcess self.old self.new }
    {
        self.keeps_laws();
        if self.take_kept(&event) {
            return Ok(());
        }
        self.undo_all(Reach::Later(event))?;
        self.add_pending(event)?;
        Ok(())
    }

    /// An antimessage comes.
    fn withdraw(&mut self, event: M::Event) -> Result<(), AllocError>
        requires own { M.Event.parts.dst event ≡ self.old.number }
        requires late { self.old.bound ≤ M.Event.parts.time event }
        ensures ok { let m = simulation_of M.Event.parts M.Event.cmp (M.behaviour self.old.model) in
            (stop : ℕ) → OnOk result (process_core stop self.new ≡ after_antimessage m (process_core stop self.old) event) }
        ensures err { let m = simulation_of M.Event.parts M.Event.cmp (M.behaviour self.old.model) in
            (stop : ℕ) → OnErr result (IsRolledBack m event (process_core stop self.old) (process_core stop self.new)) }
        ensures same { IsSameProcess self.old self.new }
    {
        self.keeps_laws();
        if self.take_pending(&event) {
            return Ok(());
        }
        if !self.has_handled(&event) {
            self.add_kept(event)?;
            return Ok(());
        }
        self.undo_all(Reach::From(event))?;
        let _ = self.take_pending(&event);
        Ok(())
    }
}
