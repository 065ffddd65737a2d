//! The machine takes a step, or a list of steps, and a router gets more room.

ghost use Rattle.std.specs.Prelude.{◌≡◌, ◌≤◌, ◌<◌, ◌^◌, ◌↔◌, Ok, Err, IsErrOf, OnErr, OnOk, IfErr, IfOk};
ghost use Rattle.tw_warp.specs.Calls.{CallTakesNone, after_call};
ghost use Rattle.tw_warp.specs.Runs.{IsBrokenOff};
ghost use Rattle.tw_core.specs.declared.refusal.Refusal.{Refusal as ARefusal};
ghost use Rattle.tw_core.specs.Run.{IsSeq};
ghost use Rattle.tw_core.specs.Steps.{answers as core_answers, at_router, least_loose, run as core_run, step as core_step, with_room};
ghost use Rattle.tw_model.specs.Case.{simulation};
ghost use Rattle.tw_model.specs.declared.memory.OrMemory.TheVariants as or_memory;
ghost use Rattle.tw_sim.specs.declared.machine.Step.TheVariants as steps;
ghost use Rattle.tw_warp.specs.Warp.{HasSameSettings, IsCutShort, IsInterrupted, TakesNone, warp_core};

use super::{Answer, RunFault, Warp};
use crate::calls::{RouterCall, call_on, deliver_on};
use crate::least::{least_waiting, raise_bounds};
use tw_core::Refusal;
use tw_model::OrMemory;
use tw_sim::Step;

impl<'a> Warp<'a> {
    /// Takes one step. A step that is refused changes nothing; each step may be asked for at any time.
    ///
    /// `Handle` and `Undo` are refused as `NotMine` where there is no such router; `Handle` as `Nothing`
    /// where none of its pending events is before the stop, as `Double` where the first of them equals the
    /// event that it handled last, as `AheadFull` where it has no room for one more that is not committed, and
    /// as `CounterFull` where a counter would pass its limit; `Undo` as `Nothing` where it has handled nothing,
    /// and as `Committed` where the event that it handled last is before the bound; `Deliver` as `NoMessage`
    /// where no message has that place; and `Commit` and `Release` as `NotMine`.
    ///
    /// `Release` takes back what is held for a router: antimessages go out, in the order of events, and it is held
    /// no more. It finds nothing where what undone events have sent is taken back at once.
    ///
    /// Where memory is refused, nothing has changed; but where a message was delivered, its receiver may have
    /// undone some events that are not before it, and the message is at its place still. The bound takes
    /// no memory, nor does a commit that commits nothing more, nor a release where nothing is held for the router.
    pub fn step(&mut self, step: Step) -> Result<(), OrMemory<Refusal>>
        ensures ok { OnOk result (core_step (simulation self.old.case) (warp_core self.old) step ≡ Ok (warp_core self.new)) }
        ensures refused { (f : ARefusal) → IsErrOf result (or_memory.Fault f) ↔ (core_step (simulation self.old.case) (warp_core self.old) step ≡ Err f) }
        ensures unchanged { (f : ARefusal) → IsErrOf result (or_memory.Fault f) → self.new ≡ self.old }
        ensures memory { IsErrOf result or_memory.Memory → IsInterrupted (simulation self.old.case) step (warp_core self.old) (warp_core self.new) }
        ensures free { TakesNone (simulation self.old.case) step (warp_core self.old) → IsErrOf result or_memory.Memory → ⊥ }
        ensures same { HasSameSettings self.old self.new }
        ensures rising { self.old.bound ≤ self.new.bound }
        ensures seq { IsSeq (simulation self.new.case) (warp_core self.new) }
    {
        match step {
            Step::Handle(router) => self.at_router(router, RouterCall::Handle),
            Step::Undo(router) => self.at_router(router, RouterCall::Undo),
            Step::Commit(router) => self.at_router(router, RouterCall::Commit),
            Step::Release(router) => self.at_router(router, RouterCall::Release),
            Step::Deliver(place) => self.deliver(place),
            Step::Bound => {
                self.advance_bound();
                Ok(())
            }
        }
    }

    /// Takes a list of steps, and answers for each whether it was done or why it was refused; the run goes on
    /// past refusals.
    ///
    /// Where memory is refused, the fault names the step, from 1, and has the answers to the steps before it,
    /// all of which stand; of that step stands what `step` leaves. Room for the answers is made first, so
    /// that want of it is told as step 1.
    pub fn run(&mut self, steps: &[Step]) -> Result<Vec<Answer>, RunFault>
        ensures after { OnOk result (warp_core self.new ≡ core_run (simulation self.old.case) (warp_core self.old) steps.now) }
        ensures answers { IfOk result (λ v. v.items ≡ core_answers (simulation self.old.case) (warp_core self.old) steps.now) }
        ensures fault { IfErr result (λ f. IsBrokenOff (simulation self.old.case) steps.now f (warp_core self.old) (warp_core self.new)) }
        ensures same { HasSameSettings self.old self.new }
        ensures rising { self.old.bound ≤ self.new.bound }
        ensures seq { IsSeq (simulation self.new.case) (warp_core self.new) }
    {
        let mut answers = Vec::new(*self.shards.allocator());
        let Ok(()) = answers.reserve(steps.len()) else {
            return Err(RunFault { step: 1, answers });
        };
        for step in steps {
            match self.step(*step) {
                Ok(()) => answers.push_reserved(Ok(())),
                Err(OrMemory::Fault(refusal)) => answers.push_reserved(Err(refusal)),
                Err(OrMemory::Memory) => {
                    return Err(RunFault {
                        step: answers.len() + 1,
                        answers,
                    });
                }
            }
        }
        Ok(answers)
    }

    /// Doubles for how many events that are not committed a router has room; nothing else changes. A router
    /// begins with room for 256, and `Handle` is refused as `AheadFull` where it has none left.
    ///
    /// It is refused as `NotMine` where there is no such router. `Memory` is the answer where the number would
    /// not fit a `usize`. Then nothing has changed.
    pub fn widen(&mut self, router: u32) -> Result<(), OrMemory<Refusal>>
        ensures ok { OnOk result (at_router (simulation self.old.case) router (Ok (with_room (simulation self.old.case) (warp_core self.old) router)) ≡ Ok (warp_core self.new)) }
        ensures refused { (f : ARefusal) → IsErrOf result (or_memory.Fault f)
            ↔ (at_router (simulation self.old.case) router (Ok (with_room (simulation self.old.case) (warp_core self.old) router)) ≡ Err f) }
        ensures err { OnErr result (self.new ≡ self.old) }
        ensures free { (warp_core self.old).room router < 2 ^ 63 → IsErrOf result or_memory.Memory → ⊥ }
        ensures bound { self.new.bound ≡ self.old.bound }
        ensures same { HasSameSettings self.old self.new }
        ensures seq { IsSeq (simulation self.new.case) (warp_core self.new) }
    {
        self.at_router(router, RouterCall::Widen)
    }

    /// A call at a router.
    fn at_router(&mut self, router: u32, call: RouterCall) -> Result<(), OrMemory<Refusal>>
        ensures ok { OnOk result (after_call (simulation self.old.case) call router (warp_core self.old) ≡ Ok (warp_core self.new)) }
        ensures refused { (f : ARefusal) → IsErrOf result (or_memory.Fault f) ↔ (after_call (simulation self.old.case) call router (warp_core self.old) ≡ Err f) }
        ensures err { OnErr result (self.new ≡ self.old) }
        ensures free { CallTakesNone (simulation self.old.case) call router (warp_core self.old) → IsErrOf result or_memory.Memory → ⊥ }
        ensures bound { self.new.bound ≡ self.old.bound }
        ensures same { HasSameSettings self.old self.new }
        ensures seq { IsSeq (simulation self.new.case) (warp_core self.new) }
    {
        let worker = self.worker_with(router);
        call_on(
            &mut self.shards[worker],
            &mut self.flight,
            call,
            router,
            self.stop,
        )
    }

    /// The message at a place in flight, from 1, is delivered.
    fn deliver(&mut self, place: u64) -> Result<(), OrMemory<Refusal>>
        ensures ok { OnOk result (core_step (simulation self.old.case) (warp_core self.old) (steps.Deliver place) ≡ Ok (warp_core self.new)) }
        ensures refused { (f : ARefusal) → IsErrOf result (or_memory.Fault f) ↔ (core_step (simulation self.old.case) (warp_core self.old) (steps.Deliver place) ≡ Err f) }
        ensures unchanged { (f : ARefusal) → IsErrOf result (or_memory.Fault f) → self.new ≡ self.old }
        ensures memory { IsErrOf result or_memory.Memory → IsCutShort (simulation self.old.case) place (warp_core self.old) (warp_core self.new) }
        ensures bound { self.new.bound ≡ self.old.bound }
        ensures same { HasSameSettings self.old self.new }
        ensures seq { IsSeq (simulation self.new.case) (warp_core self.new) }
    {
        let Some(message) = self.message_at(place) else {
            return Err(OrMemory::Fault(Refusal::NoMessage));
        };
        let worker = self.worker_with(message.event.dst);
        deliver_on(&mut self.shards[worker], &mut self.flight, message)?;
        self.flight.remove(place as usize - 1);
        Ok(())
    }

    /// The bound becomes the least time of all that is loose, and of the stop.
    fn advance_bound(&mut self)
        ensures done { core_step (simulation self.old.case) (warp_core self.old) steps.Bound ≡ Ok (warp_core self.new) }
        ensures rising { self.old.bound ≤ self.new.bound }
        ensures same { HasSameSettings self.old self.new }
        ensures seq { IsSeq (simulation self.new.case) (warp_core self.new) }
    {
        let least = self.least_loose();
        raise_bounds(&mut self.shards, least);
        self.bound = least;
    }

    /// The least time of all that is loose, and of the stop.
    fn least_loose(&self) -> u64
        ensures { result ≡ least_loose (simulation self.now.case) (warp_core self.now) }
    {
        let in_flight = self.flight.least_time(self.stop);
        least_waiting(&self.shards, in_flight)
    }
}
