//! All processes go on in rounds, each share of them in a thread.

ghost use Rattle.std.specs.Prelude.{◌≡◌, ◌<◌, ◌≤◌, IsErrOf, OnOk, max};
ghost use Rattle.tw_process.specs.Behaviour.{simulation_of};
ghost use Rattle.tw_process.specs.declared.refused.Refused.TheVariants.{CounterFull};
ghost use Rattle.tw_rounds.specs.Warp.{HasRun, IsRight, IsSameRun, IsStuck, handled};
ghost use Rattle.tw_sim.specs.Simulation.{state};

mod changing;

use crate::counts::Counts;
use crate::dealing::{count_round, deal, refused_in, send_all, tell};
use crate::least::{least_of, least_told};
use crate::member::{Member, least_among};
use crate::turning::{Round, turn_all};
use crate::window::{Pace, limit_of, share_of};
use std::alloc::AllocError;
use std::marker::Model;
use std::sync::Wait;
use std::thread::Threads;
use tw_process::laws::model_is_lawful;
use tw_process::{ProcessModel, Refused};
use tw_sim::Signed;

/// A run in rounds, as far as it has come: its logical processes run ahead of one another, and are rolled back where a
/// message comes late.
///
/// It takes back at once what undone events had sent (aggressive cancellation). A process may handle 2^64 events that
/// it has not committed, as far as there is memory.
#[derive(Drop)]
pub(crate) struct Rounds<'a, M: ProcessModel> {
    model: &'a M,
    members: Vec<Member<'a, M>>,
    // Empty in a round, but after want of memory.
    flight: Vec<Signed<M::Event>>,
    bound: u64,
    stop: u64,
    pace: Pace,
    // Of the last round.
    threads: usize,
    share: usize,
    counts: Counts,
}

impl<'a, M: ProcessModel> Model for Rounds<'a, M> {
    ghost use Rattle.std.specs.Prelude.{◌<◌, ◌≤◌, map};
    ghost use Rattle.tw_process.specs.Behaviour.{simulation_of};
    ghost use Rattle.tw_rounds.specs.Ruled.{AreRuled};
    ghost use Rattle.tw_rounds.specs.Warp.{Warp};

    ghost Value = { Warp M M.Event };

    ghost view = { λ a. record { model = a.model.now; stop = a.stop; bound = a.bound; processes = map (λ x. x.process) a.members.items } };

    ghost invariant = { λ a. (a.bound ≤ a.stop) × (a.stop ≤ (M.behaviour a.model.now).latest)
        × AreRuled (simulation_of M.Event.parts M.Event.cmp (M.behaviour a.model.now)) a.model.now a.stop a.bound a.flight.items a.members.items
        × (0 < a.share) };
}

impl<'a, M: ProcessModel> Rounds<'a, M> {
    /// The model that runs.
    pub(crate) fn model(&self) -> &'a M
        ensures { result.now ≡ self.now.model }
    {
        self.model
    }

    /// The greatest stop that was asked for, in ticks.
    pub(crate) fn stop(&self) -> u64
        ensures { result ≡ self.now.stop }
    {
        self.stop
    }

    /// The bound, in ticks (global virtual time): what was handled before it stays.
    pub(crate) fn bound(&self) -> u64
        ensures { result ≡ self.now.bound }
    {
        self.bound
    }

    /// How its rounds are paced.
    pub(crate) fn pace(&self) -> Pace {
        self.pace
    }

    /// What its processes have done in its rounds.
    pub(crate) fn counts(&self) -> Counts {
        self.counts
    }

    /// The state of a process, as the events that it has handled left it.
    pub(crate) fn state(&self, number: u32) -> &M::State
        requires { number < (M.behaviour self.now.model).processes }
        ensures { let m = simulation_of M.Event.parts M.Event.cmp (M.behaviour self.now.model) in
            M.known result.now ≡ state m number (handled number self.now) }
    {
        self.members[number as usize].process().state()
    }

    /// Tells what holds of every run. It does nothing.
    pub(crate) fn keeps_rule(&self)
        ensures bound { self.now.bound ≤ self.now.stop }
        ensures latest { self.now.stop ≤ (M.behaviour self.now.model).latest }
        ensures right { IsRight (simulation_of M.Event.parts M.Event.cmp (M.behaviour self.now.model)) self.now }
        ensures complete { self.now.bound ≡ self.now.stop → HasRun (simulation_of M.Event.parts M.Event.cmp (M.behaviour self.now.model)) self.now }
    {
        let _ = &self.members;
    }

    /// The stop becomes the greater of itself and `stop`.
    fn raise_stop(&mut self, stop: u64)
        requires { stop ≤ (M.behaviour self.old.model).latest }
        ensures { self.new ≡ record self.old { stop = max self.old.stop stop } }
    {
        self.stop = self.stop.max(stop);
    }

    /// What the shares of the last round have to send on is dealt out to those of the next one.
    fn deal(&mut self, workers: u32) -> Result<(), AllocError>
        ensures same { IsSameRun self.old self.new }
        ensures bound { self.new.bound ≡ self.old.bound }
    {
        self.send()?;
        self.share_out(workers);
        self.deal_out()
    }

    /// What the shares of the last round have to send on is on its way.
    fn send(&mut self) -> Result<(), AllocError>
        ensures same { IsSameRun self.old self.new }
        ensures bound { self.new.bound ≡ self.old.bound }
    {
        send_all(&mut self.members, self.share, &mut self.flight)
    }

    /// How many threads take part in the next round, and how many processes are a share.
    fn share_out(&mut self, workers: u32)
        ensures { self.new ≡ self.old }
    {
        self.threads = self.pace.threads(workers);
        self.share = share_of(self.members.len(), self.threads);
    }

    /// Each message that is on its way goes to the share of its receiver.
    fn deal_out(&mut self) -> Result<(), AllocError>
        ensures same { IsSameRun self.old self.new }
        ensures bound { self.new.bound ≡ self.old.bound }
    {
        deal(&mut self.members, self.share, &mut self.flight)
    }

    /// What was done in a round is counted, and the pace of the next one fits it.
    fn count(&mut self)
        ensures { self.new ≡ self.old }
    {
        let round = count_round(&self.members, self.share);
        self.counts.add(round);
        let lookahead = self.model.lookahead();
        self.pace = self.pace.after(self.threads, lookahead, round);
    }

    /// Tells why it does not go on, where one of its processes is the cause.
    fn tell(&mut self) -> Result<(), Refused>
        ensures same { IsSameRun self.old self.new }
        ensures bound { self.new.bound ≡ self.old.bound }
        ensures full { IsErrOf result CounterFull → IsStuck (simulation_of M.Event.parts M.Event.cmp (M.behaviour self.new.model)) self.new }
    {
        model_is_lawful(self.model);
        if self.bound >= self.stop {
            return Ok(());
        }
        // At the bound that the processes know: an antimessage that is on its way may be for an event at a later one.
        tell(&mut self.members, self.share, self.bound)
    }

    /// The bound rises to the least time of all that waits or is on its way, and at most to the stop.
    fn raise_bound(&mut self)
        ensures same { IsSameRun self.old self.new }
        ensures rises { self.old.bound ≤ self.new.bound }
    {
        let flying = least_among(&self.flight, self.stop);
        let least = least_of(&self.members, flying);
        self.bound = self.bound.max(least);
    }
}

impl<'a, M: ProcessModel + Sync> Rounds<'a, M>
where
    M::State: Send,
    M::Event: Send,
    M::Note: Send,
{
    /// Handles all events before `stop`, in ticks, and before each stop asked for earlier, in at most so many threads. A
    /// stop is at most the model's latest time.
    ///
    /// What its processes have handled then is the sequential run to that stop, however many threads there are. After a
    /// refusal it is so before the bound, and a later call goes on from there. It is `CounterFull` only where a counter
    /// is full for the first event of a process and that is at the bound, so that it can't be taken back; else it is want
    /// of memory. Nothing here promises that threads run.
    pub(crate) fn run_to<R: Threads + Wait + Sync>(
        &mut self,
        rt: &R,
        workers: u32,
        stop: u64,
    ) -> Result<(), Refused>
        requires { stop ≤ (M.behaviour self.old.model).latest }
        ensures ok { OnOk result (HasRun (simulation_of M.Event.parts M.Event.cmp (M.behaviour self.old.model)) self.new) }
        ensures complete { OnOk result (self.new.bound ≡ self.new.stop) }
        ensures model { self.new.model ≡ self.old.model }
        ensures stop { self.new.stop ≡ max self.old.stop stop }
        ensures rises { self.old.bound ≤ self.new.bound }
        ensures right { IsRight (simulation_of M.Event.parts M.Event.cmp (M.behaviour self.old.model)) self.new }
        ensures full { IsErrOf result CounterFull → IsStuck (simulation_of M.Event.parts M.Event.cmp (M.behaviour self.old.model)) self.new }
    {
        self.raise_stop(stop);
        for _ in rt.forever() {
            self.keeps_rule();
            if self.bound() >= self.stop() {
                return Ok(());
            }
            self.round(rt, workers)?;
        }
        unreachable!()
    }

    /// What is for others is dealt out, each share of the processes takes its turn, and the bound rises.
    pub(crate) fn round<R: Threads + Sync>(&mut self, rt: &R, workers: u32) -> Result<(), Refused>
        ensures same { IsSameRun self.old self.new }
        ensures rises { self.old.bound ≤ self.new.bound }
        ensures right { IsRight (simulation_of M.Event.parts M.Event.cmp (M.behaviour self.new.model)) self.new }
        ensures full { IsErrOf result CounterFull → IsStuck (simulation_of M.Event.parts M.Event.cmp (M.behaviour self.new.model)) self.new }
    {
        let went = self.go_on(rt, workers);
        self.keeps_rule();
        went
    }

    /// A round, whatever the rule tells of it.
    fn go_on<R: Threads + Sync>(&mut self, rt: &R, workers: u32) -> Result<(), Refused>
        ensures same { IsSameRun self.old self.new }
        ensures rises { self.old.bound ≤ self.new.bound }
        ensures full { IsErrOf result CounterFull → IsStuck (simulation_of M.Event.parts M.Event.cmp (M.behaviour self.new.model)) self.new }
    {
        if self.deal(workers).is_err() {
            return Err(Refused::Memory);
        }
        let went_on = self.turn(rt);
        self.count();
        if went_on {
            return Ok(());
        }
        self.tell()?;
        self.raise_bound();
        Ok(())
    }

    /// Each share of the processes takes its turn. Where all went on, the bound rises to the least time of all that waits
    /// or is on its way, and at most to the stop; it is answered whether they did.
    fn turn<R: Threads + Sync>(&mut self, rt: &R) -> bool
        ensures same { IsSameRun self.old self.new }
        ensures rises { self.old.bound ≤ self.new.bound }
    {
        let round = Round {
            alloc: *self.flight.allocator(),
            bound: self.bound,
            limit: limit_of(self.threads, self.bound, self.pace.window, self.stop),
            stop: self.stop,
        };
        turn_all(rt, &mut self.members, self.share, round);
        if refused_in(&self.members, self.share).is_some() {
            return false;
        }
        let flying = least_among(&self.flight, self.stop);
        let least = least_told(&self.members, self.share, flying);
        self.bound = self.bound.max(least);
        true
    }
}
