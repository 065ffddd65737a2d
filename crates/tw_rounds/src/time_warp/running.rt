//! A parallel run goes on to a stop.

ghost use Rattle.std.specs.Prelude.{◌≡◌, ◌<◌, ◌≤◌, IsErrOf, OnOk, max};
ghost use Rattle.tw_process.specs.Behaviour.{simulation_of};
ghost use Rattle.tw_process.specs.declared.refused.Refused.TheVariants.{CounterFull};
ghost use Rattle.tw_rounds.specs.Warp.{HasRun, IsRight, IsSameRun, IsStuck};

use super::TimeWarp;
use crate::course::micros;
use std::sync::Wait;
use std::thread::Threads;
use std::time::Clock;
use tw_process::{ProcessModel, Refused};

impl<'a, M: ProcessModel + Sync> TimeWarp<'a, M>
where
    M::State: Send,
    M::Event: Send,
    M::Note: Send,
{
    /// Handles all events before `stop`, in ticks, and before each stop asked for earlier, in at most so many threads. A
    /// stop is at most the model's latest time.
    ///
    /// One thread begins alone, and goes on in rounds with others where a clock tells that these are faster. What its
    /// processes have handled then is the sequential run to that stop, however many threads there are. After a refusal it
    /// is so before the bound, and a later call goes on from there. It is `CounterFull` only where a counter is full for
    /// the first event of a process and that is at the bound, so that it can't be taken back; else it is want of memory.
    /// Nothing here promises that threads run.
    pub fn run_to<R: Threads + Wait + Clock + Sync>(
        &mut self,
        rt: &R,
        workers: u32,
        stop: u64,
    ) -> Result<(), Refused>
        requires { stop ≤ (M.behaviour self.old.model).latest }
        ensures ok { OnOk result (HasRun (simulation_of M.Event.parts M.Event.cmp (M.behaviour self.old.model)) self.new) }
        ensures complete { OnOk result (self.new.bound ≡ self.new.stop) }
        ensures model { self.new.model ≡ self.old.model }
        ensures stop { self.new.stop ≡ max self.old.stop stop }
        ensures rises { self.old.bound ≤ self.new.bound }
        ensures right { IsRight (simulation_of M.Event.parts M.Event.cmp (M.behaviour self.old.model)) self.new }
        ensures full { IsErrOf result CounterFull → IsStuck (simulation_of M.Event.parts M.Event.cmp (M.behaviour self.old.model)) self.new }
    {
        self.raise_stop(stop);
        for _ in rt.forever() {
            self.keeps_rule();
            if self.bound() >= self.stop() {
                return Ok(());
            }
            self.stretch(rt, workers)?;
        }
        unreachable!()
    }

    /// As `run_to`, but in rounds from where it stands, by all those threads, as far as there is memory to begin them. It is
    /// for those who study Time Warp.
    pub fn run_in_rounds<R: Threads + Wait + Sync>(
        &mut self,
        rt: &R,
        workers: u32,
        stop: u64,
    ) -> Result<(), Refused>
        requires { stop ≤ (M.behaviour self.old.model).latest }
        ensures ok { OnOk result (HasRun (simulation_of M.Event.parts M.Event.cmp (M.behaviour self.old.model)) self.new) }
        ensures complete { OnOk result (self.new.bound ≡ self.new.stop) }
        ensures model { self.new.model ≡ self.old.model }
        ensures stop { self.new.stop ≡ max self.old.stop stop }
        ensures rises { self.old.bound ≤ self.new.bound }
        ensures right { IsRight (simulation_of M.Event.parts M.Event.cmp (M.behaviour self.old.model)) self.new }
        ensures full { IsErrOf result CounterFull → IsStuck (simulation_of M.Event.parts M.Event.cmp (M.behaviour self.old.model)) self.new }
    {
        self.share();
        self.raise_stop(stop);
        self.keeps_rule();
        let end = self.stop();
        self.go_on(rt, workers, end)?;
        self.keeps_rule();
        Ok(())
    }

    /// It goes on for a stretch, the way that is the faster one as far as is known.
    fn stretch<R: Threads + Wait + Clock + Sync>(
        &mut self,
        rt: &R,
        workers: u32,
    ) -> Result<(), Refused>
        requires { self.old.bound < self.old.stop }
        ensures same { IsSameRun self.old self.new }
        ensures rises { self.old.bound ≤ self.new.bound }
        ensures right { IsRight (simulation_of M.Event.parts M.Event.cmp (M.behaviour self.new.model)) self.new }
        ensures full { IsErrOf result CounterFull → IsStuck (simulation_of M.Event.parts M.Event.cmp (M.behaviour self.new.model)) self.new }
    {
        self.choose(rt, workers)?;
        let start = micros(rt);
        let end = self.next_end(workers);
        self.go_on(rt, workers, end)?;
        let took = micros(rt).saturating_sub(start);
        self.course = self.course.after(end, self.events(), took);
        Ok(())
    }

    /// Where the next stretch ends, in ticks: not past the stop.
    fn next_end(&self, workers: u32) -> u64
        ensures { result ≤ self.now.stop }
    {
        let (from, stop) = (self.bound(), self.stop());
        if workers < 2 || from >= stop {
            return stop;
        }
        self.course.next_end(from, stop)
    }

    /// One thread goes on alone where there is no other, or where several are not faster; where that is to be found out,
    /// several are tried.
    fn choose<R: Threads + Wait + Clock + Sync>(
        &mut self,
        rt: &R,
        workers: u32,
    ) -> Result<(), Refused>
        ensures same { IsSameRun self.old self.new }
        ensures rises { self.old.bound ≤ self.new.bound }
        ensures right { IsRight (simulation_of M.Event.parts M.Event.cmp (M.behaviour self.new.model)) self.new }
        ensures full { IsErrOf result CounterFull → IsStuck (simulation_of M.Event.parts M.Event.cmp (M.behaviour self.new.model)) self.new }
    {
        let start = micros(rt);
        if workers < 2 || self.course.is_for_one(self.stop()) {
            self.settle(rt, workers)?;
            self.go_alone();
            self.course = self.course.go_alone(micros(rt).saturating_sub(start));
        } else if self.alone.is_some() {
            self.share();
            self.course = self.course.share(
                self.rounds.is_some(),
                self.events(),
                micros(rt).saturating_sub(start),
            );
        }
        self.keeps_rule();
        Ok(())
    }

    /// It goes on to this time, in ticks.
    fn go_on<R: Threads + Wait + Sync>(
        &mut self,
        rt: &R,
        workers: u32,
        end: u64,
    ) -> Result<(), Refused>
        requires { end ≤ self.old.stop }
        ensures same { IsSameRun self.old self.new }
        ensures rises { self.old.bound ≤ self.new.bound }
        ensures reached { OnOk result (end ≤ self.new.bound) }
        ensures right { IsRight (simulation_of M.Event.parts M.Event.cmp (M.behaviour self.new.model)) self.new }
        ensures full { IsErrOf result CounterFull → IsStuck (simulation_of M.Event.parts M.Event.cmp (M.behaviour self.new.model)) self.new }
    {
        self.keeps_rule();
        let came = self.come_to(rt, workers, end);
        self.keeps_rule();
        came
    }

    /// It goes on to this time, in ticks, whatever the rule tells of it.
    fn come_to<R: Threads + Wait + Sync>(
        &mut self,
        rt: &R,
        workers: u32,
        end: u64,
    ) -> Result<(), Refused>
        requires within { end ≤ self.old.stop }
        requires latest { self.old.stop ≤ (M.behaviour self.old.model).latest }
        ensures same { IsSameRun self.old self.new }
        ensures rises { self.old.bound ≤ self.new.bound }
        ensures reached { OnOk result (end ≤ self.new.bound) }
        ensures full { IsErrOf result CounterFull → IsStuck (simulation_of M.Event.parts M.Event.cmp (M.behaviour self.new.model)) self.new }
    {
        if let Some(alone) = &mut self.alone {
            let came = alone.run_to(end);
            alone.keeps_law();
            return came;
        }
        match &mut self.rounds {
            Some(rounds) => rounds.run_to(rt, workers, end),
            None => unreachable!(),
        }
    }

    /// Where it is in rounds that have come to their stop, what is on its way comes to its receivers.
    fn settle<R: Threads + Sync>(&mut self, rt: &R, workers: u32) -> Result<(), Refused>
        ensures same { IsSameRun self.old self.new }
        ensures rises { self.old.bound ≤ self.new.bound }
        ensures right { IsRight (simulation_of M.Event.parts M.Event.cmp (M.behaviour self.new.model)) self.new }
        ensures full { IsErrOf result CounterFull → IsStuck (simulation_of M.Event.parts M.Event.cmp (M.behaviour self.new.model)) self.new }
    {
        if let Some(rounds) = &mut self.rounds {
            let settled = rounds.round(rt, workers);
            self.keeps_rule();
            return settled;
        }
        self.keeps_rule();
        Ok(())
    }
}
