//! A parallel run of a model.

ghost use Rattle.std.specs.Prelude.{◌≡◌, ◌<◌, ◌≤◌, IfOk, max};
ghost use Rattle.tw_process.specs.Behaviour.{simulation_of};
ghost use Rattle.tw_rounds.specs.Warp.{HasRun, IsOpening, IsRight, IsSameRun, handled};
ghost use Rattle.tw_sim.specs.Seq.{at};
ghost use Rattle.tw_sim.specs.Simulation.{state};

mod running;

use crate::alone::Alone;
use crate::counts::Counts;
use crate::course::Course;
use crate::rounds::Rounds;
use crate::window::Pace;
use std::alloc::{AllocError, Global};
use std::marker::Model;
use tw_process::ProcessModel;

/// A parallel run of a model, as far as it has come.
///
/// One thread alone goes on, in the sequential run's own order, or all processes in rounds, each share of them in a thread:
/// they run ahead of one another, and are rolled back where a message comes late. It takes back at once what undone events
/// had sent (aggressive cancellation).
#[derive(Drop)]
pub struct TimeWarp<'a, M: ProcessModel> {
    model: &'a M,
    stop: u64,
    // One of the two is there.
    alone: Option<Alone<'a, M>>,
    rounds: Option<Rounds<'a, M>>,
    course: Course,
    pace: Pace,
    // Up to the last change of the way.
    counts: Counts,
}

impl<'a, M: ProcessModel> Model for TimeWarp<'a, M> {
    ghost use Rattle.std.specs.Prelude.{◌≤◌};
    ghost use Rattle.tw_process.specs.Behaviour.{simulation_of};
    ghost use Rattle.tw_rounds.specs.Warp.{GoesOneWay, Warp, bound_in, processes_in};

    ghost Value = { Warp M M.Event };

    ghost view = { λ a. let m = simulation_of M.Event.parts M.Event.cmp (M.behaviour a.model.now) in
        record { model = a.model.now; stop = a.stop; bound = bound_in m a.alone a.rounds; processes = processes_in m a.alone a.rounds } };

    ghost invariant = { λ a. (a.stop ≤ (M.behaviour a.model.now).latest)
        × GoesOneWay (simulation_of M.Event.parts M.Event.cmp (M.behaviour a.model.now)) a.model.now a.stop a.alone a.rounds };
}

impl<'a, M: ProcessModel> TimeWarp<'a, M> {
    /// The run of this model before its first event.
    pub fn open(alloc: Global, model: &'a M) -> Result<TimeWarp<'a, M>, AllocError>
        ensures { IfOk result (λ w. IsOpening (simulation_of M.Event.parts M.Event.cmp (M.behaviour model.now)) model.now w) }
    {
        let alone = Alone::open(alloc, model)?;
        Ok(TimeWarp {
            model,
            stop: 0,
            alone: Some(alone),
            rounds: None,
            course: Course::new(),
            pace: Pace::new(model.lookahead()),
            counts: Counts::default(),
        })
    }

    /// The model that runs.
    pub fn model(&self) -> &'a M
        ensures { result.now ≡ self.now.model }
    {
        self.model
    }

    /// The greatest stop that was asked for, in ticks.
    pub fn stop(&self) -> u64
        ensures { result ≡ self.now.stop }
    {
        self.stop
    }

    /// The bound, in ticks (global virtual time): what was handled before it stays.
    pub fn bound(&self) -> u64
        ensures { result ≡ self.now.bound }
    {
        if let Some(alone) = &self.alone {
            return alone.bound();
        }
        match &self.rounds {
            Some(rounds) => rounds.bound(),
            None => 0,
        }
    }

    /// What its processes have done, since it was opened.
    pub fn counts(&self) -> Counts {
        let mut counts = self.counts;
        if let Some(alone) = &self.alone {
            counts.add(alone.counts());
        }
        if let Some(rounds) = &self.rounds {
            counts.add(rounds.counts());
        }
        counts
    }

    /// The state of a process, as the events that it has handled left it. Where the bound has come to the stop, that is
    /// its state in the sequential run to the stop.
    pub fn state(&self, number: u32) -> &M::State
        requires { number < (M.behaviour self.now.model).processes }
        ensures known { let m = simulation_of M.Event.parts M.Event.cmp (M.behaviour self.now.model) in
            M.known result.now ≡ state m number (handled number self.now) }
        ensures complete { let m = simulation_of M.Event.parts M.Event.cmp (M.behaviour self.now.model) in
            self.now.bound ≡ self.now.stop → M.known result.now ≡ at m self.now.stop number }
    {
        self.keeps_rule();
        self.state_of(number)
    }

    /// The state of a process, as the events that it has handled left it.
    fn state_of(&self, number: u32) -> &M::State
        requires { number < (M.behaviour self.now.model).processes }
        ensures { let m = simulation_of M.Event.parts M.Event.cmp (M.behaviour self.now.model) in
            M.known result.now ≡ state m number (handled number self.now) }
    {
        if let Some(alone) = &self.alone {
            return alone.state(number);
        }
        match &self.rounds {
            Some(rounds) => rounds.state(number),
            None => unreachable!(),
        }
    }

    /// Tells what holds of every run. It does nothing.
    fn keeps_rule(&self)
        ensures bound { self.now.bound ≤ self.now.stop }
        ensures latest { self.now.stop ≤ (M.behaviour self.now.model).latest }
        ensures right { IsRight (simulation_of M.Event.parts M.Event.cmp (M.behaviour self.now.model)) self.now }
        ensures complete { self.now.bound ≡ self.now.stop → HasRun (simulation_of M.Event.parts M.Event.cmp (M.behaviour self.now.model)) self.now }
    {
        if let Some(alone) = &self.alone {
            alone.keeps_law();
        }
        if let Some(rounds) = &self.rounds {
            rounds.keeps_rule();
        }
    }

    /// The stop becomes the greater of itself and `stop`.
    fn raise_stop(&mut self, stop: u64)
        requires { stop ≤ (M.behaviour self.old.model).latest }
        ensures { self.new ≡ record self.old { stop = max self.old.stop stop } }
    {
        self.stop = self.stop.max(stop);
    }

    /// It goes on in rounds from here, where one thread alone has come to its stop and there is memory.
    fn share(&mut self)
        ensures same { IsSameRun self.old self.new }
        ensures bound { self.new.bound ≡ self.old.bound }
    {
        let Some(alone) = self.alone.take() else {
            return;
        };
        if alone.bound() < alone.stop() {
            self.alone = Some(alone);
            return;
        }
        let counts = alone.counts();
        match Rounds::take_over(alone, self.pace) {
            Ok(rounds) => {
                self.counts.add(counts);
                self.rounds = Some(rounds);
            }
            Err(alone) => self.alone = Some(alone),
        }
    }

    /// One thread goes on alone from here, where the rounds have come to their stop, nothing is on its way any more and
    /// there is memory.
    fn go_alone(&mut self)
        ensures same { IsSameRun self.old self.new }
        ensures bound { self.new.bound ≡ self.old.bound }
    {
        let Some(rounds) = self.rounds.take() else {
            return;
        };
        if rounds.bound() < rounds.stop() {
            self.rounds = Some(rounds);
            return;
        }
        rounds.keeps_rule();
        let counts = rounds.counts();
        self.pace = rounds.pace();
        match rounds.give_up() {
            Ok(alone) => {
                self.counts.add(counts);
                self.alone = Some(alone);
            }
            Err(rounds) => self.rounds = Some(rounds),
        }
    }

    /// How many events were handled and not taken back, about.
    fn events(&self) -> u64 {
        let counts = self.counts();
        counts.handled.saturating_sub(counts.antimessages)
    }
}
