//! What a process has committed.

ghost use Rattle.std.specs.Prelude.{List, ◌≡◌, ◌+◌, ◌≤◌, ◌++◌, ◌∷◌, [], OnErr, OnOk, length, map, reverse, slice_get, vec_capacity, vec_len};
ghost use Rattle.tw_engine.specs.Past.{events_of, log_after};
ghost use Rattle.tw_process.specs.Behaviour.{simulation_of};
ghost use Rattle.tw_sim.specs.Simulation.{only};

use crate::past::{Done, last_of};
use crate::progress::Progress;
use std::alloc::{AllocError, Global};
use std::marker::Model;
use tw_process::laws::model_is_lawful;
use tw_process::{ProcessModel, Timed};

/// The committed events of a process. The model tells those up to a turn of the sequential run, so that they take no
/// memory; the later ones stand in a list.
#[derive(Drop)]
pub(crate) struct Committed<'a, M: ProcessModel> {
    model: &'a M,
    number: u32,
    /// The turn of the sequential run.
    base: Progress,
    /// The events after it, in the order handled.
    later: Vec<M::Event>,
    /// The last of all.
    newest: Option<M::Event>,
}

impl<'a, M: ProcessModel> Model for Committed<'a, M> {
    ghost use Rattle.std.specs.Prelude.{◌≡◌, slice_get};
    ghost use Rattle.tw_process.specs.Behaviour.{simulation_of};
    ghost use Rattle.tw_engine.specs.Past.{Settled, committed_after};

    ghost Value = { Settled M M.Event };

    ghost view = { λ a. record {
      model = a.model.now;
      number = a.number;
      past = committed_after (simulation_of M.Event.parts M.Event.cmp (M.behaviour a.model.now)) a.number a.base.since a.base.turns a.later.items;
    } };

    ghost invariant = { λ a. a.newest
        ≡ slice_get (committed_after (simulation_of M.Event.parts M.Event.cmp (M.behaviour a.model.now)) a.number a.base.since a.base.turns a.later.items) 0 };
}

impl<'a, M: ProcessModel> Committed<'a, M> {
    /// Nothing is committed.
    pub(crate) fn new(alloc: Global, model: &'a M, number: u32) -> Committed<'a, M>
        ensures { result ≡ record { model = model.now; number = number; past = [] } }
    {
        model_is_lawful(model);
        Committed {
            model,
            number,
            base: Progress { since: 0, turns: 0 },
            later: Vec::new(alloc),
            newest: None,
        }
    }

    /// The event that was handled last.
    pub(crate) fn newest(&self) -> Option<M::Event>
        ensures { result ≡ slice_get self.now.past 0 }
    {
        self.newest
    }

    /// The events of steps become committed, the first one first. Without memory none does; where there are none, none
    /// is taken.
    pub(crate) fn add_steps(&mut self, steps: &[Done<M::Event, M::Note>]) -> Result<(), AllocError>
        ensures ok { OnOk result (self.new ≡ record self.old { past = events_of (reverse steps.now) ++ self.old.past }) }
        ensures err { OnErr result (self.new ≡ self.old) }
    {
        self.later.reserve(steps.len())?;
        add_events(&mut self.later, steps);
        self.newest = newest_of(steps, self.newest);
        Ok(())
    }

    /// An event becomes committed in the sequential run's own turn, so that no event is kept in the list any more.
    #[inline(always)]
    pub(crate) fn put_in_turn(&mut self, event: M::Event, progress: Progress)
        requires turn { let m = simulation_of M.Event.parts M.Event.cmp (M.behaviour self.old.model) in
            only m self.old.number (log_after m progress.since progress.turns) ≡ event ∷ self.old.past }
        ensures { self.new ≡ record self.old { past = event ∷ self.old.past } }
    {
        self.later.clear();
        self.base = progress;
        self.newest = Some(event);
    }

    /// What is committed is what the sequential run has handled, so that no event is kept in the list any more.
    pub(crate) fn forget(&mut self, base: Progress)
        requires turn { let m = simulation_of M.Event.parts M.Event.cmp (M.behaviour self.old.model) in
            only m self.old.number (log_after m base.since base.turns) ≡ self.old.past }
        ensures { self.new ≡ self.old }
    {
        self.later.clear();
        self.base = base;
    }
}

/// The last event of steps, or else of those before them.
fn newest_of<E: Timed, N: Copy>(steps: &[Done<E, N>], before: Option<E>) -> Option<E>
    ensures { (older : List E) → before ≡ slice_get older 0 → result ≡ slice_get (events_of (reverse steps.now) ++ older) 0 }
{
    match last_of(steps) {
        Some(step) => Some(step.event),
        None => before,
    }
}

/// Adds the events of steps, for which there is room.
fn add_events<E: Timed, N: Copy>(events: &mut Vec<E>, steps: &[Done<E, N>])
    requires { vec_len events.old + length steps.now ≤ vec_capacity events.old }
    ensures { events.new.items ≡ events.old.items ++ map (λ d. d.event) steps.now }
{
    for step in steps {
        events.push_reserved(step.event);
    }
}
