//! The messages on their way.
ghost use Rattle.std.specs.Prelude.{◌≡◌, ◌<◌, [], length, map, remove, slice_get};
ghost use Rattle.tw_core.specs.Steps.{least_time};
ghost use Rattle.tw_model.specs.Case.{Case as ACase, simulation};

use crate::chunks::{CHUNK, count, find, join, least_in_chunks, pick};
use crate::least::least_in_flight;
use std::alloc::Global;
use std::marker::Model;
use std::mem;
use tw_event::Event;
use tw_sim::Signed;

/// The messages on their way, in the order sent.
#[derive(Drop)]
pub(crate) struct Flight {
    // In chunks, the oldest first.
    earlier: Vec<Vec<Signed<Event>>>,
    /// Those sent last, behind which a shard sends.
    pub(crate) recent: Vec<Signed<Event>>,
}

impl Model for Flight {
    ghost use Rattle.std.specs.Prelude.{List};
    ghost use Rattle.tw_event.specs.declared.event.Event.{Event as AnEvent};
    ghost use Rattle.tw_sim.specs.declared.machine.Signed.{Signed as ASigned};

    ghost Value = { List (ASigned AnEvent) };

    ghost use Rattle.tw_warp.specs.InFlight.{flight_of};

    ghost view = { flight_of };
}

impl Flight {
    /// No messages.
    pub(crate) fn new(alloc: Global) -> Flight
        ensures { result ≡ [] }
    {
        Flight {
            earlier: Vec::new(alloc),
            recent: Vec::new(alloc),
        }
    }

    /// Makes the recent messages a chunk, where they are many. Where memory is refused they stay as they are,
    /// which costs time alone: so no step is refused for it.
    pub(crate) fn settle(&mut self)
        ensures { self.new ≡ self.old }
    {
        if self.recent.len() < CHUNK || self.earlier.reserve(1).is_err() {
            return;
        }
        let alloc = *self.recent.allocator();
        let chunk = mem::replace(&mut self.recent, Vec::new(alloc));
        self.earlier.push_reserved(chunk);
    }

    /// How many messages there are.
    pub(crate) fn len(&self) -> u128
        ensures { result ≡ length self.now }
    {
        count(&self.earlier, &self.recent)
    }

    /// The message at a place, from 0.
    pub(crate) fn get(&self, index: usize) -> Option<Signed<Event>>
        ensures { result ≡ slice_get self.now index }
    {
        let spot = find(&self.earlier, index);
        match self.earlier.get(spot.chunk) {
            Some(chunk) => pick(chunk, spot.index),
            None => pick(&self.recent, spot.index),
        }
    }

    /// Takes out the message at a place, from 0.
    pub(crate) fn remove(&mut self, index: usize)
        requires { index < length self.old }
        ensures { self.new ≡ remove self.old index }
    {
        let spot = find(&self.earlier, index);
        if spot.chunk < self.earlier.len() {
            self.earlier[spot.chunk].remove(spot.index);
            join(&mut self.earlier, spot.chunk);
            join(&mut self.earlier, spot.chunk.saturating_sub(1));
        } else {
            self.recent.remove(spot.index);
        }
    }

    /// The least time of the messages, and of another time.
    pub(crate) fn least_time(&self, top: u64) -> u64
        ensures { (case : ACase) → result ≡ least_time (simulation case) (map (λ x. x.event) self.now) top }
    {
        least_in_chunks(&self.earlier, least_in_flight(&self.recent, top))
    }
}
