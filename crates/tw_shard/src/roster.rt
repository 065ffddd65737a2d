//! Which routers a shard has, and where their timelines stand.

ghost use Rattle.std.specs.Prelude.{◌≡◌, ◌<◌, ◌≤◌, ◌==◌, ◌++◌, ◌∷◌, [], ℕ, false, true, filter, if◌then◌else◌, length, slice_get, slice_index_or, IfOk, OnErr, OnOk};
ghost use Rattle.std.specs.List.{range_with_len, swap_remove};
ghost use Rattle.tw_shard.specs.Roster.{IsRoster, IsWithout, has, place_in};
ghost use Rattle.tw_sim.specs.Owners.{owner};

use std::alloc::{AllocError, Global};
use std::marker::Model;
use tw_sim::owner;

/// The number in the table of places that stands for no place.
const NOT_HERE: u32 = u32::MAX;

/// Some routers of a case, with a table by router of where each stands.
#[derive(Drop)]
pub(crate) struct Roster {
    routers: Vec<u32>,
    places: Vec<u32>,
}

impl Model for Roster {
    ghost use Rattle.tw_shard.specs.Roster as spec;
    ghost use Rattle.tw_shard.specs.Roster.{IsIndexed, roster_of};

    ghost Value = { spec.Roster };

    ghost view = { roster_of };

    ghost invariant = { IsIndexed };
}

impl Roster {
    /// None of the `count` routers of a case.
    pub(crate) fn new(alloc: Global, count: u32) -> Result<Roster, AllocError>
        ensures count { IfOk result (λ roster. roster.count ≡ count) }
        ensures none { IfOk result (λ roster. roster.routers ≡ []) }
    {
        let mut places = Vec::new(alloc);
        places.resize(count as usize, NOT_HERE)?;
        Ok(Roster {
            routers: Vec::new(alloc),
            places,
        })
    }

    /// Those of one of so many workers, in rising order, where routers are dealt out in turn.
    pub(crate) fn in_turn(
        alloc: Global,
        count: u32,
        worker: u32,
        workers: u32,
    ) -> Result<Roster, AllocError>
        requires { worker < workers }
        ensures count { IfOk result (λ roster. roster.count ≡ count) }
        ensures routers { IfOk result (λ roster. roster.routers ≡ filter (λ r. owner workers r == worker) (range_with_len 0 count)) }
    {
        let mut roster = Roster::new(alloc, count)?;
        for router in 0..count {
            let own = owner(router, workers as usize) == worker as usize;
            roster.add_where(own, router)?;
        }
        Ok(roster)
    }

    /// Those that this worker has, in rising order, by the worker of each router.
    pub(crate) fn owned(
        alloc: Global,
        count: u32,
        worker: u32,
        owners: &[u32],
    ) -> Result<Roster, AllocError>
        requires { length owners.now ≡ count }
        ensures count { IfOk result (λ roster. roster.count ≡ count) }
        ensures routers { (none : ℕ) → IfOk result (λ roster. roster.routers ≡ filter (λ r. slice_index_or owners.now r none == worker) (range_with_len 0 count)) }
    {
        let mut roster = Roster::new(alloc, count)?;
        for router in 0..count {
            let own = owners[router as usize] == worker;
            roster.add_where(own, router)?;
        }
        Ok(roster)
    }

    /// The routers, in the order of their places.
    pub(crate) fn routers(&self) -> &[u32]
        ensures value { result.now ≡ self.now.routers }
        ensures roster { IsRoster self.now }
    {
        &self.routers
    }

    /// Whether a router is one of these.
    #[inline(always)]
    pub(crate) fn has(&self, router: u32) -> bool
        ensures value { result ≡ has self.now.routers router }
        ensures roster { IsRoster self.now }
    {
        match noted(&self.places, router) {
            Some(place) => place != NOT_HERE,
            None => false,
        }
    }

    /// Where a router stands.
    #[inline(always)]
    pub(crate) fn place(&self, router: u32) -> usize
        requires { has self.now.routers router ≡ true }
        ensures value { result ≡ place_in self.now.routers router }
        ensures within { result < length self.now.routers }
    {
        self.places[router as usize] as usize
    }

    /// Makes room for one more router, so that adding it cannot fail.
    pub(crate) fn reserve_one(&mut self) -> Result<(), AllocError>
        ensures ok { OnOk result (0 < self.new.room) }
        ensures count { self.new.count ≡ self.old.count }
        ensures routers { self.new.routers ≡ self.old.routers }
    {
        if self.routers.len() >= NOT_HERE as usize {
            return Err(AllocError);
        }
        self.routers.reserve(1)
    }

    /// Adds a router behind the others, where this says so.
    fn add_where(&mut self, own: bool, router: u32) -> Result<(), AllocError>
        requires known { router < self.old.count }
        requires new { has self.old.routers router ≡ false }
        ensures count { self.new.count ≡ self.old.count }
        ensures routers { OnOk result (self.new.routers ≡ (if own then self.old.routers ++ router ∷ [] else self.old.routers)) }
    {
        if own {
            self.reserve_one()?;
            self.add(router);
        }
        Ok(())
    }

    /// Adds a router behind the others, where there is room.
    pub(crate) fn add(&mut self, router: u32)
        requires room { 0 < self.old.room }
        requires known { router < self.old.count }
        requires new { has self.old.routers router ≡ false }
        ensures count { self.new.count ≡ self.old.count }
        ensures routers { self.new.routers ≡ self.old.routers ++ router ∷ [] }
    {
        self.places[router as usize] = self.routers.len() as u32;
        self.routers.push_reserved(router);
    }

    /// Takes out a router, and tells where it stood: the last one comes to its place.
    pub(crate) fn remove(&mut self, router: u32) -> usize
        requires { has self.old.routers router ≡ true }
        ensures place { result ≡ place_in self.old.routers router }
        ensures within { result < length self.old.routers }
        ensures count { self.new.count ≡ self.old.count }
        ensures routers { self.new.routers ≡ swap_remove self.old.routers (place_in self.old.routers router) router }
        ensures less { IsWithout ℕ 0 (place_in self.old.routers router) self.old.routers self.new.routers }
    {
        let noted = self.places[router as usize];
        let place = noted as usize;
        self.routers.swap_remove(place);
        self.places[router as usize] = NOT_HERE;
        if place < self.routers.len() {
            let moved = self.routers[place];
            self.places[moved as usize] = noted;
        }
        place
    }
}

/// What a table of places notes of a router.
#[inline(always)]
fn noted(places: &[u32], router: u32) -> Option<u32>
    ensures { result ≡ slice_get places.now router }
{
    places.get(router as usize).copied()
}
