//! An epidemic as a model: what a contact does and sends, and the way back.

ghost use Rattle.std.specs.Prelude.{◌≡◌, ◌<◌, not};
ghost use Rattle.tw_process.specs.declared.limits.TheConstants.{LATEST};
ghost use Rattle.tw_epidemic.specs.Epidemic.{behaviour_of, contact};

use crate::epidemic::{Cell, Epidemic, MOST_CONTACTS};
use std::alloc::{AllocError, Global};
use tw_process::limits::LATEST;
use tw_process::{Event, ProcessModel, Refused};

impl Epidemic {
    // A contact with the cell that is so many places further on, and round.
    fn contact(&self, event: &Event<()>, places: u32, number: u64) -> Event<()>
        requires { event.now.time < LATEST }
        ensures { result ≡ contact self.now event.now places number }
    {
        let Epidemic { cells, longest, .. } = *self;
        let here = u64::from(event.dst);
        let there = (here + u64::from(places)) % u64::from(cells);
        let delay = 1 + (31 * here + 17 * there) % u64::from(longest);
        event.send(delay, there as u32, number, ())
    }
}

impl ProcessModel for Epidemic {
    type State = Cell;

    type Known = Cell;

    type Event = Event<()>;

    // Whether the contact infected the cell.
    type Note = bool;

    ghost behaviour = { behaviour_of };

    ghost is_state = { λ m r s. Unit {0} };

    ghost known = { λ s. s };

    ghost is_note = { λ m before e note. note ≡ not before.infected };

    fn keeps_laws(&self) {}

    fn processes(&self) -> u32 {
        self.cells
    }

    fn most_sends(&self) -> usize {
        4
    }

    fn lookahead(&self) -> u64 {
        1
    }

    fn latest(&self) -> u64 {
        LATEST
    }

    fn begin(&self, _alloc: Global, _number: u32) -> Result<Cell, AllocError> {
        Ok(Cell::default())
    }

    fn openings(&self, alloc: Global) -> Result<Vec<Event<()>>, AllocError> {
        Ok(Vec::from_array(alloc, [Event::opening(1, self.first, 0, ())])?)
    }

    fn does_suit(&self, event: &Event<()>) -> bool {
        event.dst < self.cells
    }

    fn receive(&self, _number: u32, cell: &mut Cell, _event: &Event<()>) -> Result<bool, Refused> {
        if cell.contacts >= MOST_CONTACTS {
            return Err(Refused::CounterFull);
        }
        let infects = !cell.infected;
        cell.infected = true;
        cell.contacts += 1;
        Ok(infects)
    }

    fn send(
        &self,
        _number: u32,
        _cell: &Cell,
        event: &Event<()>,
        infects: bool,
        sends: &mut Vec<Event<()>>,
    ) {
        if infects {
            sends.push_reserved(self.contact(event, 1, 1));
            sends.push_reserved(self.contact(event, self.cells - 1, 2));
            sends.push_reserved(self.contact(event, self.width, 3));
            sends.push_reserved(self.contact(event, self.cells - self.width, 4));
        }
    }

    fn take_back(&self, _number: u32, cell: &mut Cell, _event: &Event<()>, infected: bool) {
        cell.infected = !infected;
        cell.contacts -= 1;
    }
}
