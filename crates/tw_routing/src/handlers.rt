//! The handlers of the routing protocol: an event is handled at a router, and taken back.

ghost use Rattle.std.specs.Prelude.{◌≡◌, ◌↔◌};
ghost use Rattle.tw_handlers.specs.Calls.{counter_full};
ghost use Rattle.tw_model.specs.declared.memory.OrMemory.TheVariants as or_memory;
ghost use Rattle.tw_process.specs.declared.refused.Refused.TheVariants.{CounterFull as FullCounter};
ghost use Rattle.tw_routing.specs.Routing.{IsNoted, IsRouterOf, routing_behaviour};

use crate::routing::Routing;
use crate::sending::{put_behind, send_again};
use crate::state::RouterState;
use smallvec::SmallVec;
use std::alloc::{AllocError, Global};
use tw_event::Event;
use tw_handlers::{CounterFull, UndoRecord, does_suit, handle_fitting, take_back};
use tw_model::OrMemory;
use tw_model::limits::{LATEST, MOST_LINKS};
use tw_process::{ProcessModel, Refused};
use tw_router::Router;

impl<'a> ProcessModel for Routing<'a> {
    type State = Router<'a>;

    type Known = RouterState;

    type Event = Event;

    type Note = UndoRecord;

    ghost behaviour = { routing_behaviour };

    ghost is_state = { IsRouterOf };

    ghost known = { λ router. router.state };

    ghost is_note = { IsNoted };

    fn keeps_laws(&self) {
        let _ = self.case();
    }

    fn processes(&self) -> u32 {
        self.case().instance().nodes()
    }

    fn most_sends(&self) -> usize {
        MOST_LINKS
    }

    // No link is quicker than a tick.
    fn lookahead(&self) -> u64 {
        1
    }

    fn latest(&self) -> u64 {
        LATEST
    }

    fn begin(&self, alloc: Global, number: u32) -> Result<Router<'a>, AllocError> {
        let router = Router::new(alloc, self.case().instance(), number)?;
        Ok(router)
    }

    fn openings(&self, alloc: Global) -> Result<Vec<Event>, AllocError> {
        let mut events = Vec::new(alloc);
        events.extend_from_slice(self.case().openings())?;
        Ok(events)
    }

    fn does_suit(&self, event: &Event) -> bool {
        does_suit(self.case().instance(), event.dst, event)
    }

    // What is sent is made again by `send`, from the state and the record.
    #[inline(always)]
    fn receive(
        &self,
        _number: u32,
        router: &mut Router<'a>,
        event: &Event,
    ) -> Result<UndoRecord, Refused> {
        let instance = self.case().instance();
        let mut sends = SmallVec::new(self.allocator());
        match handle_fitting(instance, router, event, &mut sends) {
            Ok(note) => Ok(note),
            Err(fault) => Err(refused(fault)),
        }
    }

    #[inline(always)]
    fn send(
        &self,
        _number: u32,
        router: &Router<'a>,
        event: &Event,
        note: UndoRecord,
        sends: &mut Vec<Event>,
    ) {
        send_again(self.case().instance(), router, event, note, sends);
    }

    #[inline(always)]
    fn take_back(&self, _number: u32, router: &mut Router<'a>, event: &Event, note: UndoRecord) {
        take_back(self.case().instance(), router, event, note);
    }

    // In one go: what handling it sends need not be made again.
    #[inline(always)]
    fn forward(
        &self,
        _number: u32,
        router: &mut Router<'a>,
        event: &Event,
        sends: &mut Vec<Event>,
    ) -> Result<UndoRecord, Refused> {
        let instance = self.case().instance();
        let mut sent = SmallVec::new(self.allocator());
        match handle_fitting(instance, router, event, &mut sent) {
            Ok(note) => {
                put_behind(sends, &sent);
                Ok(note)
            }
            Err(fault) => Err(refused(fault)),
        }
    }
}

/// Why an event is refused.
#[inline(always)]
fn refused(fault: OrMemory<CounterFull>) -> Refused
    ensures { (result ≡ FullCounter) ↔ (fault ≡ or_memory.Fault counter_full) }
{
    match fault {
        OrMemory::Fault(_) => Refused::CounterFull,
        OrMemory::Memory => Refused::Memory,
    }
}
