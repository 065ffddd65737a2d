//! A parallel run becomes a run on one thread, where it has come to its stop.

ghost use Rattle.std.specs.Prelude.{◌≡◌, ◌↔◌, ◌<◌, ◌++◌, ◌∷◌, ℕ, [], true, is_some, length, option_map, slice_index_or, vec_capacity, vec_len, IfErr, IfOk, IfSome, IsTrue};
ghost use Rattle.std.specs.Result.{IsErrAnd};
ghost use Rattle.tw_event.specs.Order.{event_before};
ghost use Rattle.tw_exchange.specs.Board.{who, workers};
ghost use Rattle.tw_model.specs.Case.{Case as ACase, IsCase};
ghost use Rattle.tw_model.specs.declared.memory.OrMemory.TheVariants as or_memory;
ghost use Rattle.tw_parallel.specs.Removal.{AreRemoved, IsRoomFor, MayLeave};
ghost use Rattle.tw_parallel.specs.Settled.{HasNoRecords, IsSettled, not_settled};
ghost use Rattle.tw_parallel.specs.Sim.{IsSim, RetainsEvents};
ghost use Rattle.tw_ordered.specs.Queue.{AreFor};
ghost use Rattle.tw_seq.specs.Run.{complete_run};
ghost use Rattle.tw_seq.specs.Traced.{retained};
ghost use Rattle.tw_shard.specs.Shard.{no_shard};
ghost use Rattle.tw_sim.specs.Ordered.{insert_all};

use crate::outcome::NotSettled;
use crate::sim::{Parts, Sim};
use std::alloc::{AllocError, Global};
use tw_calendar::EventList;
use tw_event::Event;
use tw_exchange::Exchange;
use tw_instance::Case;
use tw_model::OrMemory;
use tw_router::Router;
use tw_seq::{OneThread, RouterTrace, TracedRun};
use tw_shard::shards::is_none_ahead;
use tw_shard::{RouterAt, Shard};

/// A parallel run that is as it was, and why it did not become a run on one thread.
#[derive(Drop)]
pub struct StillParallel<'a> {
    /// The run.
    pub sim: Sim<'a>,
    /// It has not come to its stop, or want of memory.
    pub why: OrMemory<NotSettled>,
}

impl<'a> Sim<'a> {
    /// A parallel run that has come to its stop goes on from there on one thread. It keeps each router's events if all
    /// routers do. No router is copied.
    ///
    /// It is refused where the run has not come to its stop, or a router has an event that it could still undo. After a
    /// refusal and for want of memory the run comes back as it was.
    pub fn into_run(self) -> Result<TracedRun<'a>, StillParallel<'a>>
        ensures run { IfOk result (λ run. run.run ≡ complete_run self.entry.case self.entry.board.stop) }
        ensures retains { IfOk result (λ run. (run.retains ≡ true) ↔ RetainsEvents self.entry) }
        ensures refused { IsErrAnd result (λ still. still.why ≡ or_memory.Fault not_settled) ↔ (IsSettled self.entry × HasNoRecords self.entry → ⊥) }
        ensures back { IfErr result (λ still. still.sim ≡ self.entry) }
    {
        if !self.may_leave() {
            return Err(StillParallel {
                sim: self,
                why: OrMemory::Fault(NotSettled),
            });
        }
        match RunRoom::open(&self) {
            Ok(room) => Ok(move_out(self, room)),
            Err(AllocError) => Err(StillParallel {
                sim: self,
                why: OrMemory::Memory,
            }),
        }
    }

    /// Whether the run has come to its stop, and no router has an event that it could still undo.
    fn may_leave(&self) -> bool
        ensures value { IsTrue result ↔ (IsSettled self.now × HasNoRecords self.now) }
        ensures sim { IsSim self.now }
    {
        self.is_settled() && self.has_no_records()
    }

    /// Whether no router has an event that it could still undo.
    fn has_no_records(&self) -> bool
        ensures { IsTrue result ↔ HasNoRecords self.now }
    {
        is_none_ahead(self.case, &self.shards)
    }
}

/// What is moved out of a parallel run, or room for it.
#[derive(Drop)]
struct Removal<'a> {
    routers: Vec<Router<'a>>,
    traces: Vec<RouterTrace>,
    logs: Option<Vec<Vec<Event>>>,
}

/// What a run on one thread has beside its routers, and room for these.
#[derive(Drop)]
struct RunRoom<'a> {
    removal: Removal<'a>,
    pending: EventList,
    last_change: u64,
}

impl<'a> RunRoom<'a> {
    /// That of a parallel run that has come to its stop.
    fn open(sim: &Sim<'a>) -> Result<RunRoom<'a>, AllocError>
        requires { IsSettled sim.now }
        ensures { IfOk result (λ room. IsRoomFor sim.now room) }
    {
        let alloc = *sim.shards.allocator();
        let nodes = sim.case.instance().nodes();
        let removal = room_for_routers(alloc, nodes as usize, sim.retains_events())?;
        let waiting = sim.pending()?;
        let pending = event_list(alloc, nodes, &waiting)?;
        Ok(RunRoom {
            removal,
            pending,
            last_change: sim.last_change(),
        })
    }
}

/// Room for so many routers, and for their events, where these are retained.
fn room_for_routers<'a>(
    alloc: Global,
    count: usize,
    retains: bool,
) -> Result<Removal<'a>, AllocError>
    ensures none { (case : ACase) (time : ℕ) → IfOk result (λ removal. AreRemoved case time count 0 removal) }
    ensures retains { IfOk result (λ removal. is_some removal.logs ≡ retains) }
{
    let logs = if retains {
        Some(Vec::with_capacity(alloc, count)?)
    } else {
        None
    };
    Ok(Removal {
        routers: Vec::with_capacity(alloc, count)?,
        traces: Vec::with_capacity(alloc, count)?,
        logs,
    })
}

/// These events, which wait for so many routers.
fn event_list(alloc: Global, nodes: u32, events: &[Event]) -> Result<EventList, AllocError>
    requires { AreFor nodes events.now }
    ensures events { IfOk result (λ list. list.events ≡ insert_all event_before events.now []) }
    ensures routers { IfOk result (λ list. list.routers ≡ nodes) }
{
    let mut list = EventList::new(alloc, nodes)?;
    for event in events {
        list.insert(event)?;
    }
    Ok(list)
}

/// The routers of a parallel run leave their workers: it is a run on one thread now.
fn move_out<'a>(sim: Sim<'a>, room: RunRoom<'a>) -> TracedRun<'a>
    requires settled { IsSettled sim }
    requires records { HasNoRecords sim }
    requires room { IsRoomFor sim room }
    ensures run { result.run ≡ complete_run sim.entry.case sim.entry.board.stop }
    ensures retains { (result.retains ≡ true) ↔ RetainsEvents sim.entry }
{
    let Parts {
        case,
        exchange,
        shards,
        hands: _,
    } = sim.into_parts();
    let RunRoom {
        removal,
        pending,
        last_change,
    } = room;
    let stop = exchange.stop();
    let Removal {
        routers,
        traces,
        logs,
    } = take_out(case, &exchange, shards, removal);
    let thread = OneThread::resume(case, stop, routers, pending, last_change);
    TracedRun::resume(thread, traces, logs)
}

/// Each router of the case leaves its worker's shard, with what is noted of its events.
fn take_out<'a>(
    case: &Case,
    exchange: &Exchange,
    shards: Vec<Shard<'a>>,
    removal: Removal<'a>,
) -> Removal<'a>
    requires case { IsCase case.now }
    requires none { AreRemoved case.now exchange.now.stop case.now.net.nodes 0 removal }
    requires homes { (r : ℕ) → r < case.now.net.nodes → who exchange.now r < length shards.items }
    requires workers { length shards.items ≡ workers exchange.now }
    requires each { (r : ℕ) → r < case.now.net.nodes
        → MayLeave case.now exchange.now.stop r (is_some removal.logs) (slice_index_or shards.items (who exchange.now r) no_shard) }
    ensures left { AreRemoved case.now exchange.now.stop case.now.net.nodes case.now.net.nodes result }
    ensures retains { is_some result.logs ≡ is_some removal.entry.logs }
{
    let mut shards = shards;
    let mut removal = removal;
    for number in 0..case.instance().nodes() {
        let Some(worker) = exchange.owner(number) else {
            unreachable!()
        };
        let router = shards[worker as usize].take_router(number);
        add(&mut removal, router);
    }
    removal
}

/// Adds a router, for which there is room.
fn add<'a>(removal: &mut Removal<'a>, router: RouterAt<'a>)
    requires routers { vec_len removal.old.routers < vec_capacity removal.old.routers }
    requires traces { vec_len removal.old.traces < vec_capacity removal.old.traces }
    requires logs { IfSome removal.old.logs (λ logs. vec_len logs < vec_capacity logs) }
    ensures routers { removal.new.routers.items ≡ removal.old.routers.items ++ router.entry.router ∷ [] }
    ensures traces { removal.new.traces.items ≡ removal.old.traces.items ++ record { newest = router.entry.newest; change = router.entry.last_change } ∷ [] }
    ensures logs { retained removal.new.logs ≡ option_map (λ lists. lists ++ router.entry.events.items ∷ []) (retained removal.old.logs) }
    ensures router_room { vec_capacity removal.new.routers ≡ vec_capacity removal.old.routers }
    ensures trace_room { vec_capacity removal.new.traces ≡ vec_capacity removal.old.traces }
    ensures log_room { option_map (λ logs. vec_capacity logs) removal.new.logs ≡ option_map (λ logs. vec_capacity logs) removal.old.logs }
{
    removal.routers.push_reserved(router.router);
    removal.traces.push_reserved(RouterTrace {
        newest: router.newest,
        change: router.last_change,
    });
    if let Some(logs) = &mut removal.logs {
        logs.push_reserved(router.events);
    }
}
