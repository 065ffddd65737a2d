//! All of a parallel run but its routers, and how these come.

ghost use Rattle.std.specs.Prelude.{◌≡◌, ◌<◌, ◌≤◌, ℕ, [], true, is_some, length, option_map, slice_index_or, slice_set, vec_capacity, IfOk, IfSome};
ghost use Rattle.std.specs.List.{AllByRecursion};
ghost use Rattle.tw_event.specs.Order.{event_before};
ghost use Rattle.tw_exchange.specs.Board.{opening_owned};
ghost use Rattle.tw_model.specs.Case.{IsCase, simulation};
ghost use Rattle.tw_parallel.specs.Moving.{fit};
ghost use Rattle.tw_parallel.specs.Vacancy.{AreVacant, IsFilled, IsTakenOver, IsVacancy, Start, no_vacant, start_from, start_of};
ghost use Rattle.tw_seq.specs.Run.{complete_run, routers_after};
ghost use Rattle.tw_seq.specs.Traced.{lists_of, logs_after, retained, traces_after};
ghost use Rattle.tw_shard.specs.Shard.{no_shard};
ghost use Rattle.tw_sim.specs.Ordered.{insert_all};
ghost use Rattle.tw_sim.specs.Seq.{rest};

use crate::hands::open_hands;
use crate::sim::Sim;
use std::alloc::{AllocError, Global};
use std::mem;
use tw_event::Event;
use tw_exchange::Exchange;
use tw_instance::Case;
use tw_router::Router;
use tw_seq::{RouterTrace, TracedRun};
use tw_shard::{RouterAt, Shard, VacantShard};
use tw_sim::Cancel;
use tw_table::Hand;

/// All of a parallel run but its routers, for which there is room.
#[derive(Drop)]
pub(crate) struct Vacancy<'a> {
    case: &'a Case,
    exchange: Exchange,
    vacant: Vec<VacantShard<'a>>,
    // Empty, with room for as many.
    shards: Vec<Shard<'a>>,
    hands: Vec<Hand>,
}

impl<'a> Vacancy<'a> {
    /// That of so many workers for a run that stands at its stop, by the worker of each router.
    pub(crate) fn open(
        alloc: Global,
        run: &TracedRun<'a>,
        workers: u32,
        owners: &[u32],
        cancel: Cancel,
    ) -> Result<Vacancy<'a>, AllocError>
        requires owners { length owners.now ≡ run.now.run.case.net.nodes }
        requires complete { run.now.run ≡ complete_run run.now.run.case run.now.run.stop }
        requires some { 0 < workers }
        ensures vacancy { IfOk result (λ v. IsVacancy v) }
        ensures start { IfOk result (λ v. start_of v
            ≡ record { case = run.now.run.case; owners = owners.now; workers = workers; time = run.now.run.stop; retains = run.now.retains; cancel = cancel }) }
    {
        let thread = run.run();
        let case = thread.case();
        let stop = thread.stop();
        let pending = thread.pending()?;
        let retains = run.retains();
        let exchange = exchange_at(alloc, workers, stop, owners)?;
        let vacant = vacant_shards(
            alloc, case, workers, owners, stop, &pending, retains, cancel,
        )?;
        let shards = Vec::with_capacity(alloc, workers as usize)?;
        let hands = open_hands(alloc, workers)?;
        Ok(Vacancy {
            case,
            exchange,
            vacant,
            shards,
            hands,
        })
    }
}

/// An exchange for so many workers who all stand at a time, by the worker of each router.
fn exchange_at(
    alloc: Global,
    workers: u32,
    time: u64,
    owners: &[u32],
) -> Result<Exchange, AllocError>
    ensures { IfOk result (λ x. x ≡ opening_owned owners.now workers time time) }
{
    let listed = Vec::from_slice(alloc, owners)?;
    Exchange::with_owners(alloc, workers, time, time, listed)
}

/// The shards of so many workers at a time, before their routers come.
fn vacant_shards<'a>(
    alloc: Global,
    case: &'a Case,
    workers: u32,
    owners: &[u32],
    time: u64,
    pending: &[Event],
    retains: bool,
    cancel: Cancel,
) -> Result<Vec<VacantShard<'a>>, AllocError>
    requires owners { length owners.now ≡ case.now.net.nodes }
    requires pending { insert_all event_before pending.now [] ≡ rest (simulation case.now) time }
    ensures { let start : Start = record { case = case.now; owners = owners.now; workers = workers; time = time; retains = retains; cancel = cancel } in
        IfOk result (λ v. AreVacant start 0 v.items) }
{
    let mut vacant = Vec::with_capacity(alloc, workers as usize)?;
    for worker in 0..workers {
        vacant.push_reserved(VacantShard::at(
            alloc, case, worker, workers, owners, time, pending, retains, cancel,
        )?);
    }
    Ok(vacant)
}

/// The routers of a run come to their workers: it is a parallel run now.
pub(crate) fn move_in<'a>(run: TracedRun<'a>, owners: &[u32], vacancy: Vacancy<'a>) -> Sim<'a>
    requires vacancy { IsVacancy vacancy }
    requires some { 0 < (start_of vacancy).workers }
    requires owners { owners.now ≡ (start_of vacancy).owners }
    requires fit { fit (start_of vacancy).case.net.nodes (start_of vacancy).workers owners.now ≡ true }
    requires run { run.run ≡ complete_run (start_of vacancy).case (start_of vacancy).time }
    requires retains { run.retains ≡ (start_of vacancy).retains }
    ensures { IsTakenOver (start_of vacancy.entry) result }
{
    let Vacancy {
        case,
        exchange,
        vacant,
        shards,
        hands,
    } = vacancy;
    let (thread, traces, logs) = run.into_parts();
    let (routers, _, _) = thread.into_parts();
    let vacant = take_in(routers, &traces, logs, owners, vacant);
    let shards = shards_of(vacant, shards);
    Sim {
        case,
        exchange,
        shards,
        hands,
    }
}

/// Each router of a run comes to its worker's shard, with what is noted of its events.
fn take_in<'a>(
    routers: Vec<Router<'a>>,
    traces: &[RouterTrace],
    logs: Option<Vec<Vec<Event>>>,
    owners: &[u32],
    vacant: Vec<VacantShard<'a>>,
) -> Vec<VacantShard<'a>>
    requires vacant { AreVacant (start_from owners.now vacant.items) 0 vacant.items }
    requires case { IsCase (start_from owners.now vacant.items).case }
    requires fit { let s = start_from owners.now vacant.items in fit s.case.net.nodes s.workers owners.now ≡ true }
    requires routers { let s = start_from owners.now vacant.items in routers.items ≡ routers_after s.case (complete_run s.case s.time).events }
    requires traces { let s = start_from owners.now vacant.items in traces.now ≡ traces_after s.case (complete_run s.case s.time).events }
    requires logs { let s = start_from owners.now vacant.items in IfSome logs (λ logs. lists_of logs.items ≡ logs_after s.case (complete_run s.case s.time).events) }
    requires retains { is_some logs ≡ (start_from owners.now vacant.items).retains }
    ensures { let s = start_from owners.now vacant.entry.items in AreVacant s s.case.net.nodes result.items }
{
    let alloc = *routers.allocator();
    let mut vacant = vacant;
    let mut logs = logs;
    for router in routers {
        let number = router.node() as usize;
        let trace = traces[number];
        let events = take_log(alloc, &mut logs, number);
        vacant[owners[number] as usize].take_in(RouterAt {
            router,
            events,
            newest: trace.newest,
            last_change: trace.change,
        });
    }
    vacant
}

/// A router's events, where they are retained; else none.
fn take_log(alloc: Global, logs: &mut Option<Vec<Vec<Event>>>, router: usize) -> Vec<Event>
    requires { IfSome logs.old (λ logs. router < length logs.items) }
    ensures log { IfSome logs.old (λ logs. result.items ≡ slice_index_or (lists_of logs.items) router []) }
    ensures others { retained logs.new ≡ option_map (λ lists. slice_set lists router []) (retained logs.old) }
{
    match logs {
        Some(logs) => mem::replace(&mut logs[router], Vec::new(alloc)),
        None => Vec::new(alloc),
    }
}

/// The shards of workers all of whose routers have come. The list is empty, with room for all.
fn shards_of<'a>(vacant: Vec<VacantShard<'a>>, shards: Vec<Shard<'a>>) -> Vec<Shard<'a>>
    requires whole { AllByRecursion (λ v. v.missing ≡ []) vacant.items }
    requires empty { shards.items ≡ [] }
    requires room { length vacant.items ≤ vec_capacity shards }
    ensures count { length result.items ≡ length vacant.entry.items }
    ensures each { (k : ℕ) → k < length result.items → IsFilled (slice_index_or vacant.entry.items k no_vacant) (slice_index_or result.items k no_shard) }
{
    let mut shards = shards;
    for worker in vacant {
        shards.push_reserved(worker.into_shard());
    }
    shards
}
