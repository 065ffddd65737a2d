//! All shards of a case, by rising worker: what is read of its routers, each at the shard that has it.
ghost use Rattle.std.specs.Prelude.{◌≡◌, ◌↔◌, ◌<◌, ◌++◌, [], ℕ, length, reverse, slice_index_or, take, true, IfOk, IsTrue, OnOk};
ghost use Rattle.std.specs.List.{flat_map, range_with_len};
ghost use Rattle.tw_core.specs.Machine.{committed};
ghost use Rattle.tw_model.specs.Case.{IsCase, simulation};
ghost use Rattle.tw_shard.specs.Cut.{NoneAhead};
ghost use Rattle.tw_shard.specs.Shard.{IsOpeningShard, no_shard, owns, shard_core};
ghost use Rattle.tw_shard.specs.Shards.{HaveAll, RetainAll, ahead_of_all, change_of_all, committed_of_all, ends_of_all, oldest_in, pending_of_all, place_for, shard_for};

use crate::shard::Shard;
use std::alloc::{AllocError, Global};
use tw_event::Event;
use tw_instance::Case;
use tw_model::RouterEnd;
use tw_sim::Cancel;

/// The shards of so many workers, by rising worker, as they begin. Routers retain their committed events, or
/// let them go; what an undone event has sent is taken back at once, or as late as may be.
pub fn open_all<'a>(
    alloc: Global,
    case: &'a Case,
    workers: u32,
    retains: bool,
    cancel: Cancel,
) -> Result<Vec<Shard<'a>>, AllocError>
    ensures count { IfOk result (λ v. length v.items ≡ workers) }
    ensures each { IfOk result (λ v. (k : ℕ) → k < workers → IsOpeningShard case.now k workers retains cancel (slice_index_or v.items k no_shard)) }
{
    let mut shards = Vec::with_capacity(alloc, workers as usize)?;
    for worker in 0..workers {
        shards.push_reserved(Shard::open_with(alloc, case, worker, workers, retains, cancel)?);
    }
    Ok(shards)
}

/// The shard that has this router, and the first one where none has it.
pub fn shard_for<'s, 'a>(shards: &'s [Shard<'a>], router: u32) -> &'s Shard<'a>
    requires { 0 < length shards.now }
    ensures { result.now ≡ shard_for shards.now router }
{
    &shards[place_for(shards, router).unwrap_or(0)]
}

/// Where the first shard stands that has this router.
fn place_for(shards: &[Shard<'_>], router: u32) -> Option<usize>
    ensures { result ≡ place_for shards.now router }
{
    shards.iter().position(|shard| shard.owns(router))
}

/// The committed events of all routers of the case, in their order.
pub fn committed_events(
    alloc: Global,
    case: &Case,
    shards: &[Shard<'_>],
) -> Result<Vec<Event>, AllocError>
    requires all { HaveAll case.now shards.now }
    requires retained { RetainAll case.now shards.now }
    ensures { IfOk result (λ v. v.items ≡ committed_of_all case.now shards.now) }
{
    let mut events = Vec::new(alloc);
    add_by_router(case, shards, &mut events)?;
    events.sort_unstable();
    Ok(events)
}

/// Adds the committed events of each router in turn to a list that has none.
fn add_by_router(
    case: &Case,
    shards: &[Shard<'_>],
    events: &mut Vec<Event>,
) -> Result<(), AllocError>
    requires all { HaveAll case.now shards.now }
    requires retained { RetainAll case.now shards.now }
    requires none { events.old.items ≡ [] }
    ensures events { OnOk result (events.new.items ≡ flat_map (λ r. oldest_in case.now shards.now r) (range_with_len 0 case.now.net.nodes)) }
    ensures case { IsCase case.now }
{
    for router in 0..case.instance().nodes() {
        add_committed(shard_for(shards, router), router, events)?;
    }
    Ok(())
}

/// Adds as many of a router's events, the oldest first, as are committed. The router is one of the shard's,
/// which retains committed events.
fn add_committed(shard: &Shard<'_>, router: u32, events: &mut Vec<Event>) -> Result<(), AllocError>
    requires own { owns shard.now router ≡ true }
    requires retains { shard.now.terms.retains ≡ true }
    ensures { OnOk result (events.new.items ≡ events.old.items
        ++ take (length (committed (simulation shard.now.terms.case) (shard_core 0 shard.now) router)) (reverse ((shard_core 0 shard.now).history router))) }
{
    let count = shard.committed(router);
    events.reserve(count)?;
    for k in 0..count {
        if let Some(event) = shard.handled(router, k) {
            events.push_reserved(event);
        }
    }
    Ok(())
}

/// How many events of the case's routers are handled and not committed.
pub fn count_ahead(case: &Case, shards: &[Shard<'_>]) -> u128
    requires { HaveAll case.now shards.now }
    ensures { result ≡ ahead_of_all case.now shards.now }
{
    let mut count = 0_u128;
    for router in 0..case.instance().nodes() {
        count += shard_for(shards, router).ahead(router) as u128;
    }
    count
}

/// The time, in ticks, of the last event that changed the path of a router of the case, or 0.
pub fn last_change(case: &Case, shards: &[Shard<'_>]) -> u64
    requires { HaveAll case.now shards.now }
    ensures { result ≡ change_of_all case.now shards.now }
{
    let mut last = 0_u64;
    for router in 0..case.instance().nodes() {
        last = last.max(shard_for(shards, router).last_change(router));
    }
    last
}

/// Whether no router of the case has an event that it can undo.
pub fn is_none_ahead(case: &Case, shards: &[Shard<'_>]) -> bool
    requires { HaveAll case.now shards.now }
    ensures { IsTrue result ↔ NoneAhead case.now shards.now }
{
    for router in 0..case.instance().nodes() {
        if !shard_for(shards, router).timeline(router).has_none_ahead() {
            return false;
        }
    }
    true
}

/// How each router of the case stands.
pub fn router_ends(
    alloc: Global,
    case: &Case,
    shards: &[Shard<'_>],
) -> Result<Vec<RouterEnd>, AllocError>
    requires { HaveAll case.now shards.now }
    ensures { IfOk result (λ ends. ends.items ≡ ends_of_all case.now shards.now) }
{
    let mut ends = Vec::new(alloc);
    for router in 0..case.instance().nodes() {
        ends.push(shard_for(shards, router).router(router).end())?;
    }
    Ok(ends)
}

/// The events that wait at all of them, in their order.
pub fn pending_events(alloc: Global, shards: &[Shard<'_>]) -> Result<Vec<Event>, AllocError>
    ensures { IfOk result (λ v. v.items ≡ pending_of_all shards.now) }
{
    let mut events = pending_by_worker(alloc, shards)?;
    events.sort_unstable();
    Ok(events)
}

/// The events that wait at each of them in turn.
fn pending_by_worker(alloc: Global, shards: &[Shard<'_>]) -> Result<Vec<Event>, AllocError>
    ensures { IfOk result (λ v. v.items ≡ flat_map (λ s. s.pending) shards.now) }
{
    let mut events = Vec::new(alloc);
    for shard in shards {
        events.extend_from_slice(&shard.pending().list()?)?;
    }
    Ok(events)
}

/// How many events are pending at all of them.
pub fn count_pending(shards: &[Shard<'_>]) -> u128
    ensures { result ≡ length (flat_map (λ s. s.pending) shards.now) }
{
    let mut count = 0_u128;
    for shard in shards {
        count += shard.pending().len() as u128;
    }
    count
}

/// How many antimessages are kept at all of them.
pub fn count_kept(shards: &[Shard<'_>]) -> u128
    ensures { result ≡ length (flat_map (λ s. s.kept) shards.now) }
{
    let mut count = 0_u128;
    for shard in shards {
        count += shard.kept().len() as u128;
    }
    count
}

/// How many messages are held at all of them.
pub fn count_held(shards: &[Shard<'_>]) -> u128
    ensures { result ≡ length (flat_map (λ s. s.held) shards.now) }
{
    let mut count = 0_u128;
    for shard in shards {
        count += shard.held_len() as u128;
    }
    count
}

/// How many messages their routers have sent that have not left them.
pub fn count_outgoing(shards: &[Shard<'_>]) -> u128
    ensures { result ≡ length (flat_map (λ s. s.outgoing) shards.now) }
{
    let mut count = 0_u128;
    for shard in shards {
        count += shard.outgoing().len() as u128;
    }
    count
}
