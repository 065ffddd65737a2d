//! What processes have sent is taken out of them, and dealt out to their receivers. The rule holds all along, whatever
//! the model, the stop and the bound to which it holds.

ghost use Rattle.std.specs.Prelude.{ℕ, ◌+◌, ◌^◌, ◌≡◌, ◌<◌, ◌≤◌, ◌++◌, ◌∷◌, [], Some, IsErrOf, OnErr, OnOk, length, slice_get, slice_set};
ghost use Rattle.tw_process.specs.Behaviour.{simulation_of};
ghost use Rattle.tw_process.specs.declared.refused.Refused.TheVariants.{CounterFull};
ghost use Rattle.tw_rounds.specs.Members.{place_of};
ghost use Rattle.tw_rounds.specs.Ruled.{AreRuled, IsSomeFullBefore};
ghost use Rattle.tw_rounds.specs.Times.{earliest};
ghost use Rattle.tw_rule.specs.Place.{NoneLooseBefore};
ghost use Rattle.tw_sim.specs.Simulation.{IsLawful};

use crate::counts::Counts;
use crate::member::Member;
use std::alloc::AllocError;
use tw_process::{ProcessModel, Refused, Timed};
use tw_sim::Signed;

/// Tells why a run does not go on, where one of its processes is the cause.
pub(crate) fn tell<M: ProcessModel>(
    members: &mut [Member<'_, M>],
    size: usize,
    bound: u64,
) -> Result<(), Refused>
    requires some { 0 < size }
    requires fits { bound + 1 < 2 ^ 64 }
    requires ruled { (model : M) × (stop : ℕ) × (flight : _) × (bound < (M.behaviour model).latest) × (bound < stop)
        × AreRuled (simulation_of M.Event.parts M.Event.cmp (M.behaviour model)) model stop bound flight members.old }
    ensures ruled { (model : M) (stop : ℕ) (flight : _) → let m = simulation_of M.Event.parts M.Event.cmp (M.behaviour model) in
        bound < stop → AreRuled m model stop bound flight members.old → AreRuled m model stop bound flight members.new }
    ensures full { (model : M) (stop : ℕ) (flight : _) → let m = simulation_of M.Event.parts M.Event.cmp (M.behaviour model) in
        bound < stop → AreRuled m model stop bound flight members.old → IsErrOf result CounterFull → IsSomeFullBefore m (bound + 1) members.new }
{
    match refused_in(members, size) {
        None => Ok(()),
        Some(Refused::Memory) => Err(Refused::Memory),
        // What it met may have been a later event, or one that is taken back meanwhile.
        Some(Refused::CounterFull) => tell_all(members, bound),
    }
}

/// Tells whether a counter is full for the first event of a process and that is at the bound. All others that are at the
/// bound are handled.
fn tell_all<M: ProcessModel>(members: &mut [Member<'_, M>], bound: u64) -> Result<(), Refused>
    requires fits { bound + 1 < 2 ^ 64 }
    requires ruled { (model : M) × (stop : ℕ) × (flight : _) × (bound < (M.behaviour model).latest) × (bound < stop)
        × AreRuled (simulation_of M.Event.parts M.Event.cmp (M.behaviour model)) model stop bound flight members.old }
    ensures ruled { (model : M) (stop : ℕ) (flight : _) → let m = simulation_of M.Event.parts M.Event.cmp (M.behaviour model) in
        bound < stop → AreRuled m model stop bound flight members.old → AreRuled m model stop bound flight members.new }
    ensures full { (model : M) (stop : ℕ) (flight : _) → let m = simulation_of M.Event.parts M.Event.cmp (M.behaviour model) in
        bound < stop → AreRuled m model stop bound flight members.old → IsErrOf result CounterFull → IsSomeFullBefore m (bound + 1) members.new }
{
    for number in 0..members.len() {
        tell_at(members, number, bound)?;
    }
    Ok(())
}

/// Tells why a run does not go on, where the process of this number is the cause.
fn tell_at<M: ProcessModel>(
    members: &mut [Member<'_, M>],
    number: usize,
    bound: u64,
) -> Result<(), Refused>
    requires here { number < length members.old }
    requires fits { bound + 1 < 2 ^ 64 }
    requires ruled { (model : M) × (stop : ℕ) × (flight : _) × (bound < (M.behaviour model).latest) × (bound < stop)
        × AreRuled (simulation_of M.Event.parts M.Event.cmp (M.behaviour model)) model stop bound flight members.old }
    ensures ruled { (model : M) (stop : ℕ) (flight : _) → let m = simulation_of M.Event.parts M.Event.cmp (M.behaviour model) in
        bound < stop → AreRuled m model stop bound flight members.old → AreRuled m model stop bound flight members.new }
    ensures full { (model : M) (stop : ℕ) (flight : _) → let m = simulation_of M.Event.parts M.Event.cmp (M.behaviour model) in
        bound < stop → AreRuled m model stop bound flight members.old → IsErrOf result CounterFull → IsSomeFullBefore m (bound + 1) members.new }
{
    let _ = members[number].handle_next(bound + 1)?;
    Ok(())
}

/// What all shares, of so many processes, have to send on is on its way.
pub(crate) fn send_all<M: ProcessModel>(
    members: &mut [Member<'_, M>],
    size: usize,
    flight: &mut Vec<Signed<M::Event>>,
) -> Result<(), AllocError>
    ensures { (model : M) (stop bound : ℕ) → let m = simulation_of M.Event.parts M.Event.cmp (M.behaviour model) in
        AreRuled m model stop bound flight.old.items members.old → AreRuled m model stop bound flight.new.items members.new }
{
    for share in 0..members.len() {
        let number = share.saturating_mul(size);
        if number >= members.len() {
            break;
        }
        send_on_at(members, number, flight)?;
    }
    Ok(())
}

/// What the process of this number has to send on is on its way.
fn send_on_at<M: ProcessModel>(
    members: &mut [Member<'_, M>],
    number: usize,
    flight: &mut Vec<Signed<M::Event>>,
) -> Result<(), AllocError>
    requires { number < length members.old }
    ensures { (model : M) (stop bound : ℕ) → let m = simulation_of M.Event.parts M.Event.cmp (M.behaviour model) in
        AreRuled m model stop bound flight.old.items members.old → AreRuled m model stop bound flight.new.items members.new }
{
    members[number].send_on(flight)
}

/// Each message that is on its way goes to the share of its receiver, the last one first; shares are of so many processes.
pub(crate) fn deal<M: ProcessModel>(
    members: &mut [Member<'_, M>],
    size: usize,
    flight: &mut Vec<Signed<M::Event>>,
) -> Result<(), AllocError>
    requires some { 0 < size }
    requires ruled { (model : M) × (stop : ℕ) × (bound : ℕ) × AreRuled (simulation_of M.Event.parts M.Event.cmp (M.behaviour model)) model stop bound flight.old.items members.old }
    ensures { (model : M) (stop bound : ℕ) → let m = simulation_of M.Event.parts M.Event.cmp (M.behaviour model) in
        AreRuled m model stop bound flight.old.items members.old → AreRuled m model stop bound flight.new.items members.new }
{
    for _ in 0..flight.len() {
        deal_last(members, size, flight)?;
    }
    Ok(())
}

/// The last message that is on its way goes to the share of its receiver.
fn deal_last<M: ProcessModel>(
    members: &mut [Member<'_, M>],
    size: usize,
    flight: &mut Vec<Signed<M::Event>>,
) -> Result<(), AllocError>
    requires some { 0 < size }
    requires ruled { (model : M) × (stop : ℕ) × (bound : ℕ) × AreRuled (simulation_of M.Event.parts M.Event.cmp (M.behaviour model)) model stop bound flight.old.items members.old }
    ensures { (model : M) (stop bound : ℕ) → let m = simulation_of M.Event.parts M.Event.cmp (M.behaviour model) in
        AreRuled m model stop bound flight.old.items members.old → AreRuled m model stop bound flight.new.items members.new }
{
    let Some(message) = flight.last() else {
        return Ok(());
    };
    let message = *message;
    let number = message.event.dst() as usize;
    keep_at(members, number - number % size, message)?;
    let _ = flight.pop();
    Ok(())
}

/// The process of this number has a message to send on. Where there is no memory nothing changes.
fn keep_at<M: ProcessModel>(
    members: &mut [Member<'_, M>],
    number: usize,
    message: Signed<M::Event>,
) -> Result<(), AllocError>
    requires { number < length members.old }
    ensures ok { OnOk result ((x : _) → slice_get members.old number ≡ Some x → members.new ≡ slice_set members.old number (record x { outbox = x.outbox ++ message ∷ [] })) }
    ensures err { OnErr result ((x : _) → slice_get members.old number ≡ Some x → members.new ≡ slice_set members.old number x) }
{
    members[number].keep(message)
}

/// What all shares, of so many processes, have done in the last round.
pub(crate) fn count_round<M: ProcessModel>(members: &[Member<'_, M>], size: usize) -> Counts
    requires { 0 < size }
{
    let mut round = Counts {
        rounds: 1,
        ..Counts::default()
    };
    for share in members.chunks(size) {
        round.add(share[0].counts());
    }
    round
}

/// Why one of all did not go on in the last round: want of memory before a full counter.
pub(crate) fn refused_in<M: ProcessModel>(members: &[Member<'_, M>], size: usize) -> Option<Refused>
    requires { 0 < size }
{
    let mut refused = None;
    for share in members.chunks(size) {
        match share[0].refused() {
            Some(Refused::Memory) => return Some(Refused::Memory),
            Some(Refused::CounterFull) => refused = Some(Refused::CounterFull),
            None => {}
        }
    }
    refused
}
