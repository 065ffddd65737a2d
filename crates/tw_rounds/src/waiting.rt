//! The processes of a model as they begin, and what waits for them, which stands at each of them or, where one thread goes
//! on alone, in one place.

ghost use Rattle.std.specs.Prelude.{ℕ, ◌≡◌, ◌<◌, ◌≤◌, ◌∷◌, [], true, Some, List, IfOk, IsErrOf, OnErr, OnOk, drop, length, slice_get, slice_set, vec_capacity, vec_len};
ghost use Rattle.std.specs.Bool.{OnTrue};
ghost use Rattle.std.specs.List.{AllByRecursion};
ghost use Rattle.tw_core.specs.Parts.{total};
ghost use Rattle.tw_engine.specs.Past.{log_after};
ghost use Rattle.tw_engine.specs.Process.{handled_in_turn};
ghost use Rattle.tw_pending.specs.Order.{is_before};
ghost use Rattle.tw_process.specs.Behaviour.{simulation_of};
ghost use Rattle.tw_process.specs.declared.refused.Refused.TheVariants.{CounterFull};
ghost use Rattle.tw_rounds.specs.Alone.{AreCommitted, dealt};
ghost use Rattle.tw_rounds.specs.Members.{IsSettled, awaiting, beginning_of, raised};
ghost use Rattle.tw_sequential.specs.Run.{Run};
ghost use Rattle.tw_sim.specs.Ordered.{insert_all};
ghost use Rattle.tw_sim.specs.Simulation.{only, state, times};

use crate::member::Member;
use std::alloc::{AllocError, Global};
use tw_engine::Progress;
use tw_pending::Pending;
use tw_process::laws::model_is_lawful;
use tw_process::{ProcessModel, Refused, Timed};

/// Every process before its opening events, in ascending order.
pub(crate) fn begin_all<'a, M: ProcessModel>(
    alloc: Global,
    model: &'a M,
) -> Result<Vec<Member<'a, M>>, AllocError>
    ensures count { IfOk result (λ members. length members.items ≡ (M.behaviour model.now).processes) }
    ensures each { IfOk result (λ members. (i : ℕ) (x : _) → slice_get members.items i ≡ Some x → x ≡ beginning_of model.now i) }
{
    let mut members = Vec::new(alloc);
    for number in 0..model.processes() {
        members.push(Member::begin(alloc, model, number)?)?;
    }
    Ok(members)
}

/// The process of this number handles an event in the sequential run's own turn. After an error all is as it was.
#[inline(always)]
pub(crate) fn handle_at<M: ProcessModel>(
    members: &mut [Member<'_, M>],
    number: usize,
    event: &M::Event,
    progress: Progress,
    pending: &mut Pending<M::Event>,
    sends: &mut Vec<M::Event>,
) -> Result<(), Refused>
    requires here { number < length members.old }
    requires settled { (x : _) → slice_get members.old number ≡ Some x → x.process.ahead ≡ [] }
    requires own { (x : _) → slice_get members.old number ≡ Some x → M.Event.parts.dst event.now ≡ x.process.number }
    requires suits { (x : _) → slice_get members.old number ≡ Some x → (M.behaviour x.process.model).suits event.now ≡ true }
    requires time { (x : _) → slice_get members.old number ≡ Some x → M.Event.parts.time event.now < (M.behaviour x.process.model).latest }
    requires turn { (x : _) → slice_get members.old number ≡ Some x → let m = simulation_of M.Event.parts M.Event.cmp (M.behaviour x.process.model) in
        only m x.process.number (log_after m progress.since progress.turns) ≡ event.now ∷ x.process.past }
    requires room { (x : _) → slice_get members.old number ≡ Some x → (M.behaviour x.process.model).most ≤ vec_capacity sends.old }
    requires empty { vec_len sends.old ≡ 0 }
    ensures room { vec_capacity sends.old ≤ vec_capacity sends.new }
    ensures empty { vec_len sends.new ≡ 0 }
    ensures ok { OnOk result ((x : _) → slice_get members.old number ≡ Some x → let m = simulation_of M.Event.parts M.Event.cmp (M.behaviour x.process.model) in
        members.new ≡ slice_set members.old number (record x { process = handled_in_turn m event.now x.process })) }
    ensures err { OnErr result ((x : _) → slice_get members.old number ≡ Some x → members.new ≡ slice_set members.old number x) }
    ensures pending { OnOk result ((x : _) → slice_get members.old number ≡ Some x → let m = simulation_of M.Event.parts M.Event.cmp (M.behaviour x.process.model) in
        pending.new ≡ insert_all (is_before M.Event.cmp) (m.sends (state m x.process.number x.process.past) event.now) (drop 1 pending.old)) }
    ensures kept { OnErr result (pending.new ≡ pending.old) }
    ensures full { (x : _) → slice_get members.old number ≡ Some x → let m = simulation_of M.Event.parts M.Event.cmp (M.behaviour x.process.model) in
        IsErrOf result CounterFull → (M.behaviour x.process.model).full (state m x.process.number x.process.past) event.now ≡ true }
{
    members[number].handle_in_turn(event, progress, pending, sends)
}

/// Each event waits for its receiver. Without memory some of them may.
pub(crate) fn deal_waiting<M: ProcessModel>(
    members: &mut [Member<'_, M>],
    model: &M,
    events: &[M::Event],
) -> Result<(), AllocError>
    requires each { let m = simulation_of M.Event.parts M.Event.cmp (M.behaviour model.now) in
        (run : Run M M.Event) × (run.model ≡ model.now) × AreCommitted m run (λ r. []) members.old }
    requires suits { AllByRecursion (λ e. (M.behaviour model.now).suits e ≡ true) events.now }
    ensures ok { let m = simulation_of M.Event.parts M.Event.cmp (M.behaviour model.now) in
        OnOk result ((run : Run M M.Event) → AreCommitted m run (λ r. []) members.old → AreCommitted m run (dealt m events.now) members.new) }
    ensures some { let m = simulation_of M.Event.parts M.Event.cmp (M.behaviour model.now) in
        (run : Run M M.Event) → AreCommitted m run (λ r. []) members.old → (waits : ℕ → List M.Event) × AreCommitted m run waits members.new }
{
    model_is_lawful(model);
    for event in events {
        add_at(members, event.dst() as usize, *event)?;
    }
    Ok(())
}

/// An event waits for the process of this number, its receiver. Where there is no memory nothing changes.
fn add_at<M: ProcessModel>(
    members: &mut [Member<'_, M>],
    number: usize,
    event: M::Event,
) -> Result<(), AllocError>
    requires here { number < length members.old }
    requires own { (x : _) → slice_get members.old number ≡ Some x → M.Event.parts.dst event ≡ x.process.number }
    requires suit { (x : _) → slice_get members.old number ≡ Some x → (M.behaviour x.process.model).suits event ≡ true }
    ensures ok { OnOk result ((x : _) → slice_get members.old number ≡ Some x
        → members.new ≡ slice_set members.old number (awaiting (simulation_of M.Event.parts M.Event.cmp (M.behaviour x.process.model)) event x)) }
    ensures err { OnErr result ((x : _) → slice_get members.old number ≡ Some x → members.new ≡ slice_set members.old number x) }
{
    members[number].add_pending(event)
}

/// Nothing waits at any process any more.
pub(crate) fn clear_waiting<M: ProcessModel>(members: &mut [Member<'_, M>])
    ensures { (run : Run M M.Event) (waits : ℕ → List M.Event) → let m = simulation_of M.Event.parts M.Event.cmp (M.behaviour run.model) in
        AreCommitted m run waits members.old → AreCommitted m run (λ r. []) members.new }
{
    for place in 0..members.len() {
        clear_at(members, place);
    }
}

/// Nothing waits at the process at this place any more.
fn clear_at<M: ProcessModel>(members: &mut [Member<'_, M>], place: usize)
    requires { place < length members.old }
    ensures { (x : _) → slice_get members.old place ≡ Some x → members.new ≡ slice_set members.old place (record x { process = record x.process { pending = [] } }) }
{
    members[place].clear_pending();
}

/// All processes learn a bound, in ticks.
pub(crate) fn raise_all<M: ProcessModel>(members: &mut [Member<'_, M>], bound: u64)
    ensures same { (run : Run M M.Event) (waits : ℕ → List M.Event) → let m = simulation_of M.Event.parts M.Event.cmp (M.behaviour run.model) in
        run.stop ≡ bound → AreCommitted m run waits members.old → AreCommitted m run waits members.new }
    ensures raised { (i : ℕ) (x : _) → slice_get members.new i ≡ Some x → bound ≤ x.process.bound }
{
    for place in 0..members.len() {
        raise_at(members, place, bound);
    }
}

/// The process at this place learns a bound, in ticks.
fn raise_at<M: ProcessModel>(members: &mut [Member<'_, M>], place: usize, bound: u64)
    requires { place < length members.old }
    ensures { (x : _) → slice_get members.old place ≡ Some x → members.new ≡ slice_set members.old place (raised bound x) }
{
    members[place].raise_bound(bound);
}

/// All that waits at the processes of a model, in no order.
pub(crate) fn gather<M: ProcessModel>(
    alloc: Global,
    members: &[Member<'_, M>],
) -> Result<Vec<M::Event>, AllocError>
    ensures { (model : M) → let m = simulation_of M.Event.parts M.Event.cmp (M.behaviour model) in
        ((i : ℕ) (x : _) → slice_get members.now i ≡ Some x → x.process.model ≡ model)
        → IfOk result (λ events. (e : M.Event) → times m e events.items ≡ total (λ x. times m e x.process.pending) members.now) }
{
    let mut events = Vec::new(alloc);
    for member in members {
        member.copy_pending(&mut events)?;
    }
    Ok(events)
}

/// Whether nothing that the processes have sent is left with one, and all that they have handled is committed.
pub(crate) fn are_settled<M: ProcessModel>(members: &[Member<'_, M>]) -> bool
    ensures { OnTrue result ((i : ℕ) (x : _) → slice_get members.now i ≡ Some x → IsSettled x) }
{
    for member in members {
        if !member.is_settled() {
            return false;
        }
    }
    true
}
