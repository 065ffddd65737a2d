//! A step of a logical process, over its parts.

ghost use Rattle.std.specs.Prelude.{List, ℕ, ◌≡◌, ◌+◌, ◌<◌, ◌≤◌, ◌↔◌, ◌++◌, true, IsErrOf, OnErr, OnOk, length, vec_capacity, vec_len, map, Ok, Err};
ghost use Rattle.tw_core.specs.Steps.{first_pending, handle};
ghost use Rattle.tw_core.specs.declared.refusal.Refusal.{Refusal as AnyRefusal};
ghost use Rattle.tw_engine.specs.Process.{AreOwn, IsOneUndone, joined, process_core};
ghost use Rattle.tw_engine.specs.declared.stopped.Stopped.TheVariants as stopped;
ghost use Rattle.tw_process.specs.Behaviour.{simulation_of};

use crate::past::Past;
use crate::stopped::Stopped;
use std::alloc::AllocError;
use tw_core::Refusal;
use tw_pending::EventHeap;
use tw_process::{ProcessModel, Refused, Timed};
use tw_sim::Signed;

/// Puts messages, or antimessages, for events at the end of `flight`, which has room for them.
pub(crate) fn put_out<E: Copy>(flight: &mut Vec<Signed<E>>, events: &[E], plus: bool)
    requires { vec_len flight.old + length events.now ≤ vec_capacity flight.old }
    ensures { flight.new.items ≡ flight.old.items ++ map (λ e. record { event = e; plus = plus }) events.now }
{
    for event in events {
        flight.push_reserved(Signed {
            event: *event,
            plus,
        });
    }
}

/// The process handles its first pending event, where that is before the stop, whatever it keeps and its bound.
pub(crate) fn handle_first<M: ProcessModel>(
    past: &mut Past<'_, M>,
    pending: &mut EventHeap<M::Event>,
    flight: &mut Vec<Signed<M::Event>>,
    sends: &mut Vec<M::Event>,
    stop: u64,
) -> Result<(), Stopped>
    requires stop { stop ≤ (M.behaviour past.old.model).latest }
    requires own { AreOwn (simulation_of M.Event.parts M.Event.cmp (M.behaviour past.old.model)) past.old.number pending.old }
    requires room { (M.behaviour past.old.model).most ≤ vec_capacity sends.old }
    requires empty { vec_len sends.old ≡ 0 }
    ensures room { vec_capacity sends.old ≤ vec_capacity sends.new }
    ensures empty { vec_len sends.new ≡ 0 }
    ensures own { AreOwn (simulation_of M.Event.parts M.Event.cmp (M.behaviour past.old.model)) past.old.number pending.new }
    ensures same { past.new ≡ record past.old { ahead = past.new.ahead } }
    ensures ok { (kept : List M.Event) (bound : ℕ) → let m = simulation_of M.Event.parts M.Event.cmp (M.behaviour past.old.model) in
        let C = process_core stop (joined past.old pending.old kept flight.old.items bound) in
        OnOk result (handle m C past.old.number (first_pending m C past.old.number) ≡ Ok (process_core stop (joined past.new pending.new kept flight.new.items bound))) }
    ensures refused { (kept : List M.Event) (bound : ℕ) → let m = simulation_of M.Event.parts M.Event.cmp (M.behaviour past.old.model) in
        let C = process_core stop (joined past.old pending.old kept flight.old.items bound) in
        (f : AnyRefusal) → IsErrOf result (stopped.Refused f) ↔ (handle m C past.old.number (first_pending m C past.old.number) ≡ Err f) }
    ensures err { OnErr result (past.new ≡ past.old) }
    ensures unmoved { OnErr result (pending.new ≡ pending.old) }
    ensures unsent { OnErr result (flight.new.items ≡ flight.old.items) }
{
    past.keeps_laws();
    let Some(event) = pending.least() else {
        return Err(Stopped::Refused(Refusal::Nothing));
    };
    if event.time() >= stop {
        return Err(Stopped::Refused(Refusal::Nothing));
    }
    if past.is_newest(&event) {
        return Err(Stopped::Refused(Refusal::Double));
    }
    match past.handle(event, sends) {
        Ok(()) => {}
        Err(Refused::CounterFull) => return Err(Stopped::Refused(Refusal::CounterFull)),
        Err(Refused::Memory) => return Err(Stopped::Memory),
    }
    if flight.reserve(sends.len()).is_err() {
        sends.clear();
        past.undo_last(sends);
        sends.clear();
        return Err(Stopped::Memory);
    }
    put_out(flight, sends, true);
    sends.clear();
    let _ = pending.take_least();
    Ok(())
}

/// The process undoes the newest event that it can undo, whatever it keeps and its bound.
pub(crate) fn undo_newest<M: ProcessModel>(
    past: &mut Past<'_, M>,
    pending: &mut EventHeap<M::Event>,
    flight: &mut Vec<Signed<M::Event>>,
    sends: &mut Vec<M::Event>,
) -> Result<(), AllocError>
    requires some { 0 < length past.old.ahead }
    requires own { AreOwn (simulation_of M.Event.parts M.Event.cmp (M.behaviour past.old.model)) past.old.number pending.old }
    requires room { (M.behaviour past.old.model).most ≤ vec_capacity sends.old }
    requires empty { vec_len sends.old ≡ 0 }
    ensures room { vec_capacity sends.old ≤ vec_capacity sends.new }
    ensures empty { vec_len sends.new ≡ 0 }
    ensures own { AreOwn (simulation_of M.Event.parts M.Event.cmp (M.behaviour past.old.model)) past.old.number pending.new }
    ensures same { past.new ≡ record past.old { ahead = past.new.ahead } }
    ensures ok { (kept : List M.Event) (bound : ℕ) → let m = simulation_of M.Event.parts M.Event.cmp (M.behaviour past.old.model) in
        OnOk result (IsOneUndone m (joined past.old pending.old kept flight.old.items bound) (joined past.new pending.new kept flight.new.items bound)) }
    ensures err { OnErr result (past.new ≡ past.old) }
    ensures unmoved { OnErr result (pending.new ≡ pending.old) }
    ensures unsent { OnErr result (flight.new.items ≡ flight.old.items) }
{
    past.keeps_laws();
    let event = past.newest_ahead().unwrap();
    flight.reserve(past.model().most_sends())?;
    pending.insert(event)?;
    past.undo_last(sends);
    put_out(flight, sends, false);
    sends.clear();
    Ok(())
}
