//! One event of a run.

ghost use Rattle.std.specs.Prelude.{◌≡◌, ◌≤◌, ◌<◌, ◌↔◌, true, Some, IsErrOf, OnErr, OnOk, drop, length, slice_get, slice_set, vec_capacity, vec_len};
ghost use Rattle.tw_pending.specs.Order.{is_before};
ghost use Rattle.tw_process.specs.declared.refused.Refused.TheVariants.{CounterFull};
ghost use Rattle.tw_sim.specs.Ordered.{insert_all};

use tw_pending::Pending;
use tw_process::{ProcessModel, Refused};

/// The process of this number handles the least pending event, and what it sends becomes pending: one turn of a
/// sequential run, for a process whose state is kept elsewhere. It takes no note, so that the turn cannot be undone.
///
/// `event` is the least of `pending`, and `sends` is an empty list with room for what one event sends at most, which is
/// empty again afterwards. A refusal leaves what the process knows and all that is pending as it was: it is
/// `CounterFull` exactly where handling the event would pass the limit of one of the model's counters, and want of
/// memory else.
#[inline(always)]
pub fn handle_least<M: ProcessModel>(
    model: &M,
    number: u32,
    state: &mut M::State,
    pending: &mut Pending<M::Event>,
    event: &M::Event,
    sends: &mut Vec<M::Event>,
) -> Result<(), Refused>
    requires own { M.is_state model.now number state.old }
    requires home { M.Event.parts.dst event.now ≡ number }
    requires suits { (M.behaviour model.now).suits event.now ≡ true }
    requires time { M.Event.parts.time event.now < (M.behaviour model.now).latest }
    requires room { (M.behaviour model.now).most ≤ vec_capacity sends.old }
    requires empty { vec_len sends.old ≡ 0 }
    ensures room { vec_capacity sends.old ≤ vec_capacity sends.new }
    ensures empty { vec_len sends.new ≡ 0 }
    ensures own { M.is_state model.now number state.new }
    ensures state { OnOk result (M.known state.new ≡ (M.behaviour model.now).after (M.known state.old) event.now) }
    ensures known { OnErr result (M.known state.new ≡ M.known state.old) }
    ensures pending { OnOk result (pending.new ≡ insert_all (is_before M.Event.cmp) ((M.behaviour model.now).sends (M.known state.old) event.now) (drop 1 pending.old)) }
    ensures err { OnErr result (pending.new ≡ pending.old) }
    ensures full { IsErrOf result CounterFull ↔ ((M.behaviour model.now).full (M.known state.old) event.now ≡ true) }
{
    let note = model.forward(number, state, event, sends)?;
    if pending.replace_least(sends).is_err() {
        model.take_back(number, state, event, note);
        sends.clear();
        return Err(Refused::Memory);
    }
    sends.clear();
    Ok(())
}

/// The receiver of the least pending event handles it, and what it sends becomes pending. After an error what it knows
/// and all that is pending is as it was.
#[inline(always)]
pub(crate) fn handle_at<M: ProcessModel>(
    model: &M,
    number: u32,
    states: &mut [M::State],
    pending: &mut Pending<M::Event>,
    event: &M::Event,
    sends: &mut Vec<M::Event>,
) -> Result<(), Refused>
    requires within { number < length states.old }
    requires own { (s : M.State) → slice_get states.old number ≡ Some s → M.is_state model.now number s }
    requires home { M.Event.parts.dst event.now ≡ number }
    requires suits { (M.behaviour model.now).suits event.now ≡ true }
    requires time { M.Event.parts.time event.now < (M.behaviour model.now).latest }
    requires room { (M.behaviour model.now).most ≤ vec_capacity sends.old }
    requires empty { vec_len sends.old ≡ 0 }
    ensures room { vec_capacity sends.old ≤ vec_capacity sends.new }
    ensures empty { vec_len sends.new ≡ 0 }
    ensures handled { (before : M.State) → slice_get states.old number ≡ Some before → (after : M.State) × (states.new ≡ slice_set states.old number after)
        × M.is_state model.now number after
        × OnOk result (M.known after ≡ (M.behaviour model.now).after (M.known before) event.now)
        × OnErr result (M.known after ≡ M.known before)
        × OnOk result (pending.new ≡ insert_all (is_before M.Event.cmp) ((M.behaviour model.now).sends (M.known before) event.now) (drop 1 pending.old))
        × (IsErrOf result CounterFull ↔ ((M.behaviour model.now).full (M.known before) event.now ≡ true)) }
    ensures err { OnErr result (pending.new ≡ pending.old) }
{
    handle_least(
        model,
        number,
        &mut states[number as usize],
        pending,
        event,
        sends,
    )
}
