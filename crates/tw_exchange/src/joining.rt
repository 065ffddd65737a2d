//! Whole lists that are put behind the mail of workers, or taken in exchange for it.

ghost use Rattle.std.specs.Prelude.{ℕ, ◌≡◌, ◌<◌, ◌≤◌, ◌+◌, ◌++◌, OnErr, OnOk, [], length, map, slice_index_or, slice_set, vec_capacity, vec_len};
ghost use Rattle.tw_exchange.specs.AnyBoard.{NoneDealt};
ghost use Rattle.tw_exchange.specs.Rows.{HasRoomBehind, behind, items, soonest_of};

use crate::mail::NEVER;
use std::alloc::AllocError;
use std::mem;
use tw_process::Timed;
use tw_sim::Signed;

/// Makes room for each list behind the mail at its place, where there is some. Where there is none, the two will be
/// exchanged, which takes no room.
pub fn make_room_behind<T: Copy>(mail: &mut [Vec<T>], lists: &[Vec<T>]) -> Result<(), AllocError>
    ensures same { items mail.new ≡ items mail.old }
    ensures room { OnOk result (HasRoomBehind mail.new (items lists.now)) }
    ensures wanted { OnErr result ((w : ℕ) × (0 < length (slice_index_or (items lists.now) w []))) }
{
    let shared = mail.len().min(lists.len());
    for worker in 0..shared {
        make_room_for(&mut mail[worker], lists[worker].len())?;
    }
    Ok(())
}

/// Makes room for so many more messages in a list that has some.
fn make_room_for<T: Copy>(mail: &mut Vec<T>, count: usize) -> Result<(), AllocError>
    ensures same { mail.new.items ≡ mail.old.items }
    ensures room { OnOk result (0 < vec_len mail.new → vec_len mail.new + count ≤ vec_capacity mail.new) }
    ensures wanted { OnErr result (0 < count) }
{
    if count == 0 || mail.is_empty() {
        return Ok(());
    }
    mail.reserve(count)
}

/// Puts each list behind the mail at its place, where there is room, and leaves it empty. Beside each row stand
/// the least times of its lists.
pub fn join_all<E: Timed>(
    mail: &mut [Vec<Signed<E>>],
    soonest: &mut [u64],
    lists: &mut [Vec<Signed<E>>],
    times: &mut [u64],
)
    requires room { HasRoomBehind mail.old (items lists.old) }
    requires soonest { soonest.old ≡ map (soonest_of E.parts) (items mail.old) }
    requires times { times.old ≡ map (soonest_of E.parts) (items lists.old) }
    ensures mail { items mail.new ≡ behind (items mail.old) (items lists.old) }
    ensures soonest { soonest.new ≡ map (soonest_of E.parts) (items mail.new) }
    ensures times { times.new ≡ map (soonest_of E.parts) (items lists.new) }
    ensures empty { (w : ℕ) → w < length mail.old → slice_index_or (items lists.new) w [] ≡ [] }
    ensures past { (w : ℕ) → length mail.old ≤ w → slice_index_or (items lists.new) w [] ≡ slice_index_or (items lists.old) w [] }
{
    let shared = mail.len().min(lists.len());
    for worker in 0..shared {
        join(&mut mail[worker], &mut lists[worker]);
        soonest[worker] = soonest[worker].min(times[worker]);
        times[worker] = NEVER;
    }
}

/// Puts a list behind another, where there is room, and leaves it empty. Where the other is empty they are
/// exchanged, so that no message moves.
fn join<T: Copy>(mail: &mut Vec<T>, list: &mut Vec<T>)
    requires room { 0 < vec_len mail.old → vec_len mail.old + vec_len list.old ≤ vec_capacity mail.old }
    ensures mail { mail.new.items ≡ mail.old.items ++ list.old.items }
    ensures list { list.new.items ≡ [] }
{
    if list.is_empty() {
        return;
    }
    if mail.is_empty() {
        mem::swap(mail, list);
    } else if mail.append(list).is_err() {
        unreachable!()
    }
}

/// Takes out all mail of a worker in exchange for an empty list, and tells its least time, which is the end of
/// time where there is none.
pub fn hand_over<E: Timed>(
    mail: &mut [Vec<Signed<E>>],
    soonest: &mut [u64],
    worker: usize,
    list: &mut Vec<Signed<E>>,
) -> u64
    requires within { worker < length mail.old }
    requires soonest { soonest.old ≡ map (soonest_of E.parts) (items mail.old) }
    requires empty { list.old.items ≡ [] }
    ensures value { list.new.items ≡ slice_index_or (items mail.old) worker [] }
    ensures least { result ≡ soonest_of E.parts list.new.items }
    ensures rest { items mail.new ≡ slice_set (items mail.old) worker [] }
    ensures soonest { soonest.new ≡ map (soonest_of E.parts) (items mail.new) }
{
    let least = soonest[worker];
    soonest[worker] = NEVER;
    mem::swap(&mut mail[worker], list);
    least
}

/// Empties each list. Beside each stands its least time.
pub fn clear_all<E: Timed>(lists: &mut [Vec<Signed<E>>], times: &mut [u64])
    requires times { times.old ≡ map (soonest_of E.parts) (items lists.old) }
    ensures lists { NoneDealt (items lists.new) }
    ensures times { times.new ≡ map (soonest_of E.parts) (items lists.new) }
{
    for worker in 0..lists.len() {
        lists[worker].clear();
        times[worker] = NEVER;
    }
}
