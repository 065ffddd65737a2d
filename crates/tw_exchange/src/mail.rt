//! Mail by worker: whose a message is, and moving messages.

ghost use Rattle.std.specs.Prelude.{ℕ, ◌≡◌, ◌<◌, ◌≤◌, ◌+◌, ◌++◌, IsOk, OnErr, OnOk, [], count_by, false, filter, length, map, slice_index, slice_index_or, slice_set, vec_capacity, vec_len};
ghost use Rattle.tw_exchange.specs.AnyBoard.{any_homeless, followed, is_to, is_to_another, sent_to, worker_for};
ghost use Rattle.tw_exchange.specs.Owners.{list_of};
ghost use Rattle.tw_exchange.specs.Rows.{items, soonest_of};

use crate::owners::Owners;
use crate::times::soonest;
use std::alloc::AllocError;
use tw_process::Timed;
use tw_sim::Signed;

/// The end of time: the least time where there are no messages.
pub const NEVER: u64 = u64::MAX;

/// Puts each message behind the mail of its worker. Beside it stand the least times. For want of memory it is broken
/// off.
pub fn deposit<E: Timed>(
    mail: &mut [Vec<Signed<E>>],
    soonest: &mut [u64],
    out: &[Signed<E>],
    owners: &Owners,
) -> Result<(), AllocError>
    requires some { 0 < length mail.old }
    requires home { any_homeless E.parts (list_of owners.now) (length mail.old) out.now ≡ false }
    requires soonest { soonest.old ≡ map (soonest_of E.parts) (items mail.old) }
    ensures ok { OnOk result (items mail.new ≡ followed E.parts (worker_for (list_of owners.now) (length mail.old)) 0 out.now (items mail.old)) }
    ensures soonest { soonest.new ≡ map (soonest_of E.parts) (items mail.new) }
    ensures wanted { OnErr result (0 < length out.now) }
{
    for message in out {
        let worker = owners.worker_for(message.event.dst(), mail.len());
        mail[worker].push(*message)?;
        soonest[worker] = soonest[worker].min(message.event.time());
    }
    Ok(())
}

/// Takes out of a worker's mail what is for one router, and puts it behind `to`, or leaves both where memory is
/// refused.
pub fn take_out<E: Timed>(
    mail: &mut [Vec<Signed<E>>],
    soonest_times: &mut [u64],
    worker: usize,
    router: u32,
    to: &mut Vec<Signed<E>>,
) -> Result<(), AllocError>
    requires within { worker < length mail.old }
    requires soonest { soonest_times.old ≡ map (soonest_of E.parts) (items mail.old) }
    ensures ok { OnOk result (items mail.new ≡ slice_set (items mail.old) worker (filter (is_to_another E.parts router) (slice_index_or (items mail.old) worker []))) }
    ensures taken { OnOk result (to.new.items ≡ to.old.items ++ filter (is_to E.parts router) (slice_index_or (items mail.old) worker [])) }
    ensures err { OnErr result (items mail.new ≡ items mail.old) }
    ensures kept { OnErr result (to.new.items ≡ to.old.items) }
    ensures soonest { soonest_times.new ≡ map (soonest_of E.parts) (items mail.new) }
    ensures succeeds { vec_len to.old + length (slice_index_or (items mail.old) worker []) ≤ vec_capacity to.old → IsOk result }
{
    copy_out(&mail[worker], router, to)?;
    drop_for(&mut mail[worker], router);
    soonest_times[worker] = soonest(&mail[worker]);
    Ok(())
}

/// Puts those of the messages that are for one router behind `to`, or none of them where memory is refused.
fn copy_out<E: Timed>(
    messages: &[Signed<E>],
    router: u32,
    to: &mut Vec<Signed<E>>,
) -> Result<(), AllocError>
    ensures ok { OnOk result (to.new.items ≡ to.old.items ++ filter (is_to E.parts router) messages.now) }
    ensures err { OnErr result (to.new.items ≡ to.old.items) }
    ensures succeeds { vec_len to.old + length messages.now ≤ vec_capacity to.old → IsOk result }
{
    to.reserve(count_for(messages, router))?;
    for message in messages {
        if message.event.dst() == router {
            to.push_reserved(*message);
        }
    }
    Ok(())
}

/// How many of the messages are for one router.
fn count_for<E: Timed>(messages: &[Signed<E>], router: u32) -> usize
    ensures { result ≡ count_by (is_to E.parts router) messages.now }
{
    messages
        .iter()
        .filter(|message| message.event.dst() == router)
        .count()
}

/// Drops those of the messages that are for one router.
fn drop_for<E: Timed>(messages: &mut Vec<Signed<E>>, router: u32)
    ensures { messages.new.items ≡ filter (is_to_another E.parts router) messages.old.items }
{
    messages.retain(|message| message.event.dst() != router);
}
