//! Copies of events that wait, which wait on.

ghost use Rattle.std.specs.Prelude.{◌≡◌, ◌+◌, ◌≤◌, ◌++◌, IfSome, length, vec_capacity, vec_len};
ghost use Rattle.tw_pending.specs.Ring.{all_of, events_of, lists_of};

use std::cmp::Reverse;
use tw_process::Timed;

/// The sum of three counts, where it is one.
pub(crate) fn sum_of(first: usize, second: usize, third: usize) -> Option<usize>
    ensures { IfSome result (λ sum. sum ≡ first + second + third) }
{
    first.checked_add(second)?.checked_add(third)
}

/// Puts copies of events behind others, where there is room for them.
pub(crate) fn copy_list<E: Timed>(list: &[E], events: &mut Vec<E>)
    requires { vec_len events.old + length list.now ≤ vec_capacity events.old }
    ensures items { events.new.items ≡ events.old.items ++ list.now }
    ensures len { vec_len events.new ≡ vec_len events.old + length list.now }
    ensures capacity { vec_capacity events.old ≤ vec_capacity events.new }
{
    events.extend_from_slice(list).unwrap();
}

/// Puts copies of events, as a heap has them, behind others, where there is room for them.
pub(crate) fn copy_items<E: Timed>(items: &[Reverse<E>], events: &mut Vec<E>)
    requires { vec_len events.old + length items.now ≤ vec_capacity events.old }
    ensures items { events.new.items ≡ events.old.items ++ events_of items.now }
    ensures len { vec_len events.new ≡ vec_len events.old + length items.now }
    ensures capacity { vec_capacity events.old ≤ vec_capacity events.new }
{
    for item in items {
        events.push_reserved(item.0);
    }
}

/// Puts copies of the events of lists behind others, where there is room for them.
pub(crate) fn copy_days<E: Timed>(days: &[Vec<E>], events: &mut Vec<E>)
    requires { vec_len events.old + length (all_of (lists_of days.now)) ≤ vec_capacity events.old }
    ensures { events.new.items ≡ events.old.items ++ all_of (lists_of days.now) }
{
    for day in days {
        copy_list(day, events);
    }
}
