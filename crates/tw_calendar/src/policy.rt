//! Numbers that no clause sees: another one costs time alone.

// A tick with fewer events is sorted as soon as it would be dealt.
const FEWEST_EVENTS: usize = 24;

// Dealing goes through the lists of all receivers, so there is at least one event for so many of them.
const RECEIVERS_FOR_ONE_EVENT: usize = 4;

/// Whether a tick of so many events is dealt to so many receivers before it is sorted.
pub(crate) fn is_full(events: usize, receivers: usize) -> bool {
    events >= FEWEST_EVENTS && events >= receivers / RECEIVERS_FOR_ONE_EVENT
}

// Lists of so many events each are sorted sooner than all are dealt once more.
const SHORT_LIST: usize = 4;

/// Whether so many events that are dealt to so many receivers leave short lists.
pub(crate) fn has_short_lists(events: usize, receivers: usize) -> bool {
    events / SHORT_LIST < receivers
}

// Once in so many ticks that are dealt it is looked whether those of a receiver come in the order of their senders:
// they mostly do, or don't, for long.
const TICKS_FOR_ONE_LOOK: u32 = 16;

/// Whether it is looked, where so many ticks were dealt before, in what order the events of a receiver come.
pub(crate) fn is_look_due(ticks: u32) -> bool {
    ticks % TICKS_FOR_ONE_LOOK == 0
}
