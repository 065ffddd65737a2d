//! The numbers that the policy goes by, each with its reason.

use crate::rests::Looks;
use tw_model::limits::LONGEST_DELAY;

/// A window wider than the longest delay of a link lets routers run ahead of messages not yet sent.
pub(crate) const WIDEST_WINDOW: u64 = LONGEST_DELAY;

/// The window of a worker that has all routers.
pub const ALL_TIME: u64 = u64::MAX;

/// Such a worker has nobody to meet, and handles so many batches at a time: it takes one to three hundredths less.
pub(crate) const BATCHES_ALONE: u32 = 8;

/// So many turns in which something was handled are judged together: of fewer, chance decides.
pub(crate) const TURNS_OF_A_SPAN: u64 = 16;

/// Until the window's first fall one of so many events handled in a span may be undone.
pub(crate) const HANDLED_FOR_EACH_UNDONE_AT_FIRST: u64 = 20;

/// From then on one of so many in the mean of the latest spans: it is handled once more, and so are those that it sent
/// for. Where single spans decide, the window stays narrow for the few that undo much.
pub(crate) const HANDLED_FOR_EACH_UNDONE: u64 = 40;

/// With each further span those before it count for so much less in the mean.
pub(crate) const PART_THAT_FADES: u64 = 8;

/// By this part the window changes after a span: the mean follows late, so that more would overshoot.
pub(crate) const PART_THAT_CHANGES: u64 = 32;

/// A window is kept in these parts of a tick, so that one of a few ticks can change by little, too.
pub(crate) const PARTS_OF_A_TICK: u64 = 64;

/// A turn counts like so many events handled, since a meeting costs more than undoning two events: where ticks have
/// few events, a wide window that undoes many of them meets less often.
pub(crate) const HANDLED_FOR_EACH_TURN: u64 = 40;

/// A commit looks at each of the worker's routers: once in so many events that costs next to nothing, and what
/// undoing these would need stays small enough for the nearest caches.
pub(crate) const HANDLED_FOR_EACH_COMMIT: u64 = 4_096;

/// An idle worker looks so often at what is told beside the table, and then at the clock.
pub const LOOKS_OF_A_ROUND: u32 = 64;

/// How long an idle worker looks before it sleeps: longer than another worker's part of a tick takes that has thousands
/// of events, which is 200 microseconds and more. A worker that sleeps comes back late, by 80 microseconds or more, and
/// those that wait for it would then sleep as well. Where there is no clock the rounds end it: one takes 0.1 to 4
/// microseconds, as long as the processor pauses between two looks.
pub(crate) const MANY_LOOKS: Looks = Looks {
    rounds: 1_024,
    micros: 500,
};

/// How long it looks where that was in vain: another worker waits for a processor then, and gets one sooner from those
/// that sleep than from those that look.
pub(crate) const FEW_LOOKS: Looks = Looks {
    rounds: 64,
    micros: 12,
};

/// After many looks in vain a worker looks shortly for so many rests, and after each further time for twice as many: it
/// happens once in a while on a machine whose processors are free, too.
pub(crate) const FIRST_SHORT_RESTS: u32 = 1;

/// For so many at most, so that it still follows a machine on which processors become free.
pub(crate) const MOST_SHORT_RESTS: u32 = 1_024;

/// Where so many rests with many looks were not in vain, it looks shortly for half as many the next time.
pub(crate) const RESTS_OF_A_CALM: u32 = 256;

/// How long it sleeps between two looks from then on, in microseconds: where other work takes the processors, one
/// that sleeps gets its own back much sooner than one that spins or yields.
pub const NAP_MICROS: u64 = 20;

/// How long a worker without routers sleeps at most, in microseconds: it has nothing to do before the end, and is not to take
/// the processor or the exchange from those that have.
pub(crate) const LONG_NAP_MICROS: u64 = 250;

/// After so many it takes a turn, whatever is told: another worker may have told all to halt.
pub const NAPS: u32 = 32;
