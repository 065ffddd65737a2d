//! Time by a clock.

use std::time::Clock;

/// What a clock shows, in nanoseconds; a clock that cannot be read stands still.
pub(crate) fn nanos(clock: &impl Clock) -> u64 {
    match clock.monotonic() {
        Ok(time) => u64::try_from(time.as_nanos()).unwrap_or(u64::MAX),
        Err(_) => 0,
    }
}
