//! The events of DISAGREE.

use tw_event::{Event, PathNo};
use tw_rows::events::{START, update};

/// The events of its run to stop 20, in order.
pub(crate) fn events() -> [Event; 7] {
    [
        START,
        update(1, 1, 0, 0, PathNo(1)),
        update(2, 0, 1, 0, PathNo(3)),
        update(2, 2, 1, 1, PathNo(3)),
        update(3, 1, 2, 1, PathNo(4)),
        update(5, 2, 0, 1, PathNo(1)),
        update(7, 0, 2, 0, PathNo(4)),
    ]
}
