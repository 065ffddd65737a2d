//! The messages that the routers of DISAGREE send one another.

ghost use Rattle.std.specs.Prelude.{◌≡◌, IfOk, false};

use std::alloc::{AllocError, Global};
use tw_event::{Body, Event, PathNo};
use tw_sim::Signed;

/// The update by which one router tells another its path: its time, its receiver and its sender, its number and the
/// path.
macro_rules! update {
    ($time:expr, $dst:expr, $src:expr, $seq:expr, $path:expr) => {
        Signed {
            plus: true,
            event: Event {
                time: $time,
                dst: $dst,
                src: $src,
                seq: $seq,
                body: Body::Update {
                    path: PathNo($path),
                    session: 0,
                },
            },
        }
    };
}

/// The antimessage of a message.
macro_rules! antimessage {
    ($message:expr) => {
        Signed {
            plus: false,
            ..$message
        }
    };
}

/// The origin offers router 1 its path: (0).
pub const ORIGIN_TO_1: Signed<Event> = update!(1, 1, 0, 0, 1);

/// The origin offers router 2 its path: (0).
pub const ORIGIN_TO_2: Signed<Event> = update!(5, 2, 0, 1, 1);

/// Router 1 then offers the origin its own: (1 0).
pub const ONE_TO_ORIGIN: Signed<Event> = update!(2, 0, 1, 0, 3);

/// Router 1 then offers router 2 its own: (1 0).
pub const ONE_TO_2: Signed<Event> = update!(2, 2, 1, 1, 3);

/// Router 2 offers the origin what it has where it has heard the origin alone: (2 0).
pub const EARLY_TO_ORIGIN: Signed<Event> = update!(10, 0, 2, 0, 5);

/// Router 2 offers router 1 what it has where it has heard the origin alone: (2 0).
pub const EARLY_TO_1: Signed<Event> = update!(6, 1, 2, 1, 5);

/// Router 2 offers the origin what it has where it has heard router 1 first: (2 1 0).
pub const TWO_TO_ORIGIN: Signed<Event> = update!(7, 0, 2, 0, 4);

/// Router 2 offers router 1 what it has where it has heard router 1 first: (2 1 0).
pub const TWO_TO_1: Signed<Event> = update!(3, 1, 2, 1, 4);

/// The origin takes its offer to router 1 back.
pub const ORIGIN_NOT_TO_1: Signed<Event> = antimessage!(ORIGIN_TO_1);

/// The origin takes its offer to router 2 back.
pub const ORIGIN_NOT_TO_2: Signed<Event> = antimessage!(ORIGIN_TO_2);

/// Router 1 takes its offer to the origin back.
pub const ONE_NOT_TO_ORIGIN: Signed<Event> = antimessage!(ONE_TO_ORIGIN);

/// Router 1 takes its offer to router 2 back.
pub const ONE_NOT_TO_2: Signed<Event> = antimessage!(ONE_TO_2);

/// Router 2 takes its early offer to the origin back.
pub const EARLY_NOT_TO_ORIGIN: Signed<Event> = antimessage!(EARLY_TO_ORIGIN);

/// Router 2 takes its early offer to router 1 back.
pub const EARLY_NOT_TO_1: Signed<Event> = antimessage!(EARLY_TO_1);

/// The antimessage of a message.
pub fn antimessage(message: Signed<Event>) -> Signed<Event>
    ensures { result ≡ record message { plus = false } }
{
    antimessage!(message)
}

/// A list of messages, made once more where memory was refused.
pub fn list(alloc: Global, messages: &[Signed<Event>]) -> Result<Vec<Signed<Event>>, AllocError>
    ensures { IfOk result (λ list. list.items ≡ messages.now) }
{
    match Vec::from_slice(alloc, messages) {
        Err(_) => Vec::from_slice(alloc, messages),
        made => made,
    }
}
