//! Events that the worked rows begin with.

ghost use Rattle.std.specs.Prelude.{◌≡◌};
ghost use Rattle.tw_event.specs.declared.event.Body.TheVariants.{Update};

use tw_event::{Body, Event, PathNo};

/// The start of the origin, with which each run begins (own).
pub const START: Event = Event {
    time: 0,
    dst: 0,
    src: 0,
    seq: 0,
    body: Body::Start,
};

/// The update by which one router tells another its path, in the first session of their link (own).
pub fn update(time: u64, dst: u32, src: u32, seq: u64, path: PathNo) -> Event
    ensures { result ≡ record { time = time; dst = dst; src = src; seq = seq; body = Update path 0 } }
{
    Event {
        time,
        dst,
        src,
        seq,
        body: Body::Update { path, session: 0 },
    }
}
