//! Messages and steps of a Time Warp machine.

/// A message between routers: an event, or the antimessage that takes one back.
#[derive(Clone, Copy, PartialEq, Eq, Debug)]
pub struct Signed<E> {
    /// The event, equal in every field to the one that it takes back.
    pub event: E,
    /// Whether it brings the event; else it takes one equal event back.
    pub plus: bool,
}

/// When what an event has sent is taken back, once the event is undone.
#[derive(Clone, Copy, PartialEq, Eq, Debug)]
pub enum Cancel {
    /// At once: an antimessage goes out for each message.
    Aggressive,
    /// As late as may be: each message is held, since the events that are handled in place of the
    /// undone one may send it again.
    Lazy,
}

/// One step of the machine whose routers run ahead and are rolled back.
#[derive(Clone, Copy, PartialEq, Eq, Debug)]
pub enum Step {
    /// This router handles its first pending event.
    Handle(u32),
    /// This router undoes the event that it handled last.
    Undo(u32),
    /// The message at this place in flight, from 1, is delivered.
    Deliver(u64),
    /// The bound becomes the least time of all that is not handled, or the stop.
    Bound,
    /// This router's events below the bound are committed.
    Commit(u32),
    /// An antimessage goes out for each message that is held for this router.
    Release(u32),
}
