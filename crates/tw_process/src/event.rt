//! An event with a body of the model's own.

ghost use Rattle.std.specs.Prelude.{◌≡◌, ◌+◌, ◌<◌, ◌^◌};

/// Something that a process handles, at a time in ticks.
///
/// Events are ordered by time, then receiver, sender, number and body; two that differ in any of these are different.
#[derive(Clone, Copy, PartialEq, Eq, PartialOrd, Ord, Debug)]
pub struct Event<B> {
    /// When it happens, in ticks.
    pub time: u64,
    /// The process that handles it.
    pub dst: u32,
    /// The process that sent it; for an opening event the same as `dst`.
    pub src: u32,
    /// The sender's count of events before it.
    pub seq: u64,
    /// What it carries.
    pub body: B,
}

impl<B> Event<B> {
    /// The opening event of a process, with a number below that of all that it sends.
    pub fn opening(time: u64, process: u32, seq: u64, body: B) -> Event<B>
        ensures { result ≡ record { time = time; dst = process; src = process; seq = seq; body = body } }
    {
        Event {
            time,
            dst: process,
            src: process,
            seq,
            body,
        }
    }

    /// What the process that handles this event sends: so many ticks later, to `dst`, with the sender's number for it.
    #[inline(always)]
    pub fn send(&self, delay: u64, dst: u32, seq: u64, body: B) -> Event<B>
        requires { self.now.time + delay < 2 ^ 64 }
        ensures { result ≡ record { time = self.now.time + delay; dst = dst; src = self.now.dst; seq = seq; body = body } }
    {
        Event {
            time: self.time + delay,
            dst,
            src: self.dst,
            seq,
            body,
        }
    }
}
