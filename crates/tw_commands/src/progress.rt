//! Who is told how far a run is while it goes on. No answer rests on what is told, or on what is said to it.

/// Is told how far a run is, and says when it is to be told again.
pub trait Progress {
    /// The run has come to a time of its stop, in ticks, and has handled so many events. Answers how many ticks it is to
    /// go on before this is told again: it is told no later, and 0 is taken as 1.
    ///
    /// The time goes back where a run is given up for another one of the same case.
    fn reached(&self, time: u64, stop: u64, events: u64) -> u64;

    /// No more is told of this run: it has come to its stop, or it goes no further.
    fn ended(&self);
}

/// Nobody is told, so that a run goes to its stop at once.
#[derive(Clone, Copy, Debug)]
pub struct Untold;

impl Progress for Untold {
    fn reached(&self, _time: u64, _stop: u64, _events: u64) -> u64 {
        u64::MAX
    }

    fn ended(&self) {}
}
