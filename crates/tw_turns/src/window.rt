//! How far ahead of the bound a worker handles events, by what was undone.

use crate::numbers::{
    HANDLED_FOR_EACH_TURN, PART_THAT_CHANGES, PART_THAT_FADES, PARTS_OF_A_TICK, TURNS_OF_A_SPAN,
    WIDEST_WINDOW,
};
use std::cmp;

/// How many events were handled, and how many undone.
#[derive(Clone, Copy)]
pub struct Work {
    /// Those that were handled.
    pub handled: u64,
    /// Those that were undone, which may be handled once more.
    pub undone: u64,
}

impl Work {
    const NONE: Work = Work {
        handled: 0,
        undone: 0,
    };

    fn and(self, more: Work) -> Work {
        Work {
            handled: self.handled.saturating_add(more.handled),
            undone: self.undone.saturating_add(more.undone),
        }
    }

    fn faded(self) -> Work {
        Work {
            handled: faded(self.handled),
            undone: faded(self.undone),
        }
    }
}

/// What is left of a number in a mean where one more span counts.
fn faded(number: u64) -> u64 {
    number - number / PART_THAT_FADES
}

/// What was done in some turns.
#[derive(Clone, Copy)]
pub(crate) struct Span {
    work: Work,
    // In which something was handled.
    turns: u64,
    // And which ended at the window.
    at_window: u64,
}

impl Span {
    pub(crate) const NONE: Span = Span {
        work: Work::NONE,
        turns: 0,
        at_window: 0,
    };

    pub(crate) fn add(&mut self, turn: Work, at_window: bool) {
        self.work = self.work.and(turn);
        if turn.handled > 0 {
            self.turns = self.turns.saturating_add(1);
            if at_window {
                self.at_window = self.at_window.saturating_add(1);
            }
        }
    }

    pub(crate) fn is_over(&self) -> bool {
        self.turns >= TURNS_OF_A_SPAN
    }

    /// The mean with one more span behind those that it is of.
    pub(crate) fn followed_by(self, span: Span) -> Span {
        Span {
            work: self.work.faded().and(span.work),
            turns: faded(self.turns).saturating_add(span.turns),
            at_window: faded(self.at_window).saturating_add(span.at_window),
        }
    }

    /// Whether more than one of so many events handled was undone.
    pub(crate) fn has_undone_one_of(&self, handled: u64) -> bool {
        let turns = self.turns.saturating_mul(HANDLED_FOR_EACH_TURN);
        let free = self.work.handled.saturating_add(turns);
        self.work.undone.saturating_mul(handled) > free
    }

    pub(crate) fn ends_at_window(&self) -> bool {
        self.at_window > self.turns / 2
    }
}

/// How far ahead of the bound a worker handles events.
#[derive(Clone, Copy)]
pub(crate) struct Window {
    // In parts of a tick.
    parts: u64,
    // Within it no event is undone, in ticks.
    pub(crate) least: u64,
}

impl Window {
    /// The window within which no event is undone, of so many ticks.
    pub(crate) fn new(least: u64) -> Window {
        Window {
            parts: least.saturating_mul(PARTS_OF_A_TICK),
            least,
        }
    }

    pub(crate) fn ticks(self) -> u64 {
        cmp::max(self.least, self.parts / PARTS_OF_A_TICK)
    }

    pub(crate) fn is_least(self) -> bool {
        self.ticks() == self.least
    }

    pub(crate) fn double(&mut self) {
        self.grow_by(self.parts);
    }

    pub(crate) fn halve(&mut self) {
        self.fall_by(self.parts / 2);
    }

    pub(crate) fn grow(&mut self) {
        self.grow_by(self.parts / PART_THAT_CHANGES);
    }

    pub(crate) fn fall(&mut self) {
        self.fall_by(self.parts / PART_THAT_CHANGES);
    }

    fn grow_by(&mut self, parts: u64) {
        let widest = WIDEST_WINDOW * PARTS_OF_A_TICK;
        self.parts = cmp::min(widest, self.parts.saturating_add(parts));
    }

    fn fall_by(&mut self, parts: u64) {
        let least = self.least.saturating_mul(PARTS_OF_A_TICK);
        self.parts = cmp::max(least, self.parts.saturating_sub(parts));
    }
}
