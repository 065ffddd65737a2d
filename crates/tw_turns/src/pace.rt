//! How much a worker does between two meetings, and how far it runs ahead.
ghost use Rattle.std.specs.Prelude.{◌≡◌, ◌≤◌, true};

use crate::numbers::{
    ALL_TIME, BATCHES_ALONE, HANDLED_FOR_EACH_COMMIT, HANDLED_FOR_EACH_UNDONE,
    HANDLED_FOR_EACH_UNDONE_AT_FIRST,
};
use crate::rests::{Looks, Rests};
use crate::window::{Span, Window, Work};
use std::cmp;

/// How a worker paces itself.
#[derive(Clone, Copy)]
pub struct Pace {
    window: Window,
    // The time of the event handled last.
    tick: u64,
    // How many events were handled: so far, at the latest meeting, and at the latest commit.
    handled: u64,
    handled_at_meeting: u64,
    handled_at_commit: u64,
    // How many were undone since the latest meeting.
    undone: u64,
    // Since the window was judged.
    span: Span,
    // The mean of the spans since its first fall, and whether there was one.
    mean: Span,
    has_fallen: bool,
    rests: Rests,
}

impl Pace {
    /// Where nothing is undone within a window of `least_window` ticks, which is `ALL_TIME` for a worker that has all
    /// routers.
    pub fn new(least_window: u64) -> Pace {
        Pace {
            window: Window::new(least_window),
            tick: 0,
            handled: 0,
            handled_at_meeting: 0,
            handled_at_commit: 0,
            undone: 0,
            span: Span::NONE,
            mean: Span::NONE,
            has_fallen: false,
            rests: Rests::NONE,
        }
    }

    /// How many events may be handled before the next meeting, where a batch has so many.
    pub fn until_meeting(&self, batch: u32) -> u32 {
        if self.window.least == ALL_TIME {
            batch.saturating_mul(BATCHES_ALONE)
        } else {
            batch
        }
    }

    /// The time at which a worker stops that knows this bound: the stop, or before it.
    #[inline(always)]
    pub fn limit(&self, bound: u64, stop: u64) -> u64
        ensures { result ≤ stop }
    {
        cmp::min(stop, bound.saturating_add(self.window.ticks()))
    }

    /// Whether the window is the one within which no event is undone.
    pub fn has_least_window(&self) -> bool {
        self.window.is_least()
    }

    /// The greatest bound at which an event of this time, in ticks, is not within the window.
    pub fn bound_before(&self, time: u64) -> u64 {
        time.saturating_sub(self.window.ticks())
    }

    /// The time after the tick that is handled.
    #[inline(always)]
    pub fn end_of_tick(&self) -> u64 {
        self.tick.saturating_add(1)
    }

    /// How many events were handled so far.
    pub fn handled(&self) -> u64 {
        self.handled
    }

    /// What was done since the latest meeting.
    pub fn turn(&self) -> Work {
        Work {
            handled: self.handled.saturating_sub(self.handled_at_meeting),
            undone: self.undone,
        }
    }

    /// A meeting is over, and so is the rest behind it, if there was one, in which the worker slept so often.
    pub fn begin_turn(&mut self, naps: Option<u32>) {
        self.handled_at_meeting = self.handled;
        self.undone = 0;
        if let Some(naps) = naps {
            self.rests.add(naps);
        }
    }

    /// How long the worker looks at what is told before it sleeps, where it has nothing to do.
    pub fn looks(&self) -> Looks {
        self.rests.looks()
    }

    /// An event of this time was handled.
    #[inline(always)]
    pub fn count_handled(&mut self, time: u64) {
        self.tick = time;
        self.handled = self.handled.saturating_add(1);
    }

    /// Whether a worker commits that knows this bound: at the end, and once in a while before.
    pub fn is_commit_due(&self, bound: u64, stop: u64) -> bool
        ensures { bound ≡ stop → result ≡ true }
    {
        let uncommitted = self.handled.saturating_sub(self.handled_at_commit);
        bound == stop || uncommitted >= HANDLED_FOR_EACH_COMMIT
    }

    /// All before the bound are committed.
    pub fn count_commit(&mut self) {
        self.handled_at_commit = self.handled;
    }

    /// So many events were undone.
    pub fn count_undone(&mut self, events: u64) {
        self.undone = self.undone.saturating_add(events);
    }

    /// A batch is over: whether it ended at the window. After a span of turns the window is judged.
    pub fn adapt(&mut self, at_window: bool) {
        let turn = self.turn();
        self.span.add(turn, at_window);
        if self.span.is_over() {
            self.judge();
            self.span = Span::NONE;
        }
    }

    /// Until its first fall the window becomes twice as wide after each span that ended at it, so that it is soon as wide
    /// as serves. From then on it follows the mean.
    fn judge(&mut self) {
        if self.has_fallen {
            self.mean = self.mean.followed_by(self.span);
            self.follow_mean();
        } else if self
            .span
            .has_undone_one_of(HANDLED_FOR_EACH_UNDONE_AT_FIRST)
        {
            self.window.halve();
            self.has_fallen = true;
        } else if self.span.ends_at_window() {
            self.window.double();
        }
    }

    /// The window falls where much was undone in the mean, and grows where it kept the worker from handling more.
    fn follow_mean(&mut self) {
        if self.mean.has_undone_one_of(HANDLED_FOR_EACH_UNDONE) {
            self.window.fall();
        } else if self.mean.ends_at_window() {
            self.window.grow();
        }
    }
}
