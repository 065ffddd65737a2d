//! A watch, which is shown the shapes of a run until one comes again.

ghost use Rattle.std.specs.Prelude.{◌≡◌, ◌≤◌, ◌<◌, ◌+◌, ◌-◌, ◌*◌, false, true, find, option_map, IfOk};
ghost use Rattle.std.specs.Option.{option_or};
ghost use Rattle.std.specs.List.{All, flat_map};
ghost use Rattle.tw_model.specs.declared.limits.TheConstants.{LATEST};
ghost use Rattle.tw_model.specs.Summary.{summary_of};
ghost use Rattle.tw_shape.specs.Same.{NeverMeet};
ghost use Rattle.tw_shape.specs.Shape.{IsStill, can_repeat};
ghost use Rattle.tw_shape.specs.Verdict.{first_found, is_again, verdict_of};
ghost use Rattle.tw_shape.specs.Watch.{IsGap, after_first, fresh, gap_checkpoints, checkpoints_in, with_gap};
ghost use Rattle.tw_shape.specs.Windows.{IsTimely};

use crate::shape::Shape;
use crate::verdict::{Finding, Verdict};
use circular_buffer::HeapCircularBuffer;
use std::alloc::{AllocError, Global};
use std::marker::Model;
use tw_model::Outcome;
use tw_model::limits::WINDOW;

/// Checkpoints between which nothing is handled, so that each has the shape of the first, later.
#[derive(Drop, Debug)]
pub(crate) struct Gap {
    pub(crate) time: u64,
    pub(crate) count: u64,
    pub(crate) shape: Shape,
}

impl Gap {
    /// The time of the checkpoint of this gap that shows the shape of the other gap `ticks` after its
    /// first, and comes not too long before it.
    fn time_of(&mut self, every: u64, other: &mut Gap, ticks: u64) -> Option<u64>
        requires every { 0 < every }
        requires most { every ≤ LATEST }
        requires self_timely { IsTimely every self.old }
        requires other_timely { IsTimely every other.old }
        requires ticks { ticks ≤ (other.old.count - 1) * every }
        requires can { can_repeat other.old.shape ≡ true }
        ensures value { result ≡ option_map (λ c. c.time) (find (is_again every (after_first other.old ticks)) (gap_checkpoints every self.old)) }
        ensures same { self.new ≡ self.old }
        ensures other_same { other.new ≡ other.old }
    {
        let left = other.shape.ticks_left()? - ticks;
        let since = self.shape.ticks_left()?.checked_sub(left)?;
        if since % every != 0 || self.count <= since / every {
            return None;
        }
        let time = self.time + since;
        let is_near = other.time + ticks <= time + WINDOW as u64 * every;
        if is_near && self.shape.meets(since, &mut other.shape, ticks) {
            Some(time)
        } else {
            None
        }
    }
}

/// A watch over the checkpoints of a run: times with the same number of ticks between each two. It
/// keeps the shapes of the last ones, and the first finding.
///
/// Checkpoints are shown in ascending order. Those between which nothing is handled are shown at once, by
/// the shape of the first of them.
#[derive(Drop, Debug)]
pub struct Watch {
    every: u64,
    window: HeapCircularBuffer<Gap>,
    found: Option<Finding>,
}

impl Model for Watch {
    ghost use Rattle.tw_shape.specs.Watch as watch;

    ghost Value = { watch.Watch };

    ghost use Rattle.tw_shape.specs.Windows.{IsWatch, watch_of};

    ghost view = { watch_of };

    ghost invariant = { IsWatch };
}

impl Watch {
    /// A watch that has seen no checkpoint, with a checkpoint every so many ticks, 1 to 1,000,000,000.
    pub fn new(alloc: Global, every: u64) -> Result<Watch, AllocError>
        requires some { 0 < every }
        requires most { every ≤ LATEST }
        ensures { IfOk result (λ watch. watch ≡ fresh every) }
    {
        Ok(Watch {
            every,
            window: HeapCircularBuffer::with_capacity(alloc, WINDOW)?,
            found: None,
        })
    }

    /// Shows the checkpoint at `time` with its shape, and with it those after it before which nothing
    /// more is handled, at most `most` in all. It answers how many, and takes no memory.
    ///
    /// `time` is after all checkpoints shown before, and the last of `most` is at 1,000,000,000 at the
    /// latest.
    pub fn push(&mut self, time: u64, shape: Shape, most: u64) -> u64
        requires later { All (λ c. c.time < time) (checkpoints_in self.old) }
        requires some { 0 < most }
        requires latest { time + (most - 1) * self.old.every ≤ LATEST }
        ensures within { result ≤ most }
        ensures gap { IsGap self.old.every (record { time = time; count = result; shape = shape }) }
        ensures longest { IsStill (result * self.old.every) shape → result ≡ most }
        ensures step { self.new ≡ with_gap self.old (record { time = time; count = result; shape = shape }) }
    {
        let count = shape.still_times(self.every, most);
        let mut gap = Gap { time, count, shape };
        self.found = self.found_with(&mut gap);
        self.window.push_back(gap);
        count
    }

    /// What was found first, if anything.
    pub fn finding(&self) -> Option<Finding>
        ensures { result ≡ self.now.found }
    {
        self.found
    }

    /// The verdict on the run that left this outcome.
    pub fn verdict(&self, outcome: &Outcome) -> Verdict
        ensures { result ≡ verdict_of (summary_of outcome.now) self.now.found }
    {
        Verdict::of(outcome, self.found)
    }

    /// What is found first, with the checkpoints of one more gap.
    fn found_with(&mut self, gap: &mut Gap) -> Option<Finding>
        requires timely { IsTimely self.old.every gap.old }
        requires later { All (λ c. c.time < gap.old.time) (checkpoints_in self.old) }
        ensures value { result ≡ option_or self.old.found (first_found self.old.every (checkpoints_in self.old) (gap_checkpoints self.old.every gap.old)) }
        ensures same { self.new ≡ self.old }
        ensures gap_same { gap.new ≡ gap.old }
    {
        match self.found {
            Some(finding) => Some(finding),
            None => self.find(gap),
        }
    }

    /// What is found first at the checkpoints of the gap.
    fn find(&mut self, gap: &mut Gap) -> Option<Finding>
        requires timely { IsTimely self.old.every gap.old }
        requires later { All (λ c. c.time < gap.old.time) (checkpoints_in self.old) }
        ensures value { result ≡ first_found self.old.every (checkpoints_in self.old) (gap_checkpoints self.old.every gap.old) }
        ensures same { self.new ≡ self.old }
        ensures gap_same { gap.new ≡ gap.old }
    {
        // Of most shapes this is the answer, and costs little.
        if !self.may_have(&gap.shape) {
            return None;
        }
        if !gap.shape.can_repeat() {
            return None;
        }
        first_finding(self.window.make_contiguous(), self.every, gap)
    }

    /// Whether a checkpoint shown may have a shape that this one is later: where it answers no, none has.
    fn may_have(&self, shape: &Shape) -> bool
        ensures never { result ≡ false → All (λ old. NeverMeet old.shape shape.now) self.now.window }
        ensures some { 0 < self.now.every }
        ensures timely { All (IsTimely self.now.every) self.now.window }
    {
        for old in &self.window {
            if old.shape.may_meet(shape) {
                return true;
            }
        }
        false
    }
}

/// What is found first at the checkpoints of the gap, after those of other gaps.
fn first_finding(gaps: &mut [Gap], every: u64, gap: &mut Gap) -> Option<Finding>
    requires every { 0 < every }
    requires most { every ≤ LATEST }
    requires gaps_timely { All (IsTimely every) gaps.old }
    requires timely { IsTimely every gap.old }
    requires later { All (λ c. c.time < gap.old.time) (flat_map (gap_checkpoints every) gaps.old) }
    requires can { can_repeat gap.old.shape ≡ true }
    ensures value { result ≡ first_found every (flat_map (gap_checkpoints every) gaps.old) (gap_checkpoints every gap.old) }
    ensures same { gaps.new ≡ gaps.old }
    ensures gap_same { gap.new ≡ gap.old }
{
    for number in 0..gap.count.min(WINDOW as u64) {
        let ticks = number * every;
        if let Some(from) = first_time(gaps, every, gap, ticks) {
            let period = gap.time + ticks - from;
            return Some(Finding { from, period });
        }
    }
    None
}

/// The time of the first checkpoint of these gaps, not too long before it, with the shape that the other gap
/// has `ticks` after its first one.
fn first_time(gaps: &mut [Gap], every: u64, gap: &mut Gap, ticks: u64) -> Option<u64>
    requires every { 0 < every }
    requires most { every ≤ LATEST }
    requires gaps_timely { All (IsTimely every) gaps.old }
    requires timely { IsTimely every gap.old }
    requires ticks { ticks ≤ (gap.old.count - 1) * every }
    requires can { can_repeat gap.old.shape ≡ true }
    ensures value { result ≡ option_map (λ c. c.time) (find (is_again every (after_first gap.old ticks)) (flat_map (gap_checkpoints every) gaps.old)) }
    ensures same { gaps.new ≡ gaps.old }
    ensures gap_same { gap.new ≡ gap.old }
{
    for i in 0..gaps.len() {
        let time = gaps[i].time_of(every, gap, ticks);
        if time.is_some() {
            return time;
        }
    }
    None
}
