//! The machine of all routers by calls, line by line.

use crate::messages::{
    EARLY_TO_1, EARLY_TO_ORIGIN, ONE_TO_2, ONE_TO_ORIGIN, ORIGIN_TO_1, ORIGIN_TO_2, TWO_TO_1,
    TWO_TO_ORIGIN, antimessage,
};
use crate::steps::{AFTER_STRAGGLER, STRAGGLER};
use std::alloc::{AllocError, Global};
use tw_event::Event;
use tw_instance::Case;
use tw_rows::cases::case;
use tw_sim::{Cancel, Signed, Step};
use tw_warp::{OrMemory, Refusal, StopLower, Warp};

/// How a step is answered.
type Answer = Result<(), OrMemory<Refusal>>;

/// What is done with a machine and how it answers, or what it shows.
#[derive(Clone, Copy)]
pub(crate) enum Line<'a> {
    /// A step, and its answer.
    Takes(Step, Answer),
    /// Steps that are done, each with the messages that are on their way after it, by their letters.
    Goes(&'a [(Step, &'a str)]),
    /// Steps that are done in one call.
    GoesInOneCall(&'a [Step]),
    /// All steps of the straggler are done in one call.
    RollsBackInOneCall,
    /// The origin handles an event, so many times.
    HandlesOften(usize),
    /// The origin handles its start and undoes it, so many times.
    StartsOften(usize),
    /// A router is given more room, and the answer.
    Widens(u32, Answer),
    /// The stop is asked to be this, and the answer.
    SetsStop(u64, Result<(), StopLower>),
    HasStop(u64),
    HasBound(u64),
    /// So many messages are on their way, so many pending and so many kept; nothing else is loose.
    HasLoose(u128, u128, u128),
    /// The message at a place of those on their way, from 1, by its letter.
    HasMessage(u64, u8),
    /// The first messages on their way, so many, are what the origin offers and takes back, again and again.
    HasStarts(u64),
    /// So many events are handled and not committed.
    HasAhead(u128),
    /// So many events are held.
    HasHeld(u128),
    /// The least time of what a worker holds for a router.
    HoldsFor(usize, u32, Option<u64>),
    HasWorkers(usize),
    /// Which of three routers a worker has.
    HasRouters(usize, [bool; 3]),
}

/// Takes a step, once more where memory was refused.
fn step(warp: &mut Warp<'_>, step: Step) -> Answer {
    match warp.step(step) {
        Err(OrMemory::Memory) => warp.step(step),
        answer => answer,
    }
}

/// The message of a letter: `m` and `n` are what the origin offers, `a` and `b` what router 2 offers early,
/// `c` and `d` what router 1 offers, `e` and `f` what router 2 then offers; the capital is its antimessage.
fn message(letter: u8) -> Option<Signed<Event>> {
    let message = match letter.to_ascii_lowercase() {
        b'm' => ORIGIN_TO_1,
        b'n' => ORIGIN_TO_2,
        b'a' => EARLY_TO_ORIGIN,
        b'b' => EARLY_TO_1,
        b'c' => ONE_TO_ORIGIN,
        b'd' => ONE_TO_2,
        b'e' => TWO_TO_ORIGIN,
        b'f' => TWO_TO_1,
        _ => return None,
    };
    let is_back = letter.is_ascii_uppercase();
    Some(if is_back {
        antimessage(message)
    } else {
        message
    })
}

/// Whether the message of this letter is on its way at this place.
fn has_message(warp: &Warp<'_>, place: u64, letter: u8) -> bool {
    warp.message_at(place) == message(letter)
}

/// Whether the messages of these letters are on their way, in this order.
fn has_in_flight(warp: &Warp<'_>, letters: &str) -> bool {
    for (place, letter) in (1..).zip(letters.bytes()) {
        if !has_message(warp, place, letter) {
            return false;
        }
    }
    warp.flight_len() == letters.len() as u128
}

/// Whether each step is done and leaves these messages on their way.
fn goes_so(warp: &mut Warp<'_>, steps: &[(Step, &str)]) -> bool {
    for (next, letters) in steps {
        if step(warp, *next) != Ok(()) || !has_in_flight(warp, letters) {
            return false;
        }
    }
    true
}

/// Whether each is done.
fn are_done(answers: &[Result<(), Refusal>]) -> bool {
    for answer in answers {
        if answer.is_err() {
            return false;
        }
    }
    true
}

/// Whether all steps are done in one call. Where memory was refused to one, it and the rest are taken by another.
fn goes_in_one_call(warp: &mut Warp<'_>, steps: &[Step]) -> bool {
    let fault = match warp.run(steps) {
        Ok(answers) => return answers.len() == steps.len() && are_done(&answers),
        Err(fault) => fault,
    };
    let done = fault.answers.len();
    let are_done = fault.step == done + 1 && are_done(&fault.answers);
    drop(fault);
    match steps.get(done..) {
        Some(rest) => are_done && goes_on_in_one_call(warp, rest),
        None => false,
    }
}

/// Whether the rest of the steps is done in one call.
fn goes_on_in_one_call(warp: &mut Warp<'_>, steps: &[Step]) -> bool {
    match warp.run(steps) {
        Ok(answers) => answers.len() == steps.len() && are_done(&answers),
        Err(_) => false,
    }
}

/// The origin's steps, so many times.
fn handles_often(warp: &mut Warp<'_>, times: usize) -> bool {
    for _ in 0..times {
        if step(warp, Step::Handle(0)) != Ok(()) {
            return false;
        }
    }
    true
}

/// Whether the origin handles its start and undoes it, so many times.
fn starts_often(warp: &mut Warp<'_>, times: usize) -> bool {
    for _ in 0..times {
        if step(warp, Step::Handle(0)) != Ok(()) || step(warp, Step::Undo(0)) != Ok(()) {
            return false;
        }
    }
    true
}

/// Whether the first messages on their way, so many, are what the origin offers and takes back, again and again.
fn has_starts(warp: &Warp<'_>, count: u64) -> bool {
    for place in 1..=count {
        if !has_message(warp, place, b"NmnM"[(place % 4) as usize]) {
            return false;
        }
    }
    true
}

/// Whether a line holds that changes a machine, or is shown by it.
fn holds_on(warp: &mut Warp<'_>, line: &Line<'_>) -> bool {
    match line {
        Line::Takes(next, answer) => step(warp, *next) == *answer,
        Line::Goes(steps) => goes_so(warp, steps),
        Line::GoesInOneCall(steps) => goes_in_one_call(warp, steps),
        Line::RollsBackInOneCall => rolls_back_in_one_call(warp),
        Line::HandlesOften(times) => handles_often(warp, *times),
        Line::StartsOften(times) => starts_often(warp, *times),
        Line::Widens(router, answer) => warp.widen(*router) == *answer,
        Line::SetsStop(stop, answer) => warp.set_stop(*stop) == *answer,
        line => shows(warp, line),
    }
}

/// Whether a machine is as a line says, which changes nothing.
fn shows(warp: &Warp<'_>, line: &Line<'_>) -> bool {
    match line {
        Line::HasStop(stop) => warp.stop() == *stop,
        Line::HasBound(bound) => warp.bound() == *bound,
        Line::HasLoose(flight, pending, kept) => {
            warp.flight_len() == *flight
                && warp.pending_len() == *pending
                && warp.kept_len() == *kept
        }
        Line::HasMessage(place, letter) => has_message(warp, *place, *letter),
        Line::HasStarts(count) => has_starts(warp, *count),
        Line::HasAhead(count) => warp.ahead() == *count,
        Line::HasHeld(count) => warp.held_len() == *count,
        Line::HasWorkers(workers) => warp.workers() == *workers,
        line => shows_of_worker(warp, line),
    }
}

/// Whether a worker of a machine has what a line says.
fn shows_of_worker(warp: &Warp<'_>, line: &Line<'_>) -> bool {
    match line {
        Line::HoldsFor(worker, router, time) => {
            *worker < warp.workers() && warp.shard(*worker).held_time(*router) == *time
        }
        Line::HasRouters(worker, [origin, one, two]) => {
            *worker < warp.workers()
                && warp.shard(*worker).owns(0) == *origin
                && warp.shard(*worker).owns(1) == *one
                && warp.shard(*worker).owns(2) == *two
        }
        _ => false,
    }
}

/// Whether the lines hold one after the other.
fn goes_by(warp: &mut Warp<'_>, lines: &[Line<'_>]) -> bool {
    for line in lines {
        if !holds_on(warp, line) {
            return false;
        }
    }
    true
}

/// A machine of some workers.
#[derive(Clone, Copy)]
pub(crate) struct Machine {
    pub(crate) workers: u32,
    pub(crate) cancel: Cancel,
}

impl Machine {
    /// That of a case, to stop 20; where there is no worker, it has one.
    fn open<'a>(self, alloc: Global, case: &'a Case) -> Result<Warp<'a>, AllocError> {
        let workers = self.workers.max(1);
        match self.cancel {
            Cancel::Aggressive => Warp::new(alloc, case, workers, 20),
            Cancel::Lazy => Warp::with_cancel(alloc, case, workers, 20, self.cancel),
        }
    }

    /// Whether the lines hold of that of a case, made once more where memory was refused.
    fn goes_by(self, alloc: Global, case: &Case, lines: &[Line<'_>]) -> bool {
        let made = match self.open(alloc, case) {
            Err(_) => self.open(alloc, case),
            made => made,
        };
        let Ok(mut warp) = made else {
            return false;
        };
        let holds = goes_by(&mut warp, lines);
        drop(warp);
        holds
    }

    /// Whether the lines hold of that of the case of a text.
    pub(crate) fn holds(self, alloc: Global, text: &str, lines: &[Line<'_>]) -> bool {
        let Ok(case) = case(alloc, text) else {
            return false;
        };
        let holds = self.goes_by(alloc, &case, lines);
        drop(case);
        holds
    }
}

/// Puts the steps of a row into a list.
fn put(steps: &mut [Step], rows: &[(Step, &str)]) {
    for (step, (next, _)) in steps.iter_mut().zip(rows) {
        *step = *next;
    }
}

/// All steps of the straggler.
fn steps_of_the_row() -> [Step; 18] {
    let mut steps = [Step::Bound; 18];
    put(&mut steps[..11], &STRAGGLER);
    put(&mut steps[11..], &AFTER_STRAGGLER);
    steps
}

/// Whether all steps of the straggler are done in one call.
fn rolls_back_in_one_call(warp: &mut Warp<'_>) -> bool {
    goes_in_one_call(warp, &steps_of_the_row())
}
