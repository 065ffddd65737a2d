//! What a list of steps leaves of the machine, as a text.

ghost use Rattle.std.specs.Prelude.{◌≡◌, false};
ghost use Rattle.tw_device.specs.Sink.{Puts};
ghost use Rattle.tw_report.specs.ReplayText.{ShowsPaths, counts_words, replay_text, replayed_of, standing_lines, step_lines, step_words, told_lines};
ghost use Rattle.tw_report.specs.Words.{line};

use crate::event_page::put_events;
use crate::lines::{Refused, put_refused};
use crate::report::put_routers;
use crate::words::Word::{Count, Name, Number};
use crate::words::put_line;
use tw_core::Refusal;
use tw_device::{Failed, Sink};
use tw_event::Event;
use tw_instance::Instance;
use tw_model::RouterEnd;

/// What a list of steps has left of the Time Warp machine.
#[derive(Drop, Debug)]
pub struct Replay {
    /// Whether each step was done, or why it was refused.
    pub answers: Vec<Result<(), Refusal>>,
    /// The time before which nothing arrives and nothing is undone, in ticks.
    pub bound: u64,
    /// How many messages and events there are.
    pub counts: Counts,
    /// The committed events of all routers, in their order.
    pub committed: Vec<Event>,
    /// How each router stands, events that are not committed included, in ascending order.
    pub routers: Vec<RouterEnd>,
}

/// How many messages and events the machine has.
#[derive(Clone, Copy, PartialEq, Eq, Debug)]
pub struct Counts {
    /// Messages in flight, antimessages among them.
    pub flight: u128,
    /// Events pending at all routers, each as often as it is pending.
    pub pending: u128,
    /// Antimessages that came before their message and are kept.
    pub kept: u128,
    /// Events handled that are not committed.
    pub ahead: u128,
    /// Messages that are held, which events that were undone had sent; `None` where what these have sent is taken
    /// back at once, so that nothing is ever held.
    pub held: Option<u128>,
}

/// Writes the replay of a list of steps: a line for each step, the bound, the counts, and a line for
/// each committed event and each router. Takes no memory: hand it a sink with a buffer, for it puts
/// line by line.
///
/// The paths of the replay are paths of the instance.
pub fn write_replay<S: Sink>(
    sink: &mut S,
    instance: &Instance,
    replay: &Replay,
) -> Result<(), Failed>
    requires open { S.failed sink.old ≡ false }
    requires paths { ShowsPaths instance.now (replayed_of replay.now) }
    ensures { Puts result (S.written sink.old) (S.written sink.new) (S.failed sink.new) (replay_text instance.now (replayed_of replay.now)) }
{
    put_told(sink, &replay.answers)?;
    put_standing(sink, replay.bound, &replay.counts)?;
    put_events(sink, instance, &replay.committed)?;
    put_routers(sink, instance, &replay.routers)
}

/// Puts the name of the format, and the line of each step.
fn put_told<S: Sink>(sink: &mut S, answers: &[Result<(), Refusal>]) -> Result<(), Failed>
    requires open { S.failed sink.old ≡ false }
    ensures { Puts result (S.written sink.old) (S.written sink.new) (S.failed sink.new) (told_lines answers.now) }
{
    put_line(sink, &[Name("spp-replay"), Name("1")])?;
    put_steps(sink, answers)
}

/// Puts the line of each step, numbered from 1.
fn put_steps<S: Sink>(sink: &mut S, answers: &[Result<(), Refusal>]) -> Result<(), Failed>
    requires open { S.failed sink.old ≡ false }
    ensures { Puts result (S.written sink.old) (S.written sink.new) (S.failed sink.new) (step_lines 1 answers.now) }
{
    for (before, answer) in answers.iter().enumerate() {
        put_step(sink, before + 1, *answer)?;
    }
    Ok(())
}

/// Puts the line of a step.
fn put_step<S: Sink>(sink: &mut S, step: usize, answer: Result<(), Refusal>) -> Result<(), Failed>
    requires open { S.failed sink.old ≡ false }
    ensures { Puts result (S.written sink.old) (S.written sink.new) (S.failed sink.new) (line (step_words step answer)) }
{
    match answer {
        Ok(()) => put_line(sink, &[Name("step"), Number(step as u64), Name("ok")]),
        Err(refusal) => put_refused(sink, Refused::Step(step), refusal.code(), refusal.name()),
    }
}

/// Puts the lines of the bound and of the counts.
fn put_standing<S: Sink>(sink: &mut S, bound: u64, counts: &Counts) -> Result<(), Failed>
    requires open { S.failed sink.old ≡ false }
    ensures { Puts result (S.written sink.old) (S.written sink.new) (S.failed sink.new) (standing_lines bound counts.now) }
{
    put_line(sink, &[Name("bound"), Number(bound)])?;
    put_counts(sink, counts)
}

/// Puts the line of the counts.
fn put_counts<S: Sink>(sink: &mut S, counts: &Counts) -> Result<(), Failed>
    requires open { S.failed sink.old ≡ false }
    ensures { Puts result (S.written sink.old) (S.written sink.new) (S.failed sink.new) (line (counts_words counts.now)) }
{
    let words = [
        Name("flight"),
        Count(counts.flight),
        Name("pending"),
        Count(counts.pending),
        Name("kept"),
        Count(counts.kept),
        Name("ahead"),
        Count(counts.ahead),
        Name("held"),
        Count(counts.held.unwrap_or(0)),
    ];
    match counts.held {
        Some(_) => put_line(sink, &words),
        None => put_line(sink, &words[..8]),
    }
}
