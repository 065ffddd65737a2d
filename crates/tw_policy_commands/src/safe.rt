//! The command `safe`: which paths each router may use, whatever the delays of the links, and whether the case
//! then comes to rest.

ghost use Rattle.std.specs.Prelude.{ℕ, ◌≡◌, false, true, List, map, Ok, OnOk};
ghost use Rattle.tw_commands.specs.Output.{Answers};
ghost use Rattle.tw_device.specs.Sink.{Puts};
ghost use Rattle.tw_device.specs.Source.{LosesInput, TakesInput};
ghost use Rattle.tw_elimination.specs.Bound.{is_solved};
ghost use Rattle.tw_elimination.specs.Placing.{has_one_list as has_one_list_of};
ghost use Rattle.tw_elimination.specs.Rounds.{rounds_of};
ghost use Rattle.tw_elimination.specs.Wheel.{AreWheel, wheel_of};
ghost use Rattle.tw_model.specs.Case.{Case as ACase};
ghost use Rattle.tw_policy.specs.Safe.{IsRobust};
ghost use Rattle.tw_policy.specs.Standing.{standing};
ghost use Rattle.tw_policy_commands.specs.Safe.{answer_text, safe_lines, safe_output, safe_word, safety_of, texts, unsafe_lines, verdict_lines, wheel_words};
ghost use Rattle.tw_report.specs.Words.{word_text};
ghost use Rattle.tw_text.specs.Reading.{case_of};

use crate::lines::{put_lines, router_lines, wheel_lines};
use std::alloc::Global;
use tw_commands::{Cause, Command, Status, answer_io};
use tw_device::{Failed, Sink, Source};
use tw_elimination::{Elimination, eliminate, has_one_list};
use tw_instance::Case;
use tw_report::Word::{self, Count, Name, Number};
use tw_report::put_line;

/// The command `safe`: says what elimination leaves to each router, and whether the case comes to rest.
#[derive(Clone, Copy)]
struct Safe;

impl Command for Safe {
    type Input = Case;

    ghost ready = { λ _. Unit {0} };

    ghost output = { λ _ case. safety_of case };

    ghost stuck = { λ _ _. ⊥ };

    fn answer<W: Sink>(&self, alloc: Global, case: &Case, sink: &mut W) -> Result<Status, Cause> {
        let elimination = eliminate(alloc, case)?;
        // All memory is taken before the first line is written.
        let lines = router_lines(alloc, &elimination)?;
        let wheel = wheel_lines(alloc, &elimination)?;
        let robust = has_one_list(alloc, case.instance())?;
        put_answer(sink, &elimination, &lines, &wheel, robust)?;
        Ok(Status::Done)
    }
}

/// Puts what elimination has left, with these lines of routers and of pivots.
fn put_answer<S: Sink>(
    sink: &mut S,
    elimination: &Elimination<'_>,
    lines: &[Vec<Word<'_>>],
    wheel: &[Vec<Word<'_>>],
    robust: bool,
) -> Result<(), Failed>
    requires open { S.failed sink.old ≡ false }
    requires wheel { let e = elimination.now in texts wheel.now ≡ map (wheel_words e.case.net) (wheel_of e.case e.rounds) }
    requires robust { robust ≡ has_one_list_of elimination.now.case.net }
    ensures { let e = elimination.now in Puts result (S.written sink.old) (S.written sink.new) (S.failed sink.new)
        (answer_text e.rounds (texts lines.now) (verdict_lines e.case e.rounds)) }
{
    put_line(sink, &[Name("spp-safe"), Name("1")])?;
    put_line(sink, &[Name("rounds"), Number(elimination.rounds())])?;
    put_lines(sink, lines)?;
    put_verdict(sink, elimination, wheel, robust)
}

/// Puts the verdict: from when on the case rests, where each router has one path left, and whether it is robust;
/// else these lines of pivots.
fn put_verdict<S: Sink>(
    sink: &mut S,
    elimination: &Elimination<'_>,
    wheel: &[Vec<Word<'_>>],
    robust: bool,
) -> Result<(), Failed>
    requires open { S.failed sink.old ≡ false }
    requires wheel { let e = elimination.now in texts wheel.now ≡ map (wheel_words e.case.net) (wheel_of e.case e.rounds) }
    requires robust { robust ≡ has_one_list_of elimination.now.case.net }
    ensures { let e = elimination.now in Puts result (S.written sink.old) (S.written sink.new) (S.failed sink.new) (verdict_lines e.case e.rounds) }
{
    if elimination.is_solved() {
        put_safe(sink, elimination.rests_before(), robust)
    } else {
        put_wheel(sink, wheel)
    }
}

/// Puts that the case rests before this time, and whether it is robust too.
fn put_safe<S: Sink>(sink: &mut S, time: u128, robust: bool) -> Result<(), Failed>
    requires { S.failed sink.old ≡ false }
    ensures { Puts result (S.written sink.old) (S.written sink.new) (S.failed sink.new) (safe_lines time robust) }
{
    put_line(sink, &[Name("rests"), Name("before"), Count(time)])?;
    put_line(sink, &[Name("verdict"), safe_name(robust)])
}

/// The word for a case that is safe, or robust too.
fn safe_name(robust: bool) -> Word<'static>
    ensures { word_text result ≡ safe_word robust }
{
    if robust { Name("robust") } else { Name("safe") }
}

/// Puts these lines of pivots, and that there is a dispute wheel.
fn put_wheel<S: Sink>(sink: &mut S, wheel: &[Vec<Word<'_>>]) -> Result<(), Failed>
    requires { S.failed sink.old ≡ false }
    ensures { Puts result (S.written sink.old) (S.written sink.new) (S.failed sink.new) (unsafe_lines (texts wheel.now)) }
{
    put_lines(sink, wheel)?;
    put_line(sink, &[Name("verdict"), Name("wheel")])
}

/// Reads a case and writes what elimination leaves to each of its routers, and whether it comes to rest
/// whatever the delays of its links, or else a dispute wheel; or where and why its text is refused.
pub fn safe_io<R: Source, W: Sink>(
    alloc: Global,
    source: &mut R,
    sink: &mut W,
) -> Result<Status, Cause>
    requires source { R.failed source.old ≡ false }
    requires sink { W.failed sink.old ≡ false }
    ensures answer { Answers result safe_output (λ _. ⊥)
        (R.remaining source.old) (W.written sink.old) (W.written sink.new) (R.failed source.new) (W.failed sink.new) }
    ensures wheel { (text : List ℕ) (case : ACase) → case_of text ≡ Ok case → is_solved case (rounds_of case) ≡ false
        → AreWheel case.net (standing case) (wheel_of case (rounds_of case)) }
    ensures robust { (text : List ℕ) (case : ACase) → case_of text ≡ Ok case → has_one_list_of case.net ≡ true → IsRobust case.net }
    ensures read { OnOk result (LosesInput (R.remaining source.old) (R.remaining source.new)) }
    ensures most { TakesInput (R.remaining source.old) (R.remaining source.new) }
{
    answer_io(alloc, &Safe, source, sink)
}
