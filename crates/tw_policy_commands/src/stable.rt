//! The command `stable`: the stable assignments of a case, each once.

ghost use Rattle.std.specs.Prelude.{ℕ, ◌≡◌, ◌+◌, ◌++◌, false, length, OnOk};
ghost use Rattle.std.specs.List.{All};
ghost use Rattle.tw_commands.specs.Output.{Answers};
ghost use Rattle.tw_device.specs.Sink.{Puts};
ghost use Rattle.tw_device.specs.Source.{LosesInput, TakesInput};
ghost use Rattle.tw_instance.specs.Tables.{items};
ghost use Rattle.tw_model.specs.Net.{IsPath};
ghost use Rattle.tw_policy_commands.specs.Stable.{assignment_lines, assignment_text, assignments_of, count_line, rib_line, rib_lines, stable_output, stable_text};

use std::alloc::Global;
use tw_commands::{Cause, Command, Status, answer_io};
use tw_device::{Failed, Sink, Source};
use tw_event::PathNo;
use tw_instance::{Case, Instance};
use tw_report::Word::{Name, Number, Path};
use tw_report::put_line;
use tw_stable::{SplitProgress, stable_assignments};

/// The command `stable`: lists the stable assignments that so many splits find.
#[derive(Drop)]
struct Stable<'p, P> {
    splits: u64,
    progress: &'p P,
}

impl<P: SplitProgress> Command for Stable<'_, P> {
    type Input = Case;

    ghost ready = { λ _. Unit {0} };

    ghost output = { λ s case. assignments_of s.splits case };

    ghost stuck = { λ _ _. ⊥ };

    fn answer<W: Sink>(&self, alloc: Global, case: &Case, sink: &mut W) -> Result<Status, Cause> {
        // All memory is taken before the first line is written.
        let found = stable_assignments(alloc, case, self.splits, self.progress);
        self.progress.ended();
        let stable = found?;
        put_answer(sink, case.instance(), &stable.ribs, stable.are_all)?;
        Ok(Status::Done)
    }
}

/// Puts these assignments, and whether they are all.
fn put_answer<S: Sink>(
    sink: &mut S,
    instance: &Instance,
    assignments: &[Vec<PathNo>],
    are_all: bool,
) -> Result<(), Failed>
    requires open { S.failed sink.old ≡ false }
    requires paths { All (All (IsPath instance.now)) (items assignments.now) }
    ensures { Puts result (S.written sink.old) (S.written sink.new) (S.failed sink.new) (stable_text instance.now (items assignments.now) are_all) }
{
    put_line(sink, &[Name("spp-stable"), Name("1")])?;
    put_assignments(sink, instance, assignments)?;
    put_count(sink, assignments.len() as u64, are_all)
}

/// Puts these assignments, numbered from 1.
fn put_assignments<S: Sink>(
    sink: &mut S,
    instance: &Instance,
    assignments: &[Vec<PathNo>],
) -> Result<(), Failed>
    requires open { S.failed sink.old ≡ false }
    requires paths { All (All (IsPath instance.now)) (items assignments.now) }
    ensures { Puts result (S.written sink.old) (S.written sink.new) (S.failed sink.new) (assignment_lines instance.now 1 (items assignments.now)) }
{
    for (index, ribs) in assignments.iter().enumerate() {
        put_assignment(sink, instance, index as u64 + 1, ribs)?;
    }
    Ok(())
}

/// Puts the assignment of this number: a line of each router with its path.
fn put_assignment<S: Sink>(
    sink: &mut S,
    instance: &Instance,
    number: u64,
    ribs: &[PathNo],
) -> Result<(), Failed>
    requires open { S.failed sink.old ≡ false }
    requires paths { All (IsPath instance.now) ribs.now }
    ensures { Puts result (S.written sink.old) (S.written sink.new) (S.failed sink.new) (assignment_text instance.now number ribs.now) }
{
    put_line(sink, &[Name("assignment"), Number(number)])?;
    for (node, rib) in ribs.iter().enumerate() {
        put_rib(sink, instance, node as u64, *rib)?;
    }
    Ok(())
}

/// Puts the line of a router with its path.
fn put_rib<S: Sink>(sink: &mut S, instance: &Instance, node: u64, rib: PathNo) -> Result<(), Failed>
    requires open { S.failed sink.old ≡ false }
    requires path { IsPath instance.now rib }
    ensures { Puts result (S.written sink.old) (S.written sink.new) (S.failed sink.new) (rib_line instance.now node rib) }
{
    let path = instance.path(rib);
    put_line(
        sink,
        &[Name("router"), Number(node), Name("rib"), Path(path)],
    )
}

/// Puts how many stable assignments there are, or how many there are at least.
fn put_count<S: Sink>(sink: &mut S, count: u64, are_all: bool) -> Result<(), Failed>
    requires { S.failed sink.old ≡ false }
    ensures { Puts result (S.written sink.old) (S.written sink.new) (S.failed sink.new) (count_line count are_all) }
{
    if are_all {
        put_line(sink, &[Name("verdict"), Name("stable"), Number(count)])
    } else {
        put_least(sink, count)
    }
}

/// Puts how many stable assignments there are at least.
fn put_least<S: Sink>(sink: &mut S, count: u64) -> Result<(), Failed>
    requires { S.failed sink.old ≡ false }
    ensures { Puts result (S.written sink.old) (S.written sink.new) (S.failed sink.new) (count_line count false) }
{
    put_line(
        sink,
        &[
            Name("verdict"),
            Name("stable"),
            Name("at"),
            Name("least"),
            Number(count),
        ],
    )
}

/// Reads a case and lists its stable assignments, by how the routers stand once the script is over, as far as so
/// many splits find them; or writes where and why its text is refused. Each split is told as it is made.
pub fn stable_io<R: Source, W: Sink, P: SplitProgress>(
    alloc: Global,
    splits: u64,
    progress: &P,
    source: &mut R,
    sink: &mut W,
) -> Result<Status, Cause>
    requires source { R.failed source.old ≡ false }
    requires sink { W.failed sink.old ≡ false }
    ensures answer { Answers result (stable_output splits) (λ _. ⊥)
        (R.remaining source.old) (W.written sink.old) (W.written sink.new) (R.failed source.new) (W.failed sink.new) }
    ensures read { OnOk result (LosesInput (R.remaining source.old) (R.remaining source.new)) }
    ensures most { TakesInput (R.remaining source.old) (R.remaining source.new) }
{
    answer_io(alloc, &Stable { splits, progress }, source, sink)
}
