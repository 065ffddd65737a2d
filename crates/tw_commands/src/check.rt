//! The command `check`: how large a case is.

ghost use Rattle.std.specs.Prelude.{◌≡◌, false, OnOk};
ghost use Rattle.tw_commands.specs.Check.{sizes_of};
ghost use Rattle.tw_commands.specs.ForCase.{for_case};
ghost use Rattle.tw_commands.specs.Output.{Answers};
ghost use Rattle.tw_device.specs.Source.{LosesInput, TakesInput};
ghost use Rattle.tw_text.specs.Reading.{case_of};

use crate::cause::{Cause, Status};
use crate::command::{Command, answer_io};
use std::alloc::Global;
use tw_device::{Sink, Source};
use tw_instance::Case;
use tw_report::Word::{Name, Number};
use tw_report::put_line;

/// The command `check`: says how large a case is.
#[derive(Clone, Copy)]
struct Check;

impl Command for Check {
    type Input = Case;

    ghost ready = { λ _. Unit {0} };

    ghost output = { λ _ case. sizes_of case };

    ghost stuck = { λ _ _. ⊥ };

    fn answer<W: Sink>(&self, _alloc: Global, case: &Case, sink: &mut W) -> Result<Status, Cause> {
        let instance = case.instance();
        put_line(
            sink,
            &[
                Name("accepted"),
                Name("nodes"),
                Number(u64::from(instance.nodes())),
                Name("links"),
                Number(instance.links().len() as u64),
                Name("paths"),
                Number(instance.paths().len() as u64),
                Name("scenario"),
                Number(case.scenario().len() as u64),
            ],
        )?;
        Ok(Status::Done)
    }
}

/// Reads a case and writes how large it is, or where and why its text is refused.
pub fn check_io<R: Source, W: Sink>(
    alloc: Global,
    source: &mut R,
    sink: &mut W,
) -> Result<Status, Cause>
    requires source { R.failed source.old ≡ false }
    requires sink { W.failed sink.old ≡ false }
    ensures answer { Answers result (λ input. for_case sizes_of (case_of input)) (λ _. ⊥)
        (R.remaining source.old) (W.written sink.old) (W.written sink.new) (R.failed source.new) (W.failed sink.new) }
    ensures read { OnOk result (LosesInput (R.remaining source.old) (R.remaining source.new)) }
    ensures most { TakesInput (R.remaining source.old) (R.remaining source.new) }
{
    answer_io(alloc, &Check, source, sink)
}
