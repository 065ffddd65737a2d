//! The command `upgrade`: a case in the latest version of its text.

ghost use Rattle.std.specs.Prelude.{◌≡◌, false, OnOk};
ghost use Rattle.tw_commands.specs.Output.{Answers};
ghost use Rattle.tw_commands.specs.Upgrade.{upgrade_output, upgraded_text};
ghost use Rattle.tw_device.specs.Source.{LosesInput, TakesInput};

use crate::cause::{Cause, Status};
use crate::command::{Command, answer_io};
use std::alloc::Global;
use tw_device::{Sink, Source, put_all};
use tw_instance::Case;
use tw_text::write_case;

/// The command `upgrade`: writes a case in the latest version of its text.
#[derive(Clone, Copy)]
struct Upgrade;

impl Command for Upgrade {
    type Input = Case;

    ghost ready = { λ _. Unit {0} };

    ghost output = { λ _ case. upgraded_text case };

    ghost stuck = { λ _ _. ⊥ };

    fn answer<W: Sink>(&self, alloc: Global, case: &Case, sink: &mut W) -> Result<Status, Cause> {
        let upgraded = tw_text::upgrade(alloc, case)?;
        let text = write_case(alloc, &upgraded)?;
        put_all(sink, &text)?;
        Ok(Status::Done)
    }
}

/// Reads a case and writes its text in the latest version, or where and why its text is refused. A text of
/// that version is written as it is.
pub fn upgrade_io<R: Source, W: Sink>(
    alloc: Global,
    source: &mut R,
    sink: &mut W,
) -> Result<Status, Cause>
    requires source { R.failed source.old ≡ false }
    requires sink { W.failed sink.old ≡ false }
    ensures answer { Answers result upgrade_output (λ _. ⊥)
        (R.remaining source.old) (W.written sink.old) (W.written sink.new) (R.failed source.new) (W.failed sink.new) }
    ensures read { OnOk result (LosesInput (R.remaining source.old) (R.remaining source.new)) }
    ensures most { TakesInput (R.remaining source.old) (R.remaining source.new) }
{
    answer_io(alloc, &Upgrade, source, sink)
}
