//! The line of a refused text.

ghost use Rattle.std.specs.Prelude.{◌≡◌, ◌++◌, ◌∷◌, [], false};
ghost use Rattle.tw_commands.specs.ForCase.{refusal_output};
ghost use Rattle.tw_commands.specs.Output.{Leaves};
ghost use Rattle.tw_lines.specs.FaultNames.{refusal_text};

use crate::cause::{Cause, Status};
use tw_device::Sink;
use tw_report::{Refused, put_refused};
use tw_text::TextFault;

/// Writes where and why a text is refused.
pub fn refuse<W: Sink>(sink: &mut W, fault: TextFault) -> Result<Status, Cause>
    requires { W.failed sink.old ≡ false }
    ensures { Leaves result (refusal_output (refusal_text fault ++ 10 ∷ [])) ⊥ (W.written sink.old) (W.written sink.new) (W.failed sink.new) }
{
    let line = Refused::TextLine(fault.line);
    put_refused(sink, line, fault.fault.code(), fault.fault.name())?;
    Ok(Status::Refused)
}
