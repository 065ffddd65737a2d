//! What all commands have in common: reading, refusing, answering (docs/DECISIONS.md, 'Programs').

ghost use Rattle.std.specs.Prelude.{◌≡◌, false, OnOk};
ghost use Rattle.tw_commands.specs.ForCase.{StuckFor, for_case};
ghost use Rattle.tw_commands.specs.Output.{Answers, Leaves, Output};
ghost use Rattle.tw_device.specs.Source.{LosesInput, TakesInput};

use crate::cause::{Cause, Status};
use crate::input::Input;
use crate::refusal::refuse;
use std::alloc::Global;
use tw_device::{Sink, Source, read_all};
use tw_model::OrMemory;

/// What a program does with the input that it reads, and what it writes then.
pub trait Command {
    /// What it reads.
    type Input: Input;

    /// What its options keep to.
    ghost ready: { Self → Type 0 };

    /// How it ends for an input, and what it writes then.
    ghost output: { Self → Self.Input → Output };

    /// Whether for an input a router's counter would pass its limit.
    ghost stuck: { Self → Self.Input → Type 0 };

    /// Writes the answer for an input.
    fn answer<W: Sink>(
        &self,
        alloc: Global,
        input: &Self::Input,
        sink: &mut W,
    ) -> Result<Status, Cause>
        requires ready { ready self.now }
        requires open { W.failed sink.old ≡ false }
        ensures { Leaves result (output self.now input.now) (stuck self.now input.now) (W.written sink.old) (W.written sink.new) (W.failed sink.new) };
}

/// Reads an input from a source and writes the command's answer to a sink, or where and why the text is
/// refused. Nothing is written before the answer is known.
///
/// Of the source the first `MOST_INPUT` bytes are read, or all where there are no more. It is handed them back where
/// the command refuses.
pub fn answer_io<C: Command, R: Source, W: Sink>(
    alloc: Global,
    command: &C,
    source: &mut R,
    sink: &mut W,
) -> Result<Status, Cause>
    requires ready { C.ready command.now }
    requires source { R.failed source.old ≡ false }
    requires sink { W.failed sink.old ≡ false }
    ensures answer { Answers result (λ text. for_case (C.output command.now) (C.Input.of_text text)) (λ text. StuckFor (C.stuck command.now) (C.Input.of_text text))
        (R.remaining source.old) (W.written sink.old) (W.written sink.new) (R.failed source.new) (W.failed sink.new) }
    ensures read { OnOk result (LosesInput (R.remaining source.old) (R.remaining source.new)) }
    ensures most { TakesInput (R.remaining source.old) (R.remaining source.new) }
{
    let text = read_all(alloc, source)?;
    let ended = answer_text(alloc, command, &text, sink);
    hand_back(source, text, &ended);
    ended
}

/// Hands a source back the text that was read of it, where a command refused it.
pub fn hand_back<R: Source>(source: &mut R, text: Vec<u8>, ended: &Result<Status, Cause>)
    ensures remaining { R.remaining source.new ≡ R.remaining source.old }
    ensures failed { R.failed source.new ≡ R.failed source.old }
{
    if let Ok(Status::Refused) = ended {
        source.take_back(text);
    }
}

fn answer_text<C: Command, W: Sink>(
    alloc: Global,
    command: &C,
    text: &[u8],
    sink: &mut W,
) -> Result<Status, Cause>
    requires ready { C.ready command.now }
    requires open { W.failed sink.old ≡ false }
    ensures { Leaves result (for_case (C.output command.now) (C.Input.of_text text.now)) (StuckFor (C.stuck command.now) (C.Input.of_text text.now))
        (W.written sink.old) (W.written sink.new) (W.failed sink.new) }
{
    match C::Input::read(alloc, text) {
        Ok(input) => command.answer(alloc, &input, sink),
        Err(OrMemory::Fault(fault)) => refuse(sink, fault),
        Err(OrMemory::Memory) => Err(Cause::Memory),
    }
}
