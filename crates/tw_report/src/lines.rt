//! The line of an event.

ghost use Rattle.std.specs.Prelude.{◌≡◌, false};
ghost use Rattle.tw_device.specs.Sink.{Puts};
ghost use Rattle.tw_model.specs.Net.{IsPath};
ghost use Rattle.tw_report.specs.Lines.{refused_words, router_words};
ghost use Rattle.tw_report.specs.Words.{line};

use crate::words::Word::{Name, Number, Path};
use crate::words::put_line;
use tw_device::{Failed, Sink};
use tw_instance::Instance;
use tw_model::RouterEnd;

/// Puts the line of a router: `router`, its number, its counters and its path. Takes no memory.
///
/// The path is one of the instance.
pub fn put_router<S: Sink>(
    sink: &mut S,
    instance: &Instance,
    node: usize,
    end: &RouterEnd,
) -> Result<(), Failed>
    requires path { IsPath instance.now end.now.rib }
    requires open { S.failed sink.old ≡ false }
    ensures { Puts result (S.written sink.old) (S.written sink.new) (S.failed sink.new) (line (router_words instance.now node end.now)) }
{
    let counters = end.counters;
    put_line(
        sink,
        &[
            Name("router"),
            Number(node as u64),
            Name("sent"),
            Number(counters.sent),
            Name("handled"),
            Number(counters.handled),
            Name("dropped"),
            Number(counters.dropped),
            Name("changed"),
            Number(counters.changed),
            Name("rib"),
            Path(instance.path(end.rib)),
        ],
    )
}

/// What a line tells to be refused.
#[derive(Clone, Copy, PartialEq, Eq, Debug)]
pub enum Refused {
    /// A line of a text, numbered from 1.
    TextLine(usize),
    /// An option of a command.
    CommandOption,
    /// A step of a machine, numbered from 1.
    Step(usize),
}

/// Puts the line of what is refused, with the code and the name of the reason. Takes no memory.
pub fn put_refused<S: Sink>(
    sink: &mut S,
    refused: Refused,
    code: &'static str,
    name: &'static str,
) -> Result<(), Failed>
    requires { S.failed sink.old ≡ false }
    ensures { Puts result (S.written sink.old) (S.written sink.new) (S.failed sink.new) (line (refused_words refused code.now name.now)) }
{
    let (word, code, name) = (Name("refused"), Name(code), Name(name));
    match refused {
        Refused::TextLine(number) => {
            let number = Number(number as u64);
            put_line(sink, &[word, Name("line"), number, code, name])
        }
        Refused::CommandOption => put_line(sink, &[word, Name("option"), code, name]),
        Refused::Step(number) => {
            let number = Number(number as u64);
            put_line(sink, &[Name("step"), number, word, code, name])
        }
    }
}
