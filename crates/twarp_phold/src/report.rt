//! The report of a run.

ghost use Rattle.std.specs.Prelude.{◌≡◌, ◌<◌, false};
ghost use Rattle.tw_device.specs.Sink.{Puts};
ghost use Rattle.twarp_phold.specs.Report.{checksum_at, process_line, process_lines, refused_text, report_text};

use crate::ended::Ended;
use tw_device::{Failed, Sink};
use tw_report::Word::{Name, Number};
use tw_report::put_line;

/// Writes the report of a run: how many jobs each process has handled, and a checksum of all states. Takes no memory.
pub(crate) fn write_report<S: Sink, E: Ended>(sink: &mut S, run: &E) -> Result<(), Failed>
    requires open { S.failed sink.old ≡ false }
    requires complete { E.is_complete run.now }
    ensures { Puts result (S.written sink.old) (S.written sink.new) (S.failed sink.new) (report_text (E.phold run.now) (E.end run.now)) }
{
    put_line(sink, &[Name("phold-report"), Name("1")])?;
    put_line(sink, &[Name("stop"), Number(run.stop())])?;
    put_processes(sink, run)?;
    put_line(sink, &[Name("checksum"), Number(checksum(run))])
}

/// Writes that the line asks for no PHOLD.
pub(crate) fn write_refused<S: Sink>(sink: &mut S) -> Result<(), Failed>
    requires { S.failed sink.old ≡ false }
    ensures { Puts result (S.written sink.old) (S.written sink.new) (S.failed sink.new) refused_text }
{
    put_line(sink, &[Name("refused"), Name("option"), Name("longest")])
}

/// Puts the line of each process.
fn put_processes<S: Sink, E: Ended>(sink: &mut S, run: &E) -> Result<(), Failed>
    requires open { S.failed sink.old ≡ false }
    requires complete { E.is_complete run.now }
    ensures { Puts result (S.written sink.old) (S.written sink.new) (S.failed sink.new) (process_lines (E.phold run.now) (E.end run.now)) }
{
    for number in 0..run.model().processes {
        put_process(sink, run, number)?;
    }
    Ok(())
}

/// Puts the line of a process.
fn put_process<S: Sink, E: Ended>(sink: &mut S, run: &E, number: u32) -> Result<(), Failed>
    requires open { S.failed sink.old ≡ false }
    requires complete { E.is_complete run.now }
    requires here { number < (E.phold run.now).processes }
    ensures { Puts result (S.written sink.old) (S.written sink.new) (S.failed sink.new) (process_line (E.phold run.now) (E.end run.now) number) }
{
    let handled = run.state(number).handled;
    put_line(
        sink,
        &[
            Name("process"),
            Number(u64::from(number)),
            Name("handled"),
            Number(handled),
        ],
    )
}

/// The checksum of the states of all processes.
fn checksum<E: Ended>(run: &E) -> u64
    requires { E.is_complete run.now }
    ensures { result ≡ checksum_at (E.phold run.now) (E.end run.now) }
{
    let mut sum = 0;
    for number in 0..run.model().processes {
        sum = run.state(number).mix_into(sum);
    }
    sum
}
