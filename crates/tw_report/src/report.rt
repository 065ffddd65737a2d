//! The report of a run.

ghost use Rattle.std.specs.Prelude.{◌≡◌, false};
ghost use Rattle.std.specs.List.{All};
ghost use Rattle.tw_device.specs.Sink.{Puts};
ghost use Rattle.tw_model.specs.Net.{IsPath};
ghost use Rattle.tw_model.specs.Summary.{summary_of};
ghost use Rattle.tw_report.specs.Lines.{NamesPath};
ghost use Rattle.tw_report.specs.Report.{HasPaths, head_lines, logged_lines, report_text, router_lines, verdict_words};
ghost use Rattle.tw_report.specs.Words.{line};

use crate::event_page::put_events;
use crate::lines::put_router;
use crate::words::Word::{Name, Number};
use crate::words::put_line;
use tw_device::{Failed, Sink};
use tw_event::Event;
use tw_instance::Instance;
use tw_model::{Outcome, RouterEnd};
use tw_shape::Verdict;

/// Writes the report of a run, with a line for each event where `log` says so. Takes no memory: hand
/// it a sink with a buffer, for it puts line by line.
///
/// The paths of the outcome are paths of the instance.
pub fn write_report<S: Sink>(
    sink: &mut S,
    instance: &Instance,
    outcome: &Outcome,
    verdict: Verdict,
    log: bool,
) -> Result<(), Failed>
    requires open { S.failed sink.old ≡ false }
    requires paths { HasPaths instance.now (summary_of outcome.now) }
    ensures { Puts result (S.written sink.old) (S.written sink.new) (S.failed sink.new) (report_text instance.now (summary_of outcome.now) verdict log) }
{
    put_head(sink, outcome)?;
    put_log(sink, instance, &outcome.events, log)?;
    put_routers(sink, instance, &outcome.routers)?;
    put_verdict(sink, verdict)
}

/// Puts the lines before those of events.
fn put_head<S: Sink>(sink: &mut S, outcome: &Outcome) -> Result<(), Failed>
    requires open { S.failed sink.old ≡ false }
    ensures { Puts result (S.written sink.old) (S.written sink.new) (S.failed sink.new) (head_lines (summary_of outcome.now)) }
{
    put_line(sink, &[Name("spp-report"), Name("1")])?;
    put_line(sink, &[Name("stop"), Number(outcome.stop)])?;
    put_line(sink, &[Name("bound"), Number(outcome.bound)])
}

/// Puts the line of each event, where `log` says so.
fn put_log<S: Sink>(
    sink: &mut S,
    instance: &Instance,
    events: &[Event],
    log: bool,
) -> Result<(), Failed>
    requires paths { All (λ e. NamesPath instance.now e.body) events.now }
    requires open { S.failed sink.old ≡ false }
    ensures { Puts result (S.written sink.old) (S.written sink.new) (S.failed sink.new) (logged_lines instance.now log events.now) }
{
    if log {
        put_events(sink, instance, events)
    } else {
        Ok(())
    }
}

/// Puts the line of each router, numbered from 0.
pub(crate) fn put_routers<S: Sink>(
    sink: &mut S,
    instance: &Instance,
    routers: &[RouterEnd],
) -> Result<(), Failed>
    requires paths { All (λ r. IsPath instance.now r.rib) routers.now }
    requires open { S.failed sink.old ≡ false }
    ensures { Puts result (S.written sink.old) (S.written sink.new) (S.failed sink.new) (router_lines instance.now 0 routers.now) }
{
    for (node, end) in routers.iter().enumerate() {
        put_router(sink, instance, node, end)?;
    }
    Ok(())
}

/// Puts the line of the verdict.
fn put_verdict<S: Sink>(sink: &mut S, verdict: Verdict) -> Result<(), Failed>
    requires open { S.failed sink.old ≡ false }
    ensures { Puts result (S.written sink.old) (S.written sink.new) (S.failed sink.new) (line (verdict_words verdict)) }
{
    match verdict {
        Verdict::Quiet(time) => put_line(sink, &[Name("verdict"), Name("quiet"), Number(time)]),
        Verdict::Oscillates { from, period } => {
            let (from, period) = (Number(from), Number(period));
            put_line(
                sink,
                &[
                    Name("verdict"),
                    Name("oscillates"),
                    Name("from"),
                    from,
                    Name("period"),
                    period,
                ],
            )
        }
        Verdict::Undecided => put_line(sink, &[Name("verdict"), Name("open")]),
    }
}
