//! The command `trail`: one router's events, handled and undone.

ghost use Rattle.std.specs.Prelude.{◌≡◌, ◌≤◌, ◌<◌, false, IfOk, OnOk, Some};
ghost use Rattle.tw_commands.specs.Output.{Answers, Leaves};
ghost use Rattle.tw_commands.specs.Trail.{FollowGetsStuck, TrailGetsStuck, events_at as events_at_of, trail_of, trail_output, trail_text};
ghost use Rattle.tw_device.specs.Source.{LosesInput, TakesInput};
ghost use Rattle.tw_model.specs.declared.limits.TheConstants.{LATEST};
ghost use Rattle.tw_seq.specs.Run.{complete_run};

use crate::cause::{Cause, Status};
use crate::command::{Command, answer_io};
use crate::no_memory::NoMemory;
use crate::trail_page::trail_page;
use std::alloc::{AllocError, Global};
use tw_device::{Page, Sink, Source, put_all};
use tw_event::Event;
use tw_instance::Case;
use tw_options::Trail;
use tw_report::{Refused, put_refused};
use tw_seq::{LoggedRun, Running};

/// The command `trail`: lets one router handle its events of a run once more and undo the last ones.
impl Command for Trail {
    type Input = Case;

    ghost ready = { λ trail. trail.stop ≤ LATEST };

    ghost output = { λ trail case. trail_of trail.router trail.stop trail.keep case };

    ghost stuck = { λ trail case. FollowGetsStuck trail.router trail.stop case };

    fn answer<W: Sink>(&self, alloc: Global, case: &Case, sink: &mut W) -> Result<Status, Cause> {
        if self.router >= case.instance().nodes() {
            put_refused(sink, Refused::CommandOption, "N1", "Router")?;
            return Ok(Status::Refused);
        }
        let mut run = LoggedRun::new(alloc, case)?;
        run.run_to(self.stop)?;
        write_trail(alloc, &run, case, *self, sink)
    }
}

/// Writes the trail of one router of a run that has come to its stop.
fn write_trail<W: Sink>(
    alloc: Global,
    run: &LoggedRun<'_>,
    case: &Case,
    trail: Trail,
    sink: &mut W,
) -> Result<Status, Cause>
    requires router { trail.router < case.now.net.nodes }
    requires stop { trail.stop ≤ LATEST }
    requires whole { run.now ≡ complete_run case.now trail.stop }
    requires open { W.failed sink.old ≡ false }
    ensures { Leaves result (trail_of trail.router trail.stop trail.keep case.now) (FollowGetsStuck trail.router trail.stop case.now)
        (W.written sink.old) (W.written sink.new) (W.failed sink.new) }
{
    let page = follow(alloc, run, case, trail.router, trail.keep)?;
    put_all(sink, page.bytes())?;
    Ok(Status::Done)
}

/// Reads a case, runs it on one thread to the stop, and lets one router handle its events of
/// that run once more and undo all but the first `keep`; writes the router before and after the
/// undoing, and each event undone with what it had sent. Writes a refusal where the text is refused,
/// or where the case has no such router, before anything is run.
pub fn trail_io<R: Source, W: Sink>(
    alloc: Global,
    source: &mut R,
    sink: &mut W,
    trail: Trail,
) -> Result<Status, Cause>
    requires source { R.failed source.old ≡ false }
    requires sink { W.failed sink.old ≡ false }
    requires stop { trail.stop ≤ LATEST }
    ensures answer { Answers result (trail_output trail.router trail.stop trail.keep) (TrailGetsStuck trail.router trail.stop)
        (R.remaining source.old) (W.written sink.old) (W.written sink.new) (R.failed source.new) (W.failed sink.new) }
    ensures read { OnOk result (LosesInput (R.remaining source.old) (R.remaining source.new)) }
    ensures most { TakesInput (R.remaining source.old) (R.remaining source.new) }
{
    answer_io(alloc, &trail, source, sink)
}

/// One router's events of a run, handled once more and undone.
fn follow(
    alloc: Global,
    run: &LoggedRun<'_>,
    case: &Case,
    router: u32,
    keep: u64,
) -> Result<Page, NoMemory>
    requires own { run.now.case ≡ case.now }
    requires router { router < case.now.net.nodes }
    requires stop { run.now.stop ≤ LATEST }
    requires whole { run.now ≡ complete_run case.now run.now.stop }
    ensures { IfOk result (λ page. page.written ≡ Some (trail_text case.now.net router (events_at_of router run.now.events) keep)) }
{
    let node = run.router(router).node();
    let events = events_at(alloc, run.handled(), node)?;
    trail_page(alloc, case.instance(), node, &events, keep as usize)
}

fn events_at(alloc: Global, events: &[Event], node: u32) -> Result<Vec<Event>, AllocError>
    ensures { IfOk result (λ v. v.items ≡ events_at_of node events.now) }
{
    events
        .iter()
        .filter(|event| event.dst == node)
        .copied()
        .collect(alloc)
}
