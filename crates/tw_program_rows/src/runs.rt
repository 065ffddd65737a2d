//! Runs and reports by calls.

ghost use Rattle.std.specs.Prelude.{◌≡◌, ◌<◌, ◌≤◌, false, IfOk};
ghost use Rattle.tw_model.specs.declared.limits.TheConstants.{LATEST};
ghost use Rattle.tw_model.specs.Net.{Net};
ghost use Rattle.tw_model.specs.Summary.{summary_of};
ghost use Rattle.tw_report.specs.Report.{HasPaths};
ghost use Rattle.tw_seq.specs.Run.{opening_run};

use crate::devices::{AMPLE, ShortPage};
use crate::texts::ALONE_LOG;
use std::alloc::{AllocError, Global};
use tw_device::Failed;
use tw_event::{Event, PathNo};
use tw_instance::{Case, Instance};
use tw_model::{Counters, Outcome, RouterEnd};
use tw_report::write_report;
use tw_rows::cases::case;
use tw_rows::events::START;
use tw_rows::texts::{ALONE, DISAGREE};
use tw_seq::{LoggedRun, OneThread, Running};
use tw_shape::Verdict;

/// Runs to the stop, once more where memory was refused.
pub(crate) fn run_to<R: Running>(run: &mut R, stop: u64) -> bool
    requires { stop ≤ LATEST }
    ensures { (R.run run.new).case ≡ (R.run run.old).case }
{
    run.run_to(stop).is_ok() || run.run_to(stop).is_ok()
}

/// Whether just one event is pending, of time 7.
fn is_the_last(pending: &[Event]) -> bool {
    matches!(pending, [event] if event.time == 7)
}

/// Whether an outcome is that of stop 20, with so many events, and quiet since time 2.
fn is_quiet_at_20(outcome: &Outcome, events: usize) -> bool {
    outcome.stop == 20
        && outcome.bound == 20
        && outcome.events.len() == events
        && Verdict::of(outcome, None) == Verdict::Quiet(2)
}

/// The run of a case as it begins, asked for once more where memory was refused.
pub(crate) fn logged_run<'a>(alloc: Global, case: &'a Case) -> Result<LoggedRun<'a>, AllocError>
    ensures { IfOk result (λ run. run ≡ opening_run case.now) }
{
    match LoggedRun::new(alloc, case) {
        Err(_) => LoggedRun::new(alloc, case),
        made => made,
    }
}

/// What a run leaves, asked for once more where memory was refused.
pub(crate) fn left_by(run: &LoggedRun<'_>) -> Result<Outcome, AllocError> {
    match run.outcome() {
        Err(_) => run.outcome(),
        left => left,
    }
}

/// Whether a run gives away these events, where memory is not refused.
fn gives_away(run: LoggedRun<'_>, left: &Outcome) -> bool {
    match run.into_outcome() {
        Ok(moved) => {
            let is_same = moved.events.as_slice() == left.events.as_slice();
            drop(moved);
            is_same
        }
        Err(_) => true,
    }
}

/// Whether a run tells what it leaves at stop 20, which are seven events, and gives the same away.
fn leaves_its_events(run: LoggedRun<'_>) -> bool {
    let Ok(left) = left_by(&run) else {
        drop(run);
        return false;
    };
    let leaves = gives_away(run, &left) && is_quiet_at_20(&left, 7);
    drop(left);
    leaves
}

/// Whether a run has handled six events, and just one is pending, of time 7; asked once more where memory was refused.
fn has_one_left(run: &LoggedRun<'_>) -> bool {
    let pending = match run.pending() {
        Err(_) => run.pending(),
        pending => pending,
    };
    run.handled().len() == 6 && matches!(pending, Ok(pending) if is_the_last(&pending))
}

/// Whether a run that has handled nothing goes on to tick 7, and no earlier stop takes anything back.
fn handles_six(run: &mut LoggedRun<'_>) -> bool
    ensures { run.new.case ≡ run.old.case }
{
    run.handled().is_empty()
        && run_to(run, 7)
        && run.handled().len() == 6
        && run_to(run, 3)
        && has_one_left(run)
}

/// Whether a run goes on to stop 20 with seven events, router 1 being on its path by the origin.
fn handles_seven(run: &mut LoggedRun<'_>) -> bool
    requires { 1 < run.old.case.net.nodes }
{
    run_to(run, 20) && run.handled().len() == 7 && run.router(1).rib() == PathNo(3)
}

/// Whether the run of a case of three routers goes on to later stops, and no earlier one takes anything back.
fn goes_on(alloc: Global, case: &Case) -> bool {
    let has_three_routers = case.instance().nodes() == 3;
    let Ok(mut run) = logged_run(alloc, case) else {
        return false;
    };
    let handles_all = has_three_routers && handles_six(&mut run) && handles_seven(&mut run);
    leaves_its_events(run) && handles_all
}

/// Whether just one event is pending in a run without a log, of time 7; asked once more where memory was refused.
fn has_the_last(run: &OneThread<'_>) -> bool {
    let pending = match run.pending() {
        Err(_) => run.pending(),
        pending => pending,
    };
    matches!(pending, Ok(pending) if is_the_last(&pending))
}

/// Whether a run without a log goes on to tick 7, and just one event is pending then, of time 7.
fn comes_to_the_last(run: &mut OneThread<'_>) -> bool
    ensures { run.new.case ≡ run.old.case }
{
    run_to(run, 7) && has_the_last(run)
}

/// Whether a run without a log is quiet at stop 20, as one with a log; asked once more where memory was refused.
fn is_left_quiet(run: &OneThread<'_>) -> bool {
    let left = match run.outcome_without_events() {
        Err(_) => run.outcome_without_events(),
        left => left,
    };
    let Ok(left) = left else {
        return false;
    };
    let is_quiet = is_quiet_at_20(&left, 0);
    drop(left);
    is_quiet
}

/// Whether a run without a log goes on to stop 20, router 1 being on its path by the origin.
fn comes_to_20(run: &mut OneThread<'_>) -> bool
    requires { 1 < run.old.case.net.nodes }
{
    run_to(run, 20) && run.router(1).rib() == PathNo(3) && is_left_quiet(run)
}

/// The run of a case without a log as it begins, asked for once more where memory was refused.
fn one_thread<'a>(alloc: Global, case: &'a Case) -> Result<OneThread<'a>, AllocError>
    ensures { IfOk result (λ run. run ≡ opening_run case.now) }
{
    match OneThread::new(alloc, case) {
        Err(_) => OneThread::new(alloc, case),
        made => made,
    }
}

/// Whether the run of a case of three routers without a log goes on to stop 20, and ends as one with a log.
fn goes_on_without_a_log(alloc: Global, case: &Case) -> bool {
    let has_three_routers = case.instance().nodes() == 3;
    let Ok(mut run) = one_thread(alloc, case) else {
        return false;
    };
    let goes_on = has_three_routers && comes_to_the_last(&mut run) && comes_to_20(&mut run);
    drop(run);
    goes_on
}

/// What the run of the origin alone to stop 10 leaves.
fn alone(alloc: Global) -> Result<Outcome, AllocError>
    ensures { (net : Net) → IfOk result (λ outcome. HasPaths net (summary_of outcome)) }
{
    let origin = RouterEnd {
        counters: Counters {
            sent: 0,
            handled: 1,
            dropped: 0,
            changed: 1,
        },
        rib: PathNo::ORIGIN,
    };
    Ok(Outcome {
        stop: 10,
        bound: 10,
        events: Vec::from_slice(alloc, &[START])?,
        routers: Vec::from_slice(alloc, &[origin])?,
        pending: Vec::new(alloc),
        last_change: 0,
    })
}

/// The same, once more where memory was refused.
fn alone_at_last(alloc: Global) -> Result<Outcome, AllocError>
    ensures { (net : Net) → IfOk result (λ outcome. HasPaths net (summary_of outcome)) }
{
    match alone(alloc) {
        Err(_) => alone(alloc),
        answer => answer,
    }
}

/// A page that takes `room` bytes, asked for once more where memory was refused.
fn page_at_last(alloc: Global, room: usize) -> Result<ShortPage, AllocError>
    ensures { IfOk result (λ page. page.failed ≡ false) }
{
    match ShortPage::new(alloc, room, AMPLE) {
        Err(_) => ShortPage::new(alloc, room, AMPLE),
        page => page,
    }
}

/// Whether writing the report on a page that takes `room` bytes ends so, with just this on the page.
fn reports(
    alloc: Global,
    instance: &Instance,
    outcome: &Outcome,
    room: usize,
    expected: Result<(), Failed>,
    written: &[u8],
) -> bool
    requires { HasPaths instance.now (summary_of outcome.now) }
{
    let Ok(mut page) = page_at_last(alloc, room) else {
        return false;
    };
    let verdict = Verdict::of(outcome, None);
    let ended = write_report(&mut page, instance, outcome, verdict, true);
    ended == expected && page.bytes() == written
}

/// Whether the report of the origin alone is whole on a page with room, and else its first line.
fn is_whole_or_a_prefix(alloc: Global, case: &Case) -> bool {
    let Ok(outcome) = alone_at_last(alloc) else {
        return false;
    };
    let net = case.instance();
    let is_so = reports(alloc, net, &outcome, AMPLE, Ok(()), ALONE_LOG.as_bytes())
        && reports(alloc, net, &outcome, 13, Err(Failed), b"spp-report 1\n");
    drop(outcome);
    is_so
}

/// What is asked of a case.
#[derive(Clone, Copy)]
enum Asked {
    /// Its run goes on.
    GoesOn,
    /// Its run without a log goes on.
    GoesOnWithoutALog,
    /// Its report is whole or a prefix.
    Reports,
}

/// Whether it holds of the case of a text.
fn holds(alloc: Global, text: &str, asked: Asked) -> bool {
    let Ok(case) = case(alloc, text) else {
        return false;
    };
    let holds = match asked {
        Asked::GoesOn => goes_on(alloc, &case),
        Asked::GoesOnWithoutALog => goes_on_without_a_log(alloc, &case),
        Asked::Reports => is_whole_or_a_prefix(alloc, &case),
    };
    drop(case);
    holds
}

#[test]
fn a_run_goes_on_to_a_later_stop(rt: HostRuntime) {
    assert!(rt; holds(rt.alloc(), DISAGREE, Asked::GoesOn));
}

#[test]
fn a_run_without_a_log_ends_as_one_with_a_log(rt: HostRuntime) {
    assert!(rt; holds(rt.alloc(), DISAGREE, Asked::GoesOnWithoutALog));
}

#[test]
fn a_report_is_whole_or_a_prefix(rt: HostRuntime) {
    assert!(rt; holds(rt.alloc(), ALONE, Asked::Reports));
}
