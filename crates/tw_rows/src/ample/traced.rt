//! A run that is taken apart and taken up again, by calls.

ghost use Rattle.std.specs.Prelude.{◌≡◌};
ghost use Rattle.tw_seq.specs.Run.{complete_run};

use std::alloc::Global;
use tw_event::Event;
use tw_instance::Case;
use tw_model::Outcome;
use tw_seq::{OneThread, RouterTrace, Running, TracedRun};
use tw_shape::Verdict;

/// Whether a router has this time of its newest event, and of its last change.
fn tells(trace: &RouterTrace, newest: u64, change: u64) -> bool {
    matches!(trace.newest, Some(event) if event.time == newest) && trace.change == change
}

/// Whether a router has handled just two events, of these times.
fn has_times(log: &[Event], first: u64, second: u64) -> bool {
    matches!(log, [one, two] if one.time == first && two.time == second)
}

/// Whether the traces are those of the events before 7.
fn are_traces_at_7(traces: &[RouterTrace]) -> bool {
    matches!(traces, [origin, one, two] if tells(origin, 2, 0) && tells(one, 3, 1) && tells(two, 5, 2))
}

/// Whether the events are those before 7.
fn are_logs_at_7(logs: &[Vec<Event>]) -> bool {
    matches!(logs, [origin, one, two] if has_times(origin, 0, 2) && has_times(one, 1, 3) && has_times(two, 2, 5))
}

/// A run of a case to 7 that is taken apart and taken up again, and whether its routers' events are those before 7.
fn taken_up<'a>(case: &'a Case, run: TracedRun<'a>) -> (TracedRun<'a>, bool)
    requires { run.run ≡ complete_run case.now 7 }
{
    let (run, traces, logs) = run.into_parts();
    let (routers, pending, changed) = run.into_parts();
    let run = OneThread::resume(case, 7, routers, pending, changed);
    let kept = matches!(&logs, Some(logs) if are_logs_at_7(logs));
    (TracedRun::resume(run, traces, logs), kept)
}

/// Whether what a run leaves at stop 20 is that of the case, quiet since 2.
fn is_quiet_at_20(outcome: &Outcome) -> bool {
    outcome.stop == 20
        && outcome.bound == 20
        && outcome.pending.is_empty()
        && Verdict::of(outcome, None) == Verdict::Quiet(2)
}

/// Whether a run leaves what the case does at stop 20.
fn is_left_quiet(run: &OneThread<'_>) -> bool {
    let Ok(left) = run.outcome_without_events() else {
        return false;
    };
    let is_quiet = is_quiet_at_20(&left);
    drop(left);
    is_quiet
}

/// Whether the run of a case is at 7 what its rows tell, and goes on from there.
pub(super) fn goes_on(alloc: Global, case: &Case) -> bool {
    let Ok(mut run) = TracedRun::new(alloc, case, true) else {
        return false;
    };
    if run.run_to(7).is_err() || !are_traces_at_7(run.traces()) {
        drop(run);
        return false;
    }
    let (mut run, kept) = taken_up(case, run);
    let ends = run.run_to(20).is_ok() && is_left_quiet(run.run());
    drop(run);
    kept && ends
}
