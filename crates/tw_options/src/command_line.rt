//! What a command line asks for.

ghost use Rattle.std.specs.Prelude.{Some, codes};
ghost use Rattle.clap.specs.Words.{found_of, rows_of, subcommand_rows_of};
ghost use Rattle.tw_model.specs.declared.limits.TheConstants.{MOST_WORKERS};
ghost use Rattle.tw_options.specs.Fit.{HasNumberIfGiven, HasReplay, HasReport, HasRun, HasTrail, IsFit};
ghost use Rattle.tw_options.specs.Says.{IsNumberIfGiven, Says, SaysReport, Sets, is_lazy};

use crate::flag::{BLOCKS, LAZY, LOG, PROGRESS, ROTATE, STATS};
use crate::number::{BATCH, EVERY, KEEP, ROUTER, STOP, THREADS, WORKERS};
use clap::ArgMatches;
use tw_sim::Cancel;

/// Which run of a case is asked for, and what is told of it. Times are in ticks.
#[derive(Clone, Copy, PartialEq, Eq, Debug)]
pub struct Report {
    /// The events before this time are handled, from 1 to 1,000,000,000.
    pub stop: u64,
    /// The time from one checkpoint to the next, from 1 to 1,000,000,000; `None` where no shapes are compared.
    pub every: Option<u64>,
    /// Whether the report lists the events.
    pub log: bool,
    /// Whether standard error is told how far the run is, also where it is no terminal.
    pub progress: bool,
    /// Whether what was counted and how long it took is told behind the report.
    pub stats: bool,
}

/// Which run by workers that run ahead of one another is asked for, and what is told of it.
#[derive(Clone, Copy, PartialEq, Eq, Debug)]
pub struct Asked {
    /// As of the run by one thread, whose report it writes.
    pub report: Report,
    /// How many workers share the routers, from 1 to 64, each that has some in a thread; `None` where the program is to choose
    /// among one and up to 4.
    pub workers: Option<u32>,
    /// How many events a worker handles at most between two meetings, from 1 to 4,096.
    pub batch: u32,
    /// When what an undone event has sent is taken back.
    pub cancel: Cancel,
    /// Whether a worker's routers are a block of routers in a row, and not dealt out in turn: of so many routers,
    /// router r goes to worker r * workers div routers, and not to r mod workers.
    pub blocks: bool,
    /// Whether the routers go to the next worker at each checkpoint.
    pub rotate: bool,
}

/// Which router's events of which run are asked for, and how many of them are undone.
#[derive(Clone, Copy, PartialEq, Eq, Debug)]
pub struct Trail {
    /// From 0 to 1,023.
    pub router: u32,
    /// As of `Report`.
    pub stop: u64,
    /// How many of the events are kept, from 0 to 1,000,000,000.
    pub keep: u64,
}

/// Which Time Warp machine of a case is to take steps.
#[derive(Clone, Copy, PartialEq, Eq, Debug)]
pub struct Machine {
    /// As of `Report`.
    pub stop: u64,
    /// How many workers the routers are dealt out to, from 1 to 64.
    pub workers: u32,
    /// When what an undone event has sent is taken back.
    pub cancel: Cancel,
}

/// What a command line asks for. The input comes from standard input.
#[derive(Clone, Copy, PartialEq, Eq, Debug)]
pub enum CommandLine {
    /// Whether the input is a case text.
    Check,
    /// The report of the run of a case.
    Seq(Report),
    /// The same report, by workers.
    Run(Asked),
    /// One router's events of the run of a case, the last ones undone.
    Trail(Trail),
    /// What steps do to the Time Warp machine of a case.
    Replay(Machine),
    /// The text of a case in the latest version.
    Upgrade,
}

/// The command line that the parser's matches stand for.
pub(crate) fn command_line_of(matches: &ArgMatches<'_>) -> CommandLine
    requires { IsFit (subcommand_rows_of matches.now) }
    ensures { Says (subcommand_rows_of matches.now) result }
{
    let (name, given) = matches.subcommand().unwrap();
    match name {
        "check" => CommandLine::Check,
        "seq" => CommandLine::Seq(report_of(given)),
        "run" => run_of(given),
        "trail" => trail_of(given),
        "replay" => replay_of(given),
        "upgrade" => CommandLine::Upgrade,
        _ => unreachable!(),
    }
}

fn report_of(given: &ArgMatches<'_>) -> Report
    requires { HasReport (rows_of (found_of given.now)) }
    ensures { SaysReport (rows_of (found_of given.now)) result }
{
    Report {
        stop: STOP.read(given),
        every: EVERY.read_if_given(given),
        log: LOG.is_set(given),
        progress: PROGRESS.is_set(given),
        stats: STATS.is_set(given),
    }
}

fn run_of(given: &ArgMatches<'_>) -> CommandLine
    requires { HasRun (rows_of (found_of given.now)) }
    ensures { Says (Some (codes "run", rows_of (found_of given.now))) result }
{
    CommandLine::Run(Asked {
        report: report_of(given),
        workers: workers_of(given),
        batch: BATCH.read_or(given, 64) as u32,
        cancel: cancel_of(given),
        blocks: BLOCKS.is_set(given),
        rotate: ROTATE.is_set(given),
    })
}

fn workers_of(given: &ArgMatches<'_>) -> Option<u32>
    requires { HasNumberIfGiven (codes "workers") 1 MOST_WORKERS (rows_of (found_of given.now)) }
    ensures { IsNumberIfGiven (codes "workers") 1 MOST_WORKERS (rows_of (found_of given.now)) result }
{
    let workers = THREADS.read_if_given(given)?;
    Some(workers as u32)
}

fn trail_of(given: &ArgMatches<'_>) -> CommandLine
    requires { HasTrail (rows_of (found_of given.now)) }
    ensures { Says (Some (codes "trail", rows_of (found_of given.now))) result }
{
    CommandLine::Trail(Trail {
        router: ROUTER.read(given) as u32,
        stop: STOP.read(given),
        keep: KEEP.read(given),
    })
}

fn replay_of(given: &ArgMatches<'_>) -> CommandLine
    requires { HasReplay (rows_of (found_of given.now)) }
    ensures { Says (Some (codes "replay", rows_of (found_of given.now))) result }
{
    CommandLine::Replay(Machine {
        stop: STOP.read(given),
        workers: WORKERS.read_or(given, 1) as u32,
        cancel: cancel_of(given),
    })
}

/// At once, or as late as may be where that is told.
fn cancel_of(given: &ArgMatches<'_>) -> Cancel
    ensures { Sets (codes "lazy") (rows_of (found_of given.now)) (is_lazy result) }
{
    if LAZY.is_set(given) {
        Cancel::Lazy
    } else {
        Cancel::Aggressive
    }
}
