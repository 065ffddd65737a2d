//! What a command line asks for.

ghost use Rattle.std.specs.Prelude.{◌≡◌, codes};
ghost use Rattle.clap.specs.Words.{found_of, rows_of, subcommand_rows_of};
ghost use Rattle.tw_options.specs.Fit.{HasNumberIfGiven};
ghost use Rattle.tw_phold_options.specs.Fit.{HasPhold, IsFit};
ghost use Rattle.tw_phold_options.specs.Says.{Says, SaysBy, SaysPhold};
ghost use Rattle.tw_phold_options.specs.declared.numbers.TheConstants.{MOST_WORKERS};

use crate::command::{ROUNDS, STATS};
use crate::numbers::{
    LONGEST, LONGEST_IF_NONE, LOOKAHEAD, LOOKAHEAD_IF_NONE, POPULATION, POPULATION_IF_NONE,
    PROCESSES, PROCESSES_IF_NONE, REMOTE, REMOTE_IF_NONE, SEED, SEED_IF_NONE, STOP, WORKERS,
    WORKERS_IF_NONE,
};
use clap::ArgMatches;

/// Who runs PHOLD.
#[derive(Clone, Copy, PartialEq, Eq, Debug)]
pub enum By {
    /// One thread, which handles all jobs in their order.
    OneThread,
    /// As many threads at most, from 1 to 64; one goes on alone where others are not faster.
    Workers(u32),
    /// In rounds from the first tick to the stop, by as many threads at most, from 1 to 64.
    Rounds(u32),
}

/// What a command line asks for: a run of PHOLD. Times are in ticks.
#[derive(Clone, Copy, PartialEq, Eq, Debug)]
pub struct CommandLine {
    /// How many processes there are, from 1 to 1,000,000.
    pub processes: u32,
    /// How many jobs each process begins with, from 0 to 1,000,000.
    pub population: u32,
    /// The shortest delay of a job, from 1 to 1,000,000.
    pub lookahead: u32,
    /// The longest delay of a job, from 1 to 1,000,000; it may be shorter than the lookahead.
    pub longest: u32,
    /// Of 1,000 jobs so many go to a process that is drawn.
    pub remote: u32,
    /// What all random words come from, from 0 to 1,000,000,000.
    pub seed: u64,
    /// The time before which jobs are handled, from 1 to 1,000,000,000.
    pub stop: u64,
    /// Who runs it.
    pub by: By,
    /// Whether what was counted and how long it took is told.
    pub stats: bool,
}

/// The command line that the parser's matches stand for.
pub(crate) fn command_line_of(matches: &ArgMatches<'_>) -> CommandLine
    requires { IsFit (subcommand_rows_of matches.now) }
    ensures { Says (subcommand_rows_of matches.now) result }
{
    let (name, given) = matches.subcommand().unwrap();
    match name {
        "seq" => phold_by(given, By::OneThread),
        "run" => phold_by(given, workers_of(given)),
        _ => unreachable!(),
    }
}

/// The command line that asks for the PHOLD that is given, to be run so.
fn phold_by(given: &ArgMatches<'_>, by: By) -> CommandLine
    requires { HasPhold (rows_of (found_of given.now)) }
    ensures phold { SaysPhold (rows_of (found_of given.now)) result }
    ensures by { result.by ≡ by }
{
    CommandLine {
        processes: PROCESSES.read_or(given, PROCESSES_IF_NONE) as u32,
        population: POPULATION.read_or(given, POPULATION_IF_NONE) as u32,
        lookahead: LOOKAHEAD.read_or(given, LOOKAHEAD_IF_NONE) as u32,
        longest: LONGEST.read_or(given, LONGEST_IF_NONE) as u32,
        remote: REMOTE.read_or(given, REMOTE_IF_NONE) as u32,
        seed: SEED.read_or(given, SEED_IF_NONE),
        stop: STOP.read(given),
        by,
        stats: STATS.is_set(given),
    }
}

/// The workers that are given, or those that are there where none are, in rounds where that is told.
fn workers_of(given: &ArgMatches<'_>) -> By
    requires { HasNumberIfGiven (codes "workers") 1 MOST_WORKERS (rows_of (found_of given.now)) }
    ensures { SaysBy (codes "run") (rows_of (found_of given.now)) result }
{
    let workers = WORKERS.read_or(given, WORKERS_IF_NONE) as u32;
    if ROUNDS.is_set(given) {
        By::Rounds(workers)
    } else {
        By::Workers(workers)
    }
}
