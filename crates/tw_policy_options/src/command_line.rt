//! What a command line asks for.

ghost use Rattle.std.specs.Prelude.{Some, codes};
ghost use Rattle.clap.specs.Words.{found_of, rows_of, subcommand_rows_of};
ghost use Rattle.tw_policy_options.specs.Fit.{HasStable, IsFit};
ghost use Rattle.tw_policy_options.specs.Says.{Says};

use crate::splits::{DEFAULT_SPLITS, SPLITS};
use clap::ArgMatches;

/// What a command line asks for. The case comes from standard input.
#[derive(Clone, Copy, PartialEq, Eq, Debug)]
pub enum CommandLine {
    /// What elimination leaves, and whether the case comes to rest.
    Safe,
    /// The stable assignments.
    Stable {
        /// How many splits are made at most, from 0 to 1,000,000,000.
        splits: u64,
    },
}

/// The command line that the parser's matches stand for.
pub(crate) fn command_line_of(matches: &ArgMatches<'_>) -> CommandLine
    requires { IsFit (subcommand_rows_of matches.now) }
    ensures { Says (subcommand_rows_of matches.now) result }
{
    let (name, given) = matches.subcommand().unwrap();
    match name {
        "safe" => CommandLine::Safe,
        "stable" => stable_of(given),
        _ => unreachable!(),
    }
}

fn stable_of(given: &ArgMatches<'_>) -> CommandLine
    requires { HasStable (rows_of (found_of given.now)) }
    ensures { Says (Some (codes "stable", rows_of (found_of given.now))) result }
{
    CommandLine::Stable {
        splits: SPLITS.read_or(given, DEFAULT_SPLITS),
    }
}
