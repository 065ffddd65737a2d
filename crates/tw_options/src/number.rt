//! The numbers of a command line, each with its range.

ghost use Rattle.std.specs.Prelude.{◌≡◌, ◌≤◌, false};
ghost use Rattle.clap.specs.Words.{found_of, rows_of, rule_of};
ghost use Rattle.tw_options.specs.App.{number_rule};
ghost use Rattle.tw_options.specs.Fit.{HasNumber, HasNumberIfGiven};
ghost use Rattle.tw_options.specs.Says.{IsNumberGiven, IsNumberIfGiven, IsNumberOr};

use crate::help;
use clap::builder::ValueParser;
use clap::{Arg, ArgAction, ArgMatches};
use std::alloc::Global;
use tw_model::limits::{LATEST, MOST_ROUTERS, MOST_WORKERS};

/// How many events a worker handles at most between two meetings.
pub(crate) const MOST_BATCH: u32 = 4_096;

/// An option `--id` that takes a number from `least` to `most`.
#[derive(Clone, Copy)]
pub struct NumberOption {
    /// The name, without its hyphens.
    pub id: &'static str,
    /// What the help calls the number.
    pub value_name: &'static str,
    /// Whether a command line without it is refused.
    pub is_required: bool,
    /// The least number.
    pub least: u64,
    /// The greatest number.
    pub most: u64,
    /// What the help says of it.
    pub help: &'static str,
    /// What the long help says of it.
    pub long_help: &'static str,
}

pub(crate) const STOP: NumberOption = NumberOption {
    id: "stop",
    value_name: "TICKS",
    is_required: true,
    least: 1,
    most: LATEST,
    help: help::STOP,
    long_help: help::STOP,
};

pub(crate) const EVERY: NumberOption = NumberOption {
    id: "every",
    is_required: false,
    help: help::EVERY,
    long_help: help::EVERY_LONG,
    ..STOP
};

pub(crate) const ROUTER: NumberOption = NumberOption {
    id: "router",
    value_name: "NUMBER",
    is_required: true,
    least: 0,
    most: MOST_ROUTERS as u64 - 1,
    help: help::ROUTER,
    long_help: help::ROUTER,
};

pub(crate) const KEEP: NumberOption = NumberOption {
    id: "keep",
    value_name: "COUNT",
    least: 0,
    help: help::KEEP,
    long_help: help::KEEP,
    ..STOP
};

pub(crate) const WORKERS: NumberOption = NumberOption {
    id: "workers",
    value_name: "COUNT",
    is_required: false,
    least: 1,
    most: MOST_WORKERS as u64,
    help: help::WORKERS,
    long_help: help::WORKERS,
};

pub(crate) const THREADS: NumberOption = NumberOption {
    help: help::THREADS,
    long_help: help::THREADS,
    ..WORKERS
};

pub(crate) const BATCH: NumberOption = NumberOption {
    id: "batch",
    most: MOST_BATCH as u64,
    help: help::BATCH,
    long_help: help::BATCH,
    ..WORKERS
};

impl NumberOption {
    /// This option, for the parser.
    pub(crate) fn arg<'a>(self, alloc: Global) -> Arg<'a>
        ensures rule { rule_of result ≡ number_rule self.id.now self.is_required self.least self.most }
        ensures local { result.global ≡ false }
    {
        Arg::new(alloc, self.id)
            .long(self.id)
            .value_name(self.value_name)
            .required(self.is_required)
            .action(ArgAction::Set)
            .value_parser(ValueParser::unsigned(self.least, self.most))
            .help(self.help)
            .long_help(self.long_help)
    }

    /// The number given for a required option.
    pub fn read(self, given: &ArgMatches<'_>) -> u64
        requires { HasNumber self.id.now self.least self.most (rows_of (found_of given.now)) }
        ensures { IsNumberGiven self.id.now self.least self.most (rows_of (found_of given.now)) result }
    {
        given.get_one::<u64>(self.id).unwrap()
    }

    /// The number, where one was given.
    pub fn read_if_given(self, given: &ArgMatches<'_>) -> Option<u64>
        requires { HasNumberIfGiven self.id.now self.least self.most (rows_of (found_of given.now)) }
        ensures { IsNumberIfGiven self.id.now self.least self.most (rows_of (found_of given.now)) result }
    {
        given.get_one::<u64>(self.id)
    }

    /// The number, and the default where none was given.
    pub fn read_or(self, given: &ArgMatches<'_>, default: u64) -> u64
        requires given { HasNumberIfGiven self.id.now self.least self.most (rows_of (found_of given.now)) }
        requires default { (self.least ≤ default) × (default ≤ self.most) }
        ensures number { IsNumberOr self.id.now self.least self.most default (rows_of (found_of given.now)) result }
        ensures range { (self.least ≤ result) × (result ≤ self.most) }
    {
        self.read_if_given(given).unwrap_or(default)
    }
}
