//! The flags of a command line.

ghost use Rattle.std.specs.Prelude.{◌≡◌, false};
ghost use Rattle.clap.specs.Words.{found_of, rows_of, rule_of};
ghost use Rattle.tw_options.specs.App.{flag_rule};
ghost use Rattle.tw_options.specs.Says.{Sets};

use crate::help;
use clap::{Arg, ArgAction, ArgMatches};
use std::alloc::Global;

/// A flag `--id`, which may be left out.
#[derive(Clone, Copy)]
pub struct Flag {
    /// The name, without its hyphens.
    pub id: &'static str,
    /// What the help says of it.
    pub help: &'static str,
    /// What the long help says of it.
    pub long_help: &'static str,
}

pub(crate) const LOG: Flag = Flag {
    id: "log",
    help: help::LOG,
    long_help: help::LOG_LONG,
};

pub(crate) const LAZY: Flag = Flag {
    id: "lazy",
    help: help::LAZY,
    long_help: help::LAZY,
};

pub(crate) const BLOCKS: Flag = Flag {
    id: "blocks",
    help: help::BLOCKS,
    long_help: help::BLOCKS,
};

pub(crate) const ROTATE: Flag = Flag {
    id: "rotate",
    help: help::ROTATE,
    long_help: help::ROTATE,
};

pub(crate) const PROGRESS: Flag = Flag {
    id: "progress",
    help: help::PROGRESS,
    long_help: help::PROGRESS_LONG,
};

pub(crate) const STATS: Flag = Flag {
    id: "stats",
    help: help::STATS,
    long_help: help::STATS,
};

impl Flag {
    /// This flag, for the parser.
    pub(crate) fn arg<'a>(self, alloc: Global) -> Arg<'a>
        ensures rule { rule_of result ≡ flag_rule self.id.now }
        ensures local { result.global ≡ false }
    {
        Arg::new(alloc, self.id)
            .long(self.id)
            .action(ArgAction::SetTrue)
            .help(self.help)
            .long_help(self.long_help)
    }

    /// Whether it is set.
    // As `get_flag`, whose contract leaves open what it answers where the text is no truth value.
    pub fn is_set(self, given: &ArgMatches<'_>) -> bool
        ensures { Sets self.id.now (rows_of (found_of given.now)) result }
    {
        given.get_one::<bool>(self.id).unwrap_or(false)
    }
}
