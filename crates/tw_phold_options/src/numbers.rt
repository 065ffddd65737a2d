//! The numbers of a command line, each with its range, and what each is where it is not given.

use crate::help;
use tw_options::NumberOption;

/// How many processes there may be.
pub(crate) const MOST_PROCESSES: u64 = 1_000_000;
/// How many jobs each process may begin with.
pub(crate) const MOST_POPULATION: u64 = 1_000_000;
/// The longest delay that may be asked for, in ticks.
pub(crate) const MOST_DELAY: u64 = 1_000_000;
/// The share of all jobs.
pub(crate) const WHOLE: u64 = 1_000;
/// The greatest seed.
pub(crate) const MOST_SEED: u64 = 1_000_000_000;
/// The greatest stop, in ticks.
pub(crate) const MOST_STOP: u64 = 1_000_000_000;
/// How many workers there may be.
pub(crate) const MOST_WORKERS: u64 = 64;

pub(crate) const PROCESSES_IF_NONE: u64 = 1_024;

pub(crate) const POPULATION_IF_NONE: u64 = 16;

pub(crate) const LOOKAHEAD_IF_NONE: u64 = 1;

pub(crate) const LONGEST_IF_NONE: u64 = 100;

pub(crate) const REMOTE_IF_NONE: u64 = 1_000;

pub(crate) const SEED_IF_NONE: u64 = 1;

pub(crate) const WORKERS_IF_NONE: u64 = 4;

pub(crate) const PROCESSES: NumberOption = NumberOption {
    id: "processes",
    value_name: "COUNT",
    is_required: false,
    least: 1,
    most: MOST_PROCESSES,
    help: help::PROCESSES,
    long_help: help::PROCESSES,
};

pub(crate) const POPULATION: NumberOption = NumberOption {
    id: "population",
    value_name: "COUNT",
    is_required: false,
    least: 0,
    most: MOST_POPULATION,
    help: help::POPULATION,
    long_help: help::POPULATION,
};

pub(crate) const LOOKAHEAD: NumberOption = NumberOption {
    id: "lookahead",
    value_name: "TICKS",
    is_required: false,
    least: 1,
    most: MOST_DELAY,
    help: help::LOOKAHEAD,
    long_help: help::LOOKAHEAD,
};

pub(crate) const LONGEST: NumberOption = NumberOption {
    id: "longest",
    value_name: "TICKS",
    is_required: false,
    least: 1,
    most: MOST_DELAY,
    help: help::LONGEST,
    long_help: help::LONGEST,
};

pub(crate) const REMOTE: NumberOption = NumberOption {
    id: "remote",
    value_name: "SHARE",
    is_required: false,
    least: 0,
    most: WHOLE,
    help: help::REMOTE,
    long_help: help::REMOTE,
};

pub(crate) const SEED: NumberOption = NumberOption {
    id: "seed",
    value_name: "NUMBER",
    is_required: false,
    least: 0,
    most: MOST_SEED,
    help: help::SEED,
    long_help: help::SEED,
};

pub(crate) const STOP: NumberOption = NumberOption {
    id: "stop",
    value_name: "TICKS",
    is_required: true,
    least: 1,
    most: MOST_STOP,
    help: help::STOP,
    long_help: help::STOP,
};

pub(crate) const WORKERS: NumberOption = NumberOption {
    id: "workers",
    value_name: "COUNT",
    is_required: false,
    least: 1,
    most: MOST_WORKERS,
    help: help::WORKERS,
    long_help: help::WORKERS,
};
