//! How many splits may be told.

use crate::help;
use tw_options::NumberOption;

/// How many splits are made at most where none are told.
pub(crate) const DEFAULT_SPLITS: u64 = 100_000;
/// How many splits may be told.
pub(crate) const MOST_SPLITS: u64 = 1_000_000_000;

pub(crate) const SPLITS: NumberOption = NumberOption {
    id: "splits",
    value_name: "COUNT",
    is_required: false,
    least: 0,
    most: MOST_SPLITS,
    help: help::SPLITS,
    long_help: help::SPLITS,
};
