//! Reports that rows ask for.

use tw_options::Report;

/// To stop 20, with neither log nor checkpoints, and nothing told beside it.
pub const TO_20: Report = Report {
    stop: 20,
    every: None,
    log: false,
    progress: false,
    stats: false,
};
