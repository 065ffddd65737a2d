//! Command lines, and what they ask for. Those that are refused are in `checks/program_rows.py`.

use crate::reports::TO_20;
use std::alloc::Global;
use tw_options::{Asked, CommandLine, CommandLineFault, Machine, Report, Trail, options};
use tw_sim::Cancel::{Aggressive, Lazy};

/// The words of a command line, and what they ask for.
struct Row {
    text: &'static str,
    line: CommandLine,
}

/// What the words of a text ask for.
fn asked(alloc: Global, text: &str) -> Result<CommandLine, CommandLineFault> {
    let words: Vec<&str> = text.split_whitespace().collect(alloc)?;
    options(alloc, words.as_slice())
}

/// Whether the words ask for just this; they are read once more where memory was refused.
fn is_asked_for(alloc: Global, row: &Row) -> bool {
    let asked = match asked(alloc, row.text) {
        Err(_) => asked(alloc, row.text),
        asked => asked,
    };
    matches!(asked, Ok(line) if line == row.line)
}

/// A trail has the greatest numbers that it may be given; a run by one thread is logged and has checkpoints where it is
/// asked to, and not else.
const BY_NUMBERS: [Row; 3] = [
    Row {
        text: "twarp trail --router 1023 --stop 1000000000 --keep 0",
        line: CommandLine::Trail(Trail {
            router: 1023,
            stop: 1_000_000_000,
            keep: 0,
        }),
    },
    Row {
        text: "twarp seq --log --stop 20",
        line: CommandLine::Seq(Report { log: true, ..TO_20 }),
    },
    Row {
        text: "twarp seq --progress --stop 20 --stats --every 2",
        line: CommandLine::Seq(Report {
            every: Some(2),
            progress: true,
            stats: true,
            ..TO_20
        }),
    },
];

#[test]
fn the_numbers_given_are_those_asked_for(rt: HostRuntime) {
    for row in &BY_NUMBERS {
        assert!(rt; is_asked_for(rt.alloc(), row), "{}", row.text);
    }
}

/// A replay has one worker where no number is given, and takes back at once where it is not to be lazy.
const REPLAYS: [Row; 4] = [
    Row {
        text: "twarp replay --stop 20",
        line: CommandLine::Replay(Machine {
            stop: 20,
            workers: 1,
            cancel: Aggressive,
        }),
    },
    Row {
        text: "twarp replay --workers 3 --stop 1",
        line: CommandLine::Replay(Machine {
            stop: 1,
            workers: 3,
            cancel: Aggressive,
        }),
    },
    Row {
        text: "twarp replay --lazy --stop 20",
        line: CommandLine::Replay(Machine {
            stop: 20,
            workers: 1,
            cancel: Lazy,
        }),
    },
    Row {
        text: "twarp replay --stop 1000000000 --workers 64",
        line: CommandLine::Replay(Machine {
            stop: 1_000_000_000,
            workers: 64,
            cancel: Aggressive,
        }),
    },
];

#[test]
fn a_replay_has_one_worker_where_no_number_is_given(rt: HostRuntime) {
    for row in &REPLAYS {
        assert!(rt; is_asked_for(rt.alloc(), row), "{}", row.text);
    }
}

/// A run to a stop is by as many workers as the program chooses, with a batch of sixty-four, and neither log nor
/// checkpoints, takes back at once, and deals its routers out in turn, for good; and it has all that it may be given.
const RUNS: [Row; 2] = [
    Row {
        text: "twarp run --stop 20",
        line: CommandLine::Run(Asked {
            report: TO_20,
            workers: None,
            batch: 64,
            cancel: Aggressive,
            blocks: false,
            rotate: false,
        }),
    },
    Row {
        text: "twarp run --log --lazy --blocks --rotate --progress --stats --batch 4096 --workers 64 \
               --every 2 --stop 1000000000",
        line: CommandLine::Run(Asked {
            report: Report {
                stop: 1_000_000_000,
                every: Some(2),
                log: true,
                progress: true,
                stats: true,
            },
            workers: Some(64),
            batch: 4096,
            cancel: Lazy,
            blocks: true,
            rotate: true,
        }),
    },
];

#[test]
fn a_run_has_four_workers_and_a_batch_of_sixty_four_where_none_are_given(rt: HostRuntime) {
    for row in &RUNS {
        assert!(rt; is_asked_for(rt.alloc(), row), "{}", row.text);
    }
}
