//! The command line, as clap is told of it.

ghost use Rattle.std.specs.Prelude.{IfOk, ◌≡◌};
ghost use Rattle.clap.specs.Words.{app_of};
ghost use Rattle.tw_options.specs.App.{subcommand_app};
ghost use Rattle.tw_phold_options.specs.App.{phold_app, run_app, seq_app};

use crate::help;
use crate::numbers::{LONGEST, LOOKAHEAD, POPULATION, PROCESSES, REMOTE, SEED, STOP, WORKERS};
use clap::Command;
use std::alloc::{AllocError, Global};
use tw_options::{CommandOption, Flag, Subcommand};

pub(crate) const ROUNDS: Flag = Flag {
    id: "rounds",
    help: help::ROUNDS,
    long_help: help::ROUNDS,
};

pub(crate) const STATS: Flag = Flag {
    id: "stats",
    help: help::STATS,
    long_help: help::STATS,
};

/// The whole command.
pub(crate) fn twarp_phold<'a>(alloc: Global) -> Result<Command<'a>, AllocError>
    ensures { IfOk result (λ command. app_of command ≡ phold_app) }
{
    let subcommands = [seq(), run()];
    // The file of the program has another name before it is installed.
    help::PHOLD
        .program_with(alloc, help::VERSION, &subcommands)?
        .bin_name(help::PHOLD.name)
}

fn seq() -> Subcommand
    ensures { subcommand_app result ≡ seq_app }
{
    static OPTIONS: [CommandOption; 8] = [
        CommandOption::Number(PROCESSES),
        CommandOption::Number(POPULATION),
        CommandOption::Number(LOOKAHEAD),
        CommandOption::Number(LONGEST),
        CommandOption::Number(REMOTE),
        CommandOption::Number(SEED),
        CommandOption::Number(STOP),
        CommandOption::Flag(STATS),
    ];
    Subcommand {
        page: help::SEQ,
        options: &OPTIONS,
    }
}

fn run() -> Subcommand
    ensures { subcommand_app result ≡ run_app }
{
    static OPTIONS: [CommandOption; 10] = [
        CommandOption::Number(PROCESSES),
        CommandOption::Number(POPULATION),
        CommandOption::Number(LOOKAHEAD),
        CommandOption::Number(LONGEST),
        CommandOption::Number(REMOTE),
        CommandOption::Number(SEED),
        CommandOption::Number(STOP),
        CommandOption::Number(WORKERS),
        CommandOption::Flag(ROUNDS),
        CommandOption::Flag(STATS),
    ];
    Subcommand {
        page: help::RUN,
        options: &OPTIONS,
    }
}
