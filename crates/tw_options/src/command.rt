//! The command line, as clap is told of it.

ghost use Rattle.std.specs.Prelude.{IfOk, ◌≡◌};
ghost use Rattle.clap.specs.Words.{app_of};
ghost use Rattle.tw_options.specs.App.{check_app, replay_app, run_app, seq_app, subcommand_app, trail_app, twarp_app, upgrade_app};

use crate::flag::{BLOCKS, LAZY, LOG, PROGRESS, ROTATE, STATS};
use crate::help;
use crate::number::{BATCH, EVERY, KEEP, ROUTER, STOP, THREADS, WORKERS};
use crate::subcommand::{CommandOption, Subcommand};
use clap::Command;
use std::alloc::{AllocError, Global};

/// The whole command.
pub(crate) fn twarp<'a>(alloc: Global) -> Result<Command<'a>, AllocError>
    ensures { IfOk result (λ command. app_of command ≡ twarp_app) }
{
    let subcommands = [check(), seq(), run(), trail(), replay(), upgrade()];
    help::TWARP.program_with(alloc, help::VERSION, &subcommands)
}

fn check() -> Subcommand
    ensures { subcommand_app result ≡ check_app }
{
    Subcommand {
        page: help::CHECK,
        options: &[],
    }
}

fn seq() -> Subcommand
    ensures { subcommand_app result ≡ seq_app }
{
    static OPTIONS: [CommandOption; 5] = [
        CommandOption::Number(STOP),
        CommandOption::Number(EVERY),
        CommandOption::Flag(LOG),
        CommandOption::Flag(PROGRESS),
        CommandOption::Flag(STATS),
    ];
    Subcommand {
        page: help::SEQ,
        options: &OPTIONS,
    }
}

fn run() -> Subcommand
    ensures { subcommand_app result ≡ run_app }
{
    static OPTIONS: [CommandOption; 10] = [
        CommandOption::Number(STOP),
        CommandOption::Number(EVERY),
        CommandOption::Flag(LOG),
        CommandOption::Number(THREADS),
        CommandOption::Number(BATCH),
        CommandOption::Flag(LAZY),
        CommandOption::Flag(BLOCKS),
        CommandOption::Flag(ROTATE),
        CommandOption::Flag(PROGRESS),
        CommandOption::Flag(STATS),
    ];
    Subcommand {
        page: help::RUN,
        options: &OPTIONS,
    }
}

fn trail() -> Subcommand
    ensures { subcommand_app result ≡ trail_app }
{
    static OPTIONS: [CommandOption; 3] = [
        CommandOption::Number(ROUTER),
        CommandOption::Number(STOP),
        CommandOption::Number(KEEP),
    ];
    Subcommand {
        page: help::TRAIL,
        options: &OPTIONS,
    }
}

fn replay() -> Subcommand
    ensures { subcommand_app result ≡ replay_app }
{
    static OPTIONS: [CommandOption; 3] = [
        CommandOption::Number(STOP),
        CommandOption::Number(WORKERS),
        CommandOption::Flag(LAZY),
    ];
    Subcommand {
        page: help::REPLAY,
        options: &OPTIONS,
    }
}

fn upgrade() -> Subcommand
    ensures { subcommand_app result ≡ upgrade_app }
{
    Subcommand {
        page: help::UPGRADE,
        options: &[],
    }
}
