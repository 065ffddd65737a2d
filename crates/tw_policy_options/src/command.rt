//! The command line, as clap is told of it.

ghost use Rattle.std.specs.Prelude.{IfOk, ◌≡◌};
ghost use Rattle.clap.specs.Words.{app_of};
ghost use Rattle.tw_options.specs.App.{subcommand_app};
ghost use Rattle.tw_policy_options.specs.App.{policy_app, safe_app, stable_app};

use crate::help;
use crate::splits::SPLITS;
use clap::Command;
use std::alloc::{AllocError, Global};
use tw_options::{CommandOption, Subcommand};

/// The whole command.
pub(crate) fn twarp_policy<'a>(alloc: Global) -> Result<Command<'a>, AllocError>
    ensures { IfOk result (λ command. app_of command ≡ policy_app) }
{
    let subcommands = [safe(), stable()];
    // The file of the program has another name before it is installed.
    help::POLICY
        .program_with(alloc, help::VERSION, &subcommands)?
        .bin_name(help::POLICY.name)
}

fn safe() -> Subcommand
    ensures { subcommand_app result ≡ safe_app }
{
    Subcommand {
        page: help::SAFE,
        options: &[],
    }
}

fn stable() -> Subcommand
    ensures { subcommand_app result ≡ stable_app }
{
    static OPTIONS: [CommandOption; 1] = [CommandOption::Number(SPLITS)];
    Subcommand {
        page: help::STABLE,
        options: &OPTIONS,
    }
}
