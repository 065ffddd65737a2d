//! The commands of a program, each with its options.

ghost use Rattle.std.specs.Prelude.{IfOk, ◌≡◌, false};
ghost use Rattle.clap.specs.Words.{app_of, rule_of, with_subcommand};
ghost use Rattle.clap.specs.declared.builder.command.Command.TheViews.{out-Command as fields_of};
ghost use Rattle.tw_options.specs.App.{rule_of_option, subcommand_app};

use crate::flag::Flag;
use crate::number::NumberOption;
use crate::page::Page;
use clap::{Arg, Command};
use std::alloc::{AllocError, Global};

/// An option of a command.
#[derive(Clone, Copy)]
pub enum CommandOption {
    /// It takes a number.
    Number(NumberOption),
    /// It is set, or left out.
    Flag(Flag),
}

/// A command of a program, and its options in the order of the help.
#[derive(Clone, Copy)]
pub struct Subcommand {
    /// What it is called, and what its help says.
    pub page: Page,
    /// What may be told behind it.
    pub options: &'static [CommandOption],
}

impl CommandOption {
    fn arg<'a>(self, alloc: Global) -> Arg<'a>
        ensures rule { rule_of result ≡ rule_of_option self }
        ensures local { result.global ≡ false }
    {
        match self {
            CommandOption::Number(number) => number.arg(alloc),
            CommandOption::Flag(flag) => flag.arg(alloc),
        }
    }
}

impl Subcommand {
    /// The program's command with this one behind its other ones.
    pub(crate) fn add_to<'a>(
        &self,
        program: Command<'a>,
        alloc: Global,
    ) -> Result<Command<'a>, AllocError>
        ensures { IfOk result (λ added. app_of added ≡ with_subcommand (app_of program.entry) (subcommand_app self.now).top) }
    {
        program.subcommand(self.command(alloc)?)
    }

    fn command<'a>(&self, alloc: Global) -> Result<Command<'a>, AllocError>
        ensures app { IfOk result (λ command. app_of command ≡ subcommand_app self.now) }
        ensures local { IfOk result (λ command. (fields_of command).has_globals ≡ false) }
    {
        let mut command = self.page.command(alloc);
        for option in self.options {
            command = command.arg(option.arg(alloc))?;
        }
        Ok(command)
    }
}
