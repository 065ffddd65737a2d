//! What a command is called, and what its help says of it.

ghost use Rattle.std.specs.Prelude.{IfOk, ◌≡◌, false};
ghost use Rattle.clap.specs.Words.{app_of, new_app};
ghost use Rattle.clap.specs.declared.builder.command.Command.TheViews.{out-Command as fields_of};
ghost use Rattle.tw_options.specs.App.{program_app, with_subcommands};

use crate::subcommand::Subcommand;
use clap::Command;
use std::alloc::{AllocError, Global};

/// The name of a command, and the words of its help.
#[derive(Clone, Copy)]
pub struct Page {
    /// The word that asks for it.
    pub name: &'static str,
    /// What it does, in a line.
    pub about: &'static str,
    /// What it does, at length.
    pub long_about: &'static str,
    /// The exit statuses.
    pub statuses: &'static str,
}

impl Page {
    /// The command, for the parser, without options.
    pub fn command<'a>(self, alloc: Global) -> Command<'a>
        ensures app { app_of result ≡ new_app self.name.now }
        ensures local { (fields_of result).has_globals ≡ false }
    {
        Command::new(alloc, self.name)
            .about(self.about)
            .long_about(self.long_about)
            .after_help(self.statuses)
    }

    /// The command of a whole program, which asks for a subcommand and tells its version.
    pub fn program<'a>(self, alloc: Global, version: &'static str) -> Command<'a>
        ensures app { app_of result ≡ program_app self.name.now }
        ensures local { (fields_of result).has_globals ≡ false }
    {
        self.command(alloc)
            .version(version)
            .subcommand_required(true)
    }

    /// The command of a whole program with these subcommands.
    pub fn program_with<'a>(
        self,
        alloc: Global,
        version: &'static str,
        subcommands: &[Subcommand],
    ) -> Result<Command<'a>, AllocError>
        ensures { IfOk result (λ program. app_of program ≡ with_subcommands (program_app self.name.now) subcommands.now) }
    {
        let mut program = self.program(alloc, version);
        for subcommand in subcommands {
            program = subcommand.add_to(program, alloc)?;
        }
        Ok(program)
    }
}
