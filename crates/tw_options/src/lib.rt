//! The command line of the program `twarp`: which command its words ask for, with which numbers.
//!
//! clap parses the words; the answer is a `CommandLine`, which is plain data, or a
//! `CommandLineFault`. Contracts see the words as a list of texts, and the command that clap is
//! given as the `App` that `specs/App` writes out; `specs/Says` says which command line a match is.
//! What the other programs share stands here too: `Page`, `Subcommand`, `CommandOption`, `NumberOption`, `Flag`, and the lemmas of `proofs`.
//!
//! Proved: a command line is what clap matched, each of its numbers being the one given, in its
//! range; it is answered only where clap finds no fault; a fault is of a kind that the words give
//! rise to, or want of memory; `--version` asks for the version. Not proved: any text that is
//! shown, of help, version or refusals.
#![tactic(auto)]

ghost use Rattle.std.specs.Prelude.{◌≡◌, [], IfErr, IfOk, IsErrAnd, map};
ghost use Rattle.clap.specs.Words.{subcommand_of};
ghost use Rattle.clap.specs.Faults.{fault_of};
ghost use Rattle.tw_options.specs.App.{twarp_app};
ghost use Rattle.tw_options.specs.Fault.{AsksVersion, Explains, TellsVersion};
ghost use Rattle.tw_options.specs.Says.{Says};

mod command;
mod command_line;
mod fault;
mod flag;
mod help;
mod number;
mod page;
mod subcommand;

use command::twarp;
use command_line::command_line_of;
pub use command_line::{Asked, CommandLine, Machine, Report, Trail};
pub use fault::CommandLineFault;
pub use flag::Flag;
pub use number::NumberOption;
pub use page::Page;
use std::alloc::Global;
use std::convert::AsStr;
pub use subcommand::{CommandOption, Subcommand};

/// What the words of a command line ask for; the first word is the program's name.
///
/// The error is `Help` where they ask for help or the version, `Bad` where the parser refuses
/// them, and `Memory` where memory is refused.
pub fn options<'a, S: AsStr>(alloc: Global, words: &'a [S]) -> Result<CommandLine, CommandLineFault>
    ensures says { IfOk result (Says (subcommand_of twarp_app (map S.text words.entry.now))) }
    ensures taken { IfOk result (λ _. fault_of twarp_app (map S.text words.entry.now) ≡ []) }
    ensures fault { IfErr result (Explains (fault_of twarp_app (map S.text words.entry.now))) }
    ensures version { AsksVersion (map S.text words.entry.now) → IsErrAnd result TellsVersion }
{
    let matches = twarp(alloc)?.try_get_matches_from(words)?;
    Ok(command_line_of(&matches))
}
