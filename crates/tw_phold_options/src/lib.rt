//! The command line of the program `twarp-phold`: which run its words ask for, by whom, and with which numbers.
//!
//! It is parsed as `tw_options` parses that of `twarp`, whose number options, flags, faults and lemmas it takes: clap parses
//! the words, contracts see the command that clap is given as the `App` that `specs/App` writes out, and `specs/Says`
//! says which command line a match is.
//!
//! Proved: a command line is what clap matched, each number being the one given, in its range, or the default; it is
//! answered only where clap finds no fault; a fault is of a kind that the words give rise to, or want of memory;
//! `--version` asks for the version. Not proved: any text that is shown, of help, version or refusals.
#![tactic(auto)]

ghost use Rattle.std.specs.Prelude.{◌≡◌, [], IfErr, IfOk, IsErrAnd, map};
ghost use Rattle.clap.specs.Words.{subcommand_of};
ghost use Rattle.clap.specs.Faults.{fault_of};
ghost use Rattle.tw_options.specs.Fault.{AsksVersion, Explains, TellsVersion};
ghost use Rattle.tw_phold_options.specs.App.{phold_app};
ghost use Rattle.tw_phold_options.specs.Says.{Says};

mod command;
mod command_line;
mod help;
mod numbers;

use command::twarp_phold;
use command_line::command_line_of;
pub use command_line::{By, CommandLine};
use std::alloc::Global;
use std::convert::AsStr;
use tw_options::CommandLineFault;

/// What the words of a command line ask for; the first word is the program's name.
///
/// The error is `Help` where they ask for help or the version, `Bad` where the parser refuses
/// them, and `Memory` where memory is refused.
pub fn options<'a, S: AsStr>(alloc: Global, words: &'a [S]) -> Result<CommandLine, CommandLineFault>
    ensures says { IfOk result (Says (subcommand_of phold_app (map S.text words.entry.now))) }
    ensures taken { IfOk result (λ _. fault_of phold_app (map S.text words.entry.now) ≡ []) }
    ensures fault { IfErr result (Explains (fault_of phold_app (map S.text words.entry.now))) }
    ensures version { AsksVersion (map S.text words.entry.now) → IsErrAnd result TellsVersion }
{
    let matches = twarp_phold(alloc)?.try_get_matches_from(words)?;
    Ok(command_line_of(&matches))
}
