//! The program `twarp-phold`: runs PHOLD, the usual workload of parallel simulators, on one thread or in several.
//!
//! `main` reads the command line, opens standard output, and ends with an exit status: 0 where it is done, 1 where an
//! option is refused for another, 2 where it stopped, 3 where the line is no command line. Proved: what `perform` writes
//! is the report of the sequential run of the PHOLD that the command line asks for, for any sink and any number of
//! threads, and each way in which it ends has its exit status; what the words of the command line ask for is `tw_phold_options`'s. Not proved: where
//! status 3 comes, and what stands on standard error.
#![tactic(auto)]

mod cause;
mod ended;
mod figures;
mod meter;
mod perform;
mod report;
mod tally;

ghost use Rattle.std.specs.Prelude.{◌≡◌, ◌≤◌};
ghost use Rattle.tw_process.specs.declared.limits.TheConstants.{LATEST};
ghost use Rattle.std.specs.Process.{exit_status};
ghost use Rattle.twarp_phold.specs.Due.{status_number};

use cause::{Cause, Status};
use meter::Meter;
use perform::perform;
use std::env;
use std::io::{self, BufWriter, Write};
use std::process::ExitCode;
use std::sync::Wait;
use std::thread::Threads;
use std::time::Clock;
use tw_device::OverWrite;
use tw_options::CommandLineFault;
use tw_phold_options::{CommandLine, options};

/// The exit status of words that are no command line.
const BAD_LINE: u8 = 3;

fn main(rt: HostRuntime) -> ExitCode {
    let words: Vec<String> = match env::args(&rt) {
        Ok(words) => match words.collect(rt.alloc()) {
            Ok(words) => words,
            Err(_) => return stop_with(&rt, Cause::Memory),
        },
        Err(error) if error.kind() == io::ErrorKind::OutOfMemory => {
            return stop_with(&rt, Cause::Memory);
        }
        Err(_) => {
            let _ = eprintln!(rt; "error: a word of the command line is no text in UTF-8");
            return ExitCode::from(BAD_LINE);
        }
    };
    match options(rt.alloc(), words.as_slice()) {
        Ok(line) => run(&rt, line),
        Err(CommandLineFault::Help(text)) => match text.print(&rt) {
            Ok(()) => ExitCode::SUCCESS,
            Err(error) => stop_at(&rt, error),
        },
        Err(CommandLineFault::Bad(text)) => {
            let _ = text.print(&rt);
            ExitCode::from(BAD_LINE)
        }
        Err(CommandLineFault::Memory) => stop_with(&rt, Cause::Memory),
    }
}

/// Does what the line asks.
fn run<R: Print + Eprint + AllocGlobal + Threads + Wait + Sync + Clock>(
    rt: &R,
    line: CommandLine,
) -> ExitCode
    requires { line.stop ≤ LATEST }
{
    let (ended, failure) = answer(rt, line);
    exit_with(rt, ended, failure)
}

/// The exit status for how the program ended; where it stopped, says the cause on standard error, and how standard output
/// failed, if it did.
fn exit_with(rt: &impl Eprint, ended: Result<Status, Cause>, failure: Option<io::Error>) -> ExitCode
    ensures { exit_status result ≡ status_number ended }
{
    match (ended, failure) {
        (Ok(Status::Done), _) => ExitCode::SUCCESS,
        (Ok(Status::Refused), _) => ExitCode::from(1),
        (Err(_), Some(error)) => stop_at(rt, error),
        (Err(cause), None) => stop_with(rt, cause),
    }
}

/// Writes the answer to standard output, and what was counted to standard error, where that is asked for. Where standard
/// output failed it is told beside that.
fn answer<R: Print + Eprint + AllocGlobal + Threads + Wait + Sync + Clock>(
    rt: &R,
    line: CommandLine,
) -> (Result<Status, Cause>, Option<io::Error>)
    requires { line.stop ≤ LATEST }
{
    let alloc = rt.alloc();
    let mut sink = OverWrite::new(match BufWriter::new(alloc, io::writer(rt)) {
        Ok(writer) => writer,
        Err(_) => return (Err(Cause::Memory), None),
    });
    let meter = Meter::new(rt);
    match perform(rt, alloc, line, &mut sink, &meter) {
        Ok(status) => match sink.into_writer().flush() {
            Ok(()) => {
                if line.stats && status == Status::Done {
                    let _ = eprint!(rt; "{}", meter.figures());
                }
                (Ok(status), None)
            }
            Err(error) => (Err(Cause::Device), Some(error)),
        },
        Err(cause) => (Err(cause), sink.failure()),
    }
}

/// Says that standard output failed, and how, on standard error; but nothing where it is a pipe that nobody reads any
/// more, as behind `| head`.
fn stop_at(rt: &impl Eprint, error: io::Error) -> ExitCode
    ensures { exit_status result ≡ 2 }
{
    if error.kind() != io::ErrorKind::BrokenPipe {
        let _ = eprintln!(rt; "{}: standard output: {error}", Cause::Device);
    }
    ExitCode::from(2)
}

/// Says the cause on standard error.
fn stop_with(rt: &impl Eprint, cause: Cause) -> ExitCode
    ensures { exit_status result ≡ 2 }
{
    let _ = rt.eprintln(cause);
    ExitCode::from(2)
}
