//! The program `twarp-policy`: judges a case of path-vector routing whatever the delays of its links.
//!
//! `main` reads the command line, opens standard input and output, and ends with an exit status: 0
//! where it is done, 1 where it refused its input, 2 where it stopped, 3 where the line is no command
//! line. Proved: what `perform` writes is what is due for the command line, for any source and sink,
//! and each way in which a command ends has its exit status; what the words of the command line ask
//! for is `tw_policy_options`'s. Not proved: where status 3 comes, and what stands on standard error;
//! `checks/policy.py` tests both.
#![tactic(auto)]

mod meter;
mod perform;

ghost use Rattle.std.specs.Prelude.{◌≡◌};
ghost use Rattle.std.specs.Process.{exit_status};
ghost use Rattle.twarp_policy.specs.Due.{status_number};

use meter::Meter;
use perform::perform;
use std::env;
use std::io::{self, BufWriter, IsTerminal, Write};
use std::process::ExitCode;
use std::time::Clock;
use tw_commands::{Cause, Status};
use tw_device::{OverRead, OverWrite};
use tw_options::CommandLineFault;
use tw_policy_options::{CommandLine, options};

/// The exit status of words that are no command line.
const BAD_LINE: u8 = 3;

/// A tip where a word of the command line seems to name the input, which no word does.
const TIP: &str = "tip: the case comes from standard input, as in: twarp-policy safe < case.spp";

/// A device of the program that failed, with what the system says of it.
#[derive(Clone, Copy)]
enum Device {
    Input(io::Error),
    Output(io::Error),
}

fn main(rt: HostRuntime) -> ExitCode {
    let words: Vec<String> = match env::args(&rt) {
        Ok(words) => match words.collect(rt.alloc()) {
            Ok(words) => words,
            Err(_) => return stop_with(&rt, Cause::Memory),
        },
        Err(error) if error.kind() == io::ErrorKind::OutOfMemory => {
            return stop_with(&rt, Cause::Memory);
        }
        Err(_) => {
            let _ = eprintln!(rt; "error: a word of the command line is no text in UTF-8");
            return ExitCode::from(BAD_LINE);
        }
    };
    match options(rt.alloc(), words.as_slice()) {
        Ok(line) => run(&rt, line),
        Err(CommandLineFault::Help(text)) => match text.print(&rt) {
            Ok(()) => ExitCode::SUCCESS,
            Err(error) => stop_at(&rt, Device::Output(error)),
        },
        Err(CommandLineFault::Bad(text)) => {
            let _ = text.print(&rt);
            if names_a_file(words.as_slice()) {
                let _ = rt.eprintln(TIP);
            }
            ExitCode::from(BAD_LINE)
        }
        Err(CommandLineFault::Memory) => stop_with(&rt, Cause::Memory),
    }
}

/// Whether a word behind the program's name looks like the name of a file.
fn names_a_file(words: &[String]) -> bool {
    let mut words = words.iter().skip(1);
    words.any(|word| word.contains('.') || word.contains('/'))
}

/// Judges the case on standard input.
fn run(rt: &HostRuntime, line: CommandLine) -> ExitCode {
    if rt.stdin().is_terminal() {
        let _ = eprintln!(rt;
            "twarp-policy reads from standard input, here a terminal: type a case and end it by Ctrl-D, or give a file by < FILE"
        );
    }
    let (ended, failed) = answer(rt, line, rt.stderr().is_terminal());
    exit_with(rt, ended, failed)
}

/// The exit status for how a command ended; where it stopped, says the cause on standard error, and which device failed,
/// if one did.
fn exit_with(rt: &impl Eprint, ended: Result<Status, Cause>, failed: Option<Device>) -> ExitCode
    ensures { exit_status result ≡ status_number ended }
{
    match (ended, failed) {
        (Ok(Status::Done), _) => ExitCode::SUCCESS,
        (Ok(Status::Refused), _) => ExitCode::from(1),
        (Err(_), Some(device)) => stop_at(rt, device),
        (Err(cause), None) => stop_with(rt, cause),
    }
}

/// Reads standard input, and writes the answer to standard output. Where a device failed it is told beside that.
fn answer<R: Input + Print + Eprint + AllocGlobal + Clock>(
    rt: &R,
    line: CommandLine,
    is_watched: bool,
) -> (Result<Status, Cause>, Option<Device>) {
    let alloc = rt.alloc();
    let mut source = OverRead::new(rt.reader());
    let mut sink = OverWrite::new(match BufWriter::new(alloc, io::writer(rt)) {
        Ok(writer) => writer,
        Err(_) => return (Err(Cause::Memory), None),
    });
    let meter = Meter::new(rt, is_watched, line);
    match perform(alloc, line, &mut source, &mut sink, &meter) {
        Ok(status) => match sink.into_writer().flush() {
            Ok(()) => (Ok(status), None),
            Err(error) => (Err(Cause::Device), Some(Device::Output(error))),
        },
        Err(cause) => {
            let input = source.failure().map(Device::Input);
            let output = sink.failure().map(Device::Output);
            (Err(cause), input.or(output))
        }
    }
}

/// Says which device failed, and how, on standard error; but nothing where standard output is a pipe that nobody reads any
/// more, as behind `| head`.
fn stop_at(rt: &impl Eprint, device: Device) -> ExitCode
    ensures { exit_status result ≡ 2 }
{
    match device {
        Device::Input(error) => {
            let _ = eprintln!(rt; "{}: standard input: {error}", Cause::Device);
        }
        Device::Output(error) if error.kind() == io::ErrorKind::BrokenPipe => {}
        Device::Output(error) => {
            let _ = eprintln!(rt; "{}: standard output: {error}", Cause::Device);
        }
    }
    ExitCode::from(2)
}

/// Says the cause on standard error.
fn stop_with(rt: &impl Eprint, cause: Cause) -> ExitCode
    ensures { exit_status result ≡ 2 }
{
    let _ = rt.eprintln(cause);
    ExitCode::from(2)
}
