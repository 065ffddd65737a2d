//! The program `twarp`: simulates path-vector routing, event by event.
//!
//! `main` reads the command line, opens standard input and output, and ends with an exit status: 0
//! where it is done, 1 where it refused its input, 2 where it stopped, 3 where the line is no command
//! line. Proved: what `perform` writes is what is due for the command line, for any source and sink,
//! and each way in which a command ends has its exit status. Not proved: where status 3 comes, and
//! what stands on standard error, also while a run goes on; `checks/programs.py` tests both.
#![tactic(auto)]

mod advice;
mod clock;
mod counts;
mod device;
mod figures;
mod meter;
mod observer;
mod perform;
mod tips;

ghost use Rattle.std.specs.Prelude.{◌≡◌, ◌≤◌};
ghost use Rattle.std.specs.Process.{exit_status};
ghost use Rattle.twarp.specs.Due.{IsRunnable, status_number};

use advice::{advice_on, advice_on_router};
use device::Device;
use meter::{Meter, Shown};
use observer::Observer;
use perform::perform;
use std::env;
use std::io::{self, BufWriter, IsTerminal, Write};
use std::process::ExitCode;
use std::sync::Wait;
use std::thread::Threads;
use std::time::{Clock, CpuClock};
use tips::{AT_A_TERMINAL, tip_for};
use tw_commands::{Cause, Script, Status};
use tw_device::{OverRead, OverWrite};
use tw_instance::Case;
use tw_options::{Asked, CommandLine, CommandLineFault, options};

/// The exit status of words that are no command line.
const BAD_LINE: u8 = 3;

fn main(rt: HostRuntime) -> ExitCode {
    let words: Vec<String> = match env::args(&rt) {
        Ok(words) => match words.collect(rt.alloc()) {
            Ok(words) => words,
            Err(_) => return stop_with(&rt, Cause::Memory),
        },
        Err(error) if error.kind() == io::ErrorKind::OutOfMemory => {
            return stop_with(&rt, Cause::Memory);
        }
        Err(_) => {
            let _ = eprintln!(rt; "error: a word of the command line is no text in UTF-8");
            return ExitCode::from(BAD_LINE);
        }
    };
    match options(rt.alloc(), words.as_slice()) {
        Ok(line) => {
            if rt.stdin().is_terminal() {
                let _ = rt.eprintln(AT_A_TERMINAL);
            }
            run(&rt, line, Shown::of(line, rt.stderr().is_terminal()))
        }
        Err(CommandLineFault::Help(text)) => match text.print(&rt) {
            Ok(()) => ExitCode::SUCCESS,
            Err(error) => stop_at(&rt, Device::Output(error)),
        },
        Err(CommandLineFault::Bad(text)) => {
            let _ = text.print(&rt);
            if let Some(tip) = tip_for(words.as_slice()) {
                let _ = rt.eprintln(tip);
            }
            ExitCode::from(BAD_LINE)
        }
        Err(CommandLineFault::Memory) => stop_with(&rt, Cause::Memory),
    }
}

/// Does what the line asks, from standard input to standard output, and shows how far it is.
fn run<R: Input + Print + Eprint + AllocGlobal + Threads + Wait + Sync + Clock + CpuClock>(
    rt: &R,
    line: CommandLine,
    shown: Shown,
) -> ExitCode
    requires { IsRunnable line }
    ensures { exit_status result ≤ 2 }
{
    let (ended, failed) = answer(rt, line, shown);
    exit_with(rt, ended, failed)
}

/// The exit status for how a command ended; where it stopped, says the cause on standard error, and which device failed,
/// if one did.
fn exit_with(rt: &impl Eprint, ended: Result<Status, Cause>, failed: Option<Device>) -> ExitCode
    ensures { exit_status result ≡ status_number ended }
{
    match (ended, failed) {
        (Ok(Status::Done), _) => ExitCode::SUCCESS,
        (Ok(Status::Refused), _) => ExitCode::from(1),
        (Err(_), Some(device)) => stop_at(rt, device),
        (Err(cause), None) => stop_with(rt, cause),
    }
}

/// Reads standard input, and writes the answer to standard output. Where a device failed it is told beside that.
fn answer<R: Input + Print + Eprint + AllocGlobal + Threads + Wait + Sync + Clock + CpuClock>(
    rt: &R,
    line: CommandLine,
    shown: Shown,
) -> (Result<Status, Cause>, Option<Device>)
    requires { IsRunnable line }
{
    let alloc = rt.alloc();
    let Ok(observer) = Observer::new(alloc, rt, asks_stats(line), Meter::new(rt, shown)) else {
        return (Err(Cause::Memory), None);
    };
    let mut source = OverRead::new(rt.reader());
    let mut sink = OverWrite::new(match BufWriter::new(alloc, io::writer(rt)) {
        Ok(writer) => writer,
        Err(_) => return (Err(Cause::Memory), None),
    });
    match perform(rt, alloc, line, &mut source, &mut sink, &observer) {
        Ok(status) => match sink.into_writer().flush() {
            Ok(()) => {
                if let Some(text) = source.refused() {
                    advise(rt, line, text);
                }
                if status == Status::Done {
                    tell(rt, &observer);
                }
                (Ok(status), None)
            }
            Err(error) => (Err(Cause::Device), Some(Device::Output(error))),
        },
        Err(cause) => {
            let input = source.failure().map(Device::Input);
            let output = sink.failure().map(Device::Output);
            (Err(cause), input.or(output))
        }
    }
}

/// Whether a command line asks for what is counted.
fn asks_stats(line: CommandLine) -> bool {
    match line {
        CommandLine::Seq(report) | CommandLine::Run(Asked { report, .. }) => report.stats,
        _ => false,
    }
}

/// Tells what was counted of a run, on standard error, where that was asked for.
fn tell<R: Eprint + Clock>(rt: &R, observer: &Observer<'_, R>) {
    if let Some(figures) = observer.figures() {
        let _ = rt.eprint(figures);
    }
}

/// Tells a person, on standard error, the line for which a text is refused, and what was expected there; or which routers
/// there are.
fn advise<R: Eprint + AllocGlobal>(rt: &R, line: CommandLine, text: &[u8]) {
    let advice = match line {
        CommandLine::Trail(trail) => advice_on_router(rt.alloc(), text, trail.router),
        CommandLine::Replay(_) => advice_on::<Script>(rt.alloc(), text),
        _ => advice_on::<Case>(rt.alloc(), text),
    };
    if let Some(advice) = advice {
        let _ = rt.eprintln(advice);
    }
}

/// Says which device failed, and how, on standard error; but nothing where standard output is a pipe that nobody reads any
/// more, as behind `| head`.
fn stop_at(rt: &impl Eprint, device: Device) -> ExitCode
    ensures { exit_status result ≡ 2 }
{
    if !device.is_closed_pipe() {
        let _ = eprintln!(rt; "{}: {device}", Cause::Device);
    }
    ExitCode::from(2)
}

/// Says the cause on standard error.
fn stop_with(rt: &impl Eprint, cause: Cause) -> ExitCode
    ensures { exit_status result ≡ 2 }
{
    let _ = rt.eprintln(cause);
    ExitCode::from(2)
}
