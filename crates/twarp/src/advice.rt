//! What a person is told of a text that is refused: the line, and what was expected there. It stands on standard error,
//! beside the answer on standard output. No promise rests on it.

use std::alloc::Global;
use std::fmt::{self, Display, Formatter};
use tw_commands::Input;
use tw_model::{OrMemory, Rule};
use tw_text::{LineFault, TextFault, read_case};

/// How many bytes of a line are shown.
const SHOWN: usize = 80;

/// Why an input is refused, as a person is told it.
#[derive(Drop)]
pub(crate) enum Advice<'a> {
    /// A line has a fault. It stands here without its line end; `None` where the text ends before it.
    Line {
        number: usize,
        line: Option<&'a [u8]>,
        fault: LineFault,
    },
    /// A case has no such router. It has so many.
    Router {
        router: u32,
        routers: u32,
    },
}

/// Why a text is no input of this kind. `None` where it is one, and where memory was refused to read it once more.
pub(crate) fn advice_on<I: Input>(alloc: Global, text: &[u8]) -> Option<Advice<'_>> {
    match I::read(alloc, text) {
        Err(OrMemory::Fault(fault)) => Some(at_line(text, fault)),
        _ => None,
    }
}

/// Why a text is no case, or why there is no such router in it. `None` where memory was refused to read it once more.
pub(crate) fn advice_on_router(alloc: Global, text: &[u8], router: u32) -> Option<Advice<'_>> {
    match read_case(alloc, text) {
        Err(OrMemory::Fault(fault)) => Some(at_line(text, fault)),
        Ok(case) => {
            let routers = case.instance().nodes();
            Some(Advice::Router { router, routers })
        }
        Err(OrMemory::Memory) => None,
    }
}

/// The line of a text that has a fault.
fn at_line(text: &[u8], fault: TextFault) -> Advice<'_> {
    let TextFault { line, fault } = fault;
    Advice::Line {
        number: line,
        line: line_of(text, line),
        fault,
    }
}

/// A line of a text by its number, from 1, without its line end.
fn line_of(text: &[u8], number: usize) -> Option<&[u8]> {
    let mut lines = text.split(|byte| *byte == b'\n');
    let line = lines.nth(number.saturating_sub(1))?;
    // Behind the last line end there is no line.
    (!line.is_empty() || lines.next().is_some()).then_some(line)
}

impl Display for Advice<'_> {
    fn fmt<W: fmt::Write>(&self, f: &mut Formatter<W>) -> fmt::Result {
        match *self {
            Advice::Router { router, routers } => {
                write!(f, "there is no router {router}: the case has ")?;
                match routers {
                    1 => write!(f, "router 0 alone"),
                    _ => write!(f, "routers 0 to {}", routers.saturating_sub(1)),
                }
            }
            Advice::Line {
                number,
                line: None,
                ..
            } => write!(f, "line {number} is not there: the text ends before it"),
            Advice::Line {
                number,
                line: Some(line),
                fault,
            } => {
                let shown = line[..line.len().min(SHOWN)].escape_ascii();
                let more = if SHOWN < line.len() { ".." } else { "" };
                let expected = expected(fault, line);
                write!(f, "line {number} is \"{shown}\"{more}: {expected}")
            }
        }
    }
}

/// What was expected of a line with this fault.
fn expected(fault: LineFault, line: &[u8]) -> &'static str {
    match fault {
        LineFault::Byte => expected_bytes(line),
        LineFault::Header => "a case begins with the line spp 1 or spp 2",
        LineFault::Word => expected_words(line),
        LineFault::Number => "expected 0, or a digit from 1 to 9 and at most nine more digits",
        LineFault::Order => "lines come in this order: spp, nodes, links, paths, scenario, end",
        LineFault::End => "every line ends in a line feed, and end is the last one",
        LineFault::Rule(rule) => expected_rule(rule),
    }
}

/// What was expected of a line whose first word, or whose number of words, is wrong.
fn expected_words(line: &[u8]) -> &'static str {
    match line.split(|byte| *byte == b' ').next() {
        Some(b"nodes") => "expected nodes N",
        Some(b"link") => "expected link A B DELAY in spp 1, and link A B DELAY DELAY in spp 2",
        Some(b"path") => "expected path V V .. 0",
        Some(b"fail") => "expected fail T A B",
        Some(b"restore") => "expected restore T A B",
        Some(b"swap") => "expected swap T V I J",
        Some(b"forbid") => "expected forbid T V K, in spp 2 alone",
        Some(b"allow") => "expected allow T V K, in spp 2 alone",
        Some(b"handle") => "expected handle R, in steps alone",
        Some(b"undo") => "expected undo R, in steps alone",
        Some(b"deliver") => "expected deliver K, in steps alone",
        Some(b"commit") => "expected commit R, in steps alone",
        Some(b"release") => "expected release R, in steps alone",
        Some(b"bound" | b"end") => "the word stands alone in its line",
        Some(b"") => "a line has a word, one space between words, and none at its ends",
        _ =>
            "a line begins with nodes, link, path, fail, restore, swap, forbid, allow or end, or is a step",
    }
}

/// What was expected in place of the first byte that no line of a text has.
fn expected_bytes(line: &[u8]) -> &'static str {
    match line.iter().copied().find(|byte| !is_plain(*byte)) {
        Some(b'\r') =>
            "a line ends in a line feed alone, and this one has a carriage return (CR LF) too",
        Some(0xEF) =>
            "the text begins with a byte order mark, or has a letter that is not plain; only a to z are",
        Some(b'\t') => "words are separated by one space, and here stands a tab",
        Some(b'#') => "a text has no comments",
        Some(b'.' | b',' | b'-' | b'+') => "numbers are whole, without sign, point or comma",
        Some(b'A'..=b'Z') => "words are written in small letters",
        _ => "a line has small letters a to z, digits and single spaces, and nothing else",
    }
}

/// Whether a line may have this byte.
fn is_plain(byte: u8) -> bool {
    byte == b' ' || byte.is_ascii_lowercase() || byte.is_ascii_digit()
}

/// What was expected of an item that breaks a rule.
fn expected_rule(rule: Rule) -> &'static str {
    match rule {
        Rule::Range =>
            "there are 1 to 1024 nodes, numbered from 0 on, and a node is below their number",
        Rule::SelfLink => "a link joins two different nodes",
        Rule::TwiceLink => "two nodes have one link at most, and these have one already",
        Rule::Delay => "a delay is from 1 to 1000000 ticks",
        Rule::PathOwner =>
            "a path is given for a router from 1 on, and begins with it: path V V .. 0",
        Rule::PathEnd => "a path ends at router 0",
        Rule::PathRepeats => "a path has no node twice",
        Rule::PathNoLink => "two nodes that follow each other in a path have a link, given before",
        Rule::TwicePath => "this path was given before",
        Rule::TooMany => {
            "a router has at most 64 links and 200 paths, a path 32 nodes, a scenario 4096 lines, a replay 1000000 steps"
        }
        Rule::NoSuchLink => "these two nodes have no link",
        Rule::NoSuchPlace => "the router has no path of that number",
        Rule::Time => "a time is at most 1000000000 ticks",
        Rule::Version => "the case is of no version that can say it",
    }
}
