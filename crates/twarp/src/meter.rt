//! How far a run is, for a person who waits for it. It stands on standard error, and no promise rests on it.

use crate::clock::nanos;
use crate::counts::Count;
use crate::figures::Seconds;
use std::fmt::{self, Display, Formatter};
use std::time::Clock;
use tw_options::{Asked, CommandLine};

/// So many nanoseconds are between two lines at least: with the one at the end no second has more than four.
const BETWEEN_LINES: u64 = 334_000_000;

/// A piece of a run is to take so long, in nanoseconds: somewhat longer than is between two lines, so that a line follows
/// most pieces that take less than was meant. By workers a thousandth of it goes into joining their threads and starting
/// them anew.
const PIECE: u64 = 400_000_000;

/// A piece has at most so many times the ticks of the one before it. The first one has a single tick, so that a run of a
/// million ticks has seven short pieces before the others; and where events come closer together, a piece takes so many
/// times longer than was meant only where they come that much closer within it.
const GROWTH: u64 = 8;

/// What is shown of a run while it goes on.
#[derive(Clone, Copy, PartialEq, Eq)]
pub(crate) enum Shown {
    Nothing,
    /// A line that is written over again and again, and is gone when the run has ended.
    OneLine,
    /// A line each time, and one at the end.
    Lines,
}

impl Shown {
    /// What is shown for a command line: of a run that may be long, on a terminal or where it is asked for.
    pub(crate) fn of(line: CommandLine, is_terminal: bool) -> Shown {
        match line {
            CommandLine::Seq(_) | CommandLine::Run(_) if is_terminal => Shown::OneLine,
            CommandLine::Seq(report) | CommandLine::Run(Asked { report, .. }) if report.progress =>
                { Shown::Lines }
            _ => Shown::Nothing,
        }
    }
}

/// Shows on standard error how far a run is, by a clock, in nanoseconds.
#[derive(Drop)]
pub(crate) struct Meter<'r, R> {
    rt: &'r R,
    shown: Shown,
    asked: Count,
    lines: Count,
    /// When the run began.
    begun: Count,
    /// When a line was due last.
    line: Count,
    /// When the piece at hand began.
    piece: Count,
    /// And at which time of the run, in ticks.
    ticks: Count,
}

impl<'r, R: Clock + Eprint> Meter<'r, R> {
    pub(crate) fn new(rt: &'r R, shown: Shown) -> Meter<'r, R> {
        Meter {
            rt,
            shown,
            asked: Count::default(),
            lines: Count::default(),
            begun: Count::default(),
            line: Count::default(),
            piece: Count::default(),
            ticks: Count::default(),
        }
    }

    /// A run has come to a time of its stop, in ticks, and has handled so many events. Answers how many ticks its next
    /// piece is to have.
    pub(crate) fn reached(&self, time: u64, stop: u64, events: u64) -> u64 {
        if self.shown == Shown::Nothing {
            return u64::MAX;
        }
        let now = nanos(self.rt);
        if self.asked.get() == 0 {
            self.begun.set(now);
            self.line.set(now);
            self.piece.set(now);
        }
        self.asked.add(1);
        if self.is_line_due(now) || (self.shown == Shown::Lines && time >= stop) {
            self.show(Line {
                time,
                stop,
                events,
                nanos: now.saturating_sub(self.begun.get()),
            });
            self.line.set(now);
        }
        self.next_piece(time, now)
    }

    fn is_line_due(&self, now: u64) -> bool {
        now.saturating_sub(self.line.get()) >= BETWEEN_LINES
    }

    /// How many ticks the piece that begins at a time shall have, by those of the one that ends there.
    fn next_piece(&self, time: u64, now: u64) -> u64 {
        let ticks = time.saturating_sub(self.ticks.get());
        let took = now.saturating_sub(self.piece.get());
        self.piece.set(now);
        self.ticks.set(time);
        ticks.saturating_mul(PIECE) / took.max(PIECE / GROWTH)
    }

    /// Shows a line; one that cannot be written is left out.
    fn show(&self, line: Line) {
        self.lines.add(1);
        let _ = match self.shown {
            Shown::Nothing => Ok(()),
            Shown::OneLine => eprint!(self.rt; "\r{line}\x1b[K"),
            Shown::Lines => self.rt.eprintln(line),
        };
    }

    /// The run goes no further: a line that is written over goes away.
    pub(crate) fn ended(&self) {
        if self.shown == Shown::OneLine && self.lines.get() > 0 {
            let _ = self.rt.eprint("\r\x1b[K");
        }
    }
}

/// A line of a meter.
#[derive(Clone, Copy)]
struct Line {
    time: u64,
    stop: u64,
    events: u64,
    /// What it took so far.
    nanos: u64,
}

impl Display for Line {
    fn fmt<W: fmt::Write>(&self, f: &mut Formatter<W>) -> fmt::Result {
        let Line {
            time,
            stop,
            events,
            nanos,
        } = *self;
        let rate = Seconds { nanos }.rate_of(events);
        write!(f, "time {time} of {stop}: {events} events, {rate} a second")
    }
}
