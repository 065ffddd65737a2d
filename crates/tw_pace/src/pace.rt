//! When a run that is told no number of workers goes on by one thread, and when by several: plain functions of figures,
//! which are ticks of the run, events, and microseconds by a clock that may stand still or go back. No promise rests on
//! them.

ghost use Rattle.std.specs.Prelude.{◌≡◌, ◌≤◌, ◌<◌, IfSome, None};

/// More workers than so many are not tried: the tables of bench/ have none that gains by more.
pub const MOST_WORKERS_CHOSEN: u32 = 4;

/// For so long a run goes on by one thread before several are tried. In that time it comes out whether other work takes the
/// processors, and a run that several make faster loses a few milliseconds.
const BEGINNING: u64 = 20_000;

/// A lap of one thread that takes less is followed by one of twice the ticks, so that a run begins with some dozen laps,
/// whatever happens in a tick. The clock is read once a lap.
const SHORT_LAP: u64 = 250;

/// So long counts as lately, and what was before it half as much: a scheduler takes a processor away for milliseconds at a
/// time, and moves work from processor to processor in some ten.
const LATELY: u64 = 20_000;

/// Where one thread has waited for a processor for more than one in so many parts of the time lately, other work takes the
/// processors, and workers would wait for one another at each tick. What a system does by itself takes far less.
const WORKED_FOR_EACH_WAITED: u64 = 10;

/// Several are tried where what is left takes one thread so long at least: then a trial that is lost costs less than a
/// user sees.
const ENOUGH: u64 = 40_000;

/// Where threads that have nothing to do take longer to start and join, other work takes the processors, and workers wait
/// for one another far longer than they work. On a quiet machine that takes a tenth to a fifth of this.
const LONG_WAIT: u64 = 3_000;

/// A trial is given so much more than one thread takes, up to its last stretch: the first stretches take milliseconds
/// where they take one thread a tenth of one, since all memory of the workers is new to the system and to the processors.
const WARMING: u64 = 8_000;

/// Before several are tried, one thread goes on for about so long beside threads that are not done before it: two slices of
/// a scheduler, so that other work has come to each processor that it takes.
const SOUNDING: u64 = 6_000;

/// The machine has a processor for each of several threads where they miss no more of their time than one in so many
/// parts. Beside four that never rest four miss half of it, and beside one an eighth; starting them takes less than a
/// hundredth.
const PARTS_FOR_ONE_MISSED: u64 = 16;

/// Several are first tried on what takes one thread so long: the last stretch of that, which decides, is half of it, some
/// ten times what it takes threads to start and to have at hand what they work on.
const TRIAL: u64 = 12_000;

/// The first stretch of the trial is what takes one thread so long, and each further one twice that. Beside other work
/// workers may wait for milliseconds at each tick, so the first has few of them.
const FIRST_STRETCH: u64 = 100;

/// They go on where the last stretch of the trial took a twentieth less than one thread: less is within what a clock
/// tells of it.
const TWENTIETHS: u64 = 19;

/// A stretch by several that takes less is followed by one of twice the ticks: between stretches all threads are joined
/// and started anew, some fortieth of this. Where other work comes to the processors in its middle, it may take ten times
/// as long, which a user should hardly see.
const LONG_STRETCH: u64 = 12_000;

/// Several are tried again when one thread has gone on for so many times what the last trial lost, so that all trials
/// together cost a twentieth at most.
const PATIENCE: u64 = 20;

/// When several have gone on for so long, and for so many times what it took to begin, one thread goes on for a
/// beginning, to tell what it takes by then: its pace changes as a run goes on.
const LONG_BY_ALL: u64 = 2_000_000;

const LONG_BY_ALL_TIMES: u64 = 200;

/// What so many events took.
#[derive(Clone, Copy)]
struct Pace {
    events: u64,
    micros: u64,
}

/// A piece of a run, and what it took.
#[derive(Clone, Copy)]
struct Piece {
    ticks: u64,
    micros: u64,
}

/// How long a thread went on, and how long of that it waited for a processor.
#[derive(Clone, Copy)]
struct Stint {
    micros: u64,
    waited: u64,
}

impl Stint {
    const NONE: Stint = Stint {
        micros: 0,
        waited: 0,
    };

    /// With what came later; once that is long, both count half.
    fn and(self, later: Stint) -> Stint {
        let micros = self.micros.saturating_add(later.micros);
        let waited = self.waited.saturating_add(later.waited);
        let part = if micros > LATELY { 2 } else { 1 };
        Stint {
            micros: micros / part,
            waited: waited / part,
        }
    }

    /// Whether other work takes the processors.
    fn is_hindered(self) -> bool {
        self.waited.saturating_mul(WORKED_FOR_EACH_WAITED) > self.micros
    }
}

/// How far a run has come by one thread, lap by lap.
#[derive(Clone, Copy)]
pub struct Alone {
    /// Where it stands.
    pub ticks: u64,
    // Handled before it went on by one thread.
    before: u64,
    // In all laps since then.
    micros: u64,
    last: Piece,
    lately: Stint,
    // So long it goes on before several are tried.
    patience: u64,
}

impl Alone {
    /// Nothing is run yet.
    pub fn new() -> Alone
        ensures { result.ticks ≡ 0 }
    {
        Alone {
            ticks: 0,
            before: 0,
            micros: 0,
            last: Piece {
                ticks: 1,
                micros: 0,
            },
            lately: Stint::NONE,
            patience: BEGINNING,
        }
    }

    /// Where the next lap ends: behind where the run is, and not past the stop.
    pub fn next_end(self, stop: u64) -> u64
        requires { self.ticks < stop }
        ensures after { self.ticks < result }
        ensures within { result ≤ stop }
    {
        let length = if self.last.micros < SHORT_LAP {
            self.last.ticks.saturating_mul(2)
        } else {
            self.last.ticks
        };
        end_within(self.ticks, length, stop)
    }

    /// Behind a lap that ended there and took so long, in which it waited so long for a processor.
    pub fn lap(self, end: u64, micros: u64, waited: u64) -> Alone
        ensures { result.ticks ≡ end }
    {
        Alone {
            ticks: end,
            micros: self.micros.saturating_add(micros),
            last: Piece {
                ticks: end.saturating_sub(self.ticks),
                micros,
            },
            lately: self.lately.and(Stint { micros, waited }),
            ..self
        }
    }

    /// Where the lap ends that it takes beside threads that are not done before it: behind where the run is, and not past
    /// the stop.
    pub fn sounding_end(self, stop: u64) -> u64
        requires { self.ticks < stop }
        ensures after { self.ticks < result }
        ensures within { result ≤ stop }
    {
        let length = in_proportion(SOUNDING, self.last.ticks, self.last.micros);
        end_within(self.ticks, length, stop)
    }

    /// In that lap there was no processor for each of them: it is patient for as long as makes that lap a small part.
    pub fn hindered(self) -> Alone
        ensures { result.ticks ≡ self.ticks }
    {
        Alone {
            patience: self
                .micros
                .saturating_add(SOUNDING.saturating_mul(PATIENCE)),
            ..self
        }
    }

    /// Several could not begin: it is patient once more.
    pub fn again(self) -> Alone
        ensures { result.ticks ≡ self.ticks }
    {
        Alone {
            patience: self.micros.saturating_mul(PATIENCE),
            ..self
        }
    }

    /// Whether several workers are to be tried: it was patient, no other work takes the processors, and enough is left up to
    /// the stop.
    pub fn is_trial_due(self, stop: u64) -> bool {
        let left = stop.saturating_sub(self.ticks);
        let rest = in_proportion(left, self.last.micros, self.last.ticks);
        self.micros >= self.patience && !self.lately.is_hindered() && rest >= ENOUGH
    }
}

/// How far a run has come by several workers, stretch by stretch.
#[derive(Clone, Copy)]
pub struct Course {
    /// Where it stands.
    pub ticks: u64,
    // Handled from the beginning on.
    events: u64,
    // What one thread took before.
    alone: Pace,
    lap: Piece,
    // To begin, and, of that, to start and join the threads.
    opening: u64,
    starting: u64,
    // Of the next stretch, in ticks.
    length: u64,
    // All stretches so far: what they took, and what one thread would have taken.
    micros: u64,
    by_one: u64,
    // What several took more than one thread would have, where that counts.
    lost: Option<u64>,
}

impl Course {
    /// A run that one thread has brought so far, so many events from its beginning. It took so long for several workers
    /// to begin, and, of that, to start and join their threads.
    pub fn new(alone: Alone, events: u64, opening: u64, starting: u64) -> Course
        ensures { result.ticks ≡ alone.ticks }
    {
        Course {
            ticks: alone.ticks,
            events,
            alone: Pace {
                events: events.saturating_sub(alone.before),
                micros: alone.micros,
            },
            lap: alone.last,
            opening,
            starting,
            length: in_proportion(FIRST_STRETCH, alone.last.ticks, alone.last.micros),
            micros: 0,
            by_one: 0,
            lost: if starting > LONG_WAIT { Some(0) } else { None },
        }
    }

    /// Where the next stretch ends, if there is one more: behind where the run is, and not past the stop.
    pub fn next_end(self, stop: u64) -> Option<u64>
        ensures some { IfSome result (λ end. (self.ticks < end) × (end ≤ stop)) }
        ensures none { result ≡ None → stop ≤ self.ticks }
    {
        if self.ticks >= stop {
            return None;
        }
        Some(end_within(self.ticks, self.length, stop))
    }

    /// Behind a stretch that ended there, so many events from the beginning, and took so long.
    pub fn stretch(self, end: u64, events: u64, micros: u64) -> Course
        ensures { result.ticks ≡ end }
    {
        let by_one = in_proportion(
            events.saturating_sub(self.events),
            self.alone.micros,
            self.alone.events,
        );
        let length = end.saturating_sub(self.ticks);
        let later = Course {
            ticks: end,
            events,
            length: if micros >= LONG_STRETCH {
                length
            } else {
                length.saturating_mul(2)
            },
            micros: self.micros.saturating_add(micros),
            by_one: self.by_one.saturating_add(by_one),
            ..self
        };
        Course {
            lost: if self.by_one < TRIAL {
                later.loss_of_trial(micros, by_one)
            } else {
                more_than(micros, by_one)
            },
            ..later
        }
    }

    /// What is lost by the trial so far, whose last stretch took so long, and one thread so long: in its middle it may
    /// take longer than one thread, but not as beside other work; at its end a twentieth is to be won, and starting the
    /// threads does not count. A clock that stood still while one thread went on tells nothing.
    fn loss_of_trial(self, micros: u64, by_one: u64) -> Option<u64> {
        let is_lost = if self.by_one < TRIAL {
            self.alone.micros == 0 || self.micros > self.by_one.saturating_add(self.warming())
        } else {
            let work = micros.saturating_sub(self.starting);
            work.saturating_mul(20) >= by_one.saturating_mul(TWENTIETHS)
        };
        if is_lost {
            Some(self.micros.saturating_sub(self.by_one))
        } else {
            None
        }
    }

    /// How much more than one thread a trial may take up to its last stretch: where it took long to begin, there is much
    /// that is new.
    fn warming(self) -> u64 {
        self.opening.saturating_add(WARMING)
    }

    /// Whether one thread is to go on.
    pub fn is_over(self) -> bool {
        let long = self.opening.saturating_mul(LONG_BY_ALL_TIMES);
        self.lost.is_some() || self.micros >= long.saturating_add(LONG_BY_ALL)
    }

    /// One thread goes on from here, which took so long to begin.
    pub fn go_on_alone(self, closing: u64) -> Alone
        ensures { result.ticks ≡ self.ticks }
    {
        let lost = match self.lost {
            Some(micros) => micros.saturating_add(self.opening).saturating_add(closing),
            None => 0,
        };
        Alone {
            ticks: self.ticks,
            before: self.events,
            micros: 0,
            last: self.lap,
            lately: Stint::NONE,
            patience: lost.saturating_mul(PATIENCE).max(BEGINNING),
        }
    }
}

/// Whether the machine has a processor for each of so many threads that never rested for so long, in microseconds: they had
/// processors for so long in all.
pub fn have_processors(threads: u32, micros: u64, worked: u64) -> bool {
    let wanted = micros.saturating_mul(u64::from(threads));
    wanted
        .saturating_sub(worked)
        .saturating_mul(PARTS_FOR_ONE_MISSED)
        <= wanted
}

/// So many ticks behind a time, one at least, but not past the stop, which is behind it.
fn end_within(ticks: u64, length: u64, stop: u64) -> u64
    requires { ticks < stop }
    ensures after { ticks < result }
    ensures within { result ≤ stop }
{
    ticks.saturating_add(length.max(1)).min(stop)
}

/// How much more a stretch took than one thread would have.
fn more_than(micros: u64, by_one: u64) -> Option<u64> {
    if micros > by_one {
        Some(micros - by_one)
    } else {
        None
    }
}

/// What so much takes where `of` takes `share`.
fn in_proportion(amount: u64, share: u64, of: u64) -> u64 {
    amount.saturating_mul(share) / of.max(1)
}
