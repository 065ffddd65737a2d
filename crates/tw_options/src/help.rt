//! The words of the help.

use crate::page::Page;

pub(crate) const VERSION: &str = "0.1.0";

pub(crate) const TWARP: Page = Page {
    name: "twarp",
    about: "Simulates path-vector routing, event by event",
    long_about: TWARP_LONG,
    statuses: STATUSES,
};

const TWARP_LONG: &str = "\
Simulates path-vector routing, event by event.

Each router uses the first of its permitted paths that its neighbours offer, and tells them of
each change. A message takes the delay of its link, in ticks.

Every command reads a case text from standard input, `replay` with steps behind it, and writes
its answer to standard output.
This case has two routers that prefer to go by way of each other:

  spp 1
  nodes 3
  link 0 1 1
  link 0 2 5
  link 1 2 1
  path 1 1 2 0
  path 1 1 0
  path 2 2 1 0
  path 2 2 0
  end

Where the first line is `spp 2`, a link has a delay for each direction, as `link 1 2 1 3`; and
`forbid 9 2 1` and `allow 20 2 1`, before `end`, forbid router 2 its first path from 9 to 20.

Example:
  twarp seq --stop 20 --log < case.txt";

pub(crate) const CHECK: Page = Page {
    name: "check",
    about: "Says whether the input is a case, or which line is at fault",
    long_about: CHECK_LONG,
    statuses: STATUSES,
};

const CHECK_LONG: &str = "\
Says whether the input is a case, or which line is at fault.

Reads a case text from standard input. For a case it counts the routers, links, paths and
scenario lines; else it names the first line at fault, with the rule that the line breaks.

Example:
  twarp check < case.txt";

pub(crate) const SEQ: Page = Page {
    name: "seq",
    about: "Runs a case up to a time and reports where the routers stand",
    long_about: SEQ_LONG,
    statuses: STATUSES,
};

const SEQ_LONG: &str = "\
Runs a case up to a time and reports where the routers stand.

Reads a case text from standard input and handles its events below --stop, one after the other.
The report has each router's counters and path at the end of the run, and a verdict:

  quiet T                     the routers have come to rest; a path last changed at time T
  oscillates from A period P  they never will: from time A on the run repeats every P ticks
  open                        neither is known

An oscillation is looked for where --every is given. With --stats the run is told in numbers on
standard error, behind the report: the events, the seconds, and the events a second.

Example:
  twarp seq --stop 20 --every 1 --log < case.txt";

pub(crate) const RUN: Page = Page {
    name: "run",
    about: "Does the same with several threads, and reports the same",
    long_about: RUN_LONG,
    statuses: STATUSES,
};

const RUN_LONG: &str = "\
Does the same as seq with several threads, and reports the same.

Reads a case text from standard input. With --workers W the routers are dealt out to W workers from
the first tick to --stop, who run in threads; 1 is one thread, as with seq. Without --workers the
program chooses among one thread and up to 4 workers, by a clock. A worker handles its routers'
events below --stop ahead of the others, up to --batch of them at a time; then it meets the others
at a table, where messages change hands. Where a message comes late, its router rolls back. The
report is that of seq, byte for byte, whatever the number of workers and the batch: each router's
counters and path at the end of the run, and a verdict. `twarp seq --help` says what the verdicts
mean.

Routers are dealt out in turn: router R goes to worker R mod W of W workers. With --blocks it goes
to worker R * W div N of a case of N routers, so that routers whose numbers are near share a
worker: fewer messages go from worker to worker where these are neighbours. With --rotate every
router goes from worker V to worker V + 1 mod W at each checkpoint of --every at which the workers
come together before --stop. Nothing of this changes the report. Where few events happen, or other
work takes the processors, one thread is faster than several.

What an event has sent is taken back where the event is undone: at once, or, with --lazy, only
once the router has come past it without sending the same again (lazy cancellation). The report
is the same.

An oscillation is looked for where --every is given. The workers then come together at
each checkpoint, so that a small --every makes them wait for one another often.

With --stats the run is told in numbers on standard error, behind the report: who ran it, events
handled, undone and committed, rollbacks, antimessages, meetings, seconds, and each worker's share.

Example:
  twarp run --stop 20 --workers 2 --log < case.txt";

pub(crate) const EVERY_LONG: &str = "\
Look for a period at the multiples of this time, in ticks: 1 to 1000000000

The checkpoints are the multiples of this time, up to --stop. The shape at a checkpoint
is the state of every router without its counters, and what is pending, with times
counted from the checkpoint. It is compared with the shapes at the 64 checkpoints before
it. Where two are equal, while messages are pending and no event of the scenario is, the
run repeats for ever: the verdict is `oscillates`, from the earlier checkpoint on.

1 finds the least period, up to 64 ticks. A greater number N finds the least period that
is a multiple of N, up to 64 times N. Without --every the verdict is `quiet` or `open`.";

pub(crate) const PROGRESS_LONG: &str = "\
Tell standard error how far the run is, also where it is no terminal

Where standard error is a terminal, one line there says so from the first third of a second
on, at most three times a second, and is gone when the run has ended: the time that the run
has reached, --stop, how many events it has handled, and how many a second on average so
far. Elsewhere nothing is said, or, with --progress, a line each time and one at the end.
Standard output stays the same. `2> /dev/null` keeps the line off a terminal.";

pub(crate) const LOG_LONG: &str = "\
Report each event of the run too

The report is written once the run has ended. Until then its events are kept in memory: a
million take 40 megabytes, and 80 where several workers run, since each of them keeps those
of its routers, and in the end one list has all.";

pub(crate) const LOG: &str = "Report each event of the run too";

pub(crate) const LAZY: &str = "Take back what an undone event has sent as late as may be";

pub(crate) const BLOCKS: &str =
    "Give each worker a block of routers in a row, and do not deal them out in turn";

pub(crate) const ROTATE: &str =
    "Hand every router on to the next worker at each checkpoint of --every";

pub(crate) const PROGRESS: &str =
    "Tell standard error how far the run is, also where it is no terminal";

pub(crate) const STATS: &str = "Tell what was counted and how long it took, on standard error";

pub(crate) const STOP: &str = "Handle the events below this time, in ticks: 1 to 1000000000";

pub(crate) const EVERY: &str =
    "Look for a period at the multiples of this time, in ticks: 1 to 1000000000";

pub(crate) const ROUTER: &str =
    "The router whose last events are undone: 0 to 1023, and a router of the case";

pub(crate) const KEEP: &str =
    "How many of the router's first events are not undone: 0 to 1000000000";

pub(crate) const WORKERS: &str =
    "How many workers the routers are dealt out to: 1 to 64, and 1 where none is given";

pub(crate) const BATCH: &str =
    "How many events a worker handles between two meetings at most: 1 to 4096, or else 64";

pub(crate) const THREADS: &str =
    "How many workers share the routers, in threads: 1 to 64, or else what is faster, up to 4";

pub(crate) const TRAIL: Page = Page {
    name: "trail",
    about: "Runs a case, and undoes one router's last events",
    long_about: TRAIL_LONG,
    statuses: STATUSES,
};

const TRAIL_LONG: &str = "\
Runs a case, and undoes one router's last events.

Reads a case text from standard input and handles its events below --stop, one after the other.
Then the events of one router are undone, the last one first, until --keep of them are left.
The answer shows the router before and after, each event undone, and the messages that it had
sent.

Example:
  twarp trail --router 1 --stop 20 --keep 0 < case.txt";

pub(crate) const REPLAY: Page = Page {
    name: "replay",
    about: "Drives the Time Warp machine of a case step by step",
    long_about: REPLAY_LONG,
    statuses: STATUSES,
};

const REPLAY_LONG: &str = "\
Drives the Time Warp machine of a case step by step.

Its routers handle events ahead of one another, and are rolled back where a message comes late.
Reads a case text from standard input and behind it the steps, with an `end` of their own:

  handle R   router R handles its first pending event; what it sends is then in flight
  undo R     router R undoes the event that it handled last, and sends antimessages
  deliver K  the message at place K in flight, from 1, reaches its router
  bound      the bound becomes the least time of all that is not handled, or --stop
  commit R   router R's events below the bound are committed, and stay
  release R  router R sends the antimessages that --lazy holds back

With --lazy, what an undone event had sent is held in place of sending antimessages, and what
router R sends again is not sent twice. The counts then end with how much is held.

The answer has `ok`, or `refused` with the reason, for each step; then the bound, how much is in
flight, pending, kept and handled ahead, the committed events, and the routers. Of this text the
case stands on the left and the steps on the right, with what they do:

  spp 1           handle 0   router 0 tells its path to 1, at time 1, and to 2, at time 5
  nodes 3         deliver 2
  link 0 1 1      handle 2   router 2 goes ahead to time 5, and tells its path to 0 and 1
  link 0 2 5      deliver 1
  link 1 2 1      handle 1   router 1 tells its path to 0 and 2, both at time 2
  path 1 1 2 0    deliver 4  a straggler: router 2 rolls back from time 5, and sends antimessages
  path 1 1 0      handle 2   router 2 handles the event at time 2
  path 2 2 1 0    handle 2   and the one at time 5 once more
  path 2 2 0      deliver 1  what router 2 told router 0 too early
  end             deliver 3  its antimessage: both vanish
                  deliver 3  an antimessage before its message: router 1 keeps it
                  end

With --stop 20 the answer is `spp-replay 1`, `step 1 ok` to `step 11 ok`, and

  bound 0
  flight 4 pending 0 kept 1 ahead 4
  router 0 sent 2 handled 1 dropped 0 changed 1 rib (0)
  router 1 sent 2 handled 1 dropped 0 changed 1 rib (1 0)
  router 2 sent 2 handled 2 dropped 0 changed 1 rib (2 1 0)

Example:
  twarp replay --stop 20 --workers 2 < steps.txt";

pub(crate) const UPGRADE: Page = Page {
    name: "upgrade",
    about: "Writes a case in the latest version of its text",
    long_about: UPGRADE_LONG,
    statuses: STATUSES,
};

const UPGRADE_LONG: &str = "\
Writes a case in the latest version of its text, `spp 2`.

Reads a case text from standard input. Of a text that begins with `spp 1`, each link is written
with its delay twice, once for each direction: `link 1 2 3` becomes `link 1 2 3 3`. All other
lines stay, and so does every answer to the case. A text that begins with `spp 2` is written as
it is.

Example:
  twarp upgrade < case.txt > upgraded.txt";

const STATUSES: &str = "\
Exit status:
  0  done
  1  the input was refused, or --router is none of its routers; one line on standard output
     says why
  2  stopped for want of memory or of a thread, by a full counter or by a failed device; one
     line on standard error says which
  3  the command line was refused; standard error says why";
