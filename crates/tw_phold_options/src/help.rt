//! The words of the help.

use tw_options::Page;

pub(crate) const VERSION: &str = "0.1.0";

pub(crate) const PHOLD: Page = Page {
    name: "twarp-phold",
    about: "Runs PHOLD, the usual workload of parallel simulators",
    long_about: PHOLD_LONG,
    statuses: STATUSES,
};

const PHOLD_LONG: &str = "\
Runs PHOLD, the usual workload of parallel simulators (Fujimoto, 1990).

Each process begins with as many jobs as the others. A job that comes to a process goes on after
a random delay, to a process that is drawn, or it stays.

Example:
  twarp-phold seq --processes 64 --stop 1000
  twarp-phold run --processes 64 --stop 1000 --workers 2";

pub(crate) const SEQ: Page = Page {
    name: "seq",
    about: "Runs PHOLD on one thread, and reports what each process has handled",
    long_about: SEQ_LONG,
    statuses: STATUSES,
};

const SEQ_LONG: &str = "\
Runs PHOLD on one thread, and reports what each process has handled.

The report is

  phold-report 1
  stop 1000                 all jobs before this time are handled
  process 0 handled 312     how many of them came to a process
  checksum 123              one word that is made of the states of all processes

Example:
  twarp-phold seq --processes 64 --stop 1000";

pub(crate) const RUN: Page = Page {
    name: "run",
    about: "Runs PHOLD in several threads, and writes the same report",
    long_about: RUN_LONG,
    statuses: STATUSES,
};

const RUN_LONG: &str = "\
Runs PHOLD in several threads, and writes the same report.

One thread begins alone. Where several are faster they go on in rounds, in which each process
runs ahead of the others, and goes back where a job comes late (Time Warp). The report is that of
`twarp-phold seq`, to the byte, however many threads there are.

Example:
  twarp-phold run --processes 64 --stop 1000 --workers 2";

pub(crate) const PROCESSES: &str = "How many processes there are: 1 to 1000000, or else 1024";

pub(crate) const POPULATION: &str =
    "How many jobs each process begins with: 0 to 1000000, or else 16";

pub(crate) const LOOKAHEAD: &str = "The shortest delay of a job, in ticks: 1 to 1000000, or else 1";

pub(crate) const LONGEST: &str = "The longest delay of a job, in ticks: 1 to 1000000, or else 100";

pub(crate) const REMOTE: &str =
    "Of 1000 jobs so many go to a process that is drawn, the others stay: or else 1000";

pub(crate) const SEED: &str = "What all random words come from: 0 to 1000000000, or else 1";

pub(crate) const STOP: &str = "Handles jobs before this time, in ticks: 1 to 1000000000";

pub(crate) const WORKERS: &str =
    "How many threads handle jobs at the same time, at most: 1 to 64, or else 4";

pub(crate) const ROUNDS: &str =
    "In rounds of all workers from the first tick to the stop, never by one thread alone";

pub(crate) const STATS: &str =
    "Tells on standard error what was counted and how long it took, each by its name";

const STATUSES: &str = "\
Exit status:
  0  done
  1  the longest delay is shorter than the lookahead; one line on standard output says so
  2  stopped for want of memory or by a failed device; one line on standard error says which
  3  the command line was refused; standard error says why";
