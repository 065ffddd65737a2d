//! The words of the help.

use tw_options::Page;

pub(crate) const VERSION: &str = "0.1.0";

pub(crate) const POLICY: Page = Page {
    name: "twarp-policy",
    about: "Judges a case of path-vector routing whatever the delays of its links",
    long_about: POLICY_LONG,
    statuses: STATUSES,
};

const POLICY_LONG: &str = "\
Judges a case of path-vector routing whatever the delays of its links.

Each command reads a case text from standard input, as `twarp` does, and writes its answer to
standard output. The case is judged by how its routers stand when its script is over.

Example:
  twarp-policy safe < case.txt";

pub(crate) const SAFE: Page = Page {
    name: "safe",
    about: "Says which paths each router may come to use, and whether the case comes to rest",
    long_about: SAFE_LONG,
    statuses: STATUSES,
};

const SAFE_LONG: &str = "\
Says which paths each router may come to use, and whether the case comes to rest.

Reads a case text from standard input, and judges it by how its routers stand when its script
is over: their ranks, what is forbidden, and which links are up. Round by round a router keeps
those of its paths that may be its best one where each neighbour uses one of those that it has
left. What is left then is all that a router may use from some time on, whatever the delays:

  router 1 uses (1 3 0)         whatever the delays, router 1 comes to use this path and stays
  router 1 may use (1 2 0) ()   it uses one of these, where () is none at all
  rests before T                from time T on nothing is pending, by the delays of the case
  wheel 1 (1 0) (1 2 0)         a pivot of a dispute wheel, its spoke and its rim path, which goes
                                on with the spoke of the next pivot
  verdict safe                  whatever the delays, the case comes to rest
  verdict robust                safe, and so is every other script that exchanges no ranks
  verdict wheel                 there is a dispute wheel: routers in a ring, each of which ranks
                                its rim path no lower than its spoke

A dispute wheel does not mean that the case never comes to rest, or only for some delays: it may
be safe all the same. A run that oscillates for ever is found by `twarp seq --every 1`.

Example:
  twarp-policy safe < case.txt";

pub(crate) const STABLE: Page = Page {
    name: "stable",
    about: "Lists the stable assignments, in one of which every run that comes to rest ends",
    long_about: STABLE_LONG,
    statuses: STATUSES,
};

const STABLE_LONG: &str = "\
Lists the stable assignments of a case, each once.

Reads a case text from standard input, and judges it by how its routers stand when its script
is over: their ranks, what is forbidden, and which links are up. An assignment gives each router
a path, and is stable where each has the best path that its neighbours' paths allow. A run that
comes to rest, whatever the delays, ends in one of these:

  assignment 1                  the number of an assignment, from 1
  router 1 rib (1 2 0)          the path of router 1 there, () where it has none
  verdict stable 2              there are 2 stable assignments, and no others
  verdict stable at least 2     more splits would be needed to say whether there are others

With `verdict stable 0` no run of the case ever comes to rest once its script is over.

Elimination (see `twarp-policy safe --help`) leaves to each router what it may use. Where a router
still has a choice, each of its paths is tried alone, which is a split. How many are needed may grow
exponentially with the number of routers. At a terminal a line of standard error tells how
many are made.

Example:
  twarp-policy stable --splits 1000000 < case.txt";

pub(crate) const SPLITS: &str = "How many splits are made at most: 0 to 1000000000, or else 100000";

const STATUSES: &str = "\
Exit status:
  0  done
  1  the input was refused; one line on standard output says why
  2  stopped for want of memory or by a failed device; one line on standard error says which
  3  the command line was refused; standard error says why";
