//! The limits of instances, scenarios, runs and inputs.

/// How many routers an instance has at most.
pub const MOST_ROUTERS: u32 = 1_024;

/// How many links a router has at most.
pub const MOST_LINKS: usize = 64;

/// How many permitted paths a router has at most.
pub const MOST_PATHS: usize = 200;

/// How many nodes a permitted path has at most.
pub const MOST_NODES: usize = 32;

/// The longest delay of a link, in ticks.
pub const LONGEST_DELAY: u64 = 1_000_000;

/// How many lines a scenario has at most.
pub const MOST_SCENES: usize = 4_096;

/// The latest time of an event that is handled, and the latest stop of a run, in ticks.
pub const LATEST: u64 = 1_000_000_000;

/// What a counter of messages sent or of events handled reaches at most.
pub const MOST_COUNTED: u64 = 1 << 48;

/// How many checkpoints before a checkpoint its shape is looked for among.
pub const WINDOW: usize = 64;

/// How many workers a machine's routers are dealt out to at most.
pub const MOST_WORKERS: u32 = 64;

/// How many steps a step text has at most.
pub const MOST_STEPS: usize = 1_000_000;

/// The latest version of the text of a case; the first is 1.
pub const LATEST_VERSION: u32 = 2;

/// How many digits a number of a text has at most.
pub const MOST_DIGITS: usize = 10;

/// How many bytes of its input a program reads at most.
pub const MOST_INPUT: usize = 67_108_864;
