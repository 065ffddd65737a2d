//! The lines of a scenario.

/// A scenario line: something that happens to the network at a time in ticks.
#[derive(Clone, Copy, PartialEq, Eq, Debug)]
pub enum Scene {
    /// The link between two routers fails.
    Fail {
        /// When, in ticks.
        time: u64,
        /// One end.
        first: u32,
        /// The other end.
        second: u32,
    },
    /// The link between two routers is repaired.
    Restore {
        /// When, in ticks.
        time: u64,
        /// One end.
        first: u32,
        /// The other end.
        second: u32,
    },
    /// A router exchanges the ranks of two of its permitted paths.
    Swap {
        /// When, in ticks.
        time: u64,
        /// The router.
        node: u32,
        /// One place of its order at that time, from 1.
        first: u32,
        /// The other place.
        second: u32,
    },
    /// A router may not use one of its permitted paths from now on.
    Forbid {
        /// When, in ticks.
        time: u64,
        /// The router.
        node: u32,
        /// The path's place among the router's paths as they were given, from 1.
        line: u32,
    },
    /// A router may use one of its permitted paths again.
    Allow {
        /// When, in ticks.
        time: u64,
        /// The router.
        node: u32,
        /// The path's place among the router's paths as they were given, from 1.
        line: u32,
    },
}
