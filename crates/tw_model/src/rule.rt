//! The rules of instances and scenarios.

use thiserror::Error;

/// A rule that an instance or a scenario keeps. They stand in ascending order of their codes, which
/// `docs/FORMATS.md` lists.
#[derive(Clone, Copy, PartialEq, Eq, Debug, Error)]
pub enum Rule {
    /// The number of routers is not in 1 to 1,024, or a node is not below it.
    #[error("a number of routers is not in 1 to 1,024, or a node is not below it")]
    Range,
    /// A link's two ends are equal.
    #[error("the ends of a link are equal")]
    SelfLink,
    /// A link between the two ends was given before.
    #[error("a link between the two ends was given before")]
    TwiceLink,
    /// A delay is not in 1 to 1,000,000.
    #[error("a delay is not in 1 to 1,000,000")]
    Delay,
    /// A path is given for router 0, or has no node, or does not begin with its owner.
    #[error("a path is given for router 0, or does not begin with its owner")]
    PathOwner,
    /// A path does not end with 0.
    #[error("a path does not end with 0")]
    PathEnd,
    /// A node stands twice in a path.
    #[error("a node stands twice in a path")]
    PathRepeats,
    /// Two neighbouring nodes of a path have no link.
    #[error("two neighbouring nodes of a path have no link")]
    PathNoLink,
    /// The same path was given for its owner before.
    #[error("the same path was given for its owner before")]
    TwicePath,
    /// A 65th link or a 201st path of a router, a 33rd node of a path, a 4,097th scenario line.
    #[error("a router has too many links or paths, a path too many nodes, or a scenario too many lines")]
    TooMany,
    /// A failure or a repair of a link that is not there.
    #[error("there is no such link")]
    NoSuchLink,
    /// An exchange of a place that the router's order does not have, or a path forbidden or allowed that was not given.
    #[error("there is no such place in the order of the router")]
    NoSuchPlace,
    /// A time above 1,000,000,000.
    #[error("a time is above 1,000,000,000")]
    Time,
    /// A version of the text that is not 1 or 2, or version 1 of a case that only version 2 can say.
    #[error("the version is not 1 or 2, or the case has what version 1 can't say")]
    Version,
}
