//! Links and permitted paths, as they are given.

use std::marker::Model;

/// A link between two routers, as it was given.
#[derive(Clone, Copy, PartialEq, Eq, Debug)]
pub struct Link {
    /// One end.
    pub first: u32,
    /// The other end.
    pub second: u32,
    /// How many ticks a message from `first` to `second` takes, 1 to 1,000,000.
    pub delay: u64,
    /// How many ticks a message from `second` to `first` takes, 1 to 1,000,000.
    pub back: u64,
}

/// A neighbour of a router, seen from that router.
#[derive(Clone, Copy, PartialEq, Eq, Debug)]
pub struct Hop {
    /// The neighbour.
    pub peer: u32,
    /// How many ticks a message to it takes.
    pub delay: u64,
}

/// A permitted path, as it was given. Of two of one owner the earlier is the better.
#[derive(Drop, Debug)]
pub struct PermittedPath {
    /// The router at which it is permitted.
    pub owner: u32,
    /// Its nodes, from the owner to 0.
    pub nodes: Vec<u32>,
}

impl Model for PermittedPath {
    ghost use Rattle.tw_model.specs.PermittedPath.{PermittedPath as APermittedPath};

    ghost Value = { APermittedPath };

    ghost view = { λ a. record { owner = a.owner; nodes = a.nodes.items } };
}
