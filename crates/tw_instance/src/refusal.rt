//! Which item is refused, and why.

ghost use Rattle.std.specs.Prelude.{Some};
ghost use Rattle.tw_instance.specs.Build.{item_text};

use std::fmt::{self, Display, Formatter};
use thiserror::Error;
use tw_model::{OrMemory, Rule};

/// An item of an instance or of a case.
#[derive(Clone, Copy, PartialEq, Eq, Debug)]
pub enum Item {
    /// The number of routers.
    Nodes,
    /// A link, from 1.
    Link(usize),
    /// A permitted path, from 1.
    Path(usize),
    /// The start of the origin, which comes before the scenes.
    Start,
    /// A scene, from 1.
    Scene(usize),
    /// The whole case in its version, which is judged last.
    Whole,
}

impl Display for Item {
    ghost output = { λ item. Some (item_text item) };

    fn fmt<W: fmt::Write>(&self, f: &mut Formatter<W>) -> fmt::Result {
        match self {
            Item::Nodes => write!(f, "nodes"),
            Item::Link(number) => write!(f, "link {number}"),
            Item::Path(number) => write!(f, "path {number}"),
            Item::Start => write!(f, "start"),
            Item::Scene(number) => write!(f, "scene {number}"),
            Item::Whole => write!(f, "whole"),
        }
    }
}

/// Where and why an instance or a case was not built: at the first item that was not taken. The
/// items before it keep the rules.
#[derive(Clone, Copy, PartialEq, Eq, Debug, Error)]
#[error("{item}: {fault}")]
pub struct At {
    /// The item.
    pub item: Item,
    /// The first rule that the item breaks, or `Memory`, where it breaks none.
    pub fault: OrMemory<Rule>,
}
