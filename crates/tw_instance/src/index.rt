//! The tables from which look-ups of a whole instance are answered, without a search by nodes.

ghost use Rattle.std.specs.Prelude.{IfOk};

use crate::extensions::Extensions;
use crate::instance::Instance;
use crate::peers::Peers;
use std::alloc::{AllocError, Global};

/// The tables of an instance that has all its links and paths.
#[derive(Drop, Debug)]
pub struct Index {
    /// Which paths extend which.
    pub extensions: Extensions,
    /// Of each router its neighbours.
    pub peers: Peers,
}

impl Index {
    ghost use Rattle.tw_instance.specs.Index.{IsIndex};

    /// The tables of this instance.
    pub fn new(alloc: Global, instance: &Instance) -> Result<Index, AllocError>
        ensures { IfOk result (IsIndex instance.now) }
    {
        let extensions = Extensions::new(alloc, instance)?;
        let peers = Peers::new(alloc, instance)?;
        Ok(Index { extensions, peers })
    }
}
