//! A case as a model.

ghost use Rattle.std.specs.Prelude.{◌≡◌};
ghost use Rattle.tw_model.specs.Case.{IsCase};

use std::alloc::Global;
use std::marker::Model;
use tw_instance::Case;

/// A case as a model: its processes are the routers of the case.
///
/// No event at or after 1,000,000,000 ticks is handled. Handling one takes memory where it sends more than 8.
#[derive(Drop)]
pub struct Routing<'a> {
    alloc: Global,
    case: &'a Case,
}

impl<'a> Model for Routing<'a> {
    ghost use Rattle.tw_model.specs.Case.{Case as ACase, IsCase as IsACase};

    ghost Value = { ACase };

    ghost view = { λ a. a.case.now };

    ghost invariant = { λ a. IsACase a.case.now };
}

impl<'a> Routing<'a> {
    /// This case as a model. It takes no memory.
    pub fn new(alloc: Global, case: &'a Case) -> Routing<'a>
        ensures { result ≡ case.now }
    {
        // What a case keeps is told by a read of it.
        let _ = case.instance();
        Routing { alloc, case }
    }

    /// The case.
    pub fn case(&self) -> &'a Case
        ensures value { result.now ≡ self.now }
        ensures case { IsCase self.now }
    {
        self.case
    }

    /// Where its handlers take memory.
    pub(crate) fn allocator(&self) -> Global {
        self.alloc
    }
}
