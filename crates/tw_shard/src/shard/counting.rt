//! What a shard counts of its routers' work.

ghost use Rattle.std.specs.Prelude.{◌≡◌};

use super::Shard;
use crate::tally::Tally;

impl<'a> Shard<'a> {
    /// What its routers have undone, and what came of that, since counting began: as it was opened, or at the last
    /// [`Shard::count_anew`]. No promise rests on it.
    pub fn tally(&self) -> Tally {
        self.tally.without_held(self.held.len())
    }

    /// Counting begins anew.
    pub fn count_anew(&mut self)
        ensures { self.new ≡ self.old }
    {
        self.tally = Tally::beginning(self.held.len());
    }

    /// How many events its routers have undone since counting began.
    pub(crate) fn undone(&self) -> u64 {
        self.tally.undone
    }

    /// For what has come all was undone that had to be; so many events were undone before.
    pub(crate) fn count_rollback(&mut self, before: u64)
        ensures { self.new ≡ self.old }
    {
        self.tally.count_rollback(before);
    }
}
