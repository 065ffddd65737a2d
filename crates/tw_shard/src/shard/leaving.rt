//! A router leaves a shard with its events committed.

ghost use Rattle.std.specs.Prelude.{◌≡◌, [], true};
ghost use Rattle.tw_shard.specs.Cut.{IsGone, IsRouterOf};
ghost use Rattle.tw_shard.specs.Shard.{IsSoundShard, owns, timeline};

use super::Shard;
use super::moving::take_out;
use crate::router_at::RouterAt;

impl<'a> Shard<'a> {
    /// One of its routers leaves the shard. It has no event that it can undo. What waits for it stays.
    pub fn take_router(&mut self, router: u32) -> RouterAt<'a>
        requires own { owns self.old router ≡ true }
        requires committed { (timeline self.old router).ahead ≡ [] }
        ensures router { IsRouterOf (timeline self.old router) result }
        ensures gone { IsGone router self.old self.new }
        ensures whole { IsSoundShard self.old }
    {
        take_out(router, &mut self.roster, &mut self.timelines).into_router()
    }
}
