//! A router that comes to a shard with its events committed, and one that leaves it so.

ghost use Rattle.std.specs.Prelude.{◌≡◌, ◌↔◌, [], IsTrue};
ghost use Rattle.tw_shard.specs.Cut.{IsRouterOf, timeline_at};

use super::Timeline;
use crate::ahead::Ahead;
use crate::past::Past;
use crate::router_at::RouterAt;
use tw_core::limits::OPENING_ROOM;
use tw_instance::Case;

impl<'a> Timeline<'a> {
    /// A router that has handled its events of the run before a time, all of which are committed. The ring is empty.
    pub(crate) fn at(
        case: &'a Case,
        retains: bool,
        time: u64,
        router: RouterAt<'a>,
        ring: Ahead,
    ) -> Timeline<'a>
        requires ring { ring ≡ [] }
        requires router { IsRouterOf (timeline_at case.now retains time router.router.node) router }
        ensures { result ≡ timeline_at case.now retains time router.entry.router.node }
    {
        // What a case keeps is told by a read of it.
        let _ = case.instance();
        let RouterAt {
            router,
            events,
            newest,
            last_change,
        } = router;
        let past = Past::at(case, router.node(), retains, events, newest, time);
        Timeline {
            router,
            past,
            ahead: ring,
            room: OPENING_ROOM,
            past_change: last_change,
        }
    }

    /// The router without its records, and what is told of its events, all of which are committed.
    pub(crate) fn into_router(self) -> RouterAt<'a>
        requires { self.ahead ≡ [] }
        ensures { IsRouterOf self.entry result }
    {
        let newest = self.past.last().copied();
        RouterAt {
            router: self.router,
            events: self.past.into_events(),
            newest,
            last_change: self.past_change,
        }
    }

    /// Whether it has no event that it can undo.
    pub(crate) fn has_none_ahead(&self) -> bool
        ensures { IsTrue result ↔ (self.now.ahead ≡ []) }
    {
        self.ahead.len() == 0
    }
}
