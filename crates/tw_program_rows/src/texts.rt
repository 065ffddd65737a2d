//! What the program writes for the cases of the worked rows.

/// Its report to stop 10, with the events.
pub(crate) const ALONE_LOG: &str = "\
spp-report 1
stop 10
bound 10
event 0 0 start
router 0 sent 0 handled 1 dropped 0 changed 1 rib (0)
verdict quiet 0
";

/// The report of DISAGREE to stop 20, with the events.
pub(crate) const DISAGREE_LOG: &str = "\
spp-report 1
stop 20
bound 20
event 0 0 start
event 1 1 update 0 0 0 (0)
event 2 0 update 1 0 0 (1 0)
event 2 2 update 1 1 0 (1 0)
event 3 1 update 2 1 0 (2 1 0)
event 5 2 update 0 1 0 (0)
event 7 0 update 2 0 0 (2 1 0)
router 0 sent 2 handled 3 dropped 0 changed 1 rib (0)
router 1 sent 2 handled 2 dropped 0 changed 1 rib (1 0)
router 2 sent 2 handled 2 dropped 0 changed 1 rib (2 1 0)
verdict quiet 2
";

/// DISAGREE in version 2.
pub(crate) const DISAGREE_UPGRADED: &str = "\
spp 2
nodes 3
link 0 1 1 1
link 0 2 5 5
link 1 2 1 1
path 1 1 2 0
path 1 1 0
path 2 2 1 0
path 2 2 0
end
";
