//! Case texts of the worked rows.

/// The origin alone.
pub const ALONE: &str = "\
spp 1
nodes 1
end
";

/// DISAGREE with delays 1, 5 and 1.
pub const DISAGREE: &str = "\
spp 1
nodes 3
link 0 1 1
link 0 2 5
link 1 2 1
path 1 1 2 0
path 1 1 0
path 2 2 1 0
path 2 2 0
end
";

/// A link that fails and is repaired while an update is under way.
pub const FAILURE_AND_REPAIR: &str = "\
spp 1
nodes 3
link 0 1 3
link 1 2 3
path 1 1 0
path 2 2 1 0
fail 4 1 2
restore 5 1 2
end
";

/// DISAGREE with an exchange of ranks at router 1 at time 8.
pub const RANK_EXCHANGE: &str = "\
spp 1
nodes 3
link 0 1 1
link 0 2 5
link 1 2 1
path 1 1 0
path 1 1 2 0
path 2 2 1 0
path 2 2 0
swap 8 1 1 2
end
";

/// DISAGREE in version 2, with a link whose directions have delays of their own, and a path that is forbidden at
/// router 2 from 9 to 20.
pub const FORBIDDEN_PATH: &str = "\
spp 2
nodes 3
link 0 1 1 1
link 0 2 5 5
link 1 2 1 2
path 1 1 2 0
path 1 1 0
path 2 2 1 0
path 2 2 0
forbid 9 2 1
allow 20 2 1
end
";
