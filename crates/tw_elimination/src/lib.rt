//! What elimination leaves to each router of a case, whatever the delays of its links: round by round
//! fewer of its paths, until a round leaves as many as the one before. Where some router then has a choice,
//! a dispute wheel; and whether all paths of an instance stand in one list, so that it is robust.
//!
//! The definitions, and what they have to do with the runs of a case, stand in `tw_policy`. Proved
//! here: the lists that the code computes are those of the definition, after as many rounds as it tells.
#![tactic(auto)]

mod bound;
mod elimination;
pub mod laws;
mod marks;
mod narrowing;
mod placing;
mod remaining;
mod standing;
mod wheel;

pub use elimination::{Elimination, eliminate};
pub use narrowing::eliminate_within;
pub use placing::has_one_list;
pub use standing::standing_routers;
pub use wheel::Pivot;
