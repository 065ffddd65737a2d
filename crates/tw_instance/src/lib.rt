//! Instances of the stable paths problem, and cases: an instance with a scenario. Both are built item
//! by item, and each value keeps every rule at any time.
//!
//! Contracts see an `Instance` as a net and a `Case` as a net with its scenes and its version (`Net`
//! and `Case` of `tw_model`). The tables by router, from which look-ups are answered, stand in the
//! invariants alone.
//!
//! Proved: an item is refused exactly where it breaks a rule, by the lowest rule that it breaks, and
//! the value is then as it was; a whole is refused at its first such item, and a case for its version
//! after all others; each look-up answers what the net says, and `extend` and `number` find a path
//! wherever there is one. Not proved: that a look-up takes less time than a search of all paths, and
//! what an error is shown as.
#![tactic(auto)]

mod adjacency;
mod case;
mod chains;
mod extensions;
mod index;
mod instance;
mod opening;
mod peers;
mod refusal;
mod rules;
mod tables;

pub use case::Case;
pub use instance::Instance;
pub use refusal::{At, Item};
pub use tw_model::{Hop, Link, OrMemory, PermittedPath, Rule, Scene};
