//! Where the workers of a parallel run meet: one exchange, which one of them at a time takes from the
//! table and gives back (after Jefferson, Virtual Time, 1985; the rule is the project's own).
//!
//! A worker has a `Seat`. It may deal what it has sent to the workers that it is for. Then it takes the exchange,
//! visits it with its mail, and gives it back with its shard and its hand as they are by then. The table keeps the rule of `tw_rule`: at every moment the exchange
//! and what the workers gave last are a good state of the Time Warp machine of one case. `give` asks its
//! caller for its own part of this alone, `take` and `close` tell it. Nothing here starts a thread.
//! A call that waits promises what it says only if it returns.
#![tactic(auto)]

mod calls;
mod hand;
mod hints;
pub mod laws;
mod patience;
mod rule;
mod seat;
mod table;
mod visits;

pub use hand::Hand;
pub use seat::{Held, Seat};
pub use table::{Missing, Table};
pub use tw_exchange::{Back, Exchange, OrMemory, Parcels, Told, Visit, VisitFault};
