//! What is held under lazy cancellation: what undone events had sent, by sender, until it is sent again or taken back.
#![tactic(auto)]

mod held;
mod sender_table;

pub use held::HeldSends;
