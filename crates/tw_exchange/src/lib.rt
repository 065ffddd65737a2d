//! What the workers of a parallel run pass on to one another: messages, reports of what each still
//! has, and the bound that follows from these (after Jefferson, Virtual Time, 1985, where the bound is
//! called global virtual time).
//!
//! Contracts see an `AnyExchange` as the `AnyBoard` of `specs/AnyBoard`: the mail of each worker in the order
//! deposited, each worker's report, the bound, the stop and whether the workers shall halt; and the worker
//! of each router where a list says it, without which routers are dealt out in turn. A worker calls `visit`,
//! which deposits what it has sent, hands out its mail, and computes the new bound. Or it deals what it has sent
//! to `AnyParcels` first, and calls `visit_dealt`, which does the same with whole lists. Between visits a router
//! may go to another worker, by `take_for` and `set_owner`. Nothing here waits or knows of threads.
//!
//! Events are of any kind that is `Timed`. `Exchange`, `Parcels`, `Visit` and `Back` are the types at routing's
//! events, whose definitions `specs/Board` has.
#![tactic(auto)]

mod exchange;
mod joining;
pub mod laws;
mod mail;
mod owners;
mod parcels;
mod routing;
mod rows;
mod times;
mod visit;

pub use exchange::AnyExchange;
pub use owners::Owners;
pub use parcels::AnyParcels;
pub use routing::{Back, Exchange, Parcels, Visit};
pub use tw_model::OrMemory;
pub use tw_sim::Signed;
pub use visit::{AnyBack, AnyVisit, Told, VisitFault};
