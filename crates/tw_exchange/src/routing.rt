//! The exchange of routing's events.

use crate::exchange::AnyExchange;
use crate::parcels::AnyParcels;
use crate::visit::{AnyBack, AnyVisit};
use tw_event::Event;

/// Where workers leave routing's messages for one another, and learn the bound.
pub type Exchange = AnyExchange<Event>;

/// Routing's messages, dealt out.
pub type Parcels = AnyParcels<Event>;

/// What a worker of routing's is told at a visit.
pub type Visit = AnyVisit<Event>;

/// A visit of routing's that changed nothing.
pub type Back = AnyBack<Event>;
