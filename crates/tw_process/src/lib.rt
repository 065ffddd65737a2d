//! What a user of the simulator writes: a model, whose processes handle events and can take them back.
//!
//! A `ProcessModel` has a forward handler and a reverse handler for the events of its logical processes, and a
//! `Behaviour`, which says in contracts alone what each process does. Proved here, once for every model: where it
//! keeps the few laws that `keeps_laws` asks for, its simulation keeps all that `tw_sim` and `tw_core` rest on
//! (`laws`), so the sequential run to each time ends, is the only one, and is what rolling back leads to.
//! `Event` is an event with a body of the model's own, whose order needs no proof; routing's events are `Timed` too.
//! `proofs/Plain.antt` and `proofs/First.antt` help to prove a model's laws: what a process sends is stamped with its
//! numbers.
#![tactic(auto)]

mod body;
mod event;
pub mod laws;
pub mod limits;
mod model;
mod refused;
mod routing;
mod timed;

pub use body::Body;
pub use event::Event;
pub use model::ProcessModel;
pub use refused::Refused;
pub use timed::Timed;
