//! The run of a case on one thread.
//!
//! `OneThread` takes the least pending event again and again, handles it at its router and puts what
//! that sends among the pending events; `LoggedRun` retains the events handled as well, and `TracedRun` notes
//! of each router what a parallel run asks for that goes on from there. Contracts see each as a `Run`: the
//! case, the greatest stop asked for, the events handled, oldest first, and the events pending, in order.
//! `Running` is what all do, and `run_watched` runs any with a watch. A run can be taken apart, and one goes
//! on from what the sequential run to a stop leaves. Proved: a run is the sequential run to its stop, or
//! after a fault as many of that run's events as were handled; a full counter is told exactly where the next
//! event would pass a limit; `outcome` tells all of it; what is noted of a router is of its own events. The
//! functions of `laws` are statements on the sequential run of every case. Not proved: its speed, and
//! that it finds memory.
#![tactic(auto)]

pub mod laws;
mod logged_run;
mod one_thread;
mod routers;
mod running;
mod traced_run;
mod turn;
mod watched;

pub use logged_run::LoggedRun;
pub use one_thread::OneThread;
pub use running::Running;
pub use traced_run::{RouterTrace, TracedRun};
pub use tw_handlers::CounterFull;
pub use tw_model::{OrMemory, Outcome, RouterEnd};
pub use watched::run_watched;
