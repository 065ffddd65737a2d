//! Which cases come to rest whatever the delays of their links, and which stable assignments a case has,
//! as definitions and laws over the definitions of `tw_model`.
//!
//! The definitions stand in `specs/`: what elimination leaves to each router, stable assignments and a
//! search for them, dispute wheels, and how routers stand once a script is over. Proved, and told by
//! the functions of `laws`: what they have to do with one another and with the runs of a case. Not
//! proved here: that any code computes them.
#![tactic(auto)]

pub mod laws;
