//! The parallel Time Warp engine, for any model (after Jefferson, Virtual Time, 1985).
//!
//! A `TimeWarp` has a logical process for each process of a model. One thread alone goes on, event by event in the
//! sequential run's own order, or all go on in rounds, where a clock tells that this is faster. In a round each thread has
//! a share of them: they receive what they were sent and commit, and then, again and again, the first event among them is
//! handled, as far ahead of the bound as a window of optimism allows (Sokol, Briscoe, Wieland, Moving Time Window, 1988).
//! What is sent within the share is received at once. What is for other shares is dealt out when all are done, and the
//! bound (global virtual time) rises to the least time of all that waits or is on its way. Proved, once for every model: a
//! complete run is the sequential run that `tw_sim` defines, whatever the threads do; and where a run ends sooner, it is so
//! up to its bound, and a later call goes on from there. Nothing here promises that a thread runs.
#![tactic(auto)]

mod alone;
mod counts;
mod course;
mod dealing;
mod least;
mod limits;
mod member;
mod rounds;
mod schedule;
mod sent;
mod share;
mod time_warp;
mod turning;
mod waiting;
mod window;

pub use counts::Counts;
pub use time_warp::TimeWarp;
