//! Runs of the engines for any model as tests: their states are the same, by one thread and by several.
#![tactic(auto)]

#[cfg(test)]
mod epidemics;
#[cfg(test)]
mod routers;
#[cfg(test)]
mod runs;
