//! An epidemic on a grid, as a small model (own; the tutorial's example in `docs/MODELS.md`).
//!
//! Each cell of a grid, whose rows go on in one another and the last in the first, is a process. A contact that comes to a healthy cell
//! infects it, and it makes contact with its four neighbours, each after a delay that the two cells and the seed
//! determine. A contact that comes to an infected cell is only counted. Proved: the handlers do what
//! `specs/Epidemic.antt` says, the reverse handler gives back the cell that was, and the model keeps the laws of
//! `tw_process`.
#![tactic(auto)]

mod epidemic;
mod handlers;

pub use epidemic::{Cell, Epidemic};
