//! The lines of a trace: how they are read, and why a run of them stops.
mod attempt;
mod fault;
mod lines;

pub use attempt::Attempt;
pub use fault::{Fault, write_fault};
pub use lines::{Lines, MOST_PIECE, Next};
