//! Cells that are set once, as a worker sees them, and what settling them answers.
mod cells;
mod forwards;
mod outcome;

pub use crate::cells::cells::Cells;
pub use forwards::{Forwards, SettleError};
pub use outcome::Outcome;
