//! Forwarding cells that are words, which threads share.
mod closed;
mod ends;
mod plays;
mod shared;
mod word_cells;

pub(crate) use crate::word_cells::closed::ClosedWords;
pub use crate::word_cells::word_cells::{WordCells, WordPass};
