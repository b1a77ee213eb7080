//! Forwarding cells that hold boxes, which threads share.
mod bid;
mod box_cells;
mod box_notes;
mod box_settle;
mod box_shared;

pub use crate::box_cells::box_cells::{BoxCells, BoxPass};
