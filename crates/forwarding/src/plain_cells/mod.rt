//! Forwarding cells of one thread, which are exact.
mod held;
mod minds;
mod plain_cells;
mod plain_ends;
mod plain_pass;
mod remembered;

pub use crate::plain_cells::plain_cells::PlainCells;
pub use crate::plain_cells::plain_pass::PlainPass;
