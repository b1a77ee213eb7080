//! Blocks that a collection copies into.
mod allocation;
mod fronts;

pub use allocation::AllocationBlocks;
pub use fronts::{front_pointer, pass_front, place_behind, write_front};
