//! The objects of blocks, and the large ones, as those of a graph: where their pointers lead, and which point to younger
//! objects.
mod holders;
mod old_slots;
mod remembered;
mod targets;

pub use old_slots::push_slots_of;
pub use remembered::{count_remembered, is_holder};
