//! The table of a heap's blocks by number, and how a collection changes it.
mod area_flags;
mod counts;
mod exchanging;
mod flagging;
mod table;

pub use area_flags::AreaFlags;
pub use counts::{bases, count_step, young_blocks};
pub use exchanging::{end_of, exchange, grow};
pub use flagging::{add_blocks, areas_of, remove_blocks};
pub use table::{Table, block_object, block_of, object_from, set_plain, set_pointer, step_at};
