//! The table of a heap's blocks by number, and the nursery in it: the blocks that one mutator fills with new objects.
#![tactic(auto)]

mod block_table;
mod filling;

pub use block_table::{
    AreaFlags, Table, add_blocks, areas_of, bases, block_object, block_of, count_step, end_of,
    exchange, grow, object_from, remove_blocks, set_plain, set_pointer, step_at, young_blocks,
};
pub use filling::{Nursery, NurseryFull};
