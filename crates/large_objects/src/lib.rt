//! Large objects: each has blocks of its own from a pool, never moves, and is found by its number.
#![tactic(auto)]

mod granting;
mod stored;
mod table;

pub use table::LargeTable;
