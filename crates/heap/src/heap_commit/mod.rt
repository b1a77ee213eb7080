//! The end of a collection: what a commit does to the objects and the roots of a heap.
mod counts;
mod ending;
mod installing;
mod large_slots;
mod moved_fields;
mod moves;
mod root_writes;

pub use ending::commit;
