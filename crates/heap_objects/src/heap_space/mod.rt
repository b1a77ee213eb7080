//! The blocks of a heap: those of the nurseries, and those that collections filled.
mod nurseries;
mod space;

pub use space::Space;
