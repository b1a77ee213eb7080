//! The roots of a heap: a place for each number that is in use.
mod roots;

pub use roots::Roots;
