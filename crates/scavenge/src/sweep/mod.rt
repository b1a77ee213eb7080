//! A worker's part, opened for a sweep over the block in hand.
mod cursor;
mod ends;
mod evacuating;
mod going;
mod racing;
mod slots;
mod sweep;

pub use sweep::Sweep;
