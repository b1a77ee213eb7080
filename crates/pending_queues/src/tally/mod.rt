//! A count that threads raise and read, and what the seats know of it together.
mod tally;
mod tally_plays;

pub use tally::{Tally, TallySeat};
