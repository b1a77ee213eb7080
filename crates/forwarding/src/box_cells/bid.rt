//! What a boxed cell holds.
use layout::Place;

/// A place, and the number of the pass that put it into the cell.
#[derive(Clone, Copy)]
pub struct Bid {
    /// The place of the copy, which the cell shows for good once this bid is in it.
    pub place: Place,
    /// The number of the pass that raced, from 0 and below the number of passes.
    pub pass: usize,
}
