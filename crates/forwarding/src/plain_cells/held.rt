//! What a plain cell holds, as contracts see it.
use layout::Place;

/// The place of a cell, and the number of the pass that won it. No value of it is made.
pub struct Held {
    /// The place that was won, whose short word stands in the cell.
    pub place: Place,
    /// The number of the pass, from 0 and below the number of passes.
    pub winner: usize,
}
