//! What a worker knows of its current slot.
use layout::Place;

/// The current slot, as far as the worker itself knows it.
#[derive(Clone, Copy)]
pub enum Current {
    /// What it holds, where there is one.
    Holds(Option<Option<Place>>),
    /// It is the pointer with this number of a large object, which stands in the heap.
    OfLarge(Place, usize),
}
