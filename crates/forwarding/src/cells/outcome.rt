//! How a race ends.
use layout::Place;

/// How a race for a name's place ended.
#[derive(Clone, Copy, PartialEq, Eq, Debug)]
pub enum Outcome {
    /// The cell was empty: it now shows the place passed.
    Won,
    /// The cell showed this place already.
    Lost(Place),
}
