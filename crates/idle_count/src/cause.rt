//! Why a collection ended.

/// What ended a collection.
#[derive(Clone, Copy, PartialEq, Eq, Debug)]
pub enum Cause {
    /// It ended by itself. No collection raises this: it stands in the box of a seat until the seat raises a cause.
    Ended,
    /// A worker could not go on, or could not be started.
    Refused,
}
