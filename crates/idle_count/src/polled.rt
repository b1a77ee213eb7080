//! What an idle seat is told.

/// Whether all seats are idle.
#[derive(Clone, Copy, PartialEq, Eq, Debug)]
pub enum Polled {
    /// All are, for good.
    Ended,
    /// Some were not.
    Going,
}
