//! How far a line came.

/// How far a line came that met no fault.
#[derive(Clone, Copy, Debug, PartialEq, Eq)]
pub enum Attempt {
    /// It was carried out.
    Done,
    /// A new object wants room in its mutator's nursery first. Nothing has changed.
    NurseryFull,
}
