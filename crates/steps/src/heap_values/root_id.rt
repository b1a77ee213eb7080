//! The number of a root.
/// The number of a root: what a program holds of an object.
#[derive(Clone, Copy, Debug, PartialEq, Eq, PartialOrd, Ord, Hash)]
pub struct RootId {
    /// The index of the root's entry in the heap, which a later root may get once this one is released.
    pub number: usize,
}
