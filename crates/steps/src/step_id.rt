//! A generation and one of its steps.
/// A generation and one of its steps, in the order in which objects age.
#[derive(Clone, Copy, Debug, Default, PartialEq, Eq, PartialOrd, Ord, Hash)]
pub struct StepId {
    /// The generation, 0 for the youngest.
    pub generation: u8,
    /// The step of that generation, 0 for the youngest.
    pub step: u8,
}
