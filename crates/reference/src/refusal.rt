//! Why a command was not carried out.
use model::Kind;

/// Why a command was not carried out.
#[derive(Clone, Copy, Debug, PartialEq, Eq)]
pub enum Refusal {
    /// Something is wrong with its line.
    Fault(Kind),
    /// Memory was refused.
    NoMemory,
}
