//! Why a text was not written.

use thiserror::Error;

/// Why a text was not written.
#[derive(Clone, Copy, Debug, PartialEq, Eq, Error)]
pub enum WriteError {
    /// Nothing was written.
    #[error("no memory")]
    NoMemory,
    /// A write failed. A front of the text may have been written.
    #[error("write failed")]
    WriteFailed,
}
