//! Why a collection wasn't settled.
use std::alloc::AllocError;
use thiserror::Error;

/// Why a collection wasn't settled. The heap is as before.
#[derive(Clone, Copy, Debug, PartialEq, Eq, Error)]
pub enum SettleError {
    /// Some worker hasn't ended.
    #[error("a worker hasn't ended")]
    NotEnded,
    /// Memory was refused.
    #[error("no memory")]
    NoMemory,
}

impl From<AllocError> for SettleError {
    ghost use Rattle.machine.specs.declared.interleaved_settling.settle_error.SettleError.TheVariants.{NoMemory};
    ghost use Rattle.std.specs.Prelude.{◌≡◌};

    ghost from_gives = { λ _ e. e ≡ NoMemory };

    fn from(_error: AllocError) -> SettleError {
        SettleError::NoMemory
    }
}
