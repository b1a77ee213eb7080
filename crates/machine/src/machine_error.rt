//! Why a machine didn't open.
use heap::OpenError;
use std::alloc::AllocError;
use thiserror::Error;

/// Why a machine didn't open.
#[derive(Clone, Copy, Debug, PartialEq, Eq, Error)]
pub enum MachineError {
    /// There are 1 to 16 workers.
    #[error("there are 1 to 16 workers")]
    BadConfig,
    /// The generation's number is not below the number of generations.
    #[error("no such generation")]
    NoGeneration,
    /// Memory was refused.
    #[error("no memory")]
    NoMemory,
}

impl From<AllocError> for MachineError {
    ghost use Rattle.machine.specs.declared.machine_error.MachineError.TheVariants.{NoMemory};
    ghost use Rattle.std.specs.Prelude.{◌≡◌};

    ghost from_gives = { λ _ e. e ≡ NoMemory };

    fn from(_error: AllocError) -> MachineError {
        MachineError::NoMemory
    }
}

impl From<OpenError> for MachineError {
    ghost use Rattle.machine.specs.Errors.{error_of_open};
    ghost use Rattle.std.specs.Prelude.{◌≡◌};

    ghost from_gives = { λ x e. e ≡ error_of_open x };

    fn from(error: OpenError) -> MachineError {
        match error {
            OpenError::NoGeneration => MachineError::NoGeneration,
            OpenError::NoMemory => MachineError::NoMemory,
        }
    }
}
