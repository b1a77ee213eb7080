//! Why an event didn't come.
use scavenge::LookError;
use std::alloc::AllocError;
use thiserror::Error;

/// Why an event didn't come. The machine is as before.
#[derive(Clone, Copy, Debug, PartialEq, Eq, Error)]
pub enum StepError {
    /// It wasn't lawful.
    #[error("not lawful")]
    NotLawful,
    /// A copy needed a block, and all were drawn.
    #[error("heap full")]
    HeapFull,
    /// Memory was refused.
    #[error("no memory")]
    NoMemory,
}

impl From<AllocError> for StepError {
    ghost use Rattle.machine.specs.declared.step_error.StepError.TheVariants.{NoMemory};
    ghost use Rattle.std.specs.Prelude.{◌≡◌};

    ghost from_gives = { λ _ e. e ≡ NoMemory };

    fn from(_error: AllocError) -> StepError {
        StepError::NoMemory
    }
}

impl From<LookError> for StepError {
    ghost use Rattle.machine.specs.Errors.{refusal_of};
    ghost use Rattle.std.specs.Prelude.{◌≡◌};

    ghost from_gives = { λ x e. e ≡ refusal_of x };

    fn from(error: LookError) -> StepError {
        match error {
            LookError::HeapFull => StepError::HeapFull,
            LookError::NoMemory => StepError::NoMemory,
        }
    }
}
