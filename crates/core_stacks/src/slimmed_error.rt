//! Why there is no slim core.
ghost use Rattle.std.specs.Prelude.{◌≡◌};
ghost use Rattle.core_stacks.specs.declared.slimmed_error.SlimmedError.TheVariants.{OutOfMemory};

use core_slim::SlimError;
use py_process::CoreError;
use std::alloc::AllocError;
use thiserror::Error;

/// Why there is no slim core of a Python process.
#[derive(Debug, Drop, Error, PartialEq, Eq)]
pub enum SlimmedError {
    /// The stacks can't be read. It is never out of memory.
    #[error("{0}")]
    Core(CoreError),
    /// What was read for the stacks has this many pieces, which are more than 65533 (`core_slim::slim`).
    #[error("too many pieces: {count}")]
    TooManyPieces { count: u64 },
    /// There was no memory left.
    #[error("out of memory")]
    OutOfMemory,
}

impl From<CoreError> for SlimmedError {
    ghost use Rattle.core_stacks.specs.Slimmed.{refusal_of_core};

    ghost from_gives = { λ error refusal. refusal ≡ refusal_of_core error };

    fn from(error: CoreError) -> SlimmedError {
        match error {
            CoreError::OutOfMemory => SlimmedError::OutOfMemory,
            error => SlimmedError::Core(error),
        }
    }
}

impl From<SlimError> for SlimmedError {
    ghost use Rattle.core_stacks.specs.Slimmed.{refusal_of_slim};

    ghost from_gives = { λ error refusal. refusal ≡ refusal_of_slim error };

    fn from(error: SlimError) -> SlimmedError {
        match error {
            SlimError::TooManyPieces { count } => SlimmedError::TooManyPieces { count },
            SlimError::OutOfMemory => SlimmedError::OutOfMemory,
        }
    }
}
