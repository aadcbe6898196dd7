//! Why words are not taken.
ghost use Rattle.std.specs.Prelude.{◌≡◌};

use std::alloc::{AllocError, AllocFailed};
use thiserror::Error;

/// Why words are not taken.
#[derive(Debug, Drop, Error, PartialEq, Eq)]
pub enum ArgsError {
    /// They are no words of the command.
    #[error("bad words")]
    Refused,
    /// There was no memory left.
    #[error("out of memory")]
    OutOfMemory,
}

impl From<AllocError> for ArgsError {
    ghost use Rattle.core_words.specs.declared.args_error.ArgsError.TheVariants.{OutOfMemory};

    ghost from_gives = { λ _ error. error ≡ OutOfMemory };

    fn from(_error: AllocError) -> ArgsError {
        ArgsError::OutOfMemory
    }
}

impl<T: Drop> From<AllocFailed<T>> for ArgsError {
    ghost use Rattle.core_words.specs.declared.args_error.ArgsError.TheVariants.{OutOfMemory};

    ghost from_gives = { λ _ error. error ≡ OutOfMemory };

    fn from(_error: AllocFailed<T>) -> ArgsError {
        ArgsError::OutOfMemory
    }
}
