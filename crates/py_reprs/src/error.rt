//! Why no value is shown.
ghost use Rattle.std.specs.Prelude.{◌≡◌, ⊤};

use py_builtins::ObjectError;
use std::alloc::{AllocError, AllocFailed};
use thiserror::Error;

/// Why no value is shown. What can't be read is no error: it is told in the tree.
#[derive(Debug, Drop, Error, PartialEq, Eq)]
pub enum ReprError {
    /// There was no memory left.
    #[error("out of memory")]
    OutOfMemory,
}

impl<T: Drop> From<AllocFailed<T>> for ReprError {
    ghost use Rattle.std.specs.Prelude.{⊤};

    ghost from_gives = { λ _ _. ⊤ };

    fn from(_e: AllocFailed<T>) -> ReprError {
        ReprError::OutOfMemory
    }
}

impl From<AllocError> for ReprError {
    ghost use Rattle.std.specs.Prelude.{⊤};

    ghost from_gives = { λ _ _. ⊤ };

    fn from(_e: AllocError) -> ReprError {
        ReprError::OutOfMemory
    }
}

impl From<ReprError> for ObjectError {
    ghost use Rattle.py_builtins.specs.declared.error.ObjectError.TheVariants.{OutOfMemory};

    ghost from_gives = { λ _ e. e ≡ OutOfMemory };

    fn from(_e: ReprError) -> ObjectError {
        ObjectError::OutOfMemory
    }
}
