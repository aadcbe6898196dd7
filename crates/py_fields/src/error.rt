//! Why no version is found.
use std::alloc::AllocError;
use thiserror::Error;

/// Why no version is found in some bytes.
#[derive(Debug, Drop, Error, PartialEq, Eq)]
pub enum ScanError {
    /// No version is spelled anywhere in them.
    #[error("no version")]
    NotFound,
    /// There was no memory left.
    #[error("out of memory")]
    OutOfMemory,
}

impl From<AllocError> for ScanError {
    ghost use Rattle.std.specs.Prelude.{◌≡◌};
    ghost use Rattle.py_fields.specs.declared.error.ScanError.TheVariants.{OutOfMemory};

    ghost from_gives = { λ _ e. e ≡ OutOfMemory };

    fn from(_e: AllocError) -> ScanError {
        ScanError::OutOfMemory
    }
}
