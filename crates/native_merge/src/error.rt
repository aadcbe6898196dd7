//! Why contents have no map.
ghost use Rattle.std.specs.Prelude.{◌≡◌};
ghost use Rattle.native_merge.specs.declared.error.SourceMapError.TheVariants.{OutOfMemory};

use std::alloc::{AllocError, AllocFailed};
use thiserror::Error;

/// Why a C file's contents have no map.
#[derive(Clone, Copy, Debug, Drop, Error, PartialEq, Eq)]
pub enum SourceMapError {
    /// They have 2^32 - 2 lines or more.
    #[error("the source has too many lines")]
    TooLong,
    /// There was no memory left.
    #[error("out of memory")]
    OutOfMemory,
}

impl From<AllocError> for SourceMapError {
    ghost from_gives = { λ _ error. error ≡ OutOfMemory };

    fn from(_: AllocError) -> Self {
        SourceMapError::OutOfMemory
    }
}

impl<T: Drop> From<AllocFailed<T>> for SourceMapError {
    ghost from_gives = { λ _ error. error ≡ OutOfMemory };

    fn from(_: AllocFailed<T>) -> Self {
        SourceMapError::OutOfMemory
    }
}
