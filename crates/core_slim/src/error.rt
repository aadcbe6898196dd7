//! Why there is no slim core.
ghost use Rattle.core_slim.specs.declared.error.SlimError.TheVariants.{OutOfMemory};
ghost use Rattle.std.specs.Prelude.{◌≡◌};

use std::alloc::{AllocError, AllocFailed};
use thiserror::Error;

/// Why there is no slim core of some ranges.
#[derive(Clone, Copy, Debug, Drop, Error, PartialEq, Eq)]
pub enum SlimError {
    /// The ranges have this many pieces, which are more than 65533: the header of a file counts its segments in two
    /// bytes, of which one is that of the notes, and 65535 says that they are counted elsewhere.
    #[error("too many pieces: {count}")]
    TooManyPieces { count: u64 },
    /// There was no memory left.
    #[error("out of memory")]
    OutOfMemory,
}

impl From<AllocError> for SlimError {
    ghost from_gives = { λ _ error. error ≡ OutOfMemory };

    fn from(_: AllocError) -> Self {
        SlimError::OutOfMemory
    }
}

impl<T: Drop> From<AllocFailed<T>> for SlimError {
    ghost from_gives = { λ _ error. error ≡ OutOfMemory };

    fn from(_: AllocFailed<T>) -> Self {
        SlimError::OutOfMemory
    }
}
