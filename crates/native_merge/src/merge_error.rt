//! Why frames are not merged.
ghost use Rattle.std.specs.Prelude.{◌≡◌};
ghost use Rattle.native_merge.specs.declared.merge_error.MergeError.TheVariants.{OutOfMemory};

use std::alloc::{AllocError, AllocFailed};
use thiserror::Error;

/// Why frames are not merged.
#[derive(Clone, Copy, Debug, Drop, Error, PartialEq, Eq)]
pub enum MergeError {
    /// The steps of the interpreter leave Python frames over, or go on past them. `steps` is the place among the Python
    /// frames that the steps came to, where each step past their end counts as one frame more; it stays at
    /// 2^64 - 1. `frames` is how many Python frames there are.
    #[error("{steps} interpreter steps, {frames} Python frames")]
    Mismatch { steps: u64, frames: u64 },
    /// There was no memory left.
    #[error("out of memory")]
    OutOfMemory,
}

impl From<AllocError> for MergeError {
    ghost from_gives = { λ _ error. error ≡ OutOfMemory };

    fn from(_: AllocError) -> Self {
        MergeError::OutOfMemory
    }
}

impl<T: Drop> From<AllocFailed<T>> for MergeError {
    ghost from_gives = { λ _ error. error ≡ OutOfMemory };

    fn from(_: AllocFailed<T>) -> Self {
        MergeError::OutOfMemory
    }
}
