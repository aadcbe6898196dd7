//! Why the frames of a thread are not merged with native addresses.
ghost use Rattle.std.specs.Prelude.{◌≡◌};
ghost use Rattle.core_merge.specs.declared.error.CoreMergeError.TheVariants.{OutOfMemory};

use std::alloc::{AllocError, AllocFailed};
use thiserror::Error;

/// Why the frames of a thread are not merged with native addresses, in the order in which the causes are looked for.
#[derive(Clone, Copy, Debug, Drop, Error, PartialEq, Eq)]
pub enum CoreMergeError {
    /// A line of the addresses is no `0x` and 1 to 16 hexadecimal digits: the first such line, counted from 1.
    #[error("line {line} is no address")]
    BadLine { line: u64 },
    /// The place of a map in its file, in bytes, passes 2^64 - 1.
    #[error("a map's place in its file passes 2^64 - 1")]
    BadOffset,
    /// Two maps overlap.
    #[error("maps overlap")]
    MapsOverlap,
    /// The place of an address in its file passes 2^64 - 1.
    #[error("an address's place in its file passes 2^64 - 1")]
    OffsetOverflow,
    /// The interpreter's steps leave Python frames over, or go on past them: see `native_merge::MergeError`.
    #[error("{steps} interpreter steps, {frames} Python frames")]
    Mismatch { steps: u64, frames: u64 },
    /// There was no memory left.
    #[error("out of memory")]
    OutOfMemory,
}

impl From<AllocError> for CoreMergeError {
    ghost from_gives = { λ _ error. error ≡ OutOfMemory };

    fn from(_: AllocError) -> Self {
        CoreMergeError::OutOfMemory
    }
}

impl<T: Drop> From<AllocFailed<T>> for CoreMergeError {
    ghost from_gives = { λ _ error. error ≡ OutOfMemory };

    fn from(_: AllocFailed<T>) -> Self {
        CoreMergeError::OutOfMemory
    }
}
