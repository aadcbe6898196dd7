//! Why addresses are not normalized.
ghost use Rattle.normalize_core.specs.declared.error.NormalizeError.TheVariants.{OutOfMemory};
ghost use Rattle.std.specs.Prelude.{◌≡◌};

use std::alloc::{AllocError, AllocFailed};
use thiserror::Error;

/// Why addresses are not normalized, in the order in which the causes are looked for.
#[derive(Clone, Copy, Debug, Drop, Error, PartialEq, Eq)]
pub enum NormalizeError {
    /// There are no entries. It comes for no addresses as well.
    #[error("no entries")]
    NoEntries,
    /// The start of an entry passes its end, or the end of one passes the start of the next.
    #[error("entries out of order")]
    EntriesUnsorted,
    /// The addresses were said to be sorted, and one is below the one before it.
    #[error("addresses out of order")]
    AddrsUnsorted,
    /// The place of an address in its file passes 2^64 - 1.
    #[error("file offset past 2^64 - 1")]
    OffsetOverflow,
    /// There was no memory left.
    #[error("out of memory")]
    OutOfMemory,
}

impl From<AllocError> for NormalizeError {
    ghost from_gives = { λ _ error. error ≡ OutOfMemory };

    fn from(_: AllocError) -> Self {
        NormalizeError::OutOfMemory
    }
}

impl<T: Drop> From<AllocFailed<T>> for NormalizeError {
    ghost from_gives = { λ _ error. error ≡ OutOfMemory };

    fn from(_: AllocFailed<T>) -> Self {
        NormalizeError::OutOfMemory
    }
}
