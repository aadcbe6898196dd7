//! Why ranges are not written as a table.
use std::alloc::AllocError;
use thiserror::Error;

/// Why ranges are not written as a table.
#[derive(Debug, Drop, Error, PartialEq, Eq)]
pub enum EncodeError {
    /// The range at `index`, counted from 0, is the first that can't stand where it does: it doesn't begin
    /// where its forerunner ends (the first one at 0), it is empty, it ends past 2^31 - 1, in `Locations` it
    /// has an odd length, or in `Pairs` it has no line.
    #[error("range {index} can't stand where it does")]
    NotOrdered { index: u64 },
    /// The table would have 65536 bytes or more.
    #[error("a table of 65536 bytes or more")]
    TooLong,
    /// There was no memory left.
    #[error("out of memory")]
    OutOfMemory,
}

impl From<AllocError> for EncodeError {
    ghost use Rattle.std.specs.Prelude.{◌≡◌};
    ghost use Rattle.py_lines.specs.declared.error.EncodeError.TheVariants.{OutOfMemory};

    ghost from_gives = { λ _ error. error ≡ OutOfMemory };

    fn from(_: AllocError) -> EncodeError {
        EncodeError::OutOfMemory
    }
}
