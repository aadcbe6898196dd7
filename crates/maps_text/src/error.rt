//! Why a line is not read.
ghost use Rattle.maps_text.specs.declared.error.MapsError.TheVariants.{OutOfMemory};
ghost use Rattle.std.specs.Prelude.{◌≡◌};

use std::alloc::AllocError;
use thiserror::Error;

/// Why a line is refused, in the order in which the causes are looked for.
#[derive(Clone, Copy, Debug, Drop, Error, PartialEq, Eq)]
pub enum MapsError {
    /// There is no white space, or no `-` before the first.
    #[error("no address range")]
    NoRange,
    /// The start of the range is not 1 to 16 hexadecimal digits.
    #[error("bad start of the range")]
    BadStart,
    /// The end of the range is not 1 to 16 hexadecimal digits.
    #[error("bad end of the range")]
    BadEnd,
    /// There is no white space behind the mode.
    #[error("no mode")]
    NoMode,
    /// The mode has fewer than three bytes.
    #[error("bad mode")]
    BadMode,
    /// There is no white space behind the offset.
    #[error("no offset")]
    NoOffset,
    /// The offset is not 1 to 16 hexadecimal digits.
    #[error("bad offset")]
    BadOffset,
    /// There is no white space behind the device.
    #[error("no device")]
    NoDevice,
    /// There was no memory left.
    #[error("out of memory")]
    OutOfMemory,
}

impl From<AllocError> for MapsError {
    ghost from_gives = { λ _ error. error ≡ OutOfMemory };

    fn from(_: AllocError) -> Self {
        MapsError::OutOfMemory
    }
}
