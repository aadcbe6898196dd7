//! Why a text is not printed.
ghost use Rattle.std.specs.Prelude.{◌≡◌};

use outside::SinkFault;
use std::alloc::AllocError;
use thiserror::Error;

/// Why a text is not printed, or not all of it.
#[derive(Debug, Drop, Error, PartialEq, Eq)]
pub enum PrintError {
    /// The stream failed; a front of the text was written.
    #[error("{0}")]
    Sink(SinkFault),
    /// There was no memory left.
    #[error("out of memory")]
    OutOfMemory,
}

impl From<AllocError> for PrintError {
    ghost use Rattle.core_texts.specs.declared.print_error.PrintError.TheVariants.{OutOfMemory};

    ghost from_gives = { λ _ error. error ≡ OutOfMemory };

    fn from(_error: AllocError) -> PrintError {
        PrintError::OutOfMemory
    }
}
