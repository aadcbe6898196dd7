//! Why no core and image are written of a program.
use std::alloc::AllocError;
use thiserror::Error;

/// Why no core and image are written of a program, in the order in which it is looked at.
#[derive(Debug, Drop, Error, PartialEq, Eq)]
pub enum BuildError {
    /// The layout doesn't cover the version; or no number of CPython's tells the version: it has metadata, a number
    /// above 255, or flags other than none, `a`, `b` or `rc` with a number below 16, perhaps with zeros in front; or a
    /// thread holds the lock, the layout has it in the runtime record, and the version has no place for it there.
    #[error("the layout doesn't cover the version")]
    Uncovered,
    /// The first place at which the program can't be written: a thread and one of its frames, both counted from 0.
    #[error("the program can't be written at thread {thread}, frame {frame}")]
    NotValid { thread: u32, frame: u32 },
    /// The core could have `needed` bytes, which is more than 2^30.
    #[error("the core could have {needed} bytes")]
    NoRoom { needed: u64 },
    /// There was no memory left.
    #[error("out of memory")]
    OutOfMemory,
}

impl From<AllocError> for BuildError {
    ghost use Rattle.std.specs.Prelude.{◌≡◌};
    ghost use Rattle.image_builder.specs.declared.error.BuildError.TheVariants.{OutOfMemory};

    ghost from_gives = { λ _ error. error ≡ OutOfMemory };

    fn from(_: AllocError) -> BuildError {
        BuildError::OutOfMemory
    }
}
