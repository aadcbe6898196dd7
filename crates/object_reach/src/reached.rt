//! What a search gives.
ghost use Rattle.std.specs.Prelude.{◌≡◌};

use py_builtins::ObjectError;
use std::alloc::{AllocError, AllocFailed};
use thiserror::Error;

/// An object that is reached.
#[derive(Debug, Drop, PartialEq, Eq)]
pub struct ReachObject {
    /// Its address.
    pub addr: u64,
    /// Why it is broken, if it is: it has no children then.
    pub broken: Option<ObjectError>,
}

/// Why there is no list of what is reached.
#[derive(Debug, Drop, Error, PartialEq, Eq)]
pub enum ReachError {
    /// More than 2^20 objects are reached, or they have more than 2^24 slots in all.
    #[error("more than 1048576 objects or 16777216 slots")]
    ReachLimit,
    /// There was no memory left.
    #[error("out of memory")]
    OutOfMemory,
}

impl From<AllocError> for ReachError {
    ghost use Rattle.object_reach.specs.declared.reached.ReachError.TheVariants.{OutOfMemory};

    ghost from_gives = { λ _ e. e ≡ OutOfMemory };

    fn from(_e: AllocError) -> ReachError {
        ReachError::OutOfMemory
    }
}

impl<T: Drop> From<AllocFailed<T>> for ReachError {
    ghost use Rattle.object_reach.specs.declared.reached.ReachError.TheVariants.{OutOfMemory};

    ghost from_gives = { λ _ e. e ≡ OutOfMemory };

    fn from(_e: AllocFailed<T>) -> ReachError {
        ReachError::OutOfMemory
    }
}
