//! Why no interpreter is found.
ghost use Rattle.std.specs.Prelude.{◌≡◌};
ghost use Rattle.py_process.specs.declared.search_error.SearchError.TheVariants.{OutOfMemory};

use std::alloc::AllocError;
use thiserror::Error;

/// Why no interpreter is found.
#[derive(Debug, Drop, Error, PartialEq, Eq)]
pub enum SearchError {
    /// No candidate is an interpreter.
    #[error("no interpreter")]
    NotFound,
    /// There was no memory left.
    #[error("out of memory")]
    OutOfMemory,
}

impl From<AllocError> for SearchError {
    ghost from_gives = { λ _ error. error ≡ OutOfMemory };

    fn from(_: AllocError) -> SearchError {
        SearchError::OutOfMemory
    }
}
