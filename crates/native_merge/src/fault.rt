//! Why a source's bytes weren't given.
use thiserror::Error;

/// Why a source's bytes weren't given.
#[derive(Clone, Copy, Debug, Drop, Error, PartialEq, Eq)]
pub enum SourceFault {
    /// There is no such path.
    #[error("the source does not exist")]
    Missing,
    /// The path exists, and its bytes could not be read.
    #[error("the source cannot be read")]
    Failed,
    /// There was no memory left.
    #[error("out of memory")]
    OutOfMemory,
}
