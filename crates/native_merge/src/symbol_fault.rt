//! Why an address shows nothing.
use thiserror::Error;

/// Why an address shows nothing.
#[derive(Clone, Copy, Debug, Drop, Error, PartialEq, Eq)]
pub enum SymbolFault {
    /// It lies in no file that the symbolicator knows.
    #[error("the address lies in no known file")]
    NoBinary,
    /// It could not be looked up.
    #[error("the address cannot be looked up")]
    Failed,
    /// There was no memory left.
    #[error("out of memory")]
    OutOfMemory,
}
