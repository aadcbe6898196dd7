//! What calls outside may answer in place of Ok.
use thiserror::Error;

/// Why a file's bytes weren't given.
#[derive(Clone, Copy, Debug, Drop, Error, PartialEq, Eq)]
pub enum FileFault {
    /// There is no such file, or it can't be read.
    #[error("the file cannot be read")]
    Failed,
    /// It has more than 2^36 bytes.
    #[error("the file is too long")]
    TooLong,
    /// There was no memory left.
    #[error("out of memory")]
    OutOfMemory,
}

/// Why a piece wasn't written.
#[derive(Clone, Copy, Debug, Drop, Error, PartialEq, Eq)]
pub enum SinkFault {
    /// The stream failed; a front of the piece may have been written.
    #[error("the stream cannot be written")]
    Failed,
}
