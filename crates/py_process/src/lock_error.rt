//! Why the lock of an interpreter is not found.
use thiserror::Error;

/// Why the lock of an interpreter is not found.
#[derive(Debug, Drop, Error, PartialEq, Eq)]
pub enum LockError {
    /// The word of the interpreter that holds the lock's address is not in memory: `len` bytes at `addr`.
    #[error("lock unreadable at {addr:#x}, {len} bytes")]
    Unreadable { addr: u64, len: u64 },
    /// The holder alone was asked for, and a symbol or an offset that tells where the lock is is missing.
    #[error("no lock")]
    NoLock,
    /// There was no memory left.
    #[error("out of memory")]
    OutOfMemory,
}
