//! Why an object is not read.
ghost use Rattle.std.specs.Prelude.{◌≡◌};

use process_memory::ReadFault;
use std::alloc::AllocError;
use thiserror::Error;

/// Why an object is not read.
#[derive(Debug, Drop, Error, PartialEq, Eq)]
pub enum ObjectError {
    /// A byte of a range that was asked for is not in memory. `addr` and `len`, in bytes, are the range;
    /// a range whose address was computed outside 0 to 2^64 - 1 has the address 2^64 - 1.
    #[error("{len} bytes at {addr:#x} are not in memory")]
    Unreadable { addr: u64, len: u64 },
    /// What stands in place of a text's characters is none.
    #[error("not a text")]
    NoText,
    /// The stated length is negative, or more than is read.
    #[error("a stated length of {len}")]
    TooLong { len: i64 },
    /// The numbers of a dict can't be.
    #[error("not a dict")]
    BadDict,
    /// The name of a type is no text.
    #[error("a type without a name")]
    BadType,
    /// A value has more parts than are shown.
    #[error("too many parts")]
    Visits,
    /// A value has more levels than are shown.
    #[error("too many levels")]
    Depth,
    /// A stated count is negative.
    #[error("a stated count of {count}")]
    BadCount { count: i64 },
    /// The byte of a truth value is neither 0 nor 1.
    #[error("a truth value of {byte}")]
    BadBool { byte: u8 },
    /// There was no memory left.
    #[error("out of memory")]
    OutOfMemory,
}

impl From<ReadFault> for ObjectError {
    ghost use Rattle.process_memory.specs.Seen.{read_fault};
    ghost use Rattle.py_builtins.specs.ObjectError.{object_fault};

    ghost from_gives = { λ e d. object_fault d ≡ read_fault e };

    fn from(e: ReadFault) -> ObjectError {
        match e {
            ReadFault::Unreadable { addr, len } => ObjectError::Unreadable { addr, len },
            ReadFault::OutOfMemory => ObjectError::OutOfMemory,
        }
    }
}

impl From<AllocError> for ObjectError {
    ghost use Rattle.py_builtins.specs.declared.error.ObjectError.TheVariants.{OutOfMemory};

    ghost from_gives = { λ _ e. e ≡ OutOfMemory };

    fn from(_e: AllocError) -> ObjectError {
        ObjectError::OutOfMemory
    }
}
