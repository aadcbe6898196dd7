//! Why no version is known.
ghost use Rattle.std.specs.Prelude.{◌≡◌};
ghost use Rattle.py_process.specs.declared.version_error.VersionError.TheVariants.{OutOfMemory};

use process_memory::ReadFault;
use std::alloc::AllocError;
use thiserror::Error;

/// Why the version of a process is not known.
#[derive(Debug, Drop, Error, PartialEq, Eq)]
pub enum VersionError {
    /// A byte of the version's number, or of a section that is looked through, is not in memory. `addr` and
    /// `len`, in bytes, are the range.
    #[error("{len} bytes at {addr:#x} are not in memory")]
    Unreadable { addr: u64, len: u64 },
    /// Nothing tells a version.
    #[error("no version")]
    NotFound,
    /// There was no memory left.
    #[error("out of memory")]
    OutOfMemory,
}

impl From<AllocError> for VersionError {
    ghost from_gives = { λ _ error. error ≡ OutOfMemory };

    fn from(_: AllocError) -> VersionError {
        VersionError::OutOfMemory
    }
}

impl From<ReadFault> for VersionError {
    ghost use Rattle.py_process.specs.Causes.{version_unread};

    ghost from_gives = { λ fault error. error ≡ version_unread fault };

    fn from(fault: ReadFault) -> VersionError {
        match fault {
            ReadFault::Unreadable { addr, len } => VersionError::Unreadable { addr, len },
            ReadFault::OutOfMemory => VersionError::OutOfMemory,
        }
    }
}
