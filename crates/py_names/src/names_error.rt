//! Why the names of threads are not read.
ghost use Rattle.std.specs.Prelude.{◌≡◌};

use process_memory::ReadFault;
use py_builtins::ObjectError;
use std::alloc::{AllocError, AllocFailed};
use thiserror::Error;

/// Why the names of an interpreter's threads are not read.
#[derive(Debug, Drop, Error, PartialEq, Eq)]
pub enum NamesError {
    /// The layout has no dicts.
    #[error("no dicts")]
    NoDicts,
    /// 65536 slots of dicts were looked at, and there is another.
    #[error("more than 65536 slots")]
    Entries,
    /// An object on the way can't be read. It is never for out of memory, which has a variant of its own.
    #[error("{0}")]
    Object(ObjectError),
    /// There was no memory left.
    #[error("out of memory")]
    OutOfMemory,
}

impl From<ObjectError> for NamesError {
    ghost use Rattle.py_builtins.specs.ObjectError.{object_fault};
    ghost use Rattle.py_names.specs.NamesError.{TellsName};

    ghost from_gives = { λ e d. TellsName d (object_fault e) };

    fn from(e: ObjectError) -> NamesError {
        match e {
            ObjectError::OutOfMemory => NamesError::OutOfMemory,
            e => NamesError::Object(e),
        }
    }
}

impl From<ReadFault> for NamesError {
    ghost use Rattle.process_memory.specs.Seen.{read_fault};
    ghost use Rattle.py_names.specs.NamesError.{TellsName};

    ghost from_gives = { λ e d. TellsName d (read_fault e) };

    fn from(e: ReadFault) -> NamesError {
        match e {
            ReadFault::Unreadable { addr, len } => {
                NamesError::Object(ObjectError::Unreadable { addr, len })
            }
            ReadFault::OutOfMemory => NamesError::OutOfMemory,
        }
    }
}

impl From<AllocError> for NamesError {
    ghost use Rattle.py_names.specs.declared.names_error.NamesError.TheVariants.{OutOfMemory};

    ghost from_gives = { λ _ e. e ≡ OutOfMemory };

    fn from(_e: AllocError) -> NamesError {
        NamesError::OutOfMemory
    }
}

impl<T: Drop> From<AllocFailed<T>> for NamesError {
    ghost use Rattle.py_names.specs.declared.names_error.NamesError.TheVariants.{OutOfMemory};

    ghost from_gives = { λ _ e. e ≡ OutOfMemory };

    fn from(_e: AllocFailed<T>) -> NamesError {
        NamesError::OutOfMemory
    }
}
