//! Why a file is not read as ELF64.
ghost use Rattle.elf64_core.specs.declared.error.ElfError.TheVariants.{OutOfMemory};
ghost use Rattle.std.specs.Prelude.{◌≡◌};

use std::alloc::{AllocError, AllocFailed};
use thiserror::Error;

/// Why a file, or a part of it, is refused, in the order in which the causes are looked for.
#[derive(Clone, Copy, Debug, Drop, Error, PartialEq, Eq)]
pub enum ElfError {
    /// There are no 64 bytes, or the first six are not 7f 45 4c 46 02 01.
    #[error("not an ELF64 little-endian file")]
    NotElf64,
    /// A table, a segment, a section or a range does not lie in the file, or has a wrong entry size.
    #[error("bad headers")]
    BadHeader,
    /// A note passes its end.
    #[error("bad note")]
    BadNote,
    /// There was no memory left.
    #[error("out of memory")]
    OutOfMemory,
}

impl From<AllocError> for ElfError {
    ghost from_gives = { λ _ error. error ≡ OutOfMemory };

    fn from(_: AllocError) -> Self {
        ElfError::OutOfMemory
    }
}

impl<T: Drop> From<AllocFailed<T>> for ElfError {
    ghost from_gives = { λ _ error. error ≡ OutOfMemory };

    fn from(_: AllocFailed<T>) -> Self {
        ElfError::OutOfMemory
    }
}
