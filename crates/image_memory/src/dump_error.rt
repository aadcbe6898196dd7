//! Why a file is no core dump.
ghost use Rattle.image_memory.specs.Dumps.{dump_refusal_of};
ghost use Rattle.image_memory.specs.declared.dump_error.DumpError.TheVariants.{OutOfMemory};
ghost use Rattle.std.specs.Prelude.{◌≡◌};

use elf64_core::ElfError;
use std::alloc::{AllocError, AllocFailed};
use thiserror::Error;

/// Why a file is not read as a core dump, in the order in which the causes are looked for.
#[derive(Clone, Copy, Debug, Drop, Error, PartialEq, Eq)]
pub enum DumpError {
    /// There are no 64 bytes, or the first six are not 7f 45 4c 46 02 01.
    #[error("not an ELF64 little-endian file")]
    NotElf64,
    /// The program headers, or a load or note segment's bytes, do not lie in the file, or the program
    /// headers are not counted by the header.
    #[error("bad program headers")]
    BadHeader,
    /// No program header is that of a note segment.
    #[error("no note segment")]
    NoNotes,
    /// A note, or what it holds, is shorter than it has to be.
    #[error("bad note")]
    BadNote,
    /// There was no memory left.
    #[error("out of memory")]
    OutOfMemory,
}

impl From<ElfError> for DumpError {
    ghost from_gives = { λ error refusal. refusal ≡ dump_refusal_of error };

    fn from(error: ElfError) -> Self {
        match error {
            ElfError::NotElf64 => DumpError::NotElf64,
            ElfError::BadHeader => DumpError::BadHeader,
            ElfError::BadNote => DumpError::BadNote,
            ElfError::OutOfMemory => DumpError::OutOfMemory,
        }
    }
}

impl From<AllocError> for DumpError {
    ghost from_gives = { λ _ refusal. refusal ≡ OutOfMemory };

    fn from(_: AllocError) -> Self {
        DumpError::OutOfMemory
    }
}

impl<T: Drop> From<AllocFailed<T>> for DumpError {
    ghost from_gives = { λ _ refusal. refusal ≡ OutOfMemory };

    fn from(_: AllocFailed<T>) -> Self {
        DumpError::OutOfMemory
    }
}
