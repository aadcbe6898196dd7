//! Why an image says nothing.
ghost use Rattle.std.specs.Prelude.{◌≡◌};
ghost use Rattle.py_process.specs.Causes.{image_refusal_of};
ghost use Rattle.py_process.specs.declared.binary_error.BinaryError.TheVariants.{OutOfMemory};

use elf64_core::ElfError;
use std::alloc::AllocError;
use thiserror::Error;

/// Why an image says nothing, in the order in which the causes are looked for.
#[derive(Clone, Copy, Debug, Drop, Error, PartialEq, Eq)]
pub enum BinaryError {
    /// There are no 64 bytes, or the first six are not 7f 45 4c 46 02 01.
    #[error("not an ELF64 little-endian file")]
    NotElf64,
    /// The headers of segments or sections can't be read; or, where no other cause holds, symbols can't.
    #[error("bad headers")]
    BadHeader,
    /// No section may be the bss.
    #[error("no bss")]
    NoBss,
    /// No load segment is executable.
    #[error("no executable segment")]
    NoExecutable,
    /// The bss ends past 2^64 - 1.
    #[error("bad bss")]
    BadBss,
    /// There was no memory left.
    #[error("out of memory")]
    OutOfMemory,
}

impl From<ElfError> for BinaryError {
    ghost from_gives = { λ error refusal. refusal ≡ image_refusal_of error };

    fn from(error: ElfError) -> BinaryError {
        match error {
            ElfError::NotElf64 => BinaryError::NotElf64,
            ElfError::BadHeader | ElfError::BadNote => BinaryError::BadHeader,
            ElfError::OutOfMemory => BinaryError::OutOfMemory,
        }
    }
}

impl From<AllocError> for BinaryError {
    ghost from_gives = { λ _ refusal. refusal ≡ OutOfMemory };

    fn from(_: AllocError) -> BinaryError {
        BinaryError::OutOfMemory
    }
}
