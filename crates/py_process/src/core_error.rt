//! Why there is no result.
ghost use Rattle.std.specs.Prelude.{◌≡◌};
ghost use Rattle.py_process.specs.declared.core_error.CoreError.TheVariants.{OutOfMemory};

use crate::{SearchError, VersionError};
use elf64_core::Name;
use image_memory::DumpError;
use py_fields::Version;
use py_stacks::StackError;
use std::alloc::AllocError;
use thiserror::Error;

/// Why a core gives no stacks.
///
/// An `addr` is an address of the dumped process, and a `len` counts bytes.
#[derive(Debug, Drop, Error, PartialEq, Eq)]
pub enum CoreError {
    /// The file doesn't begin as an ELF file of 64 bits in little-endian order does.
    #[error("not an ELF64 little-endian file")]
    NotElf64,
    /// A header of the file is cut off, or says what it may not.
    #[error("bad program headers")]
    BadHeader,
    /// No segment holds notes.
    #[error("no note segment")]
    NoNotes,
    /// A note is cut off, or says what it may not.
    #[error("bad note")]
    BadNote,
    /// No map of the process is executable and has a name.
    #[error("no named executable map")]
    NoBinary,
    /// The file of this path was mapped, and its bytes aren't given.
    #[error("image not given")]
    NoImage { path: Name },
    /// The file of this path was mapped, and its bytes don't make sense.
    #[error("bad image")]
    BadImage { path: Name },
    /// What tells the version can't be read: the 4 bytes of `Py_Version`, or the bss of an image.
    #[error("version unreadable at {addr:#x}, {len} bytes")]
    UnreadableVersion { addr: u64, len: u64 },
    /// Nothing says which version of Python ran.
    #[error("no Python version found")]
    NoVersion,
    /// No layout covers this version.
    #[error("no layout for Python {version}")]
    UnsupportedVersion { version: Version },
    /// No candidate is an interpreter.
    #[error("no interpreter found")]
    NoInterpreter,
    /// These bytes are needed, and aren't in memory.
    #[error("unreadable at {addr:#x}, {len} bytes")]
    Unreadable { addr: u64, len: u64 },
    /// Native frames were asked for.
    #[error("native frames are not read from a core")]
    NativeUnsupported,
    /// Subprocesses were asked for.
    #[error("subprocesses are not read from a core")]
    SubprocessesUnsupported,
    /// The frame at this address has a local whose name is no text, or counts fewer locals than none.
    #[error("bad variable name or count in frame {frame:#x}")]
    BadValue { frame: u64 },
    /// A frame counts so many locals, which are more than 65535. A count below 0 is `BadValue`.
    #[error("a frame counts {count} locals")]
    LocalsLimit { count: i32 },
    /// The chain of threads goes on after 4096 threads.
    #[error("more than 4096 threads")]
    ThreadLimit,
    /// A thread has more than 4096 frames.
    #[error("more than 4096 frames in a thread")]
    FrameLimit,
    /// A chain of frames goes on after 16384 frames.
    #[error("more than 16384 frames visited in a thread")]
    ChainLimit,
    /// There was no memory left.
    #[error("out of memory")]
    OutOfMemory,
}

impl From<AllocError> for CoreError {
    ghost from_gives = { λ _ e. e ≡ OutOfMemory };

    fn from(_: AllocError) -> CoreError {
        CoreError::OutOfMemory
    }
}

impl From<DumpError> for CoreError {
    ghost use Rattle.py_process.specs.Causes.{cause_of_dump};

    ghost from_gives = { λ error cause. cause ≡ cause_of_dump error };

    fn from(error: DumpError) -> CoreError {
        match error {
            DumpError::NotElf64 => CoreError::NotElf64,
            DumpError::BadHeader => CoreError::BadHeader,
            DumpError::NoNotes => CoreError::NoNotes,
            DumpError::BadNote => CoreError::BadNote,
            DumpError::OutOfMemory => CoreError::OutOfMemory,
        }
    }
}

impl From<StackError> for CoreError {
    ghost use Rattle.py_process.specs.Causes.{cause_of_stacks};

    ghost from_gives = { λ error cause. cause ≡ cause_of_stacks error };

    fn from(error: StackError) -> CoreError {
        match error {
            StackError::Unreadable { addr, len } => CoreError::Unreadable { addr, len },
            StackError::BadValue { frame } => CoreError::BadValue { frame },
            StackError::LocalsLimit { count } => CoreError::LocalsLimit { count },
            StackError::ThreadLimit => CoreError::ThreadLimit,
            StackError::FrameLimit => CoreError::FrameLimit,
            StackError::ChainLimit => CoreError::ChainLimit,
            StackError::OutOfMemory => CoreError::OutOfMemory,
        }
    }
}

impl From<VersionError> for CoreError {
    ghost use Rattle.py_process.specs.Causes.{cause_of_version};

    ghost from_gives = { λ error cause. cause ≡ cause_of_version error };

    fn from(error: VersionError) -> CoreError {
        match error {
            VersionError::Unreadable { addr, len } => CoreError::UnreadableVersion { addr, len },
            VersionError::NotFound => CoreError::NoVersion,
            VersionError::OutOfMemory => CoreError::OutOfMemory,
        }
    }
}

impl From<SearchError> for CoreError {
    ghost use Rattle.py_process.specs.Causes.{cause_of_search};

    ghost from_gives = { λ error cause. cause ≡ cause_of_search error };

    fn from(error: SearchError) -> CoreError {
        match error {
            SearchError::NotFound => CoreError::NoInterpreter,
            SearchError::OutOfMemory => CoreError::OutOfMemory,
        }
    }
}
