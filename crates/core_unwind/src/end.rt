//! How a stack ends.
ghost use Rattle.std.specs.Prelude.{◌≡◌, ⊤};
ghost use Rattle.core_unwind.specs.Ends.{table_end};

use frame_rows::RowError;
use frame_tables::{RecordError, TableError};
use std::alloc::AllocFailed;
use thiserror::Error;

/// How a stack ends.
#[derive(Clone, Copy, Debug, PartialEq, Eq)]
pub enum End {
    /// The return address is undefined or 0: there is no caller.
    Whole,
    /// The file that is mapped at this address has no entry that covers it, or no table at all.
    NoTable { at: u64 },
    /// No file that is at hand is mapped at this address.
    NoFile { at: u64 },
    /// The return address stands in memory at this address, where there are no 8 bytes.
    Unreadable { at: u64 },
    /// What the file says can't be followed.
    Refused(Refusal),
    /// The CFA is not above that of the frame before.
    NotAbove,
    /// There is more, but no more is read.
    Cut(Limit),
}

/// What can't be followed.
#[derive(Clone, Copy, Debug, PartialEq, Eq)]
pub enum Refusal {
    /// The file's table of entries.
    Table(TableError),
    /// The entry's record.
    Record(RecordError),
    /// The entry's instructions.
    Row(RowError),
    /// The rule of the CFA: there is none, or a register or a word that it names is not known.
    Cfa,
    /// The rule of the return address: there is none, or what it names is not known.
    ReturnAddress,
}

/// What there is no more of.
#[derive(Clone, Copy, Debug, PartialEq, Eq)]
pub enum Limit {
    /// Frames.
    Frames,
    /// Frames of signals.
    Signals,
    /// Bytes of instructions.
    Bytes,
}

/// Why there is no stack.
#[derive(Debug, Drop, Error, PartialEq, Eq)]
pub enum UnwindError {
    /// There was no memory left.
    #[error("out of memory")]
    OutOfMemory,
}

impl<T: Drop> From<AllocFailed<T>> for UnwindError {
    ghost use Rattle.std.specs.Prelude.{⊤};

    ghost from_gives = { λ _ _. ⊤ };

    fn from(_e: AllocFailed<T>) -> UnwindError {
        UnwindError::OutOfMemory
    }
}

/// The end at an address of a file that has no table.
pub(crate) fn table_end(error: TableError, at: u64) -> End
    ensures { result ≡ table_end error at }
{
    match error {
        TableError::NoHeader => End::NoTable { at },
        TableError::NotElf
        | TableError::BadHeaders
        | TableError::OtherMachine
        | TableError::NotInFile
        | TableError::Cut
        | TableError::Version(_)
        | TableError::FrameEncoding(_)
        | TableError::CountEncoding(_)
        | TableError::PairEncoding(_) => End::Refused(Refusal::Table(error)),
    }
}
