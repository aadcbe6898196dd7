//! Whether a run ends at a member.
ghost use Rattle.std.specs.Prelude.{◌≡◌, IfOk};
ghost use Rattle.process_memory.specs.Seen.{Reading};
ghost use Rattle.py_runs.specs.Members.{closes_at, is_some_other, is_this};

use crate::found::byte_past;
use crate::run_rule::RunEnd;
use process_memory::ProcessMemory;
use std::alloc::{AllocError, Global};

/// Whether a byte is there, and another one.
fn is_some_other(other: u32, byte: Option<u8>) -> bool
    ensures { result ≡ is_some_other other byte }
{
    match byte {
        Some(byte) => u32::from(byte) != other,
        None => false,
    }
}

/// Whether a byte is there, and this one.
fn is_this(own: u32, byte: Option<u8>) -> bool
    ensures { result ≡ is_this own byte }
{
    match byte {
        Some(byte) => u32::from(byte) == own,
        None => false,
    }
}

/// Whether a run ends at the member at an address. At most one read.
pub(crate) fn closes_at<P: ProcessMemory>(
    alloc: Global,
    process: &mut P,
    end: RunEnd,
    at: u64,
) -> Result<bool, AllocError>
    ensures { Reading 1 (P.seen process.old) (P.seen process.new)
        (λ m. IfOk result (λ closes. closes ≡ closes_at end m at)) }
{
    match end {
        RunEnd::Each => Ok(true),
        RunEnd::Entry { place, .. } => {
            let byte = byte_past(alloc, process, at, place)?;
            Ok(is_some_other(0, byte))
        }
        RunEnd::Shim { place, owner } => {
            let byte = byte_past(alloc, process, at, place)?;
            Ok(is_this(owner, byte))
        }
    }
}
