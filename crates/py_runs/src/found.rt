//! Bytes and words of memory, where they are there.
ghost use Rattle.std.specs.Prelude.{◌≡◌, ◌+◌, IfOk, Some};
ghost use Rattle.process_memory.specs.Seen.{Reading};
ghost use Rattle.py_runs.specs.Members.{byte_known, first_of, word_known};

use process_memory::{ProcessMemory, ReadFault, record_wide, word_past};
use std::alloc::{AllocError, Global};

/// The first of some bytes.
fn first_of(bytes: &[u8]) -> Option<u8>
    ensures { result ≡ first_of (Some bytes.now) }
{
    bytes.first().copied()
}

/// The byte at an address plus an offset. At most one read.
pub(crate) fn byte_past<P: ProcessMemory>(
    alloc: Global,
    process: &mut P,
    base: u64,
    offset: u32,
) -> Result<Option<u8>, AllocError>
    ensures { Reading 1 (P.seen process.old) (P.seen process.new)
        (λ m. IfOk result (λ byte. byte ≡ byte_known m (base + offset))) }
{
    let at = u128::from(base) + u128::from(offset);
    match record_wide(alloc, process, at, 1) {
        Ok(bytes) => Ok(first_of(&bytes)),
        Err(ReadFault::Unreadable { .. }) => Ok(None),
        Err(ReadFault::OutOfMemory) => Err(AllocError),
    }
}

/// The word at an address plus an offset. At most one read.
pub(crate) fn word_known<P: ProcessMemory>(
    process: &mut P,
    base: u64,
    offset: u32,
) -> Result<Option<u64>, AllocError>
    ensures { Reading 1 (P.seen process.old) (P.seen process.new)
        (λ m. IfOk result (λ word. word ≡ word_known m (base + offset))) }
{
    match word_past(process, base, u64::from(offset)) {
        Ok(word) => Ok(Some(word)),
        Err(ReadFault::Unreadable { .. }) => Ok(None),
        Err(ReadFault::OutOfMemory) => Err(AllocError),
    }
}
