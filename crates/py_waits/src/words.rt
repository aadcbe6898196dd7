//! Words that may not be in memory.
ghost use Rattle.std.specs.Prelude.{◌≡◌, ◌+◌};
ghost use Rattle.process_memory.specs.Seen.{Reads, read_fault};
ghost use Rattle.py_waits.specs.Words.{known_result, word_if, word_in};

use process_memory::{ProcessMemory, ReadFault, word_past};

/// A word that was read; nothing where it is not in memory.
fn known(read: Result<u64, ReadFault>) -> Result<Option<u64>, ReadFault>
    ensures { result ≡ known_result read }
{
    match read {
        Ok(word) => Ok(Some(word)),
        Err(ReadFault::Unreadable { .. }) => Ok(None),
        Err(ReadFault::OutOfMemory) => Err(ReadFault::OutOfMemory),
    }
}

/// The word at an address, so many bytes behind it. One read.
fn word_if<P: ProcessMemory>(
    process: &mut P,
    address: u64,
    behind: u64,
) -> Result<Option<u64>, ReadFault>
    ensures { Reads read_fault 1 (P.seen process.old) (P.seen process.new)
        (λ m. word_if m (address + behind)) result }
{
    known(word_past(process, address, behind))
}

/// The word so many bytes behind an address, where there is one. At most one read.
pub(crate) fn word_in<P: ProcessMemory>(
    process: &mut P,
    address: Option<u64>,
    behind: u64,
) -> Result<Option<u64>, ReadFault>
    ensures { Reads read_fault 1 (P.seen process.old) (P.seen process.new)
        (λ m. word_in m address behind) result }
{
    match address {
        None => Ok(None),
        Some(address) => word_if(process, address, behind),
    }
}
