//! Words of memory.
ghost use Rattle.std.specs.Prelude.{◌≡◌, IfOk};
ghost use Rattle.process_memory.specs.Seen.{Reading};
ghost use Rattle.core_unwind.specs.Expressions.{word_in};

use crate::end::UnwindError;
use process_memory::{ProcessMemory, ReadFault, word};

/// The word at an address, if it is in memory. One read.
pub(crate) fn read_word<P: ProcessMemory>(
    process: &mut P,
    address: u64,
) -> Result<Option<u64>, UnwindError>
    ensures { Reading 1 (P.seen process.old) (P.seen process.new)
        (λ m. IfOk result (λ value. value ≡ word_in m address)) }
{
    match word(process, address) {
        Ok(value) => Ok(Some(value)),
        Err(ReadFault::Unreadable { .. }) => Ok(None),
        Err(ReadFault::OutOfMemory) => Err(UnwindError::OutOfMemory),
    }
}
