//! What can't be read costs what it breaks.
ghost use Rattle.std.specs.Prelude.{◌≡◌, ◌+◌, IfOk};
ghost use Rattle.process_memory.specs.Memory.{word_at};
ghost use Rattle.process_memory.specs.Seen.{Reading};
ghost use Rattle.py_exceptions.specs.Faults.{IsOrNone, known};

use process_memory::{ProcessMemory, ReadFault, word_past};
use py_builtins::ObjectError;
use py_names::NamesError;
use thread_exceptions::ExceptionsError;

/// None, where something can't be read; out of memory is handed on.
pub(crate) fn or_none<T: Drop>(
    found: Result<Option<T>, NamesError>,
) -> Result<Option<T>, ExceptionsError>
    ensures { IsOrNone found result }
{
    match found {
        Ok(value) => Ok(value),
        Err(NamesError::OutOfMemory) => Err(ExceptionsError::OutOfMemory),
        Err(NamesError::Object(ObjectError::OutOfMemory)) => Err(ExceptionsError::OutOfMemory),
        Err(NamesError::NoDicts) => Ok(None),
        Err(NamesError::Entries) => Ok(None),
        Err(NamesError::Object(ObjectError::Unreadable { .. })) => Ok(None),
        Err(NamesError::Object(ObjectError::NoText)) => Ok(None),
        Err(NamesError::Object(ObjectError::TooLong { .. })) => Ok(None),
        Err(NamesError::Object(ObjectError::BadDict)) => Ok(None),
        Err(NamesError::Object(ObjectError::BadType)) => Ok(None),
        Err(NamesError::Object(ObjectError::Visits)) => Ok(None),
        Err(NamesError::Object(ObjectError::Depth)) => Ok(None),
        Err(NamesError::Object(ObjectError::BadCount { .. })) => Ok(None),
        Err(NamesError::Object(ObjectError::BadBool { .. })) => Ok(None),
    }
}

/// The word so far behind an address; none where it is not in memory. At most one read.
pub(crate) fn read_word<P: ProcessMemory>(
    process: &mut P,
    base: u64,
    offset: u32,
) -> Result<Option<u64>, ExceptionsError>
    ensures { Reading 1 (P.seen process.old) (P.seen process.new)
        (λ m. IfOk result (λ word. word ≡ known (word_at m (base + offset)))) }
{
    match word_past(process, base, offset as u64) {
        Ok(word) => Ok(Some(word)),
        Err(ReadFault::Unreadable { .. }) => Ok(None),
        Err(ReadFault::OutOfMemory) => Err(ExceptionsError::OutOfMemory),
    }
}
