//! Bytes objects.
ghost use Rattle.py_fields.specs.Sound.{IsSound};
ghost use Rattle.process_memory.specs.Seen.{items_of};
ghost use Rattle.py_builtins.specs.Consulted.{Consults};
ghost use Rattle.py_builtins.specs.Bytes.{bytes_object_at};
ghost use Rattle.py_builtins.specs.ObjectError.{object_fault};
ghost use Rattle.py_builtins.specs.Refusals.{RefusesEarly};

use crate::ObjectError;
use elf64_core::u64_in;
use process_memory::{ProcessMemory, record, record_wide};
use py_fields::Layout;
use std::alloc::Global;

/// The length from which on bytes are not read.
const LENGTH_LIMIT: u64 = 65536;

/// The bytes that an object has, by the rule of CPython's `bytes` objects.
///
/// Its record says how many there are, and they stand behind it. A negative length or one of 65536 and more is
/// `TooLong`, with the length that is stated, and none of them is read then. A range that is not in memory is
/// `Unreadable`: the record's first, then that of the bytes. At most 2 reads.
pub fn copy_bytes<P: ProcessMemory>(
    alloc: Global,
    process: &mut P,
    layout: &Layout,
    addr: u64,
) -> Result<Vec<u8>, ObjectError>
    requires sound { IsSound layout.now }
    ensures answer { Consults layout.now object_fault 2 (P.seen process.old) (P.seen process.new)
        (λ m. bytes_object_at layout.now m addr) (items_of result) }
    ensures early { RefusesEarly (P.seen process.old) (P.seen process.new) (λ m. bytes_object_at layout.now m addr)
        result }
{
    let object = record(alloc, process, addr, layout.bytes.size as u64)?;
    let length = u64_in(&object, layout.bytes.length as usize);
    if length >= LENGTH_LIMIT {
        return Err(ObjectError::TooLong {
            len: length.cast_signed(),
        });
    }
    let at = addr as u128 + layout.bytes.at as u128;
    Ok(record_wide(alloc, process, at, length)?)
}
