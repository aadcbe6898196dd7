//! The head that symbols give: the first candidate of the interpreter's address.
ghost use Rattle.std.specs.Prelude.{◌≡◌, ◌+◌, ◌<◌, ◌≤◌, ◌^◌};
ghost use Rattle.process_memory.specs.Seen.{IsShort, Reading, Reads, read_fault};
ghost use Rattle.py_fields.specs.Sound.{IsSound};
ghost use Rattle.py_process.specs.Candidates.{ListIs, Seeking, head_by, head_by_offsets, head_from, or_nothing};
ghost use Rattle.py_process.specs.Facts.{known_of};

use crate::candidates::is_interpreter_in;
use crate::{PythonProcessInfo, SearchError};
use elf64_core::u64_in;
use image_memory::ContainsAddr;
use process_memory::{ProcessMemory, ReadFault, record, word, word_past};
use py_fields::{Head, Layout, OffsetsAt, Version, get_interp_head_offset};
use std::alloc::Global;

/// What a read gives as a candidate: nothing where something is not in memory.
fn or_nothing(read: Result<u64, ReadFault>) -> Result<Option<u64>, SearchError>
    ensures { result ≡ or_nothing read }
{
    match read {
        Ok(addr) => Ok(Some(addr)),
        Err(ReadFault::Unreadable { .. }) => Ok(None),
        Err(ReadFault::OutOfMemory) => Err(SearchError::OutOfMemory),
    }
}

/// The head that the record of offsets at `_PyRuntime` says where to find. At most 2 reads.
fn read_by_offsets<P: ProcessMemory>(
    alloc: Global,
    process: &mut P,
    offsets: &OffsetsAt,
    runtime: u64,
) -> Result<u64, ReadFault>
    requires short { offsets.now.size < 2 ^ 16 }
    requires head { offsets.now.head + 8 ≤ offsets.now.size }
    ensures { Reads read_fault 2 (P.seen process.old) (P.seen process.new)
        (λ m. head_by_offsets offsets.now m runtime) result }
{
    let bytes = record(alloc, process, runtime, offsets.size as u64)?;
    let head = u64_in(&bytes, offsets.head as usize);
    word_past(process, runtime, head)
}

/// The head by the address of the runtime's own record (`_PyRuntime`), by the layout's family; nothing where that is
/// not known, where a layout has no such record, as up to 3.6, or where something on the way is not in memory. The one
/// error is out of memory. At most 2 reads.
pub fn read_head_from<P: ProcessMemory>(
    alloc: Global,
    process: &mut P,
    version: &Version,
    layout: &Layout,
    runtime: Option<u64>,
) -> Result<Option<u64>, SearchError>
    requires sound { IsSound layout.now }
    ensures { Reading 2 (P.seen process.old) (P.seen process.new)
        (λ m. ListIs (head_from layout.now.head version.now layout.now m runtime) result) }
{
    let Some(runtime) = runtime else {
        return Ok(None);
    };
    match (layout.head, layout.offsets) {
        (Head::Runtime, _) => {
            or_nothing(word_past(process, runtime, get_interp_head_offset(version)))
        }
        (Head::Offsets, Some(offsets)) => {
            or_nothing(read_by_offsets(alloc, process, &offsets, runtime))
        }
        (Head::Offsets, None) => Ok(None),
        (Head::Symbol, _) => Ok(None),
    }
}

/// The head that symbols give, by the layout's family; nothing where there is no such symbol, or something on the way
/// is not in memory. The one error is out of memory. At most 2 reads.
pub fn read_head<M: ContainsAddr, P: ProcessMemory>(
    alloc: Global,
    info: &PythonProcessInfo<M>,
    process: &mut P,
    version: &Version,
    layout: &Layout,
) -> Result<Option<u64>, SearchError>
    requires sound { IsSound layout.now }
    ensures { Reading 2 (P.seen process.old) (P.seen process.new)
        (λ m. ListIs (head_by layout.now.head (known_of info.now) version.now layout.now m) result) }
{
    match layout.head {
        Head::Symbol => match info.symbol(b"interp_head") {
            Some(addr) => or_nothing(word(process, addr)),
            None => Ok(None),
        },
        Head::Runtime => {
            read_head_from(alloc, process, version, layout, info.symbol(b"_PyRuntime"))
        }
        Head::Offsets => {
            read_head_from(alloc, process, version, layout, info.symbol(b"_PyRuntime"))
        }
    }
}

/// The head that symbols give, where it is an interpreter. At most 2 reads beside those of its test.
pub(crate) fn first_of_head<M: ContainsAddr, P: ProcessMemory>(
    alloc: Global,
    info: &PythonProcessInfo<M>,
    process: &mut P,
    version: &Version,
    layout: &Layout,
) -> Result<Option<u64>, SearchError>
    requires sound { IsSound layout.now }
    ensures { Seeking IsShort (M.contains info.now.maps) layout.now 2
        (λ m. head_by layout.now.head (known_of info.now) version.now layout.now m)
        (P.seen process.old) (P.seen process.new) result }
{
    let Some(addr) = read_head(alloc, info, process, version, layout)? else {
        return Ok(None);
    };
    if is_interpreter_in(alloc, &info.maps, process, layout, addr)? {
        return Ok(Some(addr));
    }
    Ok(None)
}
