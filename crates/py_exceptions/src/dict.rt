//! What a dict has under a name.
ghost use Rattle.std.specs.Prelude.{◌≡◌};
ghost use Rattle.process_memory.specs.Seen.{Reads};
ghost use Rattle.py_fields.specs.Sound.{IsSound};
ghost use Rattle.py_builtins.specs.Consulted.{Consults};
ghost use Rattle.py_names.specs.NamesError.{names_fault};
ghost use Rattle.py_exceptions.specs.Entries.{entry_at, found_text_at, named_at};
ghost use Rattle.py_exceptions.specs.Texts.{text_or_none_at};

use elf64_core::Text;
use process_memory::ProcessMemory;
use py_builtins::{DictCursor, ObjectError, copy_string};
use py_fields::Layout;
use py_names::{NamesError, find_in};
use std::alloc::Global;

/// How many slots of a dict are looked at for a name.
const SLOT_LIMIT: u64 = 4096;

/// The text at an address; none where there is none. At most 2 reads.
#[tactic(auto, unfolding(crate::specs::Texts::text_or_none_at))]
pub(crate) fn read_text<P: ProcessMemory>(
    alloc: Global,
    process: &mut P,
    layout: &Layout,
    addr: u64,
) -> Result<Option<Text>, NamesError>
    requires sound { IsSound layout.now }
    ensures { Consults layout.now names_fault 2 (P.seen process.old) (P.seen process.new)
        (λ m. text_or_none_at layout.now m addr) result }
{
    match copy_string(alloc, process, layout, addr) {
        Ok(text) => Ok(Some(text)),
        Err(ObjectError::OutOfMemory) => Err(NamesError::OutOfMemory),
        Err(_) => Ok(None),
    }
}

/// The same of an address that there may be. At most 2 reads.
pub(crate) fn read_found_text<P: ProcessMemory>(
    alloc: Global,
    process: &mut P,
    layout: &Layout,
    found: Option<u64>,
) -> Result<Option<Text>, NamesError>
    requires sound { IsSound layout.now }
    ensures { Reads names_fault 2 (P.seen process.old) (P.seen process.new)
        (λ m. found_text_at layout.now m found) result }
{
    match found {
        None => Ok(None),
        Some(addr) => read_text(alloc, process, layout, addr),
    }
}

/// The value of the first of some slots under a name. At most 16384 reads.
fn read_named<P: ProcessMemory>(
    alloc: Global,
    process: &mut P,
    layout: &Layout,
    slots: &DictCursor,
    name: &str,
) -> Result<Option<u64>, NamesError>
    requires sound { IsSound layout.now }
    requires start { slots.now.passed ≡ 0 }
    ensures { Reads names_fault 16384 (P.seen process.old) (P.seen process.new)
        (λ m. named_at layout.now m slots.now.slots name.now) result }
{
    let search = find_in(alloc, process, layout, name, slots, SLOT_LIMIT)?;
    Ok(search.found)
}

/// The value that the dict at an address has under a name; none where it has none. At most 16386 reads.
pub(crate) fn read_entry<P: ProcessMemory>(
    alloc: Global,
    process: &mut P,
    layout: &Layout,
    dict: u64,
    name: &str,
) -> Result<Option<u64>, NamesError>
    requires sound { IsSound layout.now }
    ensures { Reads names_fault 16386 (P.seen process.old) (P.seen process.new)
        (λ m. entry_at layout.now m dict name.now) result }
{
    let slots = DictCursor::from(process, layout, dict)?;
    read_named(alloc, process, layout, &slots, name)
}
