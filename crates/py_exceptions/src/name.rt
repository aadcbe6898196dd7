//! Names of classes.
ghost use Rattle.std.specs.Prelude.{◌≡◌, IfOk, Some};
ghost use Rattle.process_memory.specs.Seen.{Reads, Reading};
ghost use Rattle.py_fields.specs.Sound.{IsSound};
ghost use Rattle.py_names.specs.NamesError.{names_fault};
ghost use Rattle.py_exceptions.specs.ClassNames.{class_at, class_by_flags, class_name, is_heap, module_at, qualname_at};
ghost use Rattle.py_exceptions.specs.ClassNames.{heap_name_at, whole_at, whole_of};

use crate::dict::{read_entry, read_found_text, read_text};
use crate::fault::{or_none, read_word};
use elf64_core::{Text, until_nul};
use process_memory::{ProcessMemory, record, word_past};
use py_fields::Layout;
use py_names::NamesError;
use std::alloc::{AllocError, Global};
use std::str;
use thread_exceptions::ExceptionsError;

/// How many bytes of a type's name are read.
const NAME_LIMIT: u64 = 128;

/// The flag of a type that was made while the program ran: CPython's `Py_TPFLAGS_HEAPTYPE`.
const PY_TPFLAGS_HEAPTYPE: u64 = 512;

/// The name of a class.
#[derive(Debug, Drop)]
pub enum ClassName {
    /// That of a class of C's, as its `tp_name` has it: `KeyError`, `zlib.error`. Without a dot it is a builtin.
    Whole(Text),
    /// That of a class of the heap: its `__module__` and its `__qualname__`, each none where it is no text of fewer
    /// than 4,096 characters, or is not in memory. Python leaves the modules `builtins` and `__main__` out where it
    /// shows an exception.
    Parts {
        module: Option<Text>,
        name: Option<Text>,
    },
}

/// Where a class has its flags, its name, its dict and, on the heap, its qualified name; the class that it is based on,
/// and the function that gives the text of an object of it (`tp_str`).
#[derive(Clone, Copy)]
pub struct ClassPlaces {
    pub flags: u32,
    pub name: u32,
    pub dict: u32,
    pub qualname: u32,
    pub base: u32,
    pub to_str: u32,
}

/// The bytes before the first nul, where they are a text.
pub(crate) fn class_name(alloc: Global, chars: &[u8]) -> Result<Option<Text>, AllocError>
    ensures { IfOk result (λ name. name ≡ class_name chars.now) }
{
    let Some(bytes) = until_nul(chars) else {
        return Ok(None);
    };
    match str::from_utf8(bytes) {
        Ok(name) => Ok(Some(Text::of(alloc, name)?)),
        Err(_) => Ok(None),
    }
}

/// A name of C's.
fn whole_of(name: Option<Text>) -> Option<ClassName>
    ensures { result ≡ whole_of name }
{
    match name {
        Some(name) => Some(ClassName::Whole(name)),
        None => None,
    }
}

/// The name that a class of C's has. At most 2 reads.
fn read_whole<P: ProcessMemory>(
    alloc: Global,
    process: &mut P,
    places: &ClassPlaces,
    class: u64,
) -> Result<Option<ClassName>, NamesError>
    ensures { Reads names_fault 2 (P.seen process.old) (P.seen process.new)
        (λ m. whole_at places.now m class) result }
{
    let at = word_past(process, class, places.name as u64)?;
    let chars = record(alloc, process, at, NAME_LIMIT)?;
    let name = class_name(alloc, &chars)?;
    Ok(whole_of(name))
}

/// The qualified name of a class of the heap. At most 3 reads.
fn read_qualname<P: ProcessMemory>(
    alloc: Global,
    process: &mut P,
    layout: &Layout,
    places: &ClassPlaces,
    class: u64,
) -> Result<Option<Text>, NamesError>
    requires sound { IsSound layout.now }
    ensures { Reads names_fault 3 (P.seen process.old) (P.seen process.new)
        (λ m. qualname_at layout.now places.now m class) result }
{
    let at = word_past(process, class, places.qualname as u64)?;
    read_text(alloc, process, layout, at)
}

/// The name of the module of a class of the heap. At most 16389 reads.
fn read_module<P: ProcessMemory>(
    alloc: Global,
    process: &mut P,
    layout: &Layout,
    places: &ClassPlaces,
    class: u64,
) -> Result<Option<Text>, NamesError>
    requires sound { IsSound layout.now }
    ensures { Reads names_fault 16389 (P.seen process.old) (P.seen process.new)
        (λ m. module_at layout.now places.now m class) result }
{
    let dict = word_past(process, class, places.dict as u64)?;
    let found = read_entry(alloc, process, layout, dict, "__module__")?;
    read_found_text(alloc, process, layout, found)
}

/// The name of a class of the heap. At most 16392 reads.
fn read_heap_name<P: ProcessMemory>(
    alloc: Global,
    process: &mut P,
    layout: &Layout,
    places: &ClassPlaces,
    class: u64,
) -> Result<Option<ClassName>, ExceptionsError>
    requires sound { IsSound layout.now }
    ensures { Reading 16392 (P.seen process.old) (P.seen process.new)
        (λ m. IfOk result (λ name. name ≡ heap_name_at layout.now places.now m class)) }
{
    let qualname = read_qualname(alloc, process, layout, places, class);
    let name = or_none(qualname)?;
    let found = read_module(alloc, process, layout, places, class);
    let module = or_none(found)?;
    Ok(Some(ClassName::Parts { module, name }))
}

/// Whether a class of these flags is one of the heap.
fn is_heap(flags: u64) -> bool
    ensures { result ≡ is_heap flags }
{
    flags / PY_TPFLAGS_HEAPTYPE % 2 == 1
}

/// The name of a class of these flags. At most 16392 reads.
fn read_by_flags<P: ProcessMemory>(
    alloc: Global,
    process: &mut P,
    layout: &Layout,
    places: &ClassPlaces,
    flags: u64,
    class: u64,
) -> Result<Option<ClassName>, ExceptionsError>
    requires sound { IsSound layout.now }
    ensures { Reading 16392 (P.seen process.old) (P.seen process.new)
        (λ m. IfOk result (λ name. name ≡ class_by_flags layout.now places.now m class (Some flags))) }
{
    let is = is_heap(flags);
    if is {
        return read_heap_name(alloc, process, layout, places, class);
    }
    or_none(read_whole(alloc, process, places, class))
}

/// The name of the class at an address; none where its flags or a name of C's is not in memory. The one error is want of
/// memory. At most 16393 reads.
pub fn read_class<P: ProcessMemory>(
    alloc: Global,
    process: &mut P,
    layout: &Layout,
    places: &ClassPlaces,
    class: u64,
) -> Result<Option<ClassName>, ExceptionsError>
    requires sound { IsSound layout.now }
    ensures { Reading 16393 (P.seen process.old) (P.seen process.new)
        (λ m. IfOk result (λ name. name ≡ class_at layout.now places.now m class)) }
{
    let flags = read_word(process, class, places.flags)?;
    match flags {
        None => Ok(None),
        Some(flags) => read_by_flags(alloc, process, layout, places, flags, class),
    }
}
