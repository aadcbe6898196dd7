//! Names of tasks, and of types.
ghost use Rattle.std.specs.Prelude.{◌≡◌, IfOk};
ghost use Rattle.process_memory.specs.Seen.{Reads};
ghost use Rattle.py_fields.specs.Sound.{IsSound};
ghost use Rattle.py_names.specs.NamesError.{names_fault};
ghost use Rattle.py_tasks.specs.Names.{class_at, class_name, class_text_at, name_at, number_at, number_or, own_name_at};
ghost use Rattle.py_tasks.specs.Names.{text_name_at, typed_name_at};

use crate::fault::or_none;
use crate::{TaskName, TaskPlaces};
use elf64_core::{Text, until_nul};
use process_memory::{ProcessMemory, record, word_past};
use py_builtins::{copy_long, copy_string, read_type};
use py_fields::Layout;
use py_names::NamesError;
use std::alloc::{AllocError, Global};
use std::str;

/// The flags of types that are `int` or `str`, or derive from it: CPython's `Py_TPFLAGS_LONG_SUBCLASS` and
/// `Py_TPFLAGS_UNICODE_SUBCLASS`.
const PY_TPFLAGS_LONG_SUBCLASS: u64 = 16_777_216;

const PY_TPFLAGS_UNICODE_SUBCLASS: u64 = 268_435_456;

/// How many bytes of a type's name are read.
const NAME_LIMIT: u64 = 128;

/// The bytes before the first nul, where they are a text.
fn class_name(alloc: Global, chars: &[u8]) -> Result<Option<Text>, AllocError>
    ensures { IfOk result (λ name. name ≡ class_name chars.now) }
{
    let Some(bytes) = until_nul(chars) else {
        return Ok(None);
    };
    match str::from_utf8(bytes) {
        Ok(name) => Ok(Some(Text::of(alloc, name)?)),
        Err(_) => Ok(None),
    }
}

/// The name of the type of the object at an address, up to its first nul. At most 3 reads.
fn read_class_text<P: ProcessMemory>(
    alloc: Global,
    process: &mut P,
    layout: &Layout,
    at: u64,
) -> Result<Option<Text>, NamesError>
    requires sound { IsSound layout.now }
    ensures { Reads names_fault 3 (P.seen process.old) (P.seen process.new)
        (λ m. class_text_at layout.now m at) result }
{
    let class = read_type(alloc, process, layout, at)?;
    let chars = record(alloc, process, class.name, NAME_LIMIT)?;
    let name = class_name(alloc, &chars)?;
    Ok(name)
}

/// The same; none where it is not in memory, or is no text. At most 3 reads.
pub(crate) fn read_class<P: ProcessMemory>(
    alloc: Global,
    process: &mut P,
    layout: &Layout,
    at: u64,
) -> Result<Option<Text>, NamesError>
    requires sound { IsSound layout.now }
    ensures { Reads names_fault 3 (P.seen process.old) (P.seen process.new)
        (λ m. class_at layout.now m at) result }
{
    or_none(read_class_text(alloc, process, layout, at))
}

/// A name that is a text. At most 2 reads.
fn read_text<P: ProcessMemory>(
    alloc: Global,
    process: &mut P,
    layout: &Layout,
    at: u64,
) -> Result<Option<TaskName>, NamesError>
    requires sound { IsSound layout.now }
    ensures { Reads names_fault 2 (P.seen process.old) (P.seen process.new)
        (λ m. text_name_at layout.now m at) result }
{
    let text = copy_string(alloc, process, layout, at)?;
    Ok(Some(TaskName::Text(text)))
}

/// A number as a name; none of one that is too long.
fn number_or(number: u64, is_long: bool) -> Option<TaskName>
    ensures { result ≡ number_or is_long number }
{
    if is_long {
        None
    } else {
        Some(TaskName::Number(number))
    }
}

/// A name that is a number; none of one that is too long. At most 2 reads.
fn read_number<P: ProcessMemory>(
    process: &mut P,
    layout: &Layout,
    at: u64,
) -> Result<Option<TaskName>, NamesError>
    requires sound { IsSound layout.now }
    ensures { Reads names_fault 2 (P.seen process.old) (P.seen process.new)
        (λ m. number_at layout.now m at) result }
{
    let (number, is_long) = copy_long(process, layout, at)?;
    Ok(number_or(number.cast_unsigned(), is_long))
}

/// A name by the flags of its type. At most 2 reads.
#[tactic(auto, unfolding(crate::specs::Names::typed_name_at))]
fn read_typed<P: ProcessMemory>(
    alloc: Global,
    process: &mut P,
    layout: &Layout,
    flags: u64,
    at: u64,
) -> Result<Option<TaskName>, NamesError>
    requires sound { IsSound layout.now }
    ensures { Reads names_fault 2 (P.seen process.old) (P.seen process.new)
        (λ m. typed_name_at layout.now m flags at) result }
{
    if flags / PY_TPFLAGS_UNICODE_SUBCLASS % 2 == 1 {
        return read_text(alloc, process, layout, at);
    }
    if flags / PY_TPFLAGS_LONG_SUBCLASS % 2 == 1 {
        return read_number(process, layout, at);
    }
    Ok(None)
}

/// The name that a task's record names. At most 5 reads.
fn read_own<P: ProcessMemory>(
    alloc: Global,
    process: &mut P,
    layout: &Layout,
    place: u32,
    task: u64,
) -> Result<Option<TaskName>, NamesError>
    requires sound { IsSound layout.now }
    ensures { Reads names_fault 5 (P.seen process.old) (P.seen process.new)
        (λ m. own_name_at layout.now m place task) result }
{
    let at = word_past(process, task, place as u64)?;
    let class = read_type(alloc, process, layout, at)?;
    read_typed(alloc, process, layout, class.flags, at)
}

/// The name of the task at an address; none where it has none, or it can't be read. At most 5 reads.
pub(crate) fn read_name<P: ProcessMemory>(
    alloc: Global,
    process: &mut P,
    layout: &Layout,
    places: &TaskPlaces,
    task: u64,
) -> Result<Option<TaskName>, NamesError>
    requires sound { IsSound layout.now }
    ensures { Reads names_fault 5 (P.seen process.old) (P.seen process.new)
        (λ m. name_at layout.now m places.now.name task) result }
{
    match places.name {
        None => Ok(None),
        Some(place) => or_none(read_own(alloc, process, layout, place, task)),
    }
}
