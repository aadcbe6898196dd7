//! The notes of exceptions.
ghost use Rattle.std.specs.Prelude.{◌≡◌, IfOk, Some};
ghost use Rattle.process_memory.specs.Seen.{Reads, Reading};
ghost use Rattle.py_fields.specs.Sound.{IsSound};
ghost use Rattle.py_names.specs.NamesError.{names_fault};
ghost use Rattle.py_exceptions.specs.Notes.{found_by, list_at, list_by, noted_at, notes_at, notes_by, notes_of};
ghost use Rattle.py_exceptions.specs.Notes.{notes_shown, sequence_found_at, sequence_of};
ghost use Rattle.py_exceptions.specs.ValueLists.{shown_if};

use crate::dict::read_entry;
use crate::fault::or_none;
use crate::values::{Values, read_listed};
use process_memory::ProcessMemory;
use py_builtins::{Sequence, read_type};
use py_fields::Layout;
use py_names::NamesError;
use std::alloc::Global;
use thread_exceptions::ExceptionsError;

/// The flags of types that are `list` or `tuple`, or derive from it: CPython's `Py_TPFLAGS_LIST_SUBCLASS` and
/// `Py_TPFLAGS_TUPLE_SUBCLASS`.
const PY_TPFLAGS_LIST_SUBCLASS: u64 = 33_554_432;

const PY_TPFLAGS_TUPLE_SUBCLASS: u64 = 67_108_864;

/// The notes of an exception, its `__notes__`.
#[derive(Debug, Drop)]
pub enum Notes {
    /// It has none.
    Without,
    /// These.
    Listed(Values),
    /// They are no list or tuple, or something on the way to them is not in memory.
    Unreadable,
}

/// What the objects of a type of these flags are, where they are lists or tuples.
#[tactic(auto, unfolding(crate::specs::Notes::sequence_of))]
fn sequence_of(flags: u64) -> Option<Sequence>
    ensures { result ≡ sequence_of flags }
{
    if flags / PY_TPFLAGS_LIST_SUBCLASS % 2 == 1 {
        return Some(Sequence::List);
    }
    if flags / PY_TPFLAGS_TUPLE_SUBCLASS % 2 == 1 {
        return Some(Sequence::Tuple);
    }
    None
}

/// What the object at an address is, where it is a list or a tuple. At most 2 reads.
fn read_sequence_of<P: ProcessMemory>(
    alloc: Global,
    process: &mut P,
    layout: &Layout,
    at: u64,
) -> Result<Option<Sequence>, NamesError>
    requires sound { IsSound layout.now }
    ensures { Reads names_fault 2 (P.seen process.old) (P.seen process.new)
        (λ m. sequence_found_at layout.now m at) result }
{
    let class = read_type(alloc, process, layout, at)?;
    Ok(sequence_of(class.flags))
}

/// Values as notes.
fn notes_of(values: Option<Values>) -> Notes
    ensures { notes_shown result ≡ notes_of (shown_if values) }
{
    match values {
        Some(values) => Notes::Listed(values),
        None => Notes::Unreadable,
    }
}

/// The notes that the object at an address is. At most 97 reads.
fn read_by_sequence<P: ProcessMemory>(
    alloc: Global,
    process: &mut P,
    layout: &Layout,
    sequence: Option<Sequence>,
    at: u64,
) -> Result<Notes, ExceptionsError>
    requires sound { IsSound layout.now }
    ensures { Reading 97 (P.seen process.old) (P.seen process.new)
        (λ m. IfOk result (λ notes. notes_shown notes ≡ list_by layout.now m at sequence)) }
{
    match sequence {
        None => Ok(Notes::Unreadable),
        Some(sequence) => {
            let values = read_listed(alloc, process, layout, sequence, at)?;
            Ok(notes_of(values))
        }
    }
}

/// The same by what the object is. At most 99 reads.
fn read_list<P: ProcessMemory>(
    alloc: Global,
    process: &mut P,
    layout: &Layout,
    at: u64,
) -> Result<Notes, ExceptionsError>
    requires sound { IsSound layout.now }
    ensures { Reading 99 (P.seen process.old) (P.seen process.new)
        (λ m. IfOk result (λ notes. notes_shown notes ≡ list_at layout.now m at)) }
{
    let found = read_sequence_of(alloc, process, layout, at);
    let sequence = or_none(found)?;
    read_by_sequence(alloc, process, layout, sequence, at)
}

/// What the dict at an address has as notes. At most 16386 reads.
fn read_noted<P: ProcessMemory>(
    alloc: Global,
    process: &mut P,
    layout: &Layout,
    dict: u64,
) -> Result<Option<Option<u64>>, NamesError>
    requires sound { IsSound layout.now }
    ensures { Reads names_fault 16386 (P.seen process.old) (P.seen process.new)
        (λ m. noted_at layout.now m dict) result }
{
    let found = read_entry(alloc, process, layout, dict, "__notes__")?;
    Ok(Some(found))
}

/// The notes that stand at an address; there are none without one. At most 99 reads.
fn read_by_found<P: ProcessMemory>(
    alloc: Global,
    process: &mut P,
    layout: &Layout,
    found: Option<u64>,
) -> Result<Notes, ExceptionsError>
    requires sound { IsSound layout.now }
    ensures { Reading 99 (P.seen process.old) (P.seen process.new)
        (λ m. IfOk result (λ notes. notes_shown notes ≡ found_by layout.now m found)) }
{
    match found {
        None => Ok(Notes::Without),
        Some(at) => read_list(alloc, process, layout, at),
    }
}

/// The notes by what a dict has, where that is known. At most 99 reads.
fn read_by_noted<P: ProcessMemory>(
    alloc: Global,
    process: &mut P,
    layout: &Layout,
    noted: Option<Option<u64>>,
) -> Result<Notes, ExceptionsError>
    requires sound { IsSound layout.now }
    ensures { Reading 99 (P.seen process.old) (P.seen process.new)
        (λ m. IfOk result (λ notes. notes_shown notes ≡ notes_by layout.now m noted)) }
{
    match noted {
        None => Ok(Notes::Unreadable),
        Some(found) => read_by_found(alloc, process, layout, found),
    }
}

/// The notes of the exception whose dict stands at an address; 0 is none. At most 16485 reads.
pub(crate) fn read_notes<P: ProcessMemory>(
    alloc: Global,
    process: &mut P,
    layout: &Layout,
    dict: u64,
) -> Result<Notes, ExceptionsError>
    requires sound { IsSound layout.now }
    ensures { Reading 16485 (P.seen process.old) (P.seen process.new)
        (λ m. IfOk result (λ notes. notes_shown notes ≡ notes_at layout.now m dict)) }
{
    if dict == 0 {
        return Ok(Notes::Without);
    }
    let found = read_noted(alloc, process, layout, dict);
    let noted = or_none(found)?;
    read_by_noted(alloc, process, layout, noted)
}
