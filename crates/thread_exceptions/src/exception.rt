//! What stands at an address: an exception, or another object.
ghost use Rattle.std.specs.Prelude.{◌≡◌, IfOk, Ok, length, true};
ghost use Rattle.process_memory.specs.Seen.{Reading, Reads, read_fault};
ghost use Rattle.thread_exceptions.specs.Exceptions.{is_exception, parts_at, parts_if, parts_in, what_at, what_by};
ghost use Rattle.thread_exceptions.specs.Exceptions.{what_of};
ghost use Rattle.thread_exceptions.specs.Places.{IsSound, IsSoundException};

use crate::groups::{Members, read_group};
use crate::links::{Lost, lost_range};
use crate::{ExceptionPlaces, ExceptionsError, Places};
use elf64_core::u64_in;
use process_memory::{ProcessMemory, ReadFault, record, word_past};
use std::alloc::Global;

/// The flag of a type whose objects are exceptions: CPython's `Py_TPFLAGS_BASE_EXC_SUBCLASS`.
const PY_TPFLAGS_BASE_EXC_SUBCLASS: u64 = 1 << 30;

/// What the record of an exception says.
#[derive(Clone, Copy)]
pub struct Parts {
    /// The address of its type.
    pub class: u64,
    /// That of its dict, or 0.
    pub dict: u64,
    /// That of the tuple of its arguments.
    pub args: u64,
    /// That of the first entry of its traceback, or 0.
    pub traceback: u64,
    /// That of the exception that was handled when it was raised, or 0.
    pub context: u64,
    /// That of the exception that it was raised from, or 0.
    pub cause: u64,
    /// Whether the context is not to be shown.
    pub suppress_context: bool,
}

/// What stands at an address.
#[derive(Drop)]
pub enum What {
    /// An exception: its type says so.
    Exception { parts: Parts, members: Members },
    /// Another object, as `None`.
    Other,
    /// What it is is not in memory.
    Unreadable(Lost),
}

/// Whether objects of a type of these flags are exceptions.
#[tactic(auto, unfolding(crate::specs::Exceptions::is_exception))]
pub(crate) fn is_exception(flags: u64) -> bool
    ensures { result ≡ is_exception flags }
{
    flags / PY_TPFLAGS_BASE_EXC_SUBCLASS % 2 == 1
}

/// What the record of an exception of a type says.
#[tactic(auto, unfolding(crate::specs::Exceptions::parts_in, elf64_core::specs::Fields::u8_in))]
fn parts_in(at: &ExceptionPlaces, class: u64, bytes: &[u8]) -> Parts
    requires sound { IsSoundException at.now }
    requires whole { length bytes.now ≡ at.now.size }
    ensures { result ≡ parts_in at.now class bytes.now }
{
    Parts {
        class,
        dict: u64_in(bytes, at.dict as usize),
        args: u64_in(bytes, at.args as usize),
        traceback: u64_in(bytes, at.traceback as usize),
        context: u64_in(bytes, at.context as usize),
        cause: u64_in(bytes, at.cause as usize),
        suppress_context: bytes[at.suppress_context as usize] != 0,
    }
}

/// What the record of the exception of a type at an address says. One read.
fn read_record<P: ProcessMemory>(
    alloc: Global,
    process: &mut P,
    places: &Places,
    at: u64,
    class: u64,
) -> Result<Option<Parts>, ReadFault>
    requires sound { IsSound places.now }
    ensures { Reads read_fault 1 (P.seen process.old) (P.seen process.new)
        (λ m. parts_if places.now m at class true) result }
{
    let bytes = record(alloc, process, at, places.exception.size as u64)?;
    Ok(Some(parts_in(&places.exception, class, &bytes)))
}

/// What the record of the exception at an address says; none of another object. At most 3 reads.
fn read_parts<P: ProcessMemory>(
    alloc: Global,
    process: &mut P,
    places: &Places,
    at: u64,
) -> Result<Option<Parts>, ReadFault>
    requires sound { IsSound places.now }
    ensures { Reads read_fault 3 (P.seen process.old) (P.seen process.new) (λ m. parts_at places.now m at) result }
{
    let class = word_past(process, at, places.klass as u64)?;
    let flags = word_past(process, class, places.flags as u64)?;
    let is = is_exception(flags);
    if is {
        return read_record(alloc, process, places, at, class);
    }
    Ok(None)
}

/// What stands at an address, by its record. At most 260 reads.
fn read_by_parts<P: ProcessMemory>(
    alloc: Global,
    process: &mut P,
    places: &Places,
    at: u64,
    parts: Option<Parts>,
) -> Result<What, ExceptionsError>
    ensures { Reading 260 (P.seen process.old) (P.seen process.new)
        (λ m. IfOk result (λ what. what_of what ≡ what_by places.now m at (Ok parts))) }
{
    match parts {
        None => Ok(What::Other),
        Some(parts) => {
            let members = read_group(alloc, process, places, at, parts.class)?;
            Ok(What::Exception { parts, members })
        }
    }
}

/// What stands at an address. At most 263 reads.
pub(crate) fn read_what<P: ProcessMemory>(
    alloc: Global,
    process: &mut P,
    places: &Places,
    at: u64,
) -> Result<What, ExceptionsError>
    requires sound { IsSound places.now }
    ensures { Reading 263 (P.seen process.old) (P.seen process.new)
        (λ m. IfOk result (λ what. what_of what ≡ what_at places.now m at)) }
{
    match read_parts(alloc, process, places, at) {
        Ok(parts) => read_by_parts(alloc, process, places, at, parts),
        Err(error) => Ok(What::Unreadable(lost_range(error)?)),
    }
}
