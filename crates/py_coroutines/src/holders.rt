//! Objects that stand between a coroutine and what it awaits.
ghost use Rattle.std.specs.Prelude.{◌≡◌};
ghost use Rattle.process_memory.specs.Seen.{Reads, read_fault};
ghost use Rattle.py_coroutines.specs.Holders.{IsUnnamed, fits, held_at, holder_at, holder_named, is_builtin};
ghost use Rattle.py_coroutines.specs.Holders.{is_named, named_at, other_at, wanted_at};
ghost use Rattle.py_coroutines.specs.Turns.{turn_of_result};

use crate::kinds::is_future;
use crate::{ClassPlaces, Held, Holders, Places, Stop, Turn, Wants};
use elf64_core::until_nul;
use process_memory::{ProcessMemory, ReadFault, record, word_past};
use std::alloc::Global;

/// How many bytes a type's name is looked for in.
const NAME_LIMIT: u64 = 128;

/// The flag of a type that was made while the program ran: CPython's `Py_TPFLAGS_HEAPTYPE`.
const PY_TPFLAGS_HEAPTYPE: u64 = 512;

/// The flag of a type that can't be changed: CPython's `Py_TPFLAGS_IMMUTABLETYPE`.
const PY_TPFLAGS_IMMUTABLETYPE: u64 = 256;

/// Whether the bytes before the first nul are a name.
fn is_named(chars: &[u8], name: &str) -> bool
    ensures { result ≡ is_named chars.now name.now }
{
    match until_nul(chars) {
        Some(text) => text == name.as_bytes(),
        None => false,
    }
}

/// What an object whose class has this name must be, where it is one that stands between.
#[tactic(auto, unfolding(crate::specs::Holders::holder_named))]
fn holder_named(holders: &Holders, chars: &[u8]) -> Option<Held>
    ensures { result ≡ holder_named holders.now chars.now }
{
    if is_named(chars, "coroutine_wrapper") {
        return holders.coroutine_wrapper;
    }
    if is_named(chars, "async_generator_asend") {
        return holders.asend;
    }
    if is_named(chars, "async_generator_athrow") {
        return holders.athrow;
    }
    if is_named(chars, "anext_awaitable") {
        return holders.anext_awaitable;
    }
    if is_named(chars, "_asyncio.FutureIter") {
        return holders.future_iter;
    }
    None
}

/// Whether a class of these flags is none of a program in Python.
#[tactic(auto, unfolding(crate::specs::Holders::is_builtin))]
fn is_builtin(flags: u64) -> bool
    ensures { result ≡ is_builtin flags }
{
    flags / PY_TPFLAGS_HEAPTYPE % 2 == 0 || flags / PY_TPFLAGS_IMMUTABLETYPE % 2 == 1
}

/// The same, where a class has these flags and its objects so many bytes.
#[tactic(auto, unfolding(crate::specs::Holders::fits))]
fn fits(holder: Option<Held>, flags: u64, size: u64) -> Option<Held>
    ensures { result ≡ fits holder flags size }
{
    match holder {
        None => None,
        Some(held) => {
            if is_builtin(flags) && held.size as u64 == size {
                Some(held)
            } else {
                None
            }
        }
    }
}

/// None, where a name is not in memory; out of memory is handed on.
fn unnamed(error: ReadFault) -> Result<Option<Held>, ReadFault>
    ensures { IsUnnamed error result }
{
    match error {
        ReadFault::Unreadable { .. } => Ok(None),
        ReadFault::OutOfMemory => Err(ReadFault::OutOfMemory),
    }
}

/// What an object whose class's name is at an address must be; none where the name is not in memory. At most one read.
fn read_named<P: ProcessMemory>(
    alloc: Global,
    process: &mut P,
    holders: &Holders,
    name: u64,
) -> Result<Option<Held>, ReadFault>
    ensures { Reads read_fault 1 (P.seen process.old) (P.seen process.new) (λ m. named_at holders.now m name) result }
{
    match record(alloc, process, name, NAME_LIMIT) {
        Ok(chars) => Ok(holder_named(holders, &chars)),
        Err(error) => unnamed(error),
    }
}

/// What an object of a class must be, where it is one that stands between. At most 4 reads.
fn read_holder<P: ProcessMemory>(
    alloc: Global,
    process: &mut P,
    holders: &Holders,
    places: &ClassPlaces,
    class: u64,
) -> Result<Option<Held>, ReadFault>
    ensures { Reads read_fault 4 (P.seen process.old) (P.seen process.new)
        (λ m. holder_at holders.now places.now m class) result }
{
    let flags = word_past(process, class, places.flags as u64)?;
    let size = word_past(process, class, places.basic_size as u64)?;
    let name = word_past(process, class, places.name as u64)?;
    let holder = read_named(alloc, process, holders, name)?;
    Ok(fits(holder, flags, size))
}

/// An object of a class that holds another one, or 0, by what it wants. At most one read.
fn read_wanted<P: ProcessMemory>(
    process: &mut P,
    places: &ClassPlaces,
    at: u64,
    class: u64,
    held: u64,
    wants: Wants,
) -> Result<Turn, ReadFault>
    ensures { Reads read_fault 1 (P.seen process.old) (P.seen process.new)
        (λ m. wanted_at places.now m at class wants held) (turn_of_result result) }
{
    let other = Turn::Before(Stop::Other { addr: at, class });
    if held == 0 {
        return Ok(other);
    }
    match wants {
        Wants::Any => Ok(Turn::To(held)),
        Wants::Future => Ok(Turn::Before(Stop::Future { addr: held })),
        Wants::Class(wanted) => {
            let own = word_past(process, held, places.klass as u64)?;
            if own == wanted {
                return Ok(Turn::To(held));
            }
            Ok(other)
        }
    }
}

/// An object of a class that may be one that stands between. At most 2 reads.
fn read_held<P: ProcessMemory>(
    process: &mut P,
    places: &ClassPlaces,
    at: u64,
    class: u64,
    holder: Option<Held>,
) -> Result<Turn, ReadFault>
    ensures { Reads read_fault 2 (P.seen process.old) (P.seen process.new)
        (λ m. held_at places.now m at class holder) (turn_of_result result) }
{
    match holder {
        None => Ok(Turn::Before(Stop::Other { addr: at, class })),
        Some(holder) => {
            let held = word_past(process, at, holder.held as u64)?;
            read_wanted(process, places, at, class, held, holder.wants)
        }
    }
}

/// What an object of a class awaits, where it is no coroutine. At most 6 reads.
pub(crate) fn read_other<P: ProcessMemory>(
    alloc: Global,
    process: &mut P,
    places: &Places,
    at: u64,
    class: u64,
) -> Result<Turn, ReadFault>
    ensures { Reads read_fault 6 (P.seen process.old) (P.seen process.new)
        (λ m. other_at places.now m at class) (turn_of_result result) }
{
    let is = is_future(&places.types, class);
    if is {
        return Ok(Turn::Before(Stop::Future { addr: at }));
    }
    let holder = read_holder(alloc, process, &places.holders, &places.class, class)?;
    read_held(process, &places.class, at, class, holder)
}
