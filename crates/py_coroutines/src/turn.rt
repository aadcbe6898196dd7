//! What stands at an address: a member of a chain and what it awaits, or how the chain ends there.
ghost use Rattle.std.specs.Prelude.{◌≡◌, IfOk, length};
ghost use Rattle.process_memory.specs.Seen.{Reading, Reads, read_fault};
ghost use Rattle.py_coroutines.specs.Objects.{awaited_at, code_turn_at, coded_turn_at, coroutine_at, member_by};
ghost use Rattle.py_coroutines.specs.Objects.{other_by, resumes, top_at, turn_at};
ghost use Rattle.py_coroutines.specs.Holders.{other_at};
ghost use Rattle.py_coroutines.specs.Places.{IsSound};
ghost use Rattle.py_coroutines.specs.Turns.{IsLost, turn_of, turn_of_result};

use crate::holders::read_other;
use crate::kinds::kind_of;
use crate::standing::read_standing;
use crate::{AwaitError, CodePlaces, Places, Standing};
use process_memory::{ProcessMemory, ReadFault, record_wide, word_past, word_wide};
use std::alloc::Global;

/// What ends a chain by itself.
#[derive(Debug, Clone, Copy, PartialEq, Eq)]
pub enum Stop {
    /// Its last member awaits this future.
    Future { addr: u64 },
    /// Its last member is in a plain `yield`.
    Yielding,
    /// Its last member has not begun.
    Created,
    /// Its last member runs.
    Running,
    /// Its last member is done.
    Finished,
    /// Its last member awaits something, and says that its stack is empty.
    NoTop,
    /// Its last member awaits this object of another class, which stands at `class`.
    Other { addr: u64, class: u64 },
    /// What its last member awaits is not known: `len` bytes at `addr` are not in memory.
    Unreadable { addr: u64, len: u64 },
}

/// How a chain ends.
#[derive(Debug, Clone, Copy, PartialEq, Eq)]
pub enum AwaitEnd {
    /// By itself.
    Stops(Stop),
    /// At a member that was met before: its last member awaits this one of its members.
    Cycle { addr: u64 },
    /// Before an object of which only the address is known: no more may be met.
    Cut { addr: u64 },
}

/// What stands at an address.
#[derive(Clone, Copy)]
pub enum Turn {
    /// A member, which awaits the object at this address.
    To(u64),
    /// A member, at which the chain ends.
    Last(Stop),
    /// No member.
    Before(Stop),
}

/// The end at a range that was not read; out of memory is none.
fn lost(error: ReadFault) -> Result<Stop, AwaitError>
    ensures { IsLost error result }
{
    match error {
        ReadFault::Unreadable { addr, len } => Ok(Stop::Unreadable { addr, len }),
        ReadFault::OutOfMemory => Err(AwaitError::OutOfMemory),
    }
}

/// Whether the instruction behind the last one of a frame is that of one that awaits.
#[tactic(auto, unfolding(elf64_core::specs::Fields::u8_in, crate::specs::Objects::resumes))]
fn resumes(code: &CodePlaces, pair: &[u8]) -> bool
    requires { length pair.now ≡ 2 }
    ensures { result ≡ resumes code.now pair.now }
{
    let (opcode, argument) = (pair[0] as u32, pair[1] as u32);
    (opcode == code.first || opcode == code.second) && argument >= code.least
}

/// A coroutine that awaits what the word on top of its stack names. At most one read.
fn read_top<P: ProcessMemory>(process: &mut P, top: Option<u128>) -> Result<Turn, ReadFault>
    ensures { Reads read_fault 1 (P.seen process.old) (P.seen process.new) (λ m. top_at m top) (turn_of_result result) }
{
    match top {
        None => Ok(Turn::Last(Stop::NoTop)),
        Some(top) => {
            let next = word_wide(process, top)?;
            Ok(Turn::To(next))
        }
    }
}

/// A suspended coroutine, by the instruction behind its last one. At most 2 reads.
fn read_by_code<P: ProcessMemory>(
    alloc: Global,
    process: &mut P,
    code: &CodePlaces,
    next: u128,
    top: Option<u128>,
) -> Result<Turn, ReadFault>
    ensures { Reads read_fault 2 (P.seen process.old) (P.seen process.new)
        (λ m. code_turn_at code.now m next top) (turn_of_result result) }
{
    let pair = record_wide(alloc, process, next, 2)?;
    let awaits = resumes(code, &pair);
    if awaits {
        return read_top(process, top);
    }
    Ok(Turn::Last(Stop::Yielding))
}

/// The same, where that instruction stands so far behind the first one of the code at an address. At most 3 reads.
fn read_coded<P: ProcessMemory>(
    alloc: Global,
    process: &mut P,
    code: &CodePlaces,
    at: u64,
    offset: u64,
    top: Option<u128>,
) -> Result<Turn, ReadFault>
    ensures { Reads read_fault 3 (P.seen process.old) (P.seen process.new)
        (λ m. coded_turn_at code.now m at offset top) (turn_of_result result) }
{
    let bytecode = word_past(process, at, code.bytecode as u64)?;
    let next = bytecode as u128 + code.start as u128 + offset as u128;
    read_by_code(alloc, process, code, next, top)
}

/// What a coroutine awaits, by where it stands. At most 3 reads.
fn read_awaited<P: ProcessMemory>(
    alloc: Global,
    process: &mut P,
    code: &CodePlaces,
    standing: Standing,
) -> Result<Turn, ReadFault>
    ensures { Reads read_fault 3 (P.seen process.old) (P.seen process.new)
        (λ m. awaited_at code.now m standing) (turn_of_result result) }
{
    match standing {
        Standing::Created => Ok(Turn::Last(Stop::Created)),
        Standing::Yielding => Ok(Turn::Last(Stop::Yielding)),
        Standing::Awaiting { top } => read_top(process, top),
        Standing::Suspended { next, top } => read_by_code(alloc, process, code, next, top),
        Standing::Coded {
            code: at,
            offset,
            top,
        } => read_coded(alloc, process, code, at, offset, top),
        Standing::Running => Ok(Turn::Last(Stop::Running)),
        Standing::Finished => Ok(Turn::Last(Stop::Finished)),
    }
}

/// What the coroutine at an address awaits. At most 5 reads.
fn read_coroutine<P: ProcessMemory>(
    alloc: Global,
    process: &mut P,
    places: &Places,
    at: u64,
) -> Result<Turn, ReadFault>
    requires sound { IsSound places.now }
    ensures { Reads read_fault 5 (P.seen process.old) (P.seen process.new)
        (λ m. coroutine_at places.now m at) (turn_of_result result) }
{
    let standing = read_standing(alloc, process, &places.family, at)?;
    read_awaited(alloc, process, &places.code, standing)
}

/// A coroutine, which is a member in any case.
fn read_member<P: ProcessMemory>(
    alloc: Global,
    process: &mut P,
    places: &Places,
    at: u64,
) -> Result<Turn, AwaitError>
    requires sound { IsSound places.now }
    ensures { Reading 5 (P.seen process.old) (P.seen process.new)
        (λ m. IfOk result (λ turn. turn_of turn ≡ member_by (coroutine_at places.now m at))) }
{
    match read_coroutine(alloc, process, places, at) {
        Ok(turn) => Ok(turn),
        Err(error) => Ok(Turn::Last(lost(error)?)),
    }
}

/// Another object, which is a member where it holds what it awaits.
fn read_between<P: ProcessMemory>(
    alloc: Global,
    process: &mut P,
    places: &Places,
    at: u64,
    class: u64,
) -> Result<Turn, AwaitError>
    ensures { Reading 6 (P.seen process.old) (P.seen process.new)
        (λ m. IfOk result (λ turn. turn_of turn ≡ other_by (other_at places.now m at class))) }
{
    match read_other(alloc, process, places, at, class) {
        Ok(turn) => Ok(turn),
        Err(error) => Ok(Turn::Before(lost(error)?)),
    }
}

/// What stands at an address. At most 7 reads.
pub(crate) fn read_turn<P: ProcessMemory>(
    alloc: Global,
    process: &mut P,
    places: &Places,
    at: u64,
) -> Result<Turn, AwaitError>
    requires sound { IsSound places.now }
    ensures { Reading 7 (P.seen process.old) (P.seen process.new)
        (λ m. IfOk result (λ turn. turn_of turn ≡ turn_at places.now m at)) }
{
    let class = match word_past(process, at, places.class.klass as u64) {
        Ok(class) => class,
        Err(error) => return Ok(Turn::Before(lost(error)?)),
    };
    match kind_of(&places.types, class) {
        Some(_) => read_member(alloc, process, places, at),
        None => read_between(alloc, process, places, at, class),
    }
}
