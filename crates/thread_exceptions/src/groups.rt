//! Whether an exception is a group, and its members.
ghost use Rattle.std.specs.Prelude.{◌≡◌, ◌*◌, ◌≤◌, IfOk, Ok, length, min};
ghost use Rattle.process_memory.specs.Seen.{Reading, Reads, read_fault};
ghost use Rattle.thread_exceptions.specs.Groups.{group_class_at, grouped_at, is_builtin, is_group_at, is_group_named};
ghost use Rattle.thread_exceptions.specs.Groups.{is_group_type};
ghost use Rattle.thread_exceptions.specs.Groups.{group_by, listed_at, members_at, members_if, members_of, row_at};
ghost use Rattle.thread_exceptions.specs.Groups.{told_members, words_in};

use crate::links::{Lost, lost_range, read_links};
use crate::{ExceptionsError, GroupPlaces, Places};
use elf64_core::u64_in;
use process_memory::{ProcessMemory, ReadFault, record, record_wide, word_past};
use std::alloc::Global;
use std::cmp::min;

/// How many types are looked at on the way to `object`.
const BASE_LIMIT: usize = 64;

/// How many members of a group are told at most.
const MEMBER_LIMIT: u64 = 4096;

/// The name of the type that all groups are based on, with the nul behind it.
const GROUP_NAME: [u8; 19] = *b"BaseExceptionGroup\0";

/// The flag of a type that was made while the program ran: CPython's `Py_TPFLAGS_HEAPTYPE`.
const PY_TPFLAGS_HEAPTYPE: u64 = 512;

/// The first members of a group.
#[derive(Drop)]
pub struct Group {
    /// Their addresses, in order: at most 4,096.
    pub members: Vec<u64>,
    /// How many more there are.
    pub left_out: u64,
}

/// The members of an exception.
#[derive(Drop)]
pub enum Members {
    /// It is no group.
    NoGroup,
    /// It is one of these.
    Group(Group),
    /// It is a group whose members are not in memory.
    Unreadable(Lost),
}

/// Where so many addresses stand, one behind the other.
#[derive(Clone, Copy)]
struct Row {
    first: u128,
    count: u64,
}

/// Whether a type of these flags is none of a program in Python.
fn is_builtin(flags: u64) -> bool
    ensures { result ≡ is_builtin flags }
{
    flags / PY_TPFLAGS_HEAPTYPE % 2 == 0
}

/// Whether these bytes are the name of the type that all groups are based on.
#[tactic(auto, unfolding(crate::specs::Groups::is_group_named))]
fn is_group_named(name: &[u8]) -> bool
    ensures { result ≡ is_group_named name.now }
{
    name == GROUP_NAME.as_slice()
}

/// Whether these are the flags and the name of that type.
fn is_group_type(flags: u64, name: &[u8]) -> bool
    ensures { result ≡ is_group_type flags name.now }
{
    is_builtin(flags) && is_group_named(name)
}

/// The same of the type at an address. At most 3 reads.
fn read_group_class<P: ProcessMemory>(
    alloc: Global,
    process: &mut P,
    places: &Places,
    class: u64,
) -> Result<bool, ReadFault>
    ensures { Reads read_fault 3 (P.seen process.old) (P.seen process.new) (λ m. group_class_at places.now m class)
        result }
{
    let flags = word_past(process, class, places.flags as u64)?;
    let at = word_past(process, class, places.name as u64)?;
    let name = record(alloc, process, at, 19)?;
    Ok(is_group_type(flags, &name))
}

/// The same; one that can't be read is not known to be it.
fn is_group_class<P: ProcessMemory>(
    alloc: Global,
    process: &mut P,
    places: &Places,
    class: u64,
) -> Result<bool, ExceptionsError>
    ensures { Reading 3 (P.seen process.old) (P.seen process.new)
        (λ m. IfOk result (λ is. is ≡ grouped_at places.now m class)) }
{
    match read_group_class(alloc, process, places, class) {
        Ok(is) => Ok(is),
        Err(error) => {
            lost_range(error)?;
            Ok(false)
        }
    }
}

/// Whether exceptions of a type are groups: it, or one that it is based on, is the built-in type of that name. At most
/// 257 reads.
fn is_group<P: ProcessMemory>(
    alloc: Global,
    process: &mut P,
    places: &Places,
    class: u64,
) -> Result<bool, ExceptionsError>
    ensures { Reading 257 (P.seen process.old) (P.seen process.new)
        (λ m. IfOk result (λ is. is ≡ is_group_at places.now m class)) }
{
    let lineage = read_links(alloc, process, places.base, BASE_LIMIT, class)?;
    for base in &lineage.members {
        let is = is_group_class(alloc, process, places, *base)?;
        if is {
            return Ok(true);
        }
    }
    Ok(false)
}

/// So many numbers of 8 bytes each, one behind the other.
fn words_in(alloc: Global, count: u64, bytes: &[u8]) -> Result<Vec<u64>, ExceptionsError>
    requires few { count ≤ 4096 }
    requires there { 8 * count ≤ length bytes.now }
    ensures { IfOk result (λ words. words.items ≡ words_in count bytes.now 0) }
{
    let mut words = Vec::new(alloc);
    let mut at = 0;
    for k in 0..count {
        words.push(u64_in(bytes, at))?;
        at += 8;
    }
    Ok(words)
}

/// Where the tuple of a group's members has them. At most 2 reads.
fn read_row<P: ProcessMemory>(
    process: &mut P,
    places: &GroupPlaces,
    at: u64,
) -> Result<Row, ReadFault>
    ensures { Reads read_fault 2 (P.seen process.old) (P.seen process.new) (λ m. row_at places.now m at) result }
{
    let tuple = word_past(process, at, places.members as u64)?;
    let count = word_past(process, tuple, places.count as u64)?;
    let first = tuple as u128 + places.items as u128;
    Ok(Row { first, count })
}

/// How many of so many members are told.
fn told_count(count: u64) -> u64
    ensures { result ≡ min count 4096 }
{
    min(count, MEMBER_LIMIT)
}

/// The members of a group that says that it has so many, by the bytes of the first ones.
fn listed(alloc: Global, count: u64, bytes: &[u8]) -> Result<Members, ExceptionsError>
    requires there { 8 * min count 4096 ≤ length bytes.now }
    ensures { IfOk result (λ members. members_of members ≡ group_by count (Ok bytes.now)) }
{
    let told = told_count(count);
    let members = words_in(alloc, told, bytes)?;
    let left_out = count - told;
    Ok(Members::Group(Group { members, left_out }))
}

/// The members of a group, where they stand. At most one read.
fn read_listed<P: ProcessMemory>(
    alloc: Global,
    process: &mut P,
    row: Row,
) -> Result<Members, ExceptionsError>
    ensures { Reading 1 (P.seen process.old) (P.seen process.new)
        (λ m. IfOk result (λ members. members_of members ≡ listed_at m row)) }
{
    let told = told_count(row.count);
    match record_wide(alloc, process, row.first, 8 * told) {
        Ok(bytes) => listed(alloc, row.count, &bytes),
        Err(error) => Ok(Members::Unreadable(lost_range(error)?)),
    }
}

/// The members of a group. At most 3 reads.
fn read_members<P: ProcessMemory>(
    alloc: Global,
    process: &mut P,
    places: &GroupPlaces,
    at: u64,
) -> Result<Members, ExceptionsError>
    ensures { Reading 3 (P.seen process.old) (P.seen process.new)
        (λ m. IfOk result (λ members. members_of members ≡ told_members (row_at places.now m at) m)) }
{
    match read_row(process, places, at) {
        Ok(row) => read_listed(alloc, process, row),
        Err(error) => Ok(Members::Unreadable(lost_range(error)?)),
    }
}

/// The members of an exception of a type, where a version has groups. At most 260 reads.
fn read_if_group<P: ProcessMemory>(
    alloc: Global,
    process: &mut P,
    places: &Places,
    group: &GroupPlaces,
    at: u64,
    class: u64,
) -> Result<Members, ExceptionsError>
    ensures { Reading 260 (P.seen process.old) (P.seen process.new)
        (λ m. IfOk result (λ members. members_of members
        ≡ members_if group.now (is_group_at places.now m class) m at)) }
{
    let is = is_group(alloc, process, places, class)?;
    if is {
        return read_members(alloc, process, group, at);
    }
    Ok(Members::NoGroup)
}

/// The members of an exception of a type. At most 260 reads.
pub(crate) fn read_group<P: ProcessMemory>(
    alloc: Global,
    process: &mut P,
    places: &Places,
    at: u64,
    class: u64,
) -> Result<Members, ExceptionsError>
    ensures { Reading 260 (P.seen process.old) (P.seen process.new)
        (λ m. IfOk result (λ members. members_of members ≡ members_at places.now m at class)) }
{
    match places.group {
        None => Ok(Members::NoGroup),
        Some(group) => read_if_group(alloc, process, places, &group, at, class),
    }
}
