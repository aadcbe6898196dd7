//! The members of a type, as its own table names them: CPython's `PyMemberDef`.
ghost use Rattle.std.specs.Prelude.{◌≡◌, ◌+◌, ◌*◌, ◌<◌, ◌^◌, length, encode_utf8_all};
ghost use Rattle.process_memory.specs.Seen.{Reads, read_fault};
ghost use Rattle.py_selftest.specs.Members.{entry_at, is_called_at, is_int, is_named, is_wide, member_at, member_from};
ghost use Rattle.py_selftest.specs.Members.{member_if_at, member_place_at, place_of, step_at, width_by, width_of};

use elf64_core::until_nul;
use process_memory::{ProcessMemory, ReadFault, record, word_past};
use std::alloc::Global;

/// How many members of a type are looked at, at most.
const MEMBER_LIMIT: u64 = 256;

/// How many bytes an entry of the table has, and where its type code and its place stand.
const ENTRY_SIZE: u64 = 40;

const CODE_AT: u64 = 8;

const OFFSET_AT: u64 = 16;

/// How far behind the word that names a type's own type the word stands that names its members (`tp_members`).
const MEMBERS_AT: u64 = 232;

/// A member of a type.
#[derive(Clone, Copy)]
pub(crate) struct Member {
    /// Where it stands in an instance, in bytes.
    pub(crate) offset: u64,
    /// How many bytes it has; 0 of a type code that is not known.
    pub(crate) width: u64,
}

/// What an entry of the table is.
#[derive(Clone, Copy)]
pub(crate) enum Step {
    /// The end.
    End,
    /// The member that is looked for.
    Found(Member),
    /// Another one.
    Other,
}

/// Whether the bytes before the first nul are a name.
fn is_named(chars: &[u8], name: &str) -> bool
    ensures { result ≡ is_named chars.now name.now }
{
    match until_nul(chars) {
        Some(text) => text == name.as_bytes(),
        None => false,
    }
}

/// How long a name is that is looked for, at most.
const NAME_LIMIT: usize = 1024;

/// Whether a name stands at an address, with a nul behind it; one of more than 1024 bytes never does. At most one read.
pub(crate) fn is_called<P: ProcessMemory>(
    alloc: Global,
    process: &mut P,
    name: &str,
    addr: u64,
) -> Result<bool, ReadFault>
    ensures { Reads read_fault 1 (P.seen process.old) (P.seen process.new)
        (λ m. is_called_at m name.now addr) result }
{
    let is_long = name.len() > NAME_LIMIT;
    if is_long {
        return Ok(false);
    }
    let chars = record(alloc, process, addr, name.len() as u64 + 1)?;
    Ok(is_named(&chars, name))
}

/// Whether a type code is that of an int or of an unsigned one (Include/structmember.h).
fn is_int(code: u64) -> bool
    ensures { result ≡ is_int code }
{
    code == 1 || code == 11
}

/// Whether it is that of a long, of an object, of an unsigned long, of an object that has to be there, or of a size.
fn is_wide(code: u64) -> bool
    ensures { result ≡ is_wide code }
{
    code == 2 || code == 6 || code == 12 || code == 16 || code == 19
}

/// How many bytes a member has, by its type code; 0 of another code. 14 is that of a truth value.
fn width_by(code: u64) -> u64
    ensures { result ≡ width_by code }
{
    if is_int(code) {
        return 4;
    }
    if is_wide(code) {
        return 8;
    }
    if code == 14 {
        return 1;
    }
    0
}

/// How many bytes a member has, by the type code in the low half of a word.
#[tactic(auto, unfolding(crate::specs::Members::width_of))]
fn width_of(word: u64) -> u64
    ensures { result ≡ width_of word }
{
    width_by(word % 0x1_0000_0000)
}

/// The member of an entry. At most 2 reads.
fn read_member<P: ProcessMemory>(
    process: &mut P,
    table: u64,
    offset: u64,
) -> Result<Step, ReadFault>
    requires near { offset + 16 < 2 ^ 64 }
    ensures { Reads read_fault 2 (P.seen process.old) (P.seen process.new)
        (λ m. entry_at m table offset) result }
{
    let code = word_past(process, table, offset + CODE_AT)?;
    let place = word_past(process, table, offset + OFFSET_AT)?;
    Ok(Step::Found(Member {
        offset: place,
        width: width_of(code),
    }))
}

/// The same, if it is the one that is looked for. At most 2 reads.
fn member_if<P: ProcessMemory>(
    process: &mut P,
    table: u64,
    offset: u64,
    is: bool,
) -> Result<Step, ReadFault>
    requires near { offset + 16 < 2 ^ 64 }
    ensures { Reads read_fault 2 (P.seen process.old) (P.seen process.new)
        (λ m. member_if_at m table offset is) result }
{
    if is {
        return read_member(process, table, offset);
    }
    Ok(Step::Other)
}

/// What an entry of a table is, for a name. At most 4 reads.
fn read_step<P: ProcessMemory>(
    alloc: Global,
    process: &mut P,
    name: &str,
    table: u64,
    offset: u64,
) -> Result<Step, ReadFault>
    requires near { offset + 16 < 2 ^ 64 }
    ensures { Reads read_fault 4 (P.seen process.old) (P.seen process.new)
        (λ m. step_at m name.now table offset) result }
{
    let addr = word_past(process, table, offset)?;
    if addr == 0 {
        return Ok(Step::End);
    }
    let is = is_called(alloc, process, name, addr)?;
    member_if(process, table, offset, is)
}

/// The first member of a name among the first 256 entries of a table, before its end. At most 4 reads for each.
fn member_in<P: ProcessMemory>(
    alloc: Global,
    process: &mut P,
    name: &str,
    table: u64,
) -> Result<Option<Member>, ReadFault>
    ensures { Reads read_fault 1024 (P.seen process.old) (P.seen process.new)
        (λ m. member_from m name.now table 256 0) result }
{
    for number in 0..MEMBER_LIMIT {
        match read_step(alloc, process, name, table, number * ENTRY_SIZE)? {
            Step::End => return Ok(None),
            Step::Found(member) => return Ok(Some(member)),
            Step::Other => {}
        }
    }
    Ok(None)
}

/// The member of a name of the type at an address, of its own table alone. `own` says where the word stands that names
/// the type of a type. At most 1025 reads.
pub(crate) fn find_member<P: ProcessMemory>(
    alloc: Global,
    process: &mut P,
    own: u32,
    of: u64,
    name: &str,
) -> Result<Option<Member>, ReadFault>
    ensures { Reads read_fault 1025 (P.seen process.old) (P.seen process.new)
        (λ m. member_at m own of name.now) result }
{
    let table = word_past(process, of, own as u64 + MEMBERS_AT)?;
    member_in(alloc, process, name, table)
}

/// Where the member of a name stands, if it has so many bytes. At most 1025 reads.
pub(crate) fn member_place<P: ProcessMemory>(
    alloc: Global,
    process: &mut P,
    own: u32,
    of: u64,
    name: &str,
    width: u64,
) -> Result<Option<u64>, ReadFault>
    ensures { Reads read_fault 1025 (P.seen process.old) (P.seen process.new)
        (λ m. member_place_at m own of name.now width) result }
{
    let found = find_member(alloc, process, own, of, name)?;
    Ok(place_of(found, width))
}

/// Where a member stands that has so many bytes.
fn place_of(found: Option<Member>, width: u64) -> Option<u64>
    ensures { result ≡ place_of found width }
{
    match found {
        Some(member) => {
            if member.width == width {
                Some(member.offset)
            } else {
                None
            }
        }
        None => None,
    }
}
