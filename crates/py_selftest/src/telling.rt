//! What a process tells of its own records.
ghost use Rattle.std.specs.Prelude.{◌≡◌};
ghost use Rattle.process_memory.specs.Seen.{Reads, read_fault};
ghost use Rattle.py_selftest.specs.Telling.{address_of, applies, both, entry_in, entry_told, is_before, kept_result};
ghost use Rattle.py_selftest.specs.Telling.{less, line_table, member_told, placed, row_told, size_if, size_told};
ghost use Rattle.py_selftest.specs.Telling.{source_told, word_told, words_apart};
ghost use Rattle.py_selftest.specs.Rows.{row_of, source_of};

use crate::members::member_place;
use crate::rows::{BuiltIn, Entry, Row, Source, When};
use process_memory::{ProcessMemory, ReadFault, word_past};
use std::alloc::Global;

/// How far behind the word that names a type's own type the word stands that says how many bytes an instance has
/// (`tp_basicsize`).
const SIZE_AT: u64 = 24;

/// Where the built-in types of a process stand, those that are known.
#[derive(Clone, Copy, Debug, Drop, PartialEq, Eq)]
pub struct Types {
    /// `type` itself.
    pub metatype: Option<u64>,
    pub code: Option<u64>,
    pub frame: Option<u64>,
    /// `str` of Python 3.
    pub text: Option<u64>,
    pub tuple: Option<u64>,
    /// `bytes`, or `str` of Python 2.
    pub bytes: Option<u64>,
    /// `int`, or `long` of Python 2.
    pub long: Option<u64>,
}

/// A version of Python, by its first two numbers.
#[derive(Clone, Copy, Debug, Drop, PartialEq, Eq)]
pub struct Release {
    pub major: u64,
    pub minor: u64,
}

/// What of a process tells its numbers.
#[derive(Clone, Copy)]
pub(crate) struct Telling {
    /// The types that tell.
    pub(crate) types: Types,
    /// Where a type names its own type.
    pub(crate) own: Option<u32>,
    /// The address of the table of 3.13.
    pub(crate) table: Option<u64>,
    pub(crate) release: Release,
}

/// A type, and where it names its own type.
#[derive(Clone, Copy)]
pub(crate) struct Placed {
    pub(crate) own: u32,
    pub(crate) of: u64,
}

/// Whether a version of Python stands before this minor of major 3.
pub(crate) fn is_before(release: Release, minor: u64) -> bool
    ensures { result ≡ is_before release minor }
{
    release.major < 3 || (release.major == 3 && release.minor < minor)
}

/// Whether something is said of a version.
pub(crate) fn applies(when: When, release: Release) -> bool
    ensures { result ≡ applies when release }
{
    match when {
        When::Never => false,
        When::Always => true,
        When::BeforeEleven => is_before(release, 11),
        When::FromEleven => !is_before(release, 11),
    }
}

/// The address of a built-in type.
fn address_of(types: &Types, of: BuiltIn) -> Option<u64>
    ensures { result ≡ address_of types.now of }
{
    match of {
        BuiltIn::Metatype => types.metatype,
        BuiltIn::Code => types.code,
        BuiltIn::Frame => types.frame,
        BuiltIn::Tuple => types.tuple,
        BuiltIn::Bytes => types.bytes,
        BuiltIn::Long => types.long,
    }
}

/// A type at an address, where a type names its own type at a place; none where either is not known.
fn both(own: Option<u32>, of: Option<u64>) -> Option<Placed>
    ensures { result ≡ both own of }
{
    match own {
        None => None,
        Some(own) => match of {
            None => None,
            Some(of) => Some(Placed { own, of }),
        },
    }
}

/// A built-in type that tells.
fn type_placed(telling: &Telling, of: BuiltIn) -> Option<Placed>
    ensures { result ≡ placed telling.now of }
{
    both(telling.own, address_of(&telling.types, of))
}

/// The name of the member of code that is its line table.
fn line_table(release: Release) -> &'static str
    ensures { result.now ≡ line_table release }
{
    if is_before(release, 10) {
        "co_lnotab"
    } else {
        "co_linetable"
    }
}

/// A number less another one; none where that is larger.
pub(crate) fn less(number: u64, by: u64) -> Option<u64>
    ensures { result ≡ less number by }
{
    number.checked_sub(by)
}

/// What is told, and none where it is not in memory.
pub(crate) fn kept<T: Drop>(found: Result<Option<T>, ReadFault>) -> Result<Option<T>, ReadFault>
    ensures { result ≡ kept_result found }
{
    match found {
        Ok(told) => Ok(told),
        Err(ReadFault::Unreadable { .. }) => Ok(None),
        Err(ReadFault::OutOfMemory) => Err(ReadFault::OutOfMemory),
    }
}

/// Where the member of a name of a built-in type stands, if it has so many bytes. At most 1025 reads.
pub(crate) fn member_told<P: ProcessMemory>(
    alloc: Global,
    process: &mut P,
    telling: &Telling,
    of: BuiltIn,
    name: &str,
    width: u64,
) -> Result<Option<u64>, ReadFault>
    ensures { Reads read_fault 1025 (P.seen process.old) (P.seen process.new)
        (λ m. member_told m telling.now of name.now width) result }
{
    match type_placed(telling, of) {
        Some(it) => member_place(alloc, process, it.own, it.of, name, width),
        None => Ok(None),
    }
}

/// How many bytes an instance of a built-in type has, less so many. At most one read.
fn size_told<P: ProcessMemory>(
    process: &mut P,
    telling: &Telling,
    of: BuiltIn,
    by: u64,
) -> Result<Option<u64>, ReadFault>
    ensures { Reads read_fault 1 (P.seen process.old) (P.seen process.new)
        (λ m. size_told m telling.now of by) result }
{
    match type_placed(telling, of) {
        Some(it) => {
            let size = word_past(process, it.of, it.own as u64 + SIZE_AT)?;
            Ok(less(size, by))
        }
        None => Ok(None),
    }
}

/// The same, if it is said of this version. At most one read.
fn size_if<P: ProcessMemory>(
    process: &mut P,
    telling: &Telling,
    of: BuiltIn,
    by: u64,
    is: bool,
) -> Result<Option<u64>, ReadFault>
    ensures { Reads read_fault 1 (P.seen process.old) (P.seen process.new)
        (λ m. size_if m telling.now of by is) result }
{
    if is {
        return size_told(process, telling, of, by);
    }
    Ok(None)
}

/// Where the type of a type stands in its record.
fn own_told(telling: &Telling) -> Option<u64>
    ensures { result ≡ telling.now.own }
{
    match telling.own {
        Some(own) => Some(own as u64),
        None => None,
    }
}

/// The number that the types tell. At most 1025 reads.
fn source_told<P: ProcessMemory>(
    alloc: Global,
    process: &mut P,
    telling: &Telling,
    width: u64,
    source: Source,
) -> Result<Option<u64>, ReadFault>
    ensures { Reads read_fault 1025 (P.seen process.old) (P.seen process.new)
        (λ m. source_told m telling.now width (source_of source)) result }
{
    match source {
        Source::Nothing => Ok(None),
        Source::Member(of, name) => member_told(alloc, process, telling, of, name, width),
        Source::LineTable => {
            let name = line_table(telling.release);
            member_told(alloc, process, telling, BuiltIn::Code, name, width)
        }
        Source::BasicSize(of, by, when) => {
            let is = applies(when, telling.release);
            size_if(process, telling, of, by, is)
        }
        Source::OwnPlace => Ok(own_told(telling)),
    }
}

/// The number of a word of a record, as of the table. One read.
pub(crate) fn word_told<P: ProcessMemory>(
    process: &mut P,
    table: u64,
    at: u64,
) -> Result<Option<u64>, ReadFault>
    ensures { Reads read_fault 1 (P.seen process.old) (P.seen process.new)
        (λ m. word_told m table at) result }
{
    let number = word_past(process, table, at)?;
    Ok(Some(number))
}

/// The number of a word of the table, less that of another one. At most 2 reads.
fn words_apart<P: ProcessMemory>(
    process: &mut P,
    table: u64,
    at: u64,
    from: u64,
) -> Result<Option<u64>, ReadFault>
    ensures { Reads read_fault 2 (P.seen process.old) (P.seen process.new)
        (λ m. words_apart m table at from) result }
{
    let number = word_past(process, table, at)?;
    let by = word_past(process, table, from)?;
    Ok(less(number, by))
}

/// The number that an entry of the table tells. At most 2 reads.
fn entry_in<P: ProcessMemory>(
    process: &mut P,
    table: u64,
    entry: Entry,
) -> Result<Option<u64>, ReadFault>
    ensures { Reads read_fault 2 (P.seen process.old) (P.seen process.new)
        (λ m. entry_in m table entry) result }
{
    match entry {
        Entry::Absent => Ok(None),
        Entry::At(at) => word_told(process, table, at),
        Entry::Behind(at, from) => words_apart(process, table, at, from),
    }
}

/// The number that the table tells. At most 2 reads.
fn entry_told<P: ProcessMemory>(
    process: &mut P,
    table: Option<u64>,
    entry: Entry,
) -> Result<Option<u64>, ReadFault>
    ensures { Reads read_fault 2 (P.seen process.old) (P.seen process.new)
        (λ m. entry_told m table entry) result }
{
    match table {
        None => Ok(None),
        Some(table) => entry_in(process, table, entry),
    }
}

/// The number that the process tells of a row: the table's, else the types'. At most 1027 reads.
pub(crate) fn row_told<P: ProcessMemory>(
    alloc: Global,
    process: &mut P,
    telling: &Telling,
    row: &Row,
) -> Result<Option<u64>, ReadFault>
    ensures { Reads read_fault 1027 (P.seen process.old) (P.seen process.new)
        (λ m. row_told m telling.now (row_of row.now)) result }
{
    let by_table = kept(entry_told(process, telling.table, row.entry))?;
    match by_table {
        Some(number) => Ok(Some(number)),
        None => kept(source_told(alloc, process, telling, row.width, row.source)),
    }
}
