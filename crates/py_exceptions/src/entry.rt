//! The entries of tracebacks.
ghost use Rattle.std.specs.Prelude.{◌≡◌, ◌<◌, IfOk, IfSome, length};
ghost use Rattle.process_memory.specs.Seen.{Reads, Reading, read_fault};
ghost use Rattle.py_fields.specs.Sound.{IsSound};
ghost use Rattle.py_builtins.specs.Consulted.{Consults};
ghost use Rattle.py_stacks.specs.Frames.{name_at};
ghost use Rattle.py_stacks.specs.Lines.{family_of, table_at, table_of, table_of_result};
ghost use Rattle.py_stacks.specs.Records.{AreWhole, member_of};
ghost use Rattle.py_stacks.specs.StackError.{stack_fault};
ghost use Rattle.py_exceptions.specs.Frames.{IsFrameOrNone, called_at, entry_at, frame_found_at, is_lazy};
ghost use Rattle.py_exceptions.specs.Frames.{lazy_line_at, line_found_at, line_in};
ghost use Rattle.py_exceptions.specs.Frames.{place_at, point_at, point_of, there_at};
ghost use Rattle.py_exceptions.specs.Places.{IsSoundTraceback};

use elf64_core::{Text, u32_in, u64_in};
use process_memory::{ProcessMemory, ReadFault, record, word_past};
use py_builtins::{ObjectError, copy_bytes, copy_string};
use py_fields::{Layout, Lines};
use py_lines::{LineFamily, line_at};
use py_stacks::{Records, StackError, first_line, read_records};
use std::alloc::Global;
use thread_exceptions::ExceptionsError;

/// An entry of a traceback (`PyTracebackObject`, Include/cpython/traceback.h): offsets in its record, of so many bytes.
#[derive(Clone, Copy)]
pub struct TracebackPlaces {
    pub size: u32,
    /// Where it names the entry of the call behind it.
    pub next: u32,
    /// Where it names the object of its frame.
    pub frame: u32,
    /// Of 4 bytes: its instruction, in bytes from the start of its code.
    pub lasti: u32,
    /// Of 4 bytes: its line; below 0 where that is to be told by the instruction.
    pub line: u32,
    /// Where the object of a frame names the frame, from 3.11 on; before, it is the frame.
    pub inner: Option<u32>,
}

/// What a frame of a traceback shows.
#[derive(Debug, Drop)]
pub struct CalledFrame {
    /// The name of its function; none where it is no text, or is not in memory.
    pub function: Option<Text>,
    /// That of its file.
    pub filename: Option<Text>,
    /// The line; 0 where none is known.
    pub line: i32,
}

/// An entry of a traceback.
#[derive(Debug, Drop)]
pub struct Entry {
    /// Its address.
    pub addr: u64,
    /// None where its own record, or that of its frame or of its code, is not in memory.
    pub frame: Option<CalledFrame>,
}

/// What the record of an entry says.
#[derive(Clone, Copy)]
struct Point {
    object: u64,
    lasti: i32,
    line: i32,
}

/// What the record of an entry says.
fn point_of(places: &TracebackPlaces, bytes: &[u8]) -> Point
    requires sound { IsSoundTraceback places.now }
    requires whole { length bytes.now ≡ places.now.size }
    ensures { result ≡ point_of places.now bytes.now }
{
    Point {
        object: u64_in(bytes, places.frame as usize),
        lasti: u32_in(bytes, places.lasti as usize).cast_signed(),
        line: u32_in(bytes, places.line as usize).cast_signed(),
    }
}

/// What the record of the entry at an address says. One read.
fn read_point<P: ProcessMemory>(
    alloc: Global,
    process: &mut P,
    places: &TracebackPlaces,
    at: u64,
) -> Result<Point, StackError>
    requires sound { IsSoundTraceback places.now }
    ensures { Reads stack_fault 1 (P.seen process.old) (P.seen process.new)
        (λ m. point_at places.now m at) result }
{
    let bytes = record(alloc, process, at, places.size as u64)?;
    Ok(point_of(places, &bytes))
}

/// The address of the frame that an object is, or names. At most one read.
fn read_place<P: ProcessMemory>(
    process: &mut P,
    inner: Option<u32>,
    object: u64,
) -> Result<u64, ReadFault>
    ensures { Reads read_fault 1 (P.seen process.old) (P.seen process.new) (λ m. place_at inner m object) result }
{
    match inner {
        None => Ok(object),
        Some(at) => word_past(process, object, at as u64),
    }
}

/// The text at an address, where there is one. At most 2 reads.
#[tactic(auto, unfolding(py_stacks::specs::Frames::name_at))]
fn read_name<P: ProcessMemory>(
    alloc: Global,
    process: &mut P,
    layout: &Layout,
    addr: u64,
) -> Result<Option<Text>, StackError>
    requires sound { IsSound layout.now }
    ensures { Consults layout.now stack_fault 2 (P.seen process.old) (P.seen process.new)
        (λ m. name_at layout.now m addr) result }
{
    match copy_string(alloc, process, layout, addr) {
        Ok(text) => Ok(Some(text)),
        Err(ObjectError::OutOfMemory) => Err(StackError::OutOfMemory),
        Err(_) => Ok(None),
    }
}

/// The family of a layout's line tables.
fn family_of(lines: Lines) -> LineFamily
    ensures { result ≡ family_of lines }
{
    match lines {
        Lines::Pairs => LineFamily::Pairs,
        Lines::Ranges => LineFamily::Ranges,
        Lines::Locations => LineFamily::Locations,
    }
}

/// The line of an entry's instruction by a line table; 0 without one.
fn line_in(layout: &Layout, records: &Records, table: Option<Vec<u8>>, point: &Point) -> i32
    requires sound { IsSound layout.now }
    requires whole { AreWhole layout.now records.now }
    requires short { IfSome table (λ table. length table.items < 65536) }
    ensures { result ≡ line_in layout.now (member_of records.now) (table_of table) point.now }
{
    match table {
        None => 0,
        Some(table) => {
            let first = first_line(layout, records);
            line_at(
                family_of(layout.lines),
                first,
                &table,
                i64::from(point.lasti),
            )
        }
    }
}

/// The bytes of the bytes object at an address; none where it is refused, or a part of it is not in memory. At most 2
/// reads.
#[tactic(auto, unfolding(py_stacks::specs::Lines::table_at))]
fn read_table<P: ProcessMemory>(
    alloc: Global,
    process: &mut P,
    layout: &Layout,
    addr: u64,
) -> Result<Option<Vec<u8>>, StackError>
    requires sound { IsSound layout.now }
    ensures answer { Consults layout.now stack_fault 2 (P.seen process.old) (P.seen process.new)
        (λ m. table_at layout.now m addr) (table_of_result result) }
    ensures short { IfOk result (λ table. IfSome table (λ table. length table.items < 65536)) }
{
    match copy_bytes(alloc, process, layout, addr) {
        Ok(table) => Ok(Some(table)),
        Err(ObjectError::OutOfMemory) => Err(StackError::OutOfMemory),
        Err(_) => Ok(None),
    }
}

/// The line of an entry's instruction, by the records of its frame. At most 2 reads.
fn read_lazy_line<P: ProcessMemory>(
    alloc: Global,
    process: &mut P,
    layout: &Layout,
    records: &Records,
    point: &Point,
) -> Result<i32, StackError>
    requires sound { IsSound layout.now }
    requires whole { AreWhole layout.now records.now }
    ensures { Reads stack_fault 2 (P.seen process.old) (P.seen process.new)
        (λ m. lazy_line_at layout.now m (member_of records.now) point.now) result }
{
    let at = u64_in(&records.code, layout.code.table as usize);
    let table = read_table(alloc, process, layout, at)?;
    Ok(line_in(layout, records, table, point))
}

/// Whether the line of an entry is to be told by its instruction.
fn is_lazy(point: &Point) -> bool
    ensures { result ≡ is_lazy point.now }
{
    point.line < 0
}

/// The line of an entry, by the records of its frame. At most 2 reads.
fn read_entry_line<P: ProcessMemory>(
    alloc: Global,
    process: &mut P,
    layout: &Layout,
    records: &Records,
    point: &Point,
) -> Result<i32, StackError>
    requires sound { IsSound layout.now }
    requires whole { AreWhole layout.now records.now }
    ensures { Reads stack_fault 2 (P.seen process.old) (P.seen process.new)
        (λ m. line_found_at layout.now m (member_of records.now) point.now) result }
{
    let lazy = is_lazy(point);
    if lazy {
        return read_lazy_line(alloc, process, layout, records, point);
    }
    Ok(point.line)
}

/// What an entry shows, by the records of its frame. At most 6 reads.
fn read_called<P: ProcessMemory>(
    alloc: Global,
    process: &mut P,
    layout: &Layout,
    records: &Records,
    point: &Point,
) -> Result<CalledFrame, StackError>
    requires sound { IsSound layout.now }
    requires whole { AreWhole layout.now records.now }
    ensures { Reads stack_fault 6 (P.seen process.old) (P.seen process.new)
        (λ m. called_at layout.now m (member_of records.now) point.now) result }
{
    let name_at = u64_in(&records.code, layout.code.name as usize);
    let function = read_name(alloc, process, layout, name_at)?;
    let file_at = u64_in(&records.code, layout.code.filename as usize);
    let filename = read_name(alloc, process, layout, file_at)?;
    let line = read_entry_line(alloc, process, layout, records, point)?;
    Ok(CalledFrame {
        function,
        filename,
        line,
    })
}

/// The same by what its record says. At most 9 reads.
fn read_there<P: ProcessMemory>(
    alloc: Global,
    process: &mut P,
    layout: &Layout,
    places: &TracebackPlaces,
    point: &Point,
) -> Result<CalledFrame, StackError>
    requires sound { IsSound layout.now }
    ensures { Reads stack_fault 9 (P.seen process.old) (P.seen process.new)
        (λ m. there_at layout.now places.now m point.now) result }
{
    let at = read_place(process, places.inner, point.object)?;
    let mut records = Records {
        frame_at: 0,
        frame: Vec::new(alloc),
        code_at: 0,
        code: Vec::new(alloc),
    };
    read_records(process, layout, at, &mut records)?;
    read_called(alloc, process, layout, &records, point)
}

/// What the entry at an address shows. At most 10 reads.
fn read_found<P: ProcessMemory>(
    alloc: Global,
    process: &mut P,
    layout: &Layout,
    places: &TracebackPlaces,
    at: u64,
) -> Result<Option<CalledFrame>, StackError>
    requires sound { IsSound layout.now }
    requires traceback { IsSoundTraceback places.now }
    ensures { Reads stack_fault 10 (P.seen process.old) (P.seen process.new)
        (λ m. frame_found_at layout.now places.now m at) result }
{
    let point = read_point(alloc, process, places, at)?;
    let called = read_there(alloc, process, layout, places, &point)?;
    Ok(Some(called))
}

/// None, where a frame can't be read; out of memory is handed on.
fn frame_or_none(
    found: Result<Option<CalledFrame>, StackError>,
) -> Result<Option<CalledFrame>, ExceptionsError>
    ensures { IsFrameOrNone found result }
{
    match found {
        Ok(frame) => Ok(frame),
        Err(StackError::OutOfMemory) => Err(ExceptionsError::OutOfMemory),
        Err(StackError::Unreadable { .. }) => Ok(None),
        Err(StackError::BadValue { .. }) => Ok(None),
        Err(StackError::LocalsLimit { .. }) => Ok(None),
        Err(StackError::ThreadLimit) => Ok(None),
        Err(StackError::FrameLimit) => Ok(None),
        Err(StackError::ChainLimit) => Ok(None),
    }
}

/// The entry at an address. At most 10 reads.
pub(crate) fn read_entry<P: ProcessMemory>(
    alloc: Global,
    process: &mut P,
    layout: &Layout,
    places: &TracebackPlaces,
    at: u64,
) -> Result<Entry, ExceptionsError>
    requires sound { IsSound layout.now }
    requires traceback { IsSoundTraceback places.now }
    ensures { Reading 10 (P.seen process.old) (P.seen process.new)
        (λ m. IfOk result (λ entry. entry ≡ entry_at layout.now places.now m at)) }
{
    let found = read_found(alloc, process, layout, places, at);
    let frame = frame_or_none(found)?;
    Ok(Entry { addr: at, frame })
}
