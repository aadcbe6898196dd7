//! The line of a frame, by the table of its code.
ghost use Rattle.std.specs.Prelude.{◌≡◌, ◌<◌, ◌^◌, IfOk, IfSome, Ok, length};
ghost use Rattle.process_memory.specs.Seen.{Reading};
ghost use Rattle.py_fields.specs.Sound.{IsSound};
ghost use Rattle.py_stacks.specs.Records.{AreWhole, member_of};
ghost use Rattle.frame_lines.specs.Tables.{items_of, items_or_none, table_at};
ghost use Rattle.py_fronts.specs.Answers.{IsOrNoMemory};
ghost use Rattle.py_fronts.specs.TableLines.{is_before_start, line_by, line_in, line_or_first};

use elf64_core::u64_in;
use frame_lines::{form_of, line_at};
use process_memory::{ProcessMemory, ReadFault};
use py_fields::Layout;
use py_stacks::{LineNo, Records, StackError, first_line, offset_of};
use std::alloc::Global;

/// The line of a member's last instruction by its table; 0 without one.
#[tactic(auto, unfolding(crate::specs::TableLines::line_in))]
fn line_in(layout: &Layout, records: &Records, table: Option<Vec<u8>>) -> i32
    requires sound { IsSound layout.now }
    requires whole { AreWhole layout.now records.now }
    requires short { IfSome table (λ table. length table.items < 2 ^ 24) }
    ensures { result ≡ line_in layout.now (member_of records.now) (items_of table) }
{
    match (table, offset_of(layout, records)) {
        (Some(table), Some(offset)) => {
            let first = first_line(layout, records);
            line_at(form_of(layout), first, &table, i64::from(offset))
        }
        _ => 0,
    }
}

/// The bytes of a line table, where they are fewer than 2^24 and all in memory. At most 513 reads.
fn read_table<P: ProcessMemory>(
    alloc: Global,
    process: &mut P,
    layout: &Layout,
    addr: u64,
) -> Result<Option<Vec<u8>>, StackError>
    requires sound { IsSound layout.now }
    ensures answer { Reading 513 (P.seen process.old) (P.seen process.new)
        (λ m. IsOrNoMemory (table_at layout.now m addr) (items_or_none result)) }
    ensures short { IfOk result (λ table. IfSome table (λ table. length table.items < 2 ^ 24)) }
{
    match frame_lines::read_table(alloc, process, layout, addr) {
        Ok(table) => Ok(table),
        Err(_) => Err(StackError::OutOfMemory),
    }
}

/// The line of the member that has these records: the one that is asked for, and 0 where there is none. The one error
/// is out of memory. At most 513 reads, of the line table, and none where it is not asked for.
#[tactic(auto, unfolding(crate::specs::TableLines::line_by))]
fn read_line<P: ProcessMemory>(
    alloc: Global,
    process: &mut P,
    layout: &Layout,
    lineno: LineNo,
    records: &Records,
) -> Result<i32, StackError>
    requires sound { IsSound layout.now }
    requires whole { AreWhole layout.now records.now }
    ensures { Reading 513 (P.seen process.old) (P.seen process.new)
        (λ m. IsOrNoMemory (line_by lineno layout.now m (member_of records.now)) result) }
{
    match lineno {
        LineNo::NoLine => Ok(0),
        LineNo::First => Ok(first_line(layout, records)),
        LineNo::LastInstruction => {
            let table_at = u64_in(&records.code, layout.code.table as usize);
            let table = read_table(alloc, process, layout, table_at)?;
            Ok(line_in(layout, records, table))
        }
    }
}

/// Whether the line of the last instruction is asked for, and the frame stands before its first one.
fn is_before_start(lineno: LineNo, offset: Option<i32>) -> bool
    ensures { result ≡ is_before_start lineno offset }
{
    match (lineno, offset) {
        (LineNo::LastInstruction, Some(offset)) => offset < 0,
        _ => false,
    }
}

/// The line of a member. At most 513 reads.
pub(crate) fn line_or_first<P: ProcessMemory>(
    alloc: Global,
    process: &mut P,
    layout: &Layout,
    lineno: LineNo,
    records: &Records,
) -> Result<i32, StackError>
    requires sound { IsSound layout.now }
    requires whole { AreWhole layout.now records.now }
    ensures { Reading 513 (P.seen process.old) (P.seen process.new)
        (λ m. IsOrNoMemory (line_or_first lineno layout.now m (member_of records.now)) result) }
{
    if is_before_start(lineno, offset_of(layout, records)) {
        return Ok(first_line(layout, records));
    }
    read_line(alloc, process, layout, lineno, records)
}
