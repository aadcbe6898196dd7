//! The line of a frame.
ghost use Rattle.std.specs.Prelude.{◌≡◌, ◌<◌, IfOk, IfSome, length};
ghost use Rattle.py_fields.specs.Sound.{IsSound};
ghost use Rattle.py_builtins.specs.Consulted.{Consults};
ghost use Rattle.py_stacks.specs.Lines.{family_of, first_line, line_at, line_cost, line_in, offset_by, offset_of};
ghost use Rattle.py_stacks.specs.Lines.{table_at, table_of, table_of_result};
ghost use Rattle.py_stacks.specs.Records.{AreWhole, member_of};
ghost use Rattle.py_stacks.specs.StackError.{stack_fault};

use crate::StackError;
use crate::asked::LineNo;
use crate::records::Records;
use elf64_core::{u32_in, u64_in};
use process_memory::ProcessMemory;
use py_fields::{Lasti, Layout, Lines};
use py_lines::{LineFamily, line_at};
use py_objects::{ObjectError, copy_bytes};
use std::alloc::Global;

/// The family of a layout's line tables.
fn family_of(lines: Lines) -> LineFamily
    ensures { result ≡ family_of lines }
{
    match lines {
        Lines::Pairs => LineFamily::Pairs,
        Lines::Ranges => LineFamily::Ranges,
        Lines::Locations => LineFamily::Locations,
    }
}

/// The line on which a frame's code begins.
#[tactic(auto, unfolding(crate::specs::Lines::first_line))]
pub fn first_line(layout: &Layout, records: &Records) -> i32
    requires sound { IsSound layout.now }
    requires whole { AreWhole layout.now records.now }
    ensures { result ≡ first_line layout.now (member_of records.now) }
{
    u32_in(&records.code, layout.code.first_line as usize).cast_signed()
}

/// How far into its code a frame's last instruction stands, in bytes.
fn offset_by(layout: &Layout, records: &Records) -> i128
    requires sound { IsSound layout.now }
    requires whole { AreWhole layout.now records.now }
    ensures { result ≡ offset_by layout.now.lasti layout.now (member_of records.now) }
{
    let at = layout.frame.instr as usize;
    match layout.lasti {
        Lasti::Bytes => i128::from(u32_in(&records.frame, at).cast_signed()),
        Lasti::Units => 2 * i128::from(u32_in(&records.frame, at).cast_signed()),
        Lasti::Pointer => {
            let start = i128::from(records.code_at) + i128::from(layout.code.start.unwrap_or(0));
            i128::from(u64_in(&records.frame, at)) - start
        }
    }
}

/// How far into its code a frame's last instruction stands, in bytes, where that is an i32: below 0 in a frame that
/// stands before its first one.
#[tactic(auto, unfolding(crate::specs::Lines::offset_of))]
pub fn offset_of(layout: &Layout, records: &Records) -> Option<i32>
    requires sound { IsSound layout.now }
    requires whole { AreWhole layout.now records.now }
    ensures { result ≡ offset_of layout.now (member_of records.now) }
{
    i32::try_from(offset_by(layout, records)).ok()
}

/// The line of a frame's last instruction by its table; 0 without one.
#[tactic(auto, unfolding(crate::specs::Lines::line_in))]
fn line_in(layout: &Layout, records: &Records, table: Option<Vec<u8>>) -> i32
    requires sound { IsSound layout.now }
    requires whole { AreWhole layout.now records.now }
    requires short { IfSome table (λ table. length table.items < 65536) }
    ensures { result ≡ line_in layout.now (member_of records.now) (table_of table) }
{
    match (table, offset_of(layout, records)) {
        (Some(table), Some(offset)) => {
            let first = first_line(layout, records);
            line_at(family_of(layout.lines), first, &table, i64::from(offset))
        }
        _ => 0,
    }
}

/// The bytes of the bytes object at an address; none where it is refused, or a part of it is not in memory. At
/// most 2 reads.
#[tactic(auto, unfolding(crate::specs::Lines::table_at))]
fn read_table<P: ProcessMemory>(
    alloc: Global,
    process: &mut P,
    layout: &Layout,
    addr: u64,
) -> Result<Option<Vec<u8>>, StackError>
    requires sound { IsSound layout.now }
    ensures answer { Consults layout.now stack_fault 2 (P.seen process.old) (P.seen process.new)
        (λ m. table_at layout.now m addr) (table_of_result result) }
    ensures short { IfOk result (λ table. IfSome table (λ table. length table.items < 65536)) }
{
    match copy_bytes(alloc, process, layout, addr) {
        Ok(table) => Ok(Some(table)),
        Err(ObjectError::OutOfMemory) => Err(StackError::OutOfMemory),
        Err(_) => Ok(None),
    }
}

/// The line of the frame that has these records: the one that is asked for, and 0 where there is none. The one
/// error is out of memory. At most 2 reads, of the line table, and none where it is not asked for.
#[tactic(auto, unfolding(crate::specs::Lines::line_at, crate::specs::Lines::line_by))]
pub fn read_line<P: ProcessMemory>(
    alloc: Global,
    process: &mut P,
    layout: &Layout,
    lineno: LineNo,
    records: &Records,
) -> Result<i32, StackError>
    requires sound { IsSound layout.now }
    requires whole { AreWhole layout.now records.now }
    ensures { Consults layout.now stack_fault (line_cost lineno) (P.seen process.old) (P.seen process.new)
        (λ m. line_at lineno layout.now m (member_of records.now)) result }
{
    match lineno {
        LineNo::NoLine => Ok(0),
        LineNo::First => Ok(first_line(layout, records)),
        LineNo::LastInstruction => {
            let table_at = u64_in(&records.code, layout.code.table as usize);
            let table = read_table(alloc, process, layout, table_at)?;
            Ok(line_in(layout, records, table))
        }
    }
}
