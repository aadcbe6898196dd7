//! How many bytes the objects of a program take in memory.
ghost use Rattle.std.specs.Prelude.{◌≡◌, ◌+◌, ◌*◌, ◌<◌, ◌≤◌, ◌^◌, ℕ, max, Option, length, map, IfOk};
ghost use Rattle.std.specs.List.{AllByRecursion, sum_by};
ghost use Rattle.py_lines.specs.Coding.{coded};
ghost use Rattle.py_fields.specs.Sound.{IsSound};
ghost use Rattle.memory_builder.specs.Mirror.{item_in, program_value, local_in, frame_in, program_thread, program_in};
ghost use Rattle.memory_builder.specs.Sizes.{rounded, capped, text_len, number_len, list_len, item_size, held_size};
ghost use Rattle.memory_builder.specs.Sizes.{frame_len, table_len, tuple_len, name_size, local_size, records_size};
ghost use Rattle.memory_builder.specs.Sizes.{frame_size, cframe_size, thread_size, word_end, interpreter_len, gil_size};
ghost use Rattle.memory_builder.specs.Sizes.{shared_size, program_size};
ghost use Rattle.py_stacks.specs.Lines.{family_of};
ghost use Rattle.memory_builder.specs.Validity.{IsValidItem, IsValidHeld, IsValidLocal, IsValidFrame, IsValidCall};
ghost use Rattle.memory_builder.specs.Validity.{IsValidProgram, IsCodable};

use crate::parts::{Program, ProgramFrame, ProgramItem, ProgramLocal, ProgramThread, ProgramValue};
use object_builder::{rounded, text_len};
use py_fields::{CframeAt, GilAt, Layout, Lines};
use py_lines::{LineFamily, LineRange, encode};
use std::alloc::{AllocError, Global};

/// How many bytes the name of a type has.
const TYPE_NAME: u64 = 128;

/// How long a number is.
pub(crate) fn number_len(layout: &Layout) -> u64
    requires { IsSound layout.now }
    ensures value { result ≡ number_len layout.now }
    ensures bound { result < 2 ^ 33 }
{
    let record = layout.long.size.max(layout.object.size);
    u64::from(record).max(u64::from(layout.long.digits) + 8)
}

/// How long a list is, without its items.
pub(crate) fn list_len(layout: &Layout) -> u64
    requires { IsSound layout.now }
    ensures value { result ≡ list_len layout.now }
    ensures bound { result < 2 ^ 33 }
{
    u64::from(layout.list.size.max(layout.object.size))
}

/// How much an item of a list takes.
pub(crate) fn item_size(layout: &Layout, item: &ProgramItem) -> u64
    requires sound { IsSound layout.now }
    requires valid { IsValidItem (item_in item.now) }
    ensures value { result ≡ item_size layout.now (item_in item.now) }
    ensures bound { result < 2 ^ 34 }
{
    match item {
        ProgramItem::Number(_) => rounded(number_len(layout)),
        ProgramItem::Words(text) => rounded(text_len(layout, text)),
    }
}

/// How much the items of a list take.
fn items_size(layout: &Layout, items: &[ProgramItem]) -> u64
    requires sound { IsSound layout.now }
    requires valid { AllByRecursion IsValidItem (map item_in items.now) }
    ensures { result ≡ capped (sum_by (item_size layout.now) (map item_in items.now)) }
{
    let mut total: u64 = 0;
    for item in items {
        total = total.saturating_add(item_size(layout, item));
    }
    total
}

/// How much a list takes, with its items.
pub(crate) fn list_size(layout: &Layout, items: &[ProgramItem]) -> u64
    requires sound { IsSound layout.now }
    requires few { length items.now < 65536 }
    requires valid { AllByRecursion IsValidItem (map item_in items.now) }
    ensures { result ≡ capped (rounded (list_len layout.now) + rounded (8 * length items.now)
        + sum_by (item_size layout.now) (map item_in items.now)) }
{
    let record = rounded(list_len(layout));
    let addresses = rounded(8 * items.len() as u64);
    (record + addresses).saturating_add(items_size(layout, items))
}

/// How much the value of a local takes.
pub(crate) fn value_size(layout: &Layout, value: &ProgramValue) -> u64
    requires sound { IsSound layout.now }
    requires valid { IsValidHeld (program_value value.now) }
    ensures { result ≡ capped (held_size layout.now (program_value value.now)) }
{
    match value {
        ProgramValue::Number(_) => rounded(number_len(layout)),
        ProgramValue::Words(text) => rounded(text_len(layout, text)),
        ProgramValue::List(items) => list_size(layout, items),
    }
}

/// How much the names of locals take.
pub(crate) fn names_size(layout: &Layout, locals: &[ProgramLocal]) -> u64
    requires sound { IsSound layout.now }
    requires valid { AllByRecursion IsValidLocal (map local_in locals.now) }
    ensures { result ≡ capped (sum_by (name_size layout.now) (map local_in locals.now)) }
{
    let mut total: u64 = 0;
    for local in locals {
        total = total.saturating_add(rounded(text_len(layout, &local.name)));
    }
    total
}

/// How much the values of locals take.
fn values_size(layout: &Layout, locals: &[ProgramLocal]) -> u64
    requires sound { IsSound layout.now }
    requires valid { AllByRecursion IsValidLocal (map local_in locals.now) }
    ensures { result ≡ capped (sum_by (local_size layout.now) (map local_in locals.now)) }
{
    let mut total: u64 = 0;
    for local in locals {
        total = total.saturating_add(value_size(layout, &local.value));
    }
    total
}

/// The family of a layout's line tables.
pub fn family_of(lines: Lines) -> LineFamily
    ensures { result ≡ family_of lines }
{
    match lines {
        Lines::Pairs => LineFamily::Pairs,
        Lines::Ranges => LineFamily::Ranges,
        Lines::Locations => LineFamily::Locations,
    }
}

/// How long a line table is, of ranges that have one; the one error is out of memory.
fn table_len(
    alloc: Global,
    layout: &Layout,
    first: i32,
    ranges: &[LineRange],
) -> Result<u64, AllocError>
    requires sound { IsSound layout.now }
    requires codable { IsCodable (family_of layout.now.lines) first ranges.now }
    ensures value { IfOk result (λ len. len ≡ max layout.now.bytes.size
        (layout.now.bytes.at + length (coded (family_of layout.now.lines) first ranges.now))) }
    ensures bound { IfOk result (λ len. len < 2 ^ 33) }
{
    let Ok(table) = encode(alloc, family_of(layout.lines), first, ranges) else {
        return Err(AllocError);
    };
    let end = u64::from(layout.bytes.at) + table.len() as u64;
    Ok(u64::from(layout.bytes.size).max(end))
}

/// How long a frame is, with the addresses of its locals.
pub(crate) fn frame_len(layout: &Layout, frame: &ProgramFrame) -> u64
    requires sound { IsSound layout.now }
    requires few { length (frame_in frame.now).locals ≤ 65535 }
    ensures value { result ≡ frame_len layout.now (frame_in frame.now) }
    ensures bound { result < 2 ^ 33 }
{
    let end = u64::from(layout.frame.locals) + 8 * frame.locals.len() as u64;
    u64::from(layout.frame.size).max(end)
}

/// How long the tuple of the names of a frame's locals is.
pub(crate) fn tuple_len(layout: &Layout, frame: &ProgramFrame) -> u64
    requires sound { IsSound layout.now }
    requires few { length (frame_in frame.now).locals ≤ 65535 }
    ensures value { result ≡ tuple_len layout.now (frame_in frame.now) }
    ensures bound { result < 2 ^ 33 }
{
    let end = u64::from(layout.tuple.at) + 8 * frame.locals.len() as u64;
    u64::from(layout.tuple.size).max(end)
}

/// How much a frame's records and texts take, but for those of its locals; the one error is out of memory.
fn records_size(alloc: Global, layout: &Layout, frame: &ProgramFrame) -> Result<u64, AllocError>
    requires sound { IsSound layout.now }
    requires valid { IsValidFrame (family_of layout.now.lines) (frame_in frame.now) }
    ensures value { IfOk result (λ size. size ≡ records_size layout.now (frame_in frame.now)) }
    ensures bound { IfOk result (λ size. size < 2 ^ 37) }
{
    let frame_len = frame_len(layout, frame);
    let tuple_len = tuple_len(layout, frame);
    let table_len = table_len(alloc, layout, frame.first, &frame.ranges)?;
    let code = rounded(u64::from(layout.code.size));
    let texts = rounded(text_len(layout, &frame.filename)) + rounded(text_len(layout, &frame.name));
    Ok(rounded(frame_len) + code + rounded(table_len) + rounded(tuple_len) + texts)
}

/// How much a frame takes, with its locals; the one error is out of memory.
pub(crate) fn frame_size(
    alloc: Global,
    layout: &Layout,
    frame: &ProgramFrame,
) -> Result<u64, AllocError>
    requires sound { IsSound layout.now }
    requires valid { IsValidFrame (family_of layout.now.lines) (frame_in frame.now) }
    ensures { IfOk result (λ size. size ≡ capped (frame_size layout.now (frame_in frame.now))) }
{
    let records = records_size(alloc, layout, frame)?;
    let names = names_size(layout, &frame.locals);
    let values = values_size(layout, &frame.locals);
    Ok(records.saturating_add(names).saturating_add(values))
}

/// How much frames take; the one error is out of memory.
fn frames_size(alloc: Global, layout: &Layout, frames: &[ProgramFrame]) -> Result<u64, AllocError>
    requires sound { IsSound layout.now }
    requires valid { (k : ℕ) → IsValidCall (family_of layout.now.lines) (map frame_in frames.now) k }
    ensures { IfOk result (λ size. size ≡ capped (sum_by (frame_size layout.now) (map frame_in frames.now))) }
{
    let mut total: u64 = 0;
    for frame in frames {
        total = total.saturating_add(frame_size(alloc, layout, frame)?);
    }
    Ok(total)
}

pub(crate) fn cframe_size(cframe: Option<CframeAt>) -> u64
    ensures value { result ≡ cframe_size cframe }
    ensures bound { result < 2 ^ 34 }
{
    match cframe {
        Some(at) => rounded(u64::from(at.current) + 8),
        None => 0,
    }
}

/// How much a thread takes, with its frames; the one error is out of memory.
pub(crate) fn thread_size(
    alloc: Global,
    layout: &Layout,
    thread: &ProgramThread,
) -> Result<u64, AllocError>
    requires sound { IsSound layout.now }
    requires valid { (k : ℕ) → IsValidCall (family_of layout.now.lines) (program_thread thread.now).frames k }
    ensures { IfOk result (λ size. size ≡ capped (thread_size layout.now (program_thread thread.now))) }
{
    let record = rounded(u64::from(layout.thread.size)) + cframe_size(layout.cframe);
    let frames = frames_size(alloc, layout, &thread.frames)?;
    Ok(record.saturating_add(frames))
}

fn word_end(at: Option<u32>) -> u64
    ensures value { result ≡ word_end at }
    ensures bound { result < 2 ^ 33 }
{
    match at {
        Some(at) => u64::from(at) + 8,
        None => 0,
    }
}

pub(crate) fn interpreter_len(layout: &Layout) -> u64
    requires { IsSound layout.now }
    ensures value { result ≡ interpreter_len layout.now }
    ensures bound { result < 2 ^ 33 }
{
    let at = layout.interpreter;
    let threads = u64::from(at.threads) + 8;
    let modules = u64::from(at.modules) + 8;
    threads.max(modules).max(word_end(at.gil))
}

pub(crate) fn gil_size(gil: Option<GilAt>) -> u64
    ensures value { result ≡ gil_size gil }
    ensures bound { result < 2 ^ 34 }
{
    match gil {
        Some(at) => rounded(u64::from(at.size)),
        None => 0,
    }
}

/// How much all threads share: the interpreter, the lock's record, and the types.
pub(crate) fn shared_size(layout: &Layout) -> u64
    requires { IsSound layout.now }
    ensures value { result ≡ shared_size layout.now }
    ensures bound { result < 2 ^ 37 }
{
    let types = 3 * (rounded(u64::from(layout.klass.size)) + TYPE_NAME);
    rounded(interpreter_len(layout)) + gil_size(layout.gil) + types
}

/// How much the threads of a program take; the one error is out of memory.
fn threads_size(alloc: Global, layout: &Layout, program: &Program) -> Result<u64, AllocError>
    requires sound { IsSound layout.now }
    requires valid { IsValidProgram (family_of layout.now.lines) (program_in program.now) }
    ensures { IfOk result (λ size. size ≡ capped (sum_by (thread_size layout.now) (program_in program.now).threads)) }
{
    let mut total: u64 = 0;
    for thread in &program.threads {
        total = total.saturating_add(thread_size(alloc, layout, thread)?);
    }
    Ok(total)
}

/// How many bytes the objects of a program take in memory, each up to a multiple of 16; or 2^64 - 1 where that is
/// less.
///
/// It depends on the lengths of the objects alone, which follow from the program and the layout. The one error is
/// out of memory: line tables are written to be measured.
pub fn objects_size(alloc: Global, program: &Program, layout: &Layout) -> Result<u64, AllocError>
    requires sound { IsSound layout.now }
    requires valid { IsValidProgram (family_of layout.now.lines) (program_in program.now) }
    ensures { IfOk result (λ size. size ≡ capped (program_size layout.now (program_in program.now))) }
{
    let threads = threads_size(alloc, layout, program)?;
    Ok(shared_size(layout).saturating_add(threads))
}
