//! Frames, as they are laid: the record, its code, the line table, the names of the locals, and their values.
ghost use Rattle.std.specs.Prelude.{◌≡◌, ◌≤◌, ◌<◌, ◌++◌, ◌^◌, ◌+◌, ◌*◌, max, length, IfOk, None};
ghost use Rattle.std.specs.List.{sum_by};
ghost use Rattle.py_fields.specs.Sound.{IsSound};
ghost use Rattle.py_stacks.specs.Lines.{family_of};
ghost use Rattle.memory_builder.specs.Frames.{spots_for, coded_lines, instr_value, frame_writes, code_writes};
ghost use Rattle.memory_builder.specs.Frames.{table_writes, tuple_writes, laid_records, laid_contents, laid_frame};
ghost use Rattle.memory_builder.specs.Frames.{first_number};
ghost use Rattle.memory_builder.specs.Mirror.{frame_in};
ghost use Rattle.object_builder.specs.Objects.{aligned, object};
ghost use Rattle.memory_builder.specs.Sizes.{frame_len, frame_size, local_size, name_size, table_len, tuple_len};
ghost use Rattle.memory_builder.specs.Validity.{IsValidFrame};
ghost use Rattle.object_builder.specs.Writes.{value_of};

use crate::locals::{add_names, add_values, name_addresses, value_addresses};
use crate::parts::ProgramFrame;
use crate::sizes::{family_of, frame_len, names_size, tuple_len};
use crate::values::TypesAt;
use object_builder::{Value, Write, add_object, add_text, optional_write, rounded, text_len};
use py_fields::{Lasti, Layout};
use py_lines::encode;
use std::alloc::{AllocError, Global};

/// Where the objects of a frame stand, behind its record.
#[derive(Clone, Copy, Debug)]
pub struct FrameSpots {
    pub code: u64,
    pub table: u64,
    pub tuple: u64,
    pub file: u64,
    pub name: u64,
    /// The first of the locals' names.
    pub names: u64,
    /// The first of their values.
    pub values: u64,
}

/// How long a line table is, with the record that it stands in.
fn table_len(layout: &Layout, table: &[u8]) -> u64
    requires sound { IsSound layout.now }
    requires short { length table.now < 65536 }
    ensures value { result ≡ max layout.now.bytes.size (layout.now.bytes.at + length table.now) }
    ensures bound { result < 2 ^ 33 }
{
    u64::from(layout.bytes.size).max(u64::from(layout.bytes.at) + table.len() as u64)
}

/// The line table of a frame. The one error is out of memory.
fn coded_lines(alloc: Global, layout: &Layout, frame: &ProgramFrame) -> Result<Vec<u8>, AllocError>
    requires { IsValidFrame (family_of layout.now.lines) (frame_in frame.now) }
    ensures value { IfOk result (λ table. table.items ≡ coded_lines layout.now (frame_in frame.now)) }
    ensures short { IfOk result (λ table. length table.items < 65536) }
{
    let Ok(table) = encode(alloc, family_of(layout.lines), frame.first, &frame.ranges) else {
        return Err(AllocError);
    };
    Ok(table)
}

/// Where the objects of a frame stand whose record is to stand at an address.
fn spots_of(layout: &Layout, at: u64, frame: &ProgramFrame, lines: &[u8]) -> FrameSpots
    requires sound { IsSound layout.now }
    requires valid { IsValidFrame (family_of layout.now.lines) (frame_in frame.now) }
    requires lines { lines.now ≡ coded_lines layout.now (frame_in frame.now) }
    requires short { length lines.now < 65536 }
    requires fits { at + frame_size layout.now (frame_in frame.now) < 2 ^ 63 }
    ensures { result ≡ spots_for layout.now at (frame_in frame.now) }
{
    let code = at + rounded(frame_len(layout, frame));
    let table = code + rounded(u64::from(layout.code.size));
    let tuple = table + rounded(table_len(layout, lines));
    let file = tuple + rounded(tuple_len(layout, frame));
    let name = file + rounded(text_len(layout, &frame.filename));
    let names = name + rounded(text_len(layout, &frame.name));
    let values = names + names_size(layout, &frame.locals);
    FrameSpots {
        code,
        table,
        tuple,
        file,
        name,
        names,
        values,
    }
}

/// What a frame says of its last instruction.
fn instr_value(lasti: Lasti, start: u64, offset: u32) -> Value<'static>
    requires { start + offset < 2 ^ 64 }
    ensures { value_of result ≡ instr_value lasti start offset }
{
    match lasti {
        Lasti::Bytes => Value::U32(offset),
        Lasti::Units => Value::U32(offset / 2),
        Lasti::Pointer => Value::U64(start + u64::from(offset)),
    }
}

/// Adds the record of a frame, with the addresses of its locals' values. The one error is out of memory.
fn add_record(
    out: &mut Vec<u8>,
    layout: &Layout,
    code: u64,
    back: u64,
    slots: &[u8],
    frame: &ProgramFrame,
) -> Result<(), AllocError>
    requires sound { IsSound layout.now }
    requires few { length (frame_in frame.now).locals ≤ 65535 }
    requires slots { length slots.now ≡ 8 * length (frame_in frame.now).locals }
    requires code { code < 2 ^ 63 }
    ensures { IfOk result (λ _. out.new.items ≡ out.old.items
        ++ aligned (object (frame_len layout.now (frame_in frame.now))
        (frame_writes layout.now code back (frame_in frame.now).offset slots.now))) }
{
    let at = &layout.frame;
    let start = code + u64::from(layout.code.start.unwrap_or(0));
    let writes = [
        Write {
            at: at.code,
            value: Value::U64(code),
        },
        Write {
            at: at.back,
            value: Value::U64(back),
        },
        Write {
            at: at.instr,
            value: instr_value(layout.lasti, start, frame.offset),
        },
        optional_write(at.entry, Value::U8(1)),
        Write {
            at: at.locals,
            value: Value::Bytes(slots),
        },
    ];
    add_object(out, frame_len(layout, frame) as usize, &writes)
}

/// Adds the code of a frame. The one error is out of memory.
fn add_code(
    out: &mut Vec<u8>,
    layout: &Layout,
    spots: FrameSpots,
    frame: &ProgramFrame,
) -> Result<(), AllocError>
    requires sound { IsSound layout.now }
    requires few { length (frame_in frame.now).locals ≤ 65535 }
    ensures { IfOk result (λ _. out.new.items ≡ out.old.items ++ aligned (object layout.now.code.size
        (code_writes layout.now (frame_in frame.now).args (length (frame_in frame.now).locals)
        (first_number (frame_in frame.now)) spots.file spots.name spots.table spots.tuple))) }
{
    let at = &layout.code;
    let writes = [
        Write {
            at: at.argcount,
            value: Value::U32(frame.args),
        },
        Write {
            at: at.nlocals,
            value: Value::U32(frame.locals.len() as u32),
        },
        Write {
            at: at.first_line,
            value: Value::U32(frame.first.unsigned_abs()),
        },
        Write {
            at: at.filename,
            value: Value::U64(spots.file),
        },
        Write {
            at: at.name,
            value: Value::U64(spots.name),
        },
        Write {
            at: at.table,
            value: Value::U64(spots.table),
        },
        Write {
            at: at.varnames,
            value: Value::U64(spots.tuple),
        },
    ];
    add_object(out, at.size as usize, &writes)
}

/// Adds a line table. The one error is out of memory.
fn add_table(out: &mut Vec<u8>, layout: &Layout, lines: &[u8]) -> Result<(), AllocError>
    requires sound { IsSound layout.now }
    requires short { length lines.now < 65536 }
    ensures { IfOk result (λ _. out.new.items ≡ out.old.items
        ++ aligned (object (max layout.now.bytes.size (layout.now.bytes.at + length lines.now))
        (table_writes layout.now lines.now))) }
{
    let writes = [
        Write {
            at: layout.bytes.length,
            value: Value::U64(lines.len() as u64),
        },
        Write {
            at: layout.bytes.at,
            value: Value::Bytes(lines),
        },
    ];
    add_object(out, table_len(layout, lines) as usize, &writes)
}

/// Adds the tuple of the names of a frame's locals, of which the addresses are given. The one error is out of memory.
fn add_tuple(
    out: &mut Vec<u8>,
    layout: &Layout,
    names: &[u8],
    frame: &ProgramFrame,
) -> Result<(), AllocError>
    requires sound { IsSound layout.now }
    requires few { length (frame_in frame.now).locals ≤ 65535 }
    requires names { length names.now ≡ 8 * length (frame_in frame.now).locals }
    ensures { IfOk result (λ _. out.new.items ≡ out.old.items
        ++ aligned (object (tuple_len layout.now (frame_in frame.now))
        (tuple_writes layout.now (length (frame_in frame.now).locals) names.now))) }
{
    let writes = [
        Write {
            at: layout.tuple.count,
            value: Value::U64(frame.locals.len() as u64),
        },
        Write {
            at: layout.tuple.at,
            value: Value::Bytes(names),
        },
    ];
    add_object(out, tuple_len(layout, frame) as usize, &writes)
}

/// Adds the records of a frame: its own, its code, the line table, and the tuple of names. The one error is want of
/// memory.
fn add_records(
    alloc: Global,
    out: &mut Vec<u8>,
    layout: &Layout,
    spots: FrameSpots,
    back: u64,
    frame: &ProgramFrame,
    lines: &[u8],
) -> Result<(), AllocError>
    requires sound { IsSound layout.now }
    requires valid { IsValidFrame (family_of layout.now.lines) (frame_in frame.now) }
    requires lines { lines.now ≡ coded_lines layout.now (frame_in frame.now) }
    requires names { spots.names + sum_by (name_size layout.now) (frame_in frame.now).locals < 2 ^ 63 }
    requires values { spots.values + sum_by (local_size layout.now) (frame_in frame.now).locals < 2 ^ 63 }
    requires code { spots.code < 2 ^ 63 }
    ensures { IfOk result (λ _. out.new.items ≡ out.old.items
        ++ laid_records layout.now spots back (frame_in frame.now)) }
{
    let slots = value_addresses(alloc, layout, spots.values, &frame.locals)?;
    add_record(out, layout, spots.code, back, &slots, frame)?;
    add_code(out, layout, spots, frame)?;
    add_table(out, layout, lines)?;
    let names = name_addresses(alloc, layout, spots.names, &frame.locals)?;
    add_tuple(out, layout, &names, frame)
}

/// Adds the texts of a frame, and the values of its locals. The one error is out of memory.
fn add_contents(
    alloc: Global,
    out: &mut Vec<u8>,
    layout: &Layout,
    types: TypesAt,
    values_at: u64,
    frame: &ProgramFrame,
) -> Result<(), AllocError>
    requires sound { IsSound layout.now }
    requires valid { IsValidFrame (family_of layout.now.lines) (frame_in frame.now) }
    requires values { values_at + sum_by (local_size layout.now) (frame_in frame.now).locals < 2 ^ 63 }
    ensures { IfOk result (λ _. out.new.items ≡ out.old.items
        ++ laid_contents layout.now types values_at (frame_in frame.now)) }
{
    add_text(alloc, out, layout, None, &frame.filename)?;
    add_text(alloc, out, layout, None, &frame.name)?;
    add_names(alloc, out, layout, &frame.locals)?;
    add_values(alloc, out, layout, types, values_at, &frame.locals)
}

/// Adds a frame that is to stand at an address, called by the one at another, or by none at 0. The one error is want
/// of memory.
pub(crate) fn add_frame(
    alloc: Global,
    out: &mut Vec<u8>,
    layout: &Layout,
    types: TypesAt,
    at: u64,
    back: u64,
    frame: &ProgramFrame,
) -> Result<(), AllocError>
    requires sound { IsSound layout.now }
    requires valid { IsValidFrame (family_of layout.now.lines) (frame_in frame.now) }
    requires fits { at + frame_size layout.now (frame_in frame.now) < 2 ^ 63 }
    ensures { IfOk result (λ _. out.new.items ≡ out.old.items
        ++ laid_frame layout.now types at back (frame_in frame.now)) }
{
    let lines = coded_lines(alloc, layout, frame)?;
    let spots = spots_of(layout, at, frame, &lines);
    add_records(alloc, out, layout, spots, back, frame, &lines)?;
    add_contents(alloc, out, layout, types, spots.values, frame)
}
