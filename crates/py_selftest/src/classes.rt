//! Types by the classes of what a frame leads to, where no symbol names them.
ghost use Rattle.std.specs.Prelude.{◌≡◌};
ghost use Rattle.process_memory.specs.Seen.{Reads, read_fault};
ghost use Rattle.py_selftest.specs.Classes.{class_else, class_if, class_named, frame_else, member_else, member_named};
ghost use Rattle.py_selftest.specs.Classes.{bytes_name, types_met};

use crate::members::is_called;
use crate::telling::{Release, Types, is_before, kept};
use process_memory::{ProcessMemory, ReadFault, word_past};
use py_fields::Layout;
use std::alloc::Global;

/// A class, if it is one.
fn class_if(class: u64, is: bool) -> Option<u64>
    ensures { result ≡ class_if class is }
{
    if is { Some(class) } else { None }
}

/// The class of an object, if its own name is this one. At most 3 reads.
pub(crate) fn class_named<P: ProcessMemory>(
    alloc: Global,
    process: &mut P,
    layout: &Layout,
    object: u64,
    name: &str,
) -> Result<Option<u64>, ReadFault>
    ensures { Reads read_fault 3 (P.seen process.old) (P.seen process.new)
        (λ m. class_named layout.now m object name.now) result }
{
    let class = word_past(process, object, layout.object.klass as u64)?;
    let at = word_past(process, class, layout.klass.name as u64)?;
    let is = is_called(alloc, process, name, at)?;
    Ok(class_if(class, is))
}

/// The same of the object that a word of a record names. At most 4 reads.
fn member_named<P: ProcessMemory>(
    alloc: Global,
    process: &mut P,
    layout: &Layout,
    holder: u64,
    field: u32,
    name: &str,
) -> Result<Option<u64>, ReadFault>
    ensures { Reads read_fault 4 (P.seen process.old) (P.seen process.new)
        (λ m. member_named layout.now m holder field name.now) result }
{
    let object = word_past(process, holder, field as u64)?;
    class_named(alloc, process, layout, object, name)
}

/// A type that is known, else the class of an object. At most 3 reads.
fn class_else<P: ProcessMemory>(
    alloc: Global,
    process: &mut P,
    layout: &Layout,
    known: Option<u64>,
    object: u64,
    name: &str,
) -> Result<Option<u64>, ReadFault>
    ensures { Reads read_fault 3 (P.seen process.old) (P.seen process.new)
        (λ m. class_else layout.now m known object name.now) result }
{
    match known {
        Some(class) => Ok(Some(class)),
        None => kept(class_named(alloc, process, layout, object, name)),
    }
}

/// A type that is known, else the class of the object that a word of a record names. At most 4 reads.
fn member_else<P: ProcessMemory>(
    alloc: Global,
    process: &mut P,
    layout: &Layout,
    known: Option<u64>,
    holder: u64,
    field: u32,
    name: &str,
) -> Result<Option<u64>, ReadFault>
    ensures { Reads read_fault 4 (P.seen process.old) (P.seen process.new)
        (λ m. member_else layout.now m known holder field name.now) result }
{
    match known {
        Some(class) => Ok(Some(class)),
        None => kept(member_named(alloc, process, layout, holder, field, name)),
    }
}

/// The type of frames, where these are objects. At most 3 reads.
fn frame_else<P: ProcessMemory>(
    alloc: Global,
    process: &mut P,
    layout: &Layout,
    known: Option<u64>,
    frame: u64,
    is_object: bool,
) -> Result<Option<u64>, ReadFault>
    ensures { Reads read_fault 3 (P.seen process.old) (P.seen process.new)
        (λ m. frame_else layout.now m known frame is_object) result }
{
    if is_object {
        return class_else(alloc, process, layout, known, frame, "frame");
    }
    Ok(known)
}

/// The name of the type of bytes.
fn bytes_name(release: Release) -> &'static str
    ensures { result.now ≡ bytes_name release }
{
    if is_before(release, 0) {
        "str"
    } else {
        "bytes"
    }
}

/// The types that are known, and those that a frame and its code lead to: each class only by its own name. At most 22
/// reads.
pub(crate) fn types_met<P: ProcessMemory>(
    alloc: Global,
    process: &mut P,
    layout: &Layout,
    release: Release,
    types: &Types,
    frame: u64,
    code: u64,
) -> Result<Types, ReadFault>
    ensures { Reads read_fault 22 (P.seen process.old) (P.seen process.new)
        (λ m. types_met layout.now m release types.now frame code) result }
{
    let at = &layout.code;
    let klass = layout.object.klass;
    let bytes = bytes_name(release);
    let is_object = is_before(release, 11);
    let of_code = class_else(alloc, process, layout, types.code, code, "code")?;
    let metatype = member_else(alloc, process, layout, types.metatype, code, klass, "type")?;
    let of_frame = frame_else(alloc, process, layout, types.frame, frame, is_object)?;
    let text = member_else(alloc, process, layout, types.text, code, at.name, "str")?;
    let tuple = member_else(
        alloc,
        process,
        layout,
        types.tuple,
        code,
        at.varnames,
        "tuple",
    )?;
    let of_bytes = member_else(alloc, process, layout, types.bytes, code, at.table, bytes)?;
    Ok(Types {
        metatype,
        code: of_code,
        frame: of_frame,
        text,
        tuple,
        bytes: of_bytes,
        long: types.long,
    })
}
