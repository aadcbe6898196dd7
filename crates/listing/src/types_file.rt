//! Where the built-in types of a core's process stand.
ghost use Rattle.py_fields.specs.Sound.{IsSound};

use crate::footprint::images_of;
use core_stacks::{Process, open};
use process_memory::{ProcessMemory, word_past};
use py_layout::{Layout, Layouts};
use py_process::get_interpreter_address;
use py_records::{KlassRecord, RecordTables, Records};
use py_stacks::get_first_thread;
use std::alloc::Global;
use std::fs;
use std::io::{self, Write};
use std::rt::Files;
use type_places::{CoreTypes, Found, TypeFields, TypePlace, core_types, module_type};

/// A type of a module of C: the module, its name there, the name that is listed, and the size of its objects, where
/// that is known.
#[derive(Clone, Copy)]
struct ModuleType {
    module: &'static str,
    name: &'static str,
    listed: &'static str,
    size: Option<u32>,
}

fn size_of_lock(records: &Records) -> Option<u32> {
    match (records.locks.lock, records.locks.lock_mutex) {
        (Some(lock), _) => Some(lock.size),
        (None, Some(lock)) => Some(lock.size),
        (None, None) => None,
    }
}

/// The types that are looked for in modules.
fn module_types(records: &Records) -> [ModuleType; 14] {
    let (containers, scalars, tasks) = (&records.containers, &records.scalars, &records.tasks);
    let of = |module, name, listed, size| ModuleType {
        module,
        name,
        listed,
        size,
    };
    let lock = size_of_lock(records);
    [
        of(
            "_collections",
            "deque",
            "deque",
            containers.deque.map(|it| it.size),
        ),
        of(
            "_collections",
            "defaultdict",
            "defaultdict",
            containers.default_dict.map(|it| it.size),
        ),
        of(
            "_collections",
            "OrderedDict",
            "OrderedDict",
            containers.ordered_dict.map(|it| it.size),
        ),
        of("_thread", "LockType", "lock", lock),
        of("_thread", "lock", "lock", lock),
        of(
            "_thread",
            "RLock",
            "RLock",
            records.locks.rlock.map(|it| it.size),
        ),
        of(
            "_asyncio",
            "Future",
            "Future",
            tasks.future.map(|it| it.size),
        ),
        of("_asyncio", "Task", "Task", tasks.task.map(|it| it.size)),
        of("_datetime", "date", "date", scalars.date.map(|it| it.size)),
        of("_datetime", "time", "time", scalars.time.map(|it| it.size)),
        of(
            "_datetime",
            "datetime",
            "datetime",
            scalars.datetime.map(|it| it.size),
        ),
        of(
            "_datetime",
            "timedelta",
            "timedelta",
            scalars.timedelta.map(|it| it.size),
        ),
        of(
            "_decimal",
            "Decimal",
            "Decimal",
            scalars.decimal.map(|it| it.size),
        ),
        of(
            "_functools",
            "partial",
            "partial",
            records.callables.partial.map(|it| it.size),
        ),
    ]
}

/// A word of a record, where it is in memory.
fn word_at<P: ProcessMemory>(process: &mut P, addr: u64, place: u32) -> Option<u64> {
    word_past(process, addr, u64::from(place)).ok()
}

/// The code of the newest frame of the interpreter's first thread.
fn newest_code<P: ProcessMemory>(
    process: &mut P,
    layout: &Layout,
    interpreter: u64,
) -> Option<u64> {
    let thread = get_first_thread(process, layout, interpreter).ok()?;
    let named = word_at(process, thread, layout.thread.frame)?;
    let frame = match layout.cframe {
        Some(cframe) => word_at(process, named, cframe.current)?,
        None => named,
    };
    let code = word_at(process, frame, layout.frame.code)?;
    Some(code & !((1 << layout.frame.code_tag_bits.min(8)) - 1))
}

/// How a place was found, as a word.
fn found_by(found: Found) -> &'static str {
    match found {
        Found::Symbol => "symbol",
        Found::CodeOfAFrame => "code",
        Found::ModuleDict => "module",
    }
}

fn list_place<W: Write>(out: &mut W, name: &str, place: TypePlace) -> io::Result<()> {
    let (address, how) = (place.address, found_by(place.found));
    writeln!(out, "{name} {address:x} {how}")
}

fn list_core_types<W: Write>(out: &mut W, types: &CoreTypes) -> io::Result<()> {
    list_place(out, "code", types.code)?;
    list_place(out, "type", types.metatype)?;
    list_place(out, "str", types.text)?;
    list_place(out, "bytes", types.bytes)?;
    list_place(out, "tuple", types.tuple)?;
    list_place(out, "dict", types.dict)?;
    list_place(out, "object", types.object)
}

/// The types of modules, each where it was found, by an interpreter's dict of modules.
fn list_module_types<W: Write>(
    out: &mut W,
    alloc: Global,
    process: &Process,
    fields: &TypeFields,
    records: &Records,
    modules: u64,
) -> io::Result<()>
    requires sound { IsSound process.now.layout }
{
    for it in module_types(records) {
        let Some(size) = it.size else {
            continue;
        };
        let (mut view, size) = (process.dump.view(), u64::from(size));
        let found = module_type(
            alloc,
            &mut view,
            &process.layout,
            fields,
            modules,
            it.module,
            it.name,
            size,
        );
        match found {
            Ok(Some(place)) => list_place(out, it.listed, place)?,
            Ok(None) => writeln!(out, "{} not there", it.listed)?,
            Err(_) => writeln!(out, "{} not read", it.listed)?,
        }
    }
    Ok(())
}

/// The places of the records of types.
fn fields_of(klass: KlassRecord) -> TypeFields {
    TypeFields {
        basic_size: klass.basicsize,
        base: klass.base,
    }
}

/// Where types stand in a process that was opened.
fn list_types_of<W: Write>(
    out: &mut W,
    alloc: Global,
    process: &Process,
    records: &Records,
) -> io::Result<()>
    requires sound { IsSound process.now.layout }
{
    let (layout, version) = (&process.layout, &process.version);
    let mut view = process.dump.view();
    let Ok(interpreter) = get_interpreter_address(alloc, &process.info, &mut view, version, layout)
    else {
        return writeln!(out, "no interpreter");
    };
    let Some(klass) = records.types.klass else {
        return writeln!(out, "not described");
    };
    let Some(modules) = word_at(&mut view, interpreter, layout.interpreter.modules) else {
        return writeln!(out, "no modules");
    };
    let fields = fields_of(klass);
    if let Some(code) = newest_code(&mut view, layout, interpreter) {
        match core_types(&mut view, layout, &fields, code, modules) {
            Ok(Some(types)) => list_core_types(out, &types)?,
            Ok(None) => writeln!(out, "code not there")?,
            Err(_) => writeln!(out, "code not read")?,
        }
    }
    list_module_types(out, alloc, process, &fields, records, modules)
}

/// `NAME ADDRESS HOW` for each type that is found in a core, in hexadecimal digits.
pub(crate) fn list_types<W: Write, R: Files + Alloc<A = Global>>(
    out: &mut W,
    rt: &R,
    text: &[u8],
    words: &[String],
) -> io::Result<()> {
    let [records, core, images @ ..] = words else {
        return writeln!(out, "refused");
    };
    let Some(images) = images_of(rt, images)? else {
        return writeln!(out, "refused");
    };
    let Ok(layouts) = Layouts::from_toml(rt.alloc(), text) else {
        return writeln!(out, "refused");
    };
    let Ok(tables) = RecordTables::from_toml(rt.alloc(), &fs::read(rt, records.as_str())?) else {
        return writeln!(out, "refused");
    };
    let Ok(process) = open(rt.alloc(), fs::read(rt, core.as_str())?, &images, &layouts) else {
        return writeln!(out, "refused");
    };
    let described = tables.records_of(&process.version);
    list_types_of(out, rt.alloc(), &process, &described)
}
