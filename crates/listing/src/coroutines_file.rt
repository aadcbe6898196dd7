//! What coroutines of a core's process await.
ghost use Rattle.std.specs.Prelude.{IfSome};
ghost use Rattle.py_fields.specs.Sound.{IsSound};
ghost use Rattle.py_coroutines.specs.Places.{IsSound as IsSoundPlaces};

use crate::footprint::images_of;
use core_stacks::{Process, open};
use coroutine_frames::{CoroutineFrame, places_of, read_frame};
use elf64_core::Text;
use process_memory::word_past;
use py_coroutines::{AwaitEnd, AwaitTypes, Awaits, Kind, Places, Stop, read_awaits, read_kind};
use py_layout::Layouts;
use py_process::get_interpreter_address;
use py_records::{RecordTables, Records};
use py_stacks::StackError;
use std::alloc::Global;
use std::fs;
use std::io::{self, Write};
use std::rt::Files;
use type_places::{TypeFields, module_type};

/// How many members of a chain are listed at most.
const MEMBER_LIMIT: usize = 16384;

/// A type of a module, by the module, its name there, and the size of its objects, where that is known.
#[derive(Clone, Copy)]
struct Named {
    module: &'static str,
    name: &'static str,
    size: Option<u32>,
}

fn sought(module: &'static str, name: &'static str, size: Option<u32>) -> Named {
    Named { module, name, size }
}

/// The address of a type of a module; 0 where it is not found.
fn address_of(
    alloc: Global,
    process: &Process,
    fields: &TypeFields,
    modules: u64,
    named: Named,
) -> u64
    requires sound { IsSound process.now.layout }
{
    let Some(size) = named.size else {
        return 0;
    };
    let (mut view, size) = (process.dump.view(), u64::from(size));
    let (layout, module, name) = (&process.layout, named.module, named.name);
    match module_type(
        alloc, &mut view, layout, fields, modules, module, name, size,
    ) {
        Ok(Some(place)) => place.address,
        _ => 0,
    }
}

/// The types of coroutines and futures, by the modules that have them.
fn await_types(
    alloc: Global,
    process: &Process,
    records: &Records,
    fields: &TypeFields,
    modules: u64,
) -> AwaitTypes
    requires sound { IsSound process.now.layout }
{
    let (it, tasks) = (&records.coroutines, &records.tasks);
    let coroutine = sought("types", "CoroutineType", it.coroutine.map(|it| it.size));
    let generator = sought("types", "GeneratorType", it.generator.map(|it| it.size));
    let size = it.async_generator.map(|it| it.size);
    let async_generator = sought("types", "AsyncGeneratorType", size);
    let future = sought("_asyncio", "Future", tasks.future.map(|it| it.size));
    let task = sought("_asyncio", "Task", tasks.task.map(|it| it.size));
    AwaitTypes {
        coroutine: address_of(alloc, process, fields, modules, coroutine),
        generator: address_of(alloc, process, fields, modules, generator),
        async_generator: address_of(alloc, process, fields, modules, async_generator),
        future: address_of(alloc, process, fields, modules, future),
        task: address_of(alloc, process, fields, modules, task),
    }
}

/// The places of a process's coroutines, where they are described.
fn described(alloc: Global, process: &Process, records: &Records) -> Option<Places>
    requires sound { IsSound process.now.layout }
    ensures { IfSome result IsSoundPlaces }
{
    let (layout, version) = (&process.layout, &process.version);
    let mut view = process.dump.view();
    let interpreter = get_interpreter_address(
        alloc,
        &process.info,
        &mut view,
        version,
        layout,
    ).ok()?;
    let klass = records.types.klass?;
    let modules = word_past(
        &mut view,
        interpreter,
        u64::from(layout.interpreter.modules),
    )
    .ok()?;
    let fields = TypeFields {
        basic_size: klass.basicsize,
        base: klass.base,
    };
    let types = await_types(alloc, process, records, &fields, modules);
    places_of(layout, records, &types)
}

/// What a member is, as a word.
fn kind_word(kind: Option<Kind>) -> &'static str {
    match kind {
        Some(Kind::Coroutine) => "coroutine",
        Some(Kind::Generator) => "generator",
        Some(Kind::AsyncGenerator) => "async_generator",
        None => "holder",
    }
}

/// The state of the last member of a chain, by its end.
fn last_word(end: AwaitEnd) -> &'static str {
    match end {
        AwaitEnd::Stops(Stop::Yielding) => "yielding",
        AwaitEnd::Stops(Stop::Created) => "created",
        AwaitEnd::Stops(Stop::Running) => "running",
        AwaitEnd::Stops(Stop::Finished) => "finished",
        AwaitEnd::Stops(Stop::Unreadable { .. }) => "unknown",
        _ => "awaiting",
    }
}

fn list_text<W: Write>(out: &mut W, text: &Option<Text>) -> io::Result<()> {
    match text {
        Some(text) => write!(out, " {}", text.as_str()),
        None => write!(out, " ?"),
    }
}

/// What a frame shows, behind its member's other words.
fn list_frame<W: Write>(
    out: &mut W,
    frame: Result<Option<CoroutineFrame>, StackError>,
) -> io::Result<()> {
    match frame {
        Ok(Some(frame)) => {
            write!(out, " {}", frame.line)?;
            list_text(out, &frame.function)?;
            list_text(out, &frame.filename)?;
        }
        Ok(None) => write!(out, " -")?,
        Err(_) => write!(out, " unreadable")?,
    }
    writeln!(out)
}

/// A member of a chain in a line.
fn list_member<W: Write>(
    out: &mut W,
    alloc: Global,
    process: &Process,
    places: &Places,
    at: u64,
    state: &str,
) -> io::Result<()>
    requires sound { IsSound process.now.layout }
    requires places { IsSoundPlaces places.now }
{
    let mut view = process.dump.view();
    let kind = read_kind(&mut view, places, at).unwrap_or(None);
    write!(out, "member {at:x} {}", kind_word(kind))?;
    if kind.is_none() {
        return writeln!(out);
    }
    write!(out, " {state}")?;
    let frame = read_frame(alloc, &mut view, &process.layout, &places.family, at);
    list_frame(out, frame)
}

fn list_stop<W: Write>(out: &mut W, stop: Stop) -> io::Result<()> {
    match stop {
        Stop::Future { addr } => writeln!(out, "end future {addr:x}"),
        Stop::Yielding => writeln!(out, "end yielding"),
        Stop::Created => writeln!(out, "end created"),
        Stop::Running => writeln!(out, "end running"),
        Stop::Finished => writeln!(out, "end finished"),
        Stop::NoTop => writeln!(out, "end no-top"),
        Stop::Other { addr, class } => writeln!(out, "end other {addr:x} {class:x}"),
        Stop::Unreadable { addr, len } => writeln!(out, "end unreadable {addr:x} {len:x}"),
    }
}

fn list_end<W: Write>(out: &mut W, end: AwaitEnd) -> io::Result<()> {
    match end {
        AwaitEnd::Stops(stop) => list_stop(out, stop),
        AwaitEnd::Cycle { addr } => writeln!(out, "end cycle {addr:x}"),
        AwaitEnd::Cut { addr } => writeln!(out, "end cut {addr:x}"),
    }
}

/// A chain, a member a line, and how it ends.
fn list_chain<W: Write>(
    out: &mut W,
    alloc: Global,
    process: &Process,
    places: &Places,
    chain: &Awaits,
) -> io::Result<()>
    requires sound { IsSound process.now.layout }
    requires places { IsSoundPlaces places.now }
{
    let mut left = chain.members.len();
    for at in chain.members.iter() {
        left = left.saturating_sub(1);
        let state = if left == 0 {
            last_word(chain.end)
        } else {
            "awaiting"
        };
        list_member(out, alloc, process, places, *at, state)?;
    }
    list_end(out, chain.end)
}

/// The chain from each of some addresses on, which stand in one word with commas between, in hexadecimal digits.
fn list_chains<W: Write>(
    out: &mut W,
    alloc: Global,
    process: &Process,
    places: &Places,
    heads: &str,
) -> io::Result<()>
    requires sound { IsSound process.now.layout }
    requires places { IsSoundPlaces places.now }
{
    for word in heads.split(',') {
        let Ok(head) = u64::from_str_radix(word, 16) else {
            return writeln!(out, "refused");
        };
        writeln!(out, "chain {head:x}")?;
        let mut view = process.dump.view();
        match read_awaits(alloc, &mut view, places, MEMBER_LIMIT, head) {
            Ok(chain) => list_chain(out, alloc, process, places, &chain)?,
            Err(_) => writeln!(out, "no memory")?,
        }
    }
    Ok(())
}

/// Of each address the chain of what awaits what from there on, in a core.
pub(crate) fn list_coroutines<W: Write, R: Files + Alloc<A = Global>>(
    out: &mut W,
    rt: &R,
    text: &[u8],
    words: &[String],
) -> io::Result<()> {
    let [records, heads, core, images @ ..] = words else {
        return writeln!(out, "refused");
    };
    let Some(images) = images_of(rt, images)? else {
        return writeln!(out, "refused");
    };
    let Ok(layouts) = Layouts::from_toml(rt.alloc(), text) else {
        return writeln!(out, "refused");
    };
    let Ok(tables) = RecordTables::from_toml(rt.alloc(), &fs::read(rt, records.as_str())?) else {
        return writeln!(out, "refused");
    };
    let Ok(process) = open(rt.alloc(), fs::read(rt, core.as_str())?, &images, &layouts) else {
        return writeln!(out, "refused");
    };
    let records = tables.records_of(&process.version);
    match described(rt.alloc(), &process, &records) {
        Some(places) => list_chains(out, rt.alloc(), &process, &places, heads.as_str()),
        None => writeln!(out, "not described"),
    }
}
