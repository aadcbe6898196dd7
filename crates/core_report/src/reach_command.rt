//! `reach CORE LAYOUTS INDEX [PATH=FILE]..`
ghost use Rattle.std.specs.Prelude.{◌≡◌, ◌++◌, IfOk, OnOk, map};
ghost use Rattle.py_stacks.specs.Threads.{trace_of};
ghost use Rattle.core_words.specs.Words.{reach};
ghost use Rattle.core_words.specs.Seen.{asked_reach};
ghost use Rattle.core_report.specs.Outcome.{IsAnswer, IsOutcome, IsReachedIn};
ghost use Rattle.program_run.specs.Reading.{core_contents};
ghost use Rattle.core_report.specs.Stacked.{StackedIs, locals_asked, locals_in, object_line, reach_text, roots_of};
ghost use Rattle.core_report.specs.Stacks.{locals_of, stacked, stacked_in};

use crate::cause::Cause;
use core_stacks::PythonCoreDump;
use core_texts::{Part, push_parts};
use core_words::ReachWords;
use image_memory::{CoreDump, Images};
use named_images::image_list;
use object_reach::{ReachObject, reach};
use program_run::CoreFiles;
use py_layout::Layouts;
use py_process::CoreError;
use py_stacks::{Config, LocalVariable, StackTrace};
use std::alloc::{AllocError, Global};

/// The process of a core, opened, with its traces.
#[derive(Drop)]
struct Stacks {
    process: PythonCoreDump,
    traces: Vec<StackTrace>,
}

/// Opens the process of a core, and reads its traces with their locals.
fn open_stacks(
    alloc: Global,
    bytes: Vec<u8>,
    images: &Images,
    layouts: &Layouts,
) -> Result<Stacks, CoreError>
    ensures { StackedIs bytes.items images.now layouts.now locals_asked (stacked_in result) }
{
    let core = CoreDump::new(alloc, bytes)?;
    let process = PythonCoreDump::new(alloc, core, images, layouts)?;
    let config = Config {
        dump_locals: 1,
        ..Config::default()
    };
    let traces = process.get_stack(&config)?;
    Ok(Stacks { process, traces })
}

/// The addresses of a thread's locals.
fn roots_of(alloc: Global, trace: &StackTrace) -> Result<Vec<u64>, AllocError>
    ensures { IfOk result (λ roots. roots.items ≡ roots_of (trace_of trace.now)) }
{
    let mut roots = Vec::new(alloc);
    for frame in &trace.frames {
        push_roots(&mut roots, &frame.locals)?;
    }
    Ok(roots)
}

/// Appends the addresses of a frame's locals.
fn push_roots(roots: &mut Vec<u64>, locals: &Option<Vec<LocalVariable>>) -> Result<(), AllocError>
    ensures { OnOk result (roots.new.items ≡ roots.old.items ++ locals_in (locals_of locals.now)) }
{
    match locals {
        Some(locals) => push_addresses(roots, locals),
        None => Ok(()),
    }
}

/// Appends the addresses of some locals.
fn push_addresses(roots: &mut Vec<u64>, locals: &[LocalVariable]) -> Result<(), AllocError>
    ensures { OnOk result (roots.new.items ≡ roots.old.items ++ map (λ l. l.addr) locals.now) }
{
    for local in locals {
        roots.push(local.addr)?;
    }
    Ok(())
}

/// The text of what a thread's locals lead to, over the process's memory.
fn reached_in(alloc: Global, stacks: &Stacks, index: u64) -> Result<Vec<u8>, Cause>
    ensures { IsAnswer (IsReachedIn index (stacked stacks.now)) result }
{
    let Some(trace) = stacks.traces.get(index as usize) else {
        return Err(Cause::ReachIndex { index });
    };
    let roots = roots_of(alloc, trace)?;
    let mut memory = stacks.process.memory();
    let objects = reach(alloc, &mut memory, stacks.process.layout(), &roots)?;
    Ok(reach_text(alloc, &objects)?)
}

/// How many objects there are, and the line of each.
fn reach_text(alloc: Global, objects: &[ReachObject]) -> Result<Vec<u8>, AllocError>
    ensures { IfOk result (λ text. text.items ≡ reach_text objects.now) }
{
    let mut text = Vec::new(alloc);
    push_parts(
        &mut text,
        &[
            Part::Text("Objects "),
            Part::Decimal(objects.len() as u64),
            Part::Text("\n"),
        ],
    )?;
    for object in objects {
        push_object(&mut text, object)?;
    }
    Ok(text)
}

/// Appends the line of an object.
fn push_object(text: &mut Vec<u8>, object: &ReachObject) -> Result<(), AllocError>
    ensures { OnOk result (text.new.items ≡ text.old.items ++ object_line object.now) }
{
    let mark = match &object.broken {
        Some(_) => " ?",
        None => "",
    };
    push_parts(
        text,
        &[
            Part::Text("    "),
            Part::Address(object.addr),
            Part::Text(mark),
            Part::Text("\n"),
        ],
    )
}

/// The text of what a thread's locals lead to, over what its files hold.
pub(crate) fn reach_over(
    alloc: Global,
    words: &ReachWords<'_>,
    files: CoreFiles,
) -> Result<Vec<u8>, Cause>
    ensures { IsAnswer (IsOutcome (reach (asked_reach words.now)) (core_contents files)) result }
{
    let CoreFiles {
        core,
        layouts,
        images,
    } = files;
    let layouts = Layouts::from_toml(alloc, &layouts)?;
    let images = image_list(alloc, &words.images, images)?;
    let stacks = open_stacks(alloc, core, &images, &layouts)?;
    reached_in(alloc, &stacks, words.index)
}
