//! The native stacks of the threads of the process.
ghost use Rattle.std.specs.Prelude.{◌≡◌, IfOk, map};
ghost use Rattle.elf64_core.specs.Notes.{noted};
ghost use Rattle.image_memory.specs.Backed.{regions_of};
ghost use Rattle.process_memory.specs.Memory.{byte_at};
ghost use Rattle.memory_sections.specs.Pythons.{python_threads};
ghost use Rattle.memory_sections.specs.Told.{AreNative, NativeAre, asked_notes};

use crate::keeping::Keeping;
use crate::pythons::python_threads;
use core_stacks::Process;
use elf64_core::Note;
use image_memory::{CoreDump, Images};
use missed_reads::Misses;
use native_stacks::{NativeStacks, notes_of_first, read_native_stacks};
use process_memory::ProcessMemory;
use py_fronts::SalvagedInterpreter;
use std::alloc::{AllocError, Global};
use thread_registers::PythonThread;

/// The notes of a core: where it is asked for, those that tell of its first thread alone.
fn asked_notes<'a>(
    alloc: Global,
    crashed: bool,
    notes: Vec<Note<'a>>,
) -> Result<Vec<Note<'a>>, AllocError>
    ensures { IfOk result (λ asked. map noted asked.items ≡ asked_notes crashed (map noted notes.entry.items)) }
{
    if crashed {
        return notes_of_first(alloc, &notes);
    }
    Ok(notes)
}

/// The native stacks of the threads that the core's notes tell, over a memory.
fn native_over<P: ProcessMemory>(
    alloc: Global,
    strict: bool,
    crashed: bool,
    core: &CoreDump,
    images: &Images,
    process: &mut P,
    pythons: &[PythonThread],
) -> Result<NativeStacks, AllocError>
    ensures { IfOk result
        (AreNative strict crashed core.now images.now (byte_at (P.seen process.old).pieces) pythons.now) }
{
    let all = core.notes(alloc)?;
    let notes = asked_notes(alloc, crashed, all)?;
    read_native_stacks(alloc, core, &notes, images, process, pythons, strict)
}

/// The same, over the memory of an opened process. Reads that are refused are kept.
fn native_of(
    alloc: Global,
    strict: bool,
    crashed: bool,
    images: &Images,
    process: &Process,
    interpreters: &[SalvagedInterpreter],
    misses: &mut Misses,
) -> Result<NativeStacks, AllocError>
    ensures { IfOk result (AreNative strict crashed process.now.dump.core images.now
        (byte_at (regions_of process.now.dump)) (python_threads interpreters.now)) }
{
    let pythons = python_threads(alloc, interpreters)?;
    let mut view = Keeping::new(process.dump.view(), misses);
    let core = process.dump.core();
    native_over(alloc, strict, crashed, core, images, &mut view, &pythons)
}

/// The same, where they are asked for.
pub(crate) fn native_section(
    alloc: Global,
    asked: bool,
    strict: bool,
    crashed: bool,
    images: &Images,
    process: &Process,
    interpreters: &[SalvagedInterpreter],
    misses: &mut Misses,
) -> Result<Option<NativeStacks>, AllocError>
    ensures { IfOk result (NativeAre asked strict crashed process.now.dump.core images.now
        (byte_at (regions_of process.now.dump)) interpreters.now) }
{
    if !asked {
        return Ok(None);
    }
    let stacks = native_of(
        alloc,
        strict,
        crashed,
        images,
        process,
        interpreters,
        misses,
    )?;
    Ok(Some(stacks))
}
