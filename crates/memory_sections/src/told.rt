//! All that is told in the sections that are read in a process's memory.
ghost use Rattle.std.specs.Prelude.{◌≡◌, IfOk};
ghost use Rattle.image_memory.specs.Backed.{regions_of};
ghost use Rattle.process_memory.specs.Memory.{byte_at};
ghost use Rattle.py_fields.specs.Sound.{IsSound};
ghost use Rattle.py_process.specs.Facts.{known_of};
ghost use Rattle.memory_sections.specs.Told.{AreMemoryTold, names_given};

use crate::exceptions::exceptions_section;
use crate::heap::heap_section;
use crate::locals::values_section;
use crate::names::names_section;
use crate::native::native_section;
use crate::pairs::pairs_section;
use crate::tasks::tasks_section;
use crate::waits::waits_section;
use core_stacks::Process;
use exception_texts::InterpreterExceptions;
use image_memory::Images;
use local_values::LocalValues;
use missed_reads::Misses;
use native_stacks::NativeStacks;
use paired_stacks::PairedStack;
use py_fronts::SalvagedInterpreter;
use py_heap::Heaps;
use py_records::Records;
use py_waits::InterpreterWaits;
use salvage_words::Sections;
use std::alloc::{AllocError, Global};
use task_texts::InterpreterTasks;
use thread_names::InterpreterNames;

/// What is told in these sections: none in one that isn't asked for.
#[derive(Drop)]
pub struct MemoryTold {
    /// The names of the threads, by interpreters.
    pub names: Option<Vec<InterpreterNames>>,
    /// The tasks of asyncio, by interpreters.
    pub tasks: Option<Vec<InterpreterTasks>>,
    /// The exceptions of the threads, by interpreters.
    pub exceptions: Option<Vec<InterpreterExceptions>>,
    /// What the threads wait for, by interpreters.
    pub waits: Option<Vec<InterpreterWaits>>,
    /// The native stacks of the threads of the process.
    pub native: Option<NativeStacks>,
    /// One stack of the Python frames and the native ones of each thread that has a native stack.
    pub stacks: Option<Vec<Option<PairedStack>>>,
    /// The values of the locals of the frames that are shown.
    pub values: Option<LocalValues>,
    /// The objects of each interpreter's heap, by class.
    pub heap: Option<Heaps>,
}

/// The names of the threads, by interpreters; none where they are not asked for.
pub fn names_told(told: &MemoryTold) -> &[InterpreterNames]
    ensures { result.now ≡ names_given told.now.names }
{
    match &told.names {
        Some(names) => names,
        None => &[],
    }
}

/// What is told in the sections that are asked for of an opened process, of whose interpreters these are shown, by the
/// records of its version and the images with which it was opened; with the values of locals, by so many `-l`. Reads
/// that are refused are kept.
///
/// What can't be had of a section is told in it. The one error is out of memory.
pub fn tell_memory(
    alloc: Global,
    asked: Sections,
    times: u64,
    images: &Images,
    process: &Process,
    records: &Records,
    interpreters: &[SalvagedInterpreter],
    misses: &mut Misses,
) -> Result<MemoryTold, AllocError>
    requires sound { IsSound process.now.layout }
    ensures { IfOk result (AreMemoryTold asked times process.now.dump.core images.now (known_of process.now.info)
        process.now.version process.now.layout records.now (byte_at (regions_of process.now.dump)) interpreters.now) }
{
    let names = names_section(alloc, asked.names, process, records, misses, interpreters)?;
    let tasks = tasks_section(alloc, asked.tasks, process, records, misses, interpreters)?;
    let exceptions = exceptions_section(
        alloc,
        asked.exceptions,
        process,
        records,
        misses,
        interpreters,
    )?;
    let waits = waits_section(alloc, asked.waits, process, records, misses, interpreters)?;
    let native = native_section(
        alloc,
        asked.native,
        asked.strict,
        asked.crashed,
        images,
        process,
        interpreters,
        misses,
    )?;
    let stacks = pairs_section(alloc, process, records, &native, interpreters, misses)?;
    let values = values_section(alloc, times, process, records, misses, interpreters)?;
    let heap = heap_section(alloc, asked.heap, process, records, misses, interpreters)?;
    Ok(MemoryTold {
        names,
        tasks,
        exceptions,
        waits,
        native,
        stacks,
        values,
        heap,
    })
}
