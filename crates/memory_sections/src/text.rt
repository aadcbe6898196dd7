//! The lines of these sections.
ghost use Rattle.std.specs.Prelude.{◌≡◌, ◌++◌, OnOk, string_bytes};
ghost use Rattle.memory_sections.specs.Text.{all_names_text, exceptions_text, fault_lead, fault_text, heap_text};
ghost use Rattle.memory_sections.specs.Text.{interpreter_text, lead_text, lost_lead, lost_text, memory_text};
ghost use Rattle.memory_sections.specs.Text.{name_text, names_text, native_text, pairs_given, tasks_text, thread_text};
ghost use Rattle.memory_sections.specs.Text.{threads_text, unread_lead, unread_text, waits_text};

use crate::told::MemoryTold;
use elf64_core::Text;
use exception_texts::{InterpreterExceptions, push_exceptions};
use heap_texts::push_heaps;
use native_stacks::NativeStacks;
use paired_stacks::PairedStack;
use py_fronts::SalvagedInterpreter;
use py_heap::Heaps;
use py_names::NamesError;
use py_waits::{InterpreterWaits, push_waits};
use salvage_texts::push_escaped;
use stack_texts::push_stacks;
use std::alloc::{AllocError, Global};
use task_texts::{InterpreterTasks, push_tasks};
use thread_names::{InterpreterNames, ThreadName, fault_word, thread_fault_word};

/// What stands in front of a thread's name.
fn push_lead(text: &mut String, thread_id: u64) -> Result<(), AllocError>
    ensures { OnOk result (string_bytes text.new ≡ string_bytes text.old ++ lead_text thread_id) }
{
    write!(text, "Name of thread 0x{thread_id:X}: ")
}

/// A thread's name, where it has one; what could end the line is escaped.
fn push_name(
    alloc: Global,
    text: &mut String,
    thread_id: u64,
    name: &Option<Text>,
) -> Result<(), AllocError>
    ensures { OnOk result (string_bytes text.new ≡ string_bytes text.old ++ name_text thread_id name.now) }
{
    let Some(name) = name else {
        return Ok(());
    };
    push_lead(text, thread_id)?;
    push_escaped(alloc, text, false, name)?;
    text.push_str("\n")
}

/// What stands in front of why a thread's name is not told.
fn push_lost_lead(text: &mut String, thread_id: u64) -> Result<(), AllocError>
    ensures { OnOk result (string_bytes text.new ≡ string_bytes text.old ++ lost_lead thread_id) }
{
    write!(text, "No name of thread 0x{thread_id:X}: ")
}

/// Why a thread's name is not told, where there is a fault.
fn push_lost(
    text: &mut String,
    thread_id: u64,
    fault: &Option<NamesError>,
) -> Result<(), AllocError>
    ensures { OnOk result (string_bytes text.new ≡ string_bytes text.old ++ lost_text thread_id fault.now) }
{
    let Some(fault) = fault else {
        return Ok(());
    };
    push_lost_lead(text, thread_id)?;
    text.push_str(thread_fault_word(fault))?;
    text.push_str("\n")
}

/// The line of a thread, where it has a name or that can't be read.
fn push_thread(alloc: Global, text: &mut String, thread: &ThreadName) -> Result<(), AllocError>
    ensures { OnOk result (string_bytes text.new ≡ string_bytes text.old ++ thread_text thread.now) }
{
    push_name(alloc, text, thread.thread_id, &thread.name)?;
    push_lost(text, thread.thread_id, &thread.fault)
}

fn push_threads(alloc: Global, text: &mut String, threads: &[ThreadName]) -> Result<(), AllocError>
    ensures { OnOk result (string_bytes text.new ≡ string_bytes text.old ++ threads_text threads.now) }
{
    for thread in threads {
        push_thread(alloc, text, thread)?;
    }
    Ok(())
}

/// What stands in front of how many slots may have a thread whose id is not known.
fn push_unread_lead(text: &mut String, address: u64) -> Result<(), AllocError>
    ensures { OnOk result (string_bytes text.new ≡ string_bytes text.old ++ unread_lead address) }
{
    write!(text, "Names not read of the interpreter at 0x{address:x}: ")
}

/// How many slots may have a thread whose id is not known, where there is one.
fn push_unread(text: &mut String, names: &InterpreterNames) -> Result<(), AllocError>
    ensures { OnOk result (string_bytes text.new ≡ string_bytes text.old ++ unread_text names.now) }
{
    let unread = names.unread;
    if unread == 0 {
        return Ok(());
    }
    push_unread_lead(text, names.interpreter)?;
    write!(text, "{unread}\n")
}

/// What stands in front of why no name is told.
fn push_fault_lead(text: &mut String, address: u64) -> Result<(), AllocError>
    ensures { OnOk result (string_bytes text.new ≡ string_bytes text.old ++ fault_lead address) }
{
    write!(text, "No names of the interpreter at 0x{address:x}: ")
}

/// Why no name of an interpreter is told, where there is a fault.
fn push_fault(text: &mut String, names: &InterpreterNames) -> Result<(), AllocError>
    ensures { OnOk result (string_bytes text.new ≡ string_bytes text.old ++ fault_text names.now) }
{
    let Some(fault) = &names.fault else {
        return Ok(());
    };
    push_fault_lead(text, names.interpreter)?;
    text.push_str(fault_word(fault))?;
    text.push_str("\n")
}

fn push_interpreter(
    alloc: Global,
    text: &mut String,
    names: &InterpreterNames,
) -> Result<(), AllocError>
    ensures { OnOk result (string_bytes text.new ≡ string_bytes text.old ++ interpreter_text names.now) }
{
    push_fault(text, names)?;
    push_threads(alloc, text, &names.threads)?;
    push_unread(text, names)
}

fn push_all_names(
    alloc: Global,
    text: &mut String,
    names: &[InterpreterNames],
) -> Result<(), AllocError>
    ensures { OnOk result (string_bytes text.new ≡ string_bytes text.old ++ all_names_text names.now) }
{
    for interpreter in names {
        push_interpreter(alloc, text, interpreter)?;
    }
    Ok(())
}

/// The names, where they are asked for.
fn push_names(
    alloc: Global,
    text: &mut String,
    names: &Option<Vec<InterpreterNames>>,
) -> Result<(), AllocError>
    ensures { OnOk result (string_bytes text.new ≡ string_bytes text.old ++ names_text names.now) }
{
    match names {
        Some(names) => push_all_names(alloc, text, names),
        None => Ok(()),
    }
}

/// The tasks, where they are asked for.
fn push_own_tasks(
    alloc: Global,
    text: &mut String,
    tasks: &Option<Vec<InterpreterTasks>>,
) -> Result<(), AllocError>
    ensures { OnOk result (string_bytes text.new ≡ string_bytes text.old ++ tasks_text tasks.now) }
{
    match tasks {
        Some(tasks) => push_tasks(alloc, text, tasks),
        None => Ok(()),
    }
}

/// The exceptions, where they are asked for.
fn push_own_exceptions(
    alloc: Global,
    text: &mut String,
    exceptions: &Option<Vec<InterpreterExceptions>>,
) -> Result<(), AllocError>
    ensures { OnOk result (string_bytes text.new ≡ string_bytes text.old ++ exceptions_text exceptions.now) }
{
    match exceptions {
        Some(exceptions) => push_exceptions(alloc, text, exceptions),
        None => Ok(()),
    }
}

/// What threads wait for, where it is asked for.
fn push_own_waits(
    text: &mut String,
    waits: &Option<Vec<InterpreterWaits>>,
) -> Result<(), AllocError>
    ensures { OnOk result (string_bytes text.new ≡ string_bytes text.old ++ waits_text waits.now) }
{
    match waits {
        Some(waits) => push_waits(text, waits),
        None => Ok(()),
    }
}

/// One stack of the Python frames and the native ones of each thread; none where they are not asked for.
fn pairs_given(pairs: &Option<Vec<Option<PairedStack>>>) -> &[Option<PairedStack>]
    ensures { result.now ≡ pairs_given pairs.now }
{
    match pairs {
        Some(pairs) => pairs,
        None => &[],
    }
}

/// The native stacks, each with the thread's Python frames, where they are asked for.
fn push_native(
    alloc: Global,
    text: &mut String,
    limit: usize,
    interpreters: &[SalvagedInterpreter],
    native: &Option<NativeStacks>,
    pairs: &Option<Vec<Option<PairedStack>>>,
) -> Result<(), AllocError>
    ensures { OnOk result (string_bytes text.new
        ≡ string_bytes text.old ++ native_text limit interpreters.now native.now (pairs_given pairs.now)) }
{
    match native {
        Some(stacks) => push_stacks(alloc, text, limit, interpreters, stacks, pairs_given(pairs)),
        None => Ok(()),
    }
}

/// What heaps hold, where it is asked for.
fn push_heap(alloc: Global, text: &mut String, heaps: &Option<Heaps>) -> Result<(), AllocError>
    ensures { OnOk result (string_bytes text.new ≡ string_bytes text.old ++ heap_text heaps.now) }
{
    match heaps {
        Some(heaps) => push_heaps(alloc, text, heaps),
        None => Ok(()),
    }
}

/// Appends the lines of the sections that are asked for, in this order: of each thread with a name `Name of thread
/// 0x7F..: NAME`, and of each whose name can't be read why; of each interpreter of which none can be read why, and how
/// many slots may have a thread whose id is not known; the tasks of each interpreter
/// (`task_texts::push_tasks`); the exceptions of the threads of each (`exception_texts::push_exceptions`); what each
/// thread waits for (`py_waits::push_waits`); the native stacks, each in one with its thread's Python frames, which are
/// among those of `interpreters` (`stack_texts::push_stacks`), of each the first and last `limit` lines; and what the
/// heaps hold (`heap_texts::push_heaps`). The one error is out of memory.
pub fn push_memory(
    alloc: Global,
    text: &mut String,
    limit: usize,
    interpreters: &[SalvagedInterpreter],
    told: &MemoryTold,
) -> Result<(), AllocError>
    ensures { OnOk result (string_bytes text.new
        ≡ string_bytes text.old ++ memory_text limit interpreters.now told.now) }
{
    push_names(alloc, text, &told.names)?;
    push_own_tasks(alloc, text, &told.tasks)?;
    push_own_exceptions(alloc, text, &told.exceptions)?;
    push_own_waits(text, &told.waits)?;
    push_native(alloc, text, limit, interpreters, &told.native, &told.stacks)?;
    push_heap(alloc, text, &told.heap)
}
