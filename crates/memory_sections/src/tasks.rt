//! The tasks of each interpreter that is shown.
ghost use Rattle.std.specs.Prelude.{◌≡◌, ◌≤◌, ◌*◌, ◌^◌, IfOk};
ghost use Rattle.image_memory.specs.Backed.{regions_of};
ghost use Rattle.process_memory.specs.Memory.{byte_at};
ghost use Rattle.py_fields.specs.Sound.{IsSound};
ghost use Rattle.memory_sections.specs.Each.{EachTold};
ghost use Rattle.py_tasks.specs.Frameworks.{frameworks_at};
ghost use Rattle.py_tasks.specs.Shown.{tasks_shown};
ghost use Rattle.py_tasks.specs.Tasks.{tasks_at};
ghost use Rattle.memory_sections.specs.Told.{AreTasksOf, TasksAre, slot_share};

use core_stacks::Process;
use missed_reads::{Missed, Misses};
use py_fronts::SalvagedInterpreter;
use py_names::NamesError;
use py_records::Records;
use py_tasks::{Frameworks, TasksOf, read_frameworks, read_tasks};
use std::alloc::{AllocError, Global};
use task_texts::InterpreterTasks;

/// How many entries the sets of all interpreters may have together.
const SLOT_LIMIT: usize = 1_048_576;

/// How many entries the sets of each of so many interpreters may have together.
#[tactic(auto, unfolding(crate::specs::Told::slot_share))]
fn slot_share(count: usize) -> u64
    ensures is { result ≡ slot_share count }
    ensures all { result * count ≤ 2 ^ 20 }
{
    if count == 0 {
        return SLOT_LIMIT as u64;
    }
    (SLOT_LIMIT / count) as u64
}

/// What was read, or that there was no memory left.
fn read_or_wanting<T: Drop>(read: Result<T, NamesError>) -> Result<T, AllocError>
    ensures { IfOk result (λ value. read ≡ Ok value) }
{
    match read {
        Ok(value) => Ok(value),
        Err(_) => Err(AllocError),
    }
}

/// The tasks of the interpreter at an address. Reads that are refused are kept.
fn own_tasks(
    alloc: Global,
    process: &Process,
    records: &Records,
    misses: &mut Misses,
    slots: u64,
    address: u64,
) -> Result<TasksOf, AllocError>
    requires sound { IsSound process.now.layout }
    ensures { IfOk result (λ tasks. tasks_at process.now.layout records.now
        (byte_at (regions_of process.now.dump)) slots address ≡ Ok (tasks_shown tasks)) }
{
    let mut view = Missed::new(process.dump.view(), misses);
    let read = read_tasks(alloc, &mut view, &process.layout, records, slots, address);
    let tasks = read_or_wanting(read)?;
    Ok(tasks)
}

/// Which other frameworks it has. Reads that are refused are kept.
fn own_frameworks(
    alloc: Global,
    process: &Process,
    misses: &mut Misses,
    address: u64,
) -> Result<Option<Frameworks>, AllocError>
    requires sound { IsSound process.now.layout }
    ensures { IfOk result (λ found. frameworks_at process.now.layout
        (byte_at (regions_of process.now.dump)) address ≡ Ok found) }
{
    let mut view = Missed::new(process.dump.view(), misses);
    let read = read_frameworks(alloc, &mut view, &process.layout, address);
    let found = read_or_wanting(read)?;
    Ok(found)
}

/// The tasks of an interpreter that is shown, whose sets may have so many entries. Reads that are refused are kept.
fn tasks_of(
    alloc: Global,
    process: &Process,
    records: &Records,
    misses: &mut Misses,
    slots: u64,
    interpreter: &SalvagedInterpreter,
) -> Result<InterpreterTasks, AllocError>
    requires sound { IsSound process.now.layout }
    ensures { IfOk result
        (AreTasksOf process.now.layout records.now (byte_at (regions_of process.now.dump)) slots interpreter.now) }
{
    let address = interpreter.front.address;
    let tasks = own_tasks(alloc, process, records, misses, slots, address)?;
    let frameworks = own_frameworks(alloc, process, misses, address)?;
    Ok(InterpreterTasks {
        interpreter: address,
        tasks,
        frameworks,
    })
}

/// The tasks of each interpreter, in order.
fn each_tasks(
    alloc: Global,
    process: &Process,
    records: &Records,
    misses: &mut Misses,
    slots: u64,
    interpreters: &[SalvagedInterpreter],
) -> Result<Vec<InterpreterTasks>, AllocError>
    requires sound { IsSound process.now.layout }
    ensures { IfOk result (λ told. EachTold
        (AreTasksOf process.now.layout records.now (byte_at (regions_of process.now.dump)) slots)
        interpreters.now told.items) }
{
    let mut told = Vec::new(alloc);
    for interpreter in interpreters {
        told.push(tasks_of(alloc, process, records, misses, slots, interpreter)?)?;
    }
    Ok(told)
}

/// The same, where they are asked for. The interpreters share the bound on the entries of sets.
pub(crate) fn tasks_section(
    alloc: Global,
    asked: bool,
    process: &Process,
    records: &Records,
    misses: &mut Misses,
    interpreters: &[SalvagedInterpreter],
) -> Result<Option<Vec<InterpreterTasks>>, AllocError>
    requires sound { IsSound process.now.layout }
    ensures { IfOk result (TasksAre asked process.now.layout records.now
        (byte_at (regions_of process.now.dump)) interpreters.now) }
{
    if !asked {
        return Ok(None);
    }
    let slots = slot_share(interpreters.len());
    let told = each_tasks(alloc, process, records, misses, slots, interpreters)?;
    Ok(Some(told))
}
