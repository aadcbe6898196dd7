//! The stacks of an interpreter, with the names of its threads.
ghost use Rattle.std.specs.Prelude.{◌≡◌, IfOk, OnOk, map};
ghost use Rattle.py_fields.specs.Sound.{IsSound};
ghost use Rattle.py_builtins.specs.Consulted.{ConsultingBy, ConsultsBy};
ghost use Rattle.py_stacks.specs.Asking.{asked_of};
ghost use Rattle.py_names.specs.Names.{names_at, names_cost};
ghost use Rattle.py_stacks.specs.NamedStacks.{GivesNames, by_name, name_in, named_cost, named_stacks_at};
ghost use Rattle.py_stacks.specs.StackError.{stack_fault};
ghost use Rattle.py_stacks.specs.Threads.{trace_of, traces_of_result};

use crate::config::Config;
use crate::stacks::get_stack_traces;
use crate::{Addresses, StackError, StackTrace};
use elf64_core::Text;
use process_memory::ProcessMemory;
use py_fields::Layout;
use py_names::{NamesError, thread_names_from_interpreter};
use py_objects::ObjectError;
use std::alloc::{AllocError, Global};
use std::collections::BTreeMap;

/// The names of an interpreter's threads; none where there is a fault. The one error is out of memory.
fn read_name_map<P: ProcessMemory>(
    alloc: Global,
    process: &mut P,
    layout: &Layout,
    interpreter: u64,
) -> Result<Option<BTreeMap<u64, Text>>, StackError>
    requires sound { IsSound layout.now }
    ensures { ConsultingBy layout.now
        (λ m. names_cost layout.now m interpreter) (P.seen process.old) (P.seen process.new)
        (λ m. GivesNames (names_at layout.now m interpreter) result) }
{
    match thread_names_from_interpreter(alloc, interpreter, process, layout) {
        Ok(names) => Ok(Some(names)),
        Err(NamesError::OutOfMemory) => Err(StackError::OutOfMemory),
        Err(NamesError::Object(ObjectError::OutOfMemory)) => Err(StackError::OutOfMemory),
        Err(_) => Ok(None),
    }
}

/// A copy of the name of an id, where there is one.
fn name_in(
    alloc: Global,
    names: &Option<BTreeMap<u64, Text>>,
    id: u64,
) -> Result<Option<Text>, AllocError>
    ensures { IfOk result (λ name. name ≡ name_in names.now id) }
{
    match names {
        None => Ok(None),
        Some(names) => match names.get(&id) {
            None => Ok(None),
            Some(name) => Ok(Some(name.share()?)),
        },
    }
}

/// Gives each trace the name of its id.
fn name_traces(
    alloc: Global,
    traces: &mut Vec<StackTrace>,
    names: &Option<BTreeMap<u64, Text>>,
) -> Result<(), AllocError>
    ensures { OnOk result (map trace_of traces.new.items
        ≡ map (by_name (name_in names.now)) (map trace_of traces.old.items)) }
{
    for trace in traces.iter_mut() {
        trace.thread_name = name_in(alloc, names, trace.thread_id)?;
    }
    Ok(())
}

/// Reads the stacks, and then the names, and names the traces.
pub(crate) fn read_named<P: ProcessMemory>(
    alloc: Global,
    process: &mut P,
    layout: &Layout,
    addresses: &Addresses,
    config: &Config,
) -> Result<Vec<StackTrace>, StackError>
    requires sound { IsSound layout.now }
    ensures { ConsultsBy layout.now stack_fault
        (λ m. named_cost (asked_of config.now) layout.now m addresses.now.lock addresses.now.interpreter)
        (P.seen process.old) (P.seen process.new)
        (λ m. named_stacks_at (asked_of config.now) layout.now m addresses.now.lock addresses.now.interpreter)
        (traces_of_result result) }
{
    let interpreter = addresses.interpreter;
    let lock = addresses.lock;
    let mut traces = get_stack_traces(alloc, interpreter, process, layout, lock, Some(config))?;
    let names = read_name_map(alloc, process, layout, interpreter)?;
    name_traces(alloc, &mut traces, &names)?;
    Ok(traces)
}
