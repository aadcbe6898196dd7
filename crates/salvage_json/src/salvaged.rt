//! What is left of a process's stacks.
ghost use Rattle.std.specs.Prelude.{◌≡◌, ◌++◌, IfOk, OnOk, map};
ghost use Rattle.serde_json.specs.View.{view};
ghost use Rattle.thread_names.specs.Lookup.{threads_named};
ghost use Rattle.salvage_json.specs.Salvaged.{interpreter_tree, interpreter_trees, interpreters_tree, ordered_trees};
ghost use Rattle.salvage_json.specs.Salvaged.{ended_tree, process_tree, signal_tree};

use crate::kind::{address_value, end_value, lock_value};
use crate::thread::threads_value;
use elf64_core::Text;
use py_fronts::{Crash, Looked, SalvagedInterpreter, first_crashed};
use repr_json::ShownValues;
use serde_json::{Value, json};
use std::alloc::{AllocError, Global};
use thread_names::{InterpreterNames, threads_named};

fn interpreter_value(
    alloc: Global,
    kept: &ShownValues,
    crash: Option<Crash>,
    names: &[InterpreterNames],
    interpreter: &SalvagedInterpreter,
) -> Result<Value, AllocError>
    ensures { IfOk result (λ value. view value ≡ interpreter_tree kept.now crash names.now interpreter.now) }
{
    let front = &interpreter.front;
    let address = address_value(alloc, front.address)?;
    let lock = lock_value(alloc, interpreter.lock)?;
    let told = threads_named(names, front.address);
    let threads = threads_value(
        alloc,
        kept,
        interpreter.lock,
        crash,
        told,
        &front.threads.threads,
    )?;
    let threads_end = end_value(alloc, front.threads.end)?;
    json!(in alloc; {
        "address": address,
        "lock": lock,
        "searched": front.searched,
        "threads": threads,
        "threads_end": threads_end
    })
}

/// Adds some interpreters, in order.
fn add_interpreters(
    alloc: Global,
    values: &mut Vec<Value>,
    kept: &ShownValues,
    crash: Option<Crash>,
    names: &[InterpreterNames],
    interpreters: &[SalvagedInterpreter],
) -> Result<(), AllocError>
    ensures { OnOk result (map view values.new.items
        ≡ map view values.old.items ++ interpreter_trees kept.now crash names.now interpreters.now) }
{
    for interpreter in interpreters {
        values.push(interpreter_value(alloc, kept, crash, names, interpreter)?)?;
    }
    Ok(())
}

/// Adds all interpreters: the first one of which a thread got the signal, and then the others, in order.
fn add_ordered(
    alloc: Global,
    values: &mut Vec<Value>,
    kept: &ShownValues,
    crash: Option<Crash>,
    names: &[InterpreterNames],
    interpreters: &[SalvagedInterpreter],
) -> Result<(), AllocError>
    ensures { OnOk result (map view values.new.items
        ≡ map view values.old.items ++ ordered_trees kept.now crash names.now interpreters.now) }
{
    let Some(index) = first_crashed(crash, interpreters) else {
        return add_interpreters(alloc, values, kept, crash, names, interpreters);
    };
    add_interpreters(
        alloc,
        values,
        kept,
        crash,
        names,
        &interpreters[index..index + 1],
    )?;
    add_interpreters(alloc, values, kept, crash, names, &interpreters[..index])?;
    add_interpreters(
        alloc,
        values,
        kept,
        crash,
        names,
        &interpreters[index + 1..],
    )
}

/// What is left of some interpreters: an array, in the order of `salvage_texts::salvaged_text`, each an object with its
/// lock, its threads and how their chain ends, each thread with its marks, its frames and how these end, and with the
/// name that is told of its id in its interpreter, or null. A local has the text and the tree that are kept for the
/// address of its value, or null.
///
/// The keys of an object stand in the order of their bytes; an address is a text in hexadecimal digits, and an end, a
/// lock or a cause is an object with its kind. The one error is out of memory.
pub fn interpreters_value(
    alloc: Global,
    kept: &ShownValues,
    crash: Option<Crash>,
    names: &[InterpreterNames],
    interpreters: &[SalvagedInterpreter],
) -> Result<Value, AllocError>
    ensures { IfOk result (λ value. view value ≡ interpreters_tree kept.now crash names.now interpreters.now) }
{
    let mut values = Vec::new(alloc);
    add_ordered(alloc, &mut values, kept, crash, names, interpreters)?;
    Ok(Value::Array(values))
}

/// What the search for interpreters looked at, where it ended before all was: how many addresses, and how many members
/// of chains of threads; null where it looked at all. The one error is out of memory.
pub fn ended_value(alloc: Global, looked: &Looked) -> Result<Value, AllocError>
    ensures { IfOk result (λ value. view value ≡ ended_tree looked.now) }
{
    if !looked.ended {
        return Ok(Value::Null);
    }
    let (addresses, members) = (looked.addresses, looked.members);
    json!(in alloc; {
        "addresses": addresses,
        "members": members
    })
}

/// The process that a core tells, by its id and its arguments: an object, or null where it tells none. The one error is
/// out of memory.
pub fn process_value(alloc: Global, process: &Option<(i32, Text)>) -> Result<Value, AllocError>
    ensures { IfOk result (λ value. view value ≡ process_tree process.now) }
{
    let Some((pid, arguments)) = process else {
        return Ok(Value::Null);
    };
    let pid = *pid;
    json!(in alloc; {
        "arguments": arguments.as_str(),
        "pid": pid
    })
}

/// The signal that a core tells, or null where it tells none. The one error is out of memory.
pub fn signal_value(alloc: Global, signal: Option<i16>) -> Result<Value, AllocError>
    ensures { IfOk result (λ value. view value ≡ signal_tree signal) }
{
    match signal {
        Some(signal) => json!(in alloc; signal),
        None => Ok(Value::Null),
    }
}
