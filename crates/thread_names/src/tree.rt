//! The names as JSON.
ghost use Rattle.std.specs.Prelude.{◌≡◌, IfOk, string_bytes};
ghost use Rattle.serde_json.specs.View.{view};
ghost use Rattle.thread_names.specs.Trees.{address_text, fault_tree, fault_word, interpreter_tree, name_tree};
ghost use Rattle.thread_names.specs.Trees.{names_tree};
ghost use Rattle.thread_names.specs.Trees.{thread_fault_tree, thread_fault_word, thread_tree, threads_tree};

use crate::names::{InterpreterNames, ThreadName};
use elf64_core::Text;
use py_names::NamesError;
use serde_json::{Value, json};
use std::alloc::{AllocError, Global};

/// A name, or null.
fn name_value(alloc: Global, name: &Option<Text>) -> Result<Value, AllocError>
    ensures { IfOk result (λ value. view value ≡ name_tree name.now) }
{
    match name {
        Some(name) => Value::try_from_str(alloc, name.as_str()),
        None => Ok(Value::Null),
    }
}

/// Why the name of a thread can't be read, in words: `more than 256 slots`, or `unreadable`.
pub fn thread_fault_word(fault: &NamesError) -> &'static str
    ensures { result.now ≡ thread_fault_word fault.now }
{
    match fault {
        NamesError::Entries => "more than 256 slots",
        NamesError::NoDicts | NamesError::Object(_) | NamesError::OutOfMemory => "unreadable",
    }
}

/// The word of a thread's fault, or null.
fn thread_fault_value(alloc: Global, fault: &Option<NamesError>) -> Result<Value, AllocError>
    ensures { IfOk result (λ value. view value ≡ thread_fault_tree fault.now) }
{
    match fault {
        Some(fault) => Value::try_from_str(alloc, thread_fault_word(fault)),
        None => Ok(Value::Null),
    }
}

fn thread_value(alloc: Global, thread: &ThreadName) -> Result<Value, AllocError>
    ensures { IfOk result (λ value. view value ≡ thread_tree thread.now) }
{
    let name = name_value(alloc, &thread.name)?;
    let fault = thread_fault_value(alloc, &thread.fault)?;
    json!(in alloc; {
        "fault": fault,
        "name": name,
        "thread_id": thread.thread_id
    })
}

fn threads_value(alloc: Global, threads: &[ThreadName]) -> Result<Value, AllocError>
    ensures { IfOk result (λ value. view value ≡ threads_tree threads.now) }
{
    let mut values = Vec::new(alloc);
    for thread in threads {
        values.push(thread_value(alloc, thread)?)?;
    }
    Ok(Value::Array(values))
}

/// Why no name is told, in words: `no dicts`, `more than 65536 slots`, or `unreadable`.
pub fn fault_word(fault: &NamesError) -> &'static str
    ensures { result.now ≡ fault_word fault.now }
{
    match fault {
        NamesError::NoDicts => "no dicts",
        NamesError::Entries => "more than 65536 slots",
        NamesError::Object(_) => "unreadable",
        NamesError::OutOfMemory => "out of memory",
    }
}

/// The word of a fault, or null.
fn fault_value(alloc: Global, fault: &Option<NamesError>) -> Result<Value, AllocError>
    ensures { IfOk result (λ value. view value ≡ fault_tree fault.now) }
{
    match fault {
        Some(fault) => Value::try_from_str(alloc, fault_word(fault)),
        None => Ok(Value::Null),
    }
}

/// An address: `0x` and lower-case hexadecimal digits.
fn address_text(alloc: Global, address: u64) -> Result<String, AllocError>
    ensures { IfOk result (λ text. string_bytes text ≡ address_text address) }
{
    format!(in alloc; "0x{address:x}")
}

fn interpreter_value(alloc: Global, names: &InterpreterNames) -> Result<Value, AllocError>
    ensures { IfOk result (λ value. view value ≡ interpreter_tree names.now) }
{
    let address = address_text(alloc, names.interpreter)?;
    let fault = fault_value(alloc, &names.fault)?;
    let threads = threads_value(alloc, &names.threads)?;
    json!(in alloc; {
        "fault": fault,
        "interpreter": address.as_str(),
        "threads": threads,
        "unread": names.unread
    })
}

/// The names as a JSON value: an array of an object for each interpreter, in order, with its address, its threads, each
/// an object with its id, its name or null, and null or a word that says why that can't be read; how many slots may
/// have a thread whose id is not known; and null or a word that says why no name is told.
///
/// The keys of an object stand in the order of their bytes. The one error is out of memory.
pub fn names_value(alloc: Global, names: &[InterpreterNames]) -> Result<Value, AllocError>
    ensures { IfOk result (λ value. view value ≡ names_tree names.now) }
{
    let mut values = Vec::new(alloc);
    for interpreter in names {
        values.push(interpreter_value(alloc, interpreter)?)?;
    }
    Ok(Value::Array(values))
}
