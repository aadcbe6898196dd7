//! Exceptions, as a JSON value, by interpreters: those of its threads, and the last one that no code handled.
ghost use Rattle.std.specs.Prelude.{◌≡◌, IfOk, map};
ghost use Rattle.serde_json.specs.View.{view};
ghost use Rattle.exception_texts.specs.LastTrees.{all_exceptions_tree, alone_tree, found_tree, interpreter_tree};
ghost use Rattle.exception_texts.specs.LastTrees.{kind_tree};
ghost use Rattle.exception_texts.specs.LastTrees.{last_tree, lost_last_tree, of_tree};

use crate::thread_tree::threads_value;
use crate::told::{ExceptionsOf, InterpreterExceptions};
use crate::tree::{address_text, objects_value};
use py_exceptions::{LastException, LastFound, LastName, ToldThread, key_of};
use serde_json::{Value, json};
use std::alloc::{AllocError, Global};

/// The exception at an address, with what it leads to, and under which name `sys` has it.
fn alone_value(alloc: Global, key: &str, addr: u64, told: &ToldThread) -> Result<Value, AllocError>
    ensures { IfOk result (λ own. view own ≡ alone_tree key.now addr told.now) }
{
    let address = address_text(alloc, addr)?;
    let objects = objects_value(alloc, told)?;
    json!(in alloc; {
        "address": address.as_str(),
        "exceptions": objects,
        "kind": "exception",
        "name": key
    })
}

/// That what `sys` has under a name can't be read.
fn lost_last_value(alloc: Global, key: &str) -> Result<Value, AllocError>
    ensures { IfOk result (λ own. view own ≡ lost_last_tree key.now) }
{
    json!(in alloc; {
        "kind": "unreadable",
        "name": key
    })
}

/// What `sys` has, or null.
fn found_value(alloc: Global, name: LastName, found: &LastFound) -> Result<Value, AllocError>
    ensures { IfOk result (λ own. view own ≡ found_tree name found.now) }
{
    match found {
        LastFound::Nothing => Ok(Value::Null),
        LastFound::Exception { addr, told } => alone_value(alloc, key_of(name), *addr, told),
        LastFound::Unreadable => lost_last_value(alloc, key_of(name)),
    }
}

/// The same, where it is described.
fn last_value(alloc: Global, last: &Option<LastException>) -> Result<Value, AllocError>
    ensures { IfOk result (λ own. view own ≡ last_tree last.now) }
{
    match last {
        Some(last) => found_value(alloc, last.name, &last.found),
        None => Ok(Value::Null),
    }
}

/// The threads of an interpreter, where they are told, and the last exception.
fn kind_value(
    alloc: Global,
    interpreter: u64,
    kind: &str,
    last: Value,
    threads: Value,
) -> Result<Value, AllocError>
    ensures { IfOk result (λ own. view own ≡ kind_tree interpreter kind.now (view last) (view threads)) }
{
    let address = address_text(alloc, interpreter)?;
    json!(in alloc; {
        "interpreter": address.as_str(),
        "kind": kind,
        "last": last,
        "threads": threads
    })
}

/// The same, by what is told of its threads.
fn of_value(
    alloc: Global,
    interpreter: u64,
    last: Value,
    exceptions: &ExceptionsOf,
) -> Result<Value, AllocError>
    ensures { IfOk result (λ own. view own ≡ of_tree interpreter (view last) exceptions.now) }
{
    match exceptions {
        ExceptionsOf::NotDescribed => {
            kind_value(alloc, interpreter, "not described", last, Value::Null)
        }
        ExceptionsOf::Read(threads) => {
            let own = threads_value(alloc, threads)?;
            kind_value(alloc, interpreter, "read", last, own)
        }
    }
}

/// An interpreter.
fn interpreter_value(alloc: Global, told: &InterpreterExceptions) -> Result<Value, AllocError>
    ensures { IfOk result (λ own. view own ≡ interpreter_tree told.now) }
{
    let last = last_value(alloc, &told.last)?;
    of_value(alloc, told.interpreter, last, &told.exceptions)
}

/// The exceptions as a JSON value: an array of an object for each interpreter, in order, with its address, a `kind`,
/// which is `read` or `not described`, its `threads`, or null, and the `last` exception that no code handled.
///
/// That is null where its `sys` has none; an `exception` at an `address`, with the `name` under which `sys` has it and
/// the `exceptions` that it leads to, each once, itself first; or `unreadable`, with that name.
///
/// A thread has its `thread_id`; what is `raised`, or null: an `exception` at an `address`, or `parts`, a type and what
/// an exception is made of; the items that are `handled`, the newest first, each with the `address` that it names, or
/// null, and the address of what is `running` where it is a generator's or a coroutine's; how the chain of items breaks
/// off, its `end`, or null; and the `exceptions` that these lead to, each once.
///
/// An exception has its `address`, its `type`, its `message` where that is told exactly as Python shows it, whose rule
/// gives that (`message_by`), its `args` as code has them, the `frames` of its traceback, the oldest call first, of
/// which `frames_left_out` are missing behind the first 128, how the traceback breaks off, its `end`, its `cause` and
/// its `context` by their addresses, whether that is suppressed, its `notes` and the `members` of a group. The keys of
/// an object stand in the order of their bytes. The one error is out of memory.
pub fn exceptions_value(
    alloc: Global,
    exceptions: &[InterpreterExceptions],
) -> Result<Value, AllocError>
    ensures { IfOk result (λ own. view own ≡ all_exceptions_tree exceptions.now) }
{
    let mut own = Vec::new(alloc);
    for interpreter in exceptions {
        own.push(interpreter_value(alloc, interpreter)?)?;
    }
    Ok(Value::Array(own))
}
