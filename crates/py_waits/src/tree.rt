//! Threads that wait, as a JSON value.
ghost use Rattle.std.specs.Prelude.{◌≡◌, IfOk, string_bytes};
ghost use Rattle.serde_json.specs.View.{view};
ghost use Rattle.py_waits.specs.Trees.{address_text, interpreter_tree, known_tree, object_tree, owner_tree, rlock_tree};
ghost use Rattle.py_waits.specs.Trees.{thread_tree, threads_tree, wait_tree, waits_tree};

use crate::told::{InterpreterWaits, ThreadWait};
use crate::wait::Wait;
use serde_json::{Value, json};
use std::alloc::{AllocError, Global};

/// An address: `0x` and lower-case hexadecimal digits.
fn address_text(alloc: Global, address: u64) -> Result<String, AllocError>
    ensures { IfOk result (λ text. string_bytes text ≡ address_text address) }
{
    format!(in alloc; "0x{address:x}")
}

/// An object without an owner.
fn object_value(alloc: Global, kind: &str, address: u64) -> Result<Value, AllocError>
    ensures { IfOk result (λ value. view value ≡ object_tree kind.now address) }
{
    let address = address_text(alloc, address)?;
    json!(in alloc; {
        "address": address.as_str(),
        "kind": kind
    })
}

/// The id of an owner, or null.
fn owner_value(owner: Option<u64>) -> Value
    ensures { view result ≡ owner_tree owner }
{
    match owner {
        Some(owner) => Value::from(owner),
        None => Value::Null,
    }
}

/// A reentrant lock.
fn rlock_value(alloc: Global, address: u64, owner: Option<u64>) -> Result<Value, AllocError>
    ensures { IfOk result (λ value. view value ≡ rlock_tree address owner) }
{
    let address = address_text(alloc, address)?;
    let owner = owner_value(owner);
    json!(in alloc; {
        "address": address.as_str(),
        "kind": "rlock",
        "owner": owner
    })
}

/// What a thread waits for.
fn wait_value(alloc: Global, wait: Wait) -> Result<Value, AllocError>
    ensures { IfOk result (λ value. view value ≡ wait_tree wait) }
{
    match wait {
        Wait::Interpreter => json!(in alloc; {"kind": "gil"}),
        Wait::Lock { address } => object_value(alloc, "lock", address),
        Wait::Queue { address } => object_value(alloc, "queue", address),
        Wait::Rlock { address, owner } => rlock_value(alloc, address, owner),
    }
}

/// The same, or null.
fn known_value(alloc: Global, wait: Option<Wait>) -> Result<Value, AllocError>
    ensures { IfOk result (λ value. view value ≡ known_tree wait) }
{
    match wait {
        Some(wait) => wait_value(alloc, wait),
        None => Ok(Value::Null),
    }
}

fn thread_value(alloc: Global, thread: &ThreadWait) -> Result<Value, AllocError>
    ensures { IfOk result (λ value. view value ≡ thread_tree thread.now) }
{
    let wait = known_value(alloc, thread.wait)?;
    json!(in alloc; {
        "for": wait,
        "thread_id": thread.thread_id
    })
}

fn threads_value(alloc: Global, threads: &[ThreadWait]) -> Result<Value, AllocError>
    ensures { IfOk result (λ value. view value ≡ threads_tree threads.now) }
{
    let mut values = Vec::new(alloc);
    for thread in threads {
        values.push(thread_value(alloc, thread)?)?;
    }
    Ok(Value::Array(values))
}

fn interpreter_value(alloc: Global, waits: &InterpreterWaits) -> Result<Value, AllocError>
    ensures { IfOk result (λ value. view value ≡ interpreter_tree waits.now) }
{
    let address = address_text(alloc, waits.interpreter)?;
    let threads = threads_value(alloc, &waits.threads)?;
    json!(in alloc; {
        "interpreter": address.as_str(),
        "threads": threads
    })
}

/// What threads wait for as a JSON value: an array of an object for each interpreter, in order, with its address and
/// its threads, each an object with its `thread_id` and, under `for`, null where it isn't known what it waits for, or
/// an object whose `kind` is `gil`, or `lock`, `rlock` or `queue`, with the `address` of that object, and of an `rlock`
/// the id of its `owner`, or null.
///
/// The keys of an object stand in the order of their bytes. The one error is out of memory.
pub fn waits_value(alloc: Global, waits: &[InterpreterWaits]) -> Result<Value, AllocError>
    ensures { IfOk result (λ value. view value ≡ waits_tree waits.now) }
{
    let mut values = Vec::new(alloc);
    for interpreter in waits {
        values.push(interpreter_value(alloc, interpreter)?)?;
    }
    Ok(Value::Array(values))
}
