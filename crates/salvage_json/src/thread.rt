//! Threads.
ghost use Rattle.std.specs.Prelude.{◌≡◌, ◌++◌, IfOk, OnOk, map};
ghost use Rattle.serde_json.specs.View.{view};
ghost use Rattle.thread_names.specs.Lookup.{name_of};
ghost use Rattle.salvage_json.specs.Threads.{frames_tree, id_tree, name_tree, ordered_trees};
ghost use Rattle.salvage_json.specs.Threads.{reversed_trees, thread_tree, threads_tree};

use crate::kind::{address_value, end_value};
use crate::member::standings_value;
use py_fronts::{Crash, FramesFront, LockState, ThreadFront, crashed_at, holds_lock, is_crashed};
use repr_json::ShownValues;
use serde_json::{Value, json};
use std::alloc::{AllocError, Global};
use thread_names::{ThreadName, name_of};

/// An id, or null.
fn id_value(alloc: Global, id: Option<u64>) -> Result<Value, AllocError>
    ensures { IfOk result (λ value. view value ≡ id_tree id) }
{
    match id {
        Some(id) => json!(in alloc; id),
        None => Ok(Value::Null),
    }
}

/// The name that is told of a thread, or null.
fn name_value(alloc: Global, names: &[ThreadName], thread_id: u64) -> Result<Value, AllocError>
    ensures { IfOk result (λ value. view value ≡ name_tree (name_of names.now thread_id)) }
{
    match name_of(names, thread_id) {
        Some(name) => Value::try_from_str(alloc, name.as_str()),
        None => Ok(Value::Null),
    }
}

fn frames_value(
    alloc: Global,
    kept: &ShownValues,
    frames: &FramesFront,
) -> Result<Value, AllocError>
    ensures { IfOk result (λ value. view value ≡ frames_tree kept.now frames.now) }
{
    let end = end_value(alloc, frames.end)?;
    let first = standings_value(alloc, kept, &frames.first)?;
    let last = standings_value(alloc, kept, &frames.last)?;
    json!(in alloc; {
        "between": frames.between,
        "end": end,
        "first": first,
        "last": last,
        "met": frames.met
    })
}

fn thread_value(
    alloc: Global,
    kept: &ShownValues,
    lock: LockState,
    crash: Option<Crash>,
    names: &[ThreadName],
    thread: &ThreadFront,
) -> Result<Value, AllocError>
    ensures { IfOk result (λ value. view value ≡ thread_tree kept.now lock crash names.now thread.now) }
{
    let address = address_value(alloc, thread.address)?;
    let frames = frames_value(alloc, kept, &thread.frames)?;
    let name = name_value(alloc, names, thread.thread_id)?;
    let os_thread_id = id_value(alloc, thread.os_thread_id)?;
    let crashed = is_crashed(crash, thread);
    let gil = holds_lock(lock, thread);
    json!(in alloc; {
        "address": address,
        "crashed": crashed,
        "frames": frames,
        "gil": gil,
        "name": name,
        "os_thread_id": os_thread_id,
        "thread_id": thread.thread_id
    })
}

/// Adds some threads, from the last to the first.
fn add_reversed(
    alloc: Global,
    values: &mut Vec<Value>,
    kept: &ShownValues,
    lock: LockState,
    crash: Option<Crash>,
    names: &[ThreadName],
    threads: &[ThreadFront],
) -> Result<(), AllocError>
    ensures { OnOk result (map view values.new.items
        ≡ map view values.old.items ++ reversed_trees kept.now lock crash names.now threads.now) }
{
    for thread in threads.iter().rev() {
        values.push(thread_value(alloc, kept, lock, crash, names, thread)?)?;
    }
    Ok(())
}

/// Adds an interpreter's threads: the first one that got the signal, and then the others, from the last to the first.
fn add_threads(
    alloc: Global,
    values: &mut Vec<Value>,
    kept: &ShownValues,
    lock: LockState,
    crash: Option<Crash>,
    names: &[ThreadName],
    threads: &[ThreadFront],
) -> Result<(), AllocError>
    ensures { OnOk result (map view values.new.items
        ≡ map view values.old.items ++ ordered_trees kept.now lock crash names.now threads.now) }
{
    let Some(index) = crashed_at(crash, threads) else {
        return add_reversed(alloc, values, kept, lock, crash, names, threads);
    };
    add_reversed(
        alloc,
        values,
        kept,
        lock,
        crash,
        names,
        &threads[index..index + 1],
    )?;
    add_reversed(
        alloc,
        values,
        kept,
        lock,
        crash,
        names,
        &threads[index + 1..],
    )?;
    add_reversed(alloc, values, kept, lock, crash, names, &threads[..index])
}

/// An interpreter's threads.
pub(crate) fn threads_value(
    alloc: Global,
    kept: &ShownValues,
    lock: LockState,
    crash: Option<Crash>,
    names: &[ThreadName],
    threads: &[ThreadFront],
) -> Result<Value, AllocError>
    ensures { IfOk result (λ value. view value ≡ threads_tree kept.now lock crash names.now threads.now) }
{
    let mut values = Vec::new(alloc);
    add_threads(alloc, &mut values, kept, lock, crash, names, threads)?;
    Ok(Value::Array(values))
}
