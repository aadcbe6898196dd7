//! The values of these sections in JSON: null in one that isn't asked for.
ghost use Rattle.std.specs.Prelude.{◌≡◌, IfOk};
ghost use Rattle.serde_json.specs.View.{view};
ghost use Rattle.memory_sections.specs.Values.{exceptions_tree_if, heap_tree_if, names_tree_if, native_tree_if};
ghost use Rattle.memory_sections.specs.Values.{paired_tree_if, tasks_tree_if, waits_tree_if};

use crate::told::MemoryTold;
use serde_json::Value;
use std::alloc::{AllocError, Global};

/// The names, by interpreters (`thread_names::names_value`), or null. The one error is out of memory.
pub fn names_value(alloc: Global, told: &MemoryTold) -> Result<Value, AllocError>
    ensures { IfOk result (λ value. view value ≡ names_tree_if told.now.names) }
{
    match &told.names {
        Some(names) => thread_names::names_value(alloc, names),
        None => Ok(Value::Null),
    }
}

/// The tasks, by interpreters (`task_texts::tasks_value`), or null. The one error is out of memory.
pub fn tasks_value(alloc: Global, told: &MemoryTold) -> Result<Value, AllocError>
    ensures { IfOk result (λ value. view value ≡ tasks_tree_if told.now.tasks) }
{
    match &told.tasks {
        Some(tasks) => task_texts::tasks_value(alloc, tasks),
        None => Ok(Value::Null),
    }
}

/// The exceptions of threads, by interpreters (`exception_texts::exceptions_value`), or null. The one error is want of
/// memory.
pub fn exceptions_value(alloc: Global, told: &MemoryTold) -> Result<Value, AllocError>
    ensures { IfOk result (λ value. view value ≡ exceptions_tree_if told.now.exceptions) }
{
    match &told.exceptions {
        Some(exceptions) => exception_texts::exceptions_value(alloc, exceptions),
        None => Ok(Value::Null),
    }
}

/// What the threads wait for, by interpreters (`py_waits::waits_value`), or null. The one error is out of memory.
pub fn waits_value(alloc: Global, told: &MemoryTold) -> Result<Value, AllocError>
    ensures { IfOk result (λ value. view value ≡ waits_tree_if told.now.waits) }
{
    match &told.waits {
        Some(waits) => py_waits::waits_value(alloc, waits),
        None => Ok(Value::Null),
    }
}

/// The native stacks (`native_stacks::native_value`), of each the first and the last `limit` frames; or null. The one
/// error is out of memory.
pub fn native_value(alloc: Global, limit: usize, told: &MemoryTold) -> Result<Value, AllocError>
    ensures { IfOk result (λ value. view value ≡ native_tree_if limit told.now.native) }
{
    match &told.native {
        Some(stacks) => native_stacks::native_value(alloc, limit, stacks),
        None => Ok(Value::Null),
    }
}

/// One stack of the Python frames and the native ones of each thread (`paired_stacks::paired_value`), or null. The one
/// error is out of memory.
pub fn paired_value(alloc: Global, told: &MemoryTold) -> Result<Value, AllocError>
    ensures { IfOk result (λ value. view value ≡ paired_tree_if told.now.stacks) }
{
    match &told.stacks {
        Some(stacks) => paired_stacks::paired_value(alloc, stacks),
        None => Ok(Value::Null),
    }
}

/// What the heaps hold (`heap_texts::heaps_value`), or null. The one error is out of memory.
pub fn heap_value(alloc: Global, told: &MemoryTold) -> Result<Value, AllocError>
    ensures { IfOk result (λ value. view value ≡ heap_tree_if told.now.heap) }
{
    match &told.heap {
        Some(heaps) => heap_texts::heaps_value(alloc, heaps),
        None => Ok(Value::Null),
    }
}
