//! Native stacks as a JSON value.
ghost use Rattle.std.specs.Prelude.{◌≡◌, IfOk, false, map};
ghost use Rattle.serde_json.specs.View.{view};
ghost use Rattle.serde_json.specs.Written.{has_float};
ghost use Rattle.native_frames.specs.Threads.{stack_shown_if};
ghost use Rattle.thread_registers.specs.Trees.{kind_tree, whose_tree};
ghost use Rattle.native_stacks.specs.Stacks.{stacks_shown};
ghost use Rattle.native_stacks.specs.Threads.{thread_shown};
ghost use Rattle.native_stacks.specs.Trees.{part_tree, stacks_tree, thread_tree, threads_tree};

use crate::stacks::{NativeStacks, NativeThread};
use elf64_core::Name;
use native_frames::{ThreadStack, stack_value};
use serde_json::{Value, json};
use std::alloc::{AllocError, Global};
use thread_registers::Whose;

/// A kind without values.
fn kind_value(alloc: Global, kind: &str) -> Result<Value, AllocError>
    ensures { IfOk result (λ value. view value ≡ kind_tree kind.now) }
{
    json!(in alloc; {"kind": kind})
}

/// Whose thread it is.
fn whose_value(alloc: Global, whose: Whose) -> Result<Value, AllocError>
    ensures { IfOk result (λ value. view value ≡ whose_tree whose) }
{
    match whose {
        Whose::Python(found) => json!(in alloc; {
            "kind": "thread",
            "thread_id": found.thread_id
        }),
        Whose::Other => kind_value(alloc, "none"),
        Whose::Untold => kind_value(alloc, "not told"),
    }
}

/// A stack, or null.
fn part_value(
    alloc: Global,
    files: &[Name],
    limit: usize,
    stack: &Option<ThreadStack>,
) -> Result<Value, AllocError>
    ensures { IfOk result (λ value. view value ≡ part_tree files.now limit (stack_shown_if stack.now)) }
{
    match stack {
        Some(stack) => stack_value(alloc, files, limit, stack),
        None => Ok(Value::Null),
    }
}

fn thread_value(
    alloc: Global,
    files: &[Name],
    limit: usize,
    thread: &NativeThread,
) -> Result<Value, AllocError>
    ensures { IfOk result (λ value. view value ≡ thread_tree files.now limit (thread_shown thread.now)) }
{
    let guessed = part_value(alloc, files, limit, &thread.guessed)?;
    let python = whose_value(alloc, thread.whose)?;
    let stack = part_value(alloc, files, limit, &thread.stack)?;
    json!(in alloc; {
        "crashed": thread.is_crashed,
        "guessed": guessed,
        "python": python,
        "stack": stack,
        "system_id": thread.system_id
    })
}

/// Threads, in order.
fn threads_value(
    alloc: Global,
    files: &[Name],
    limit: usize,
    threads: &[NativeThread],
) -> Result<Value, AllocError>
    ensures { IfOk result (λ value. view value ≡ threads_tree files.now limit (map thread_shown threads.now)) }
{
    let mut values = Vec::new(alloc);
    for thread in threads {
        values.push(thread_value(alloc, files, limit, thread)?)?;
    }
    Ok(Value::Array(values))
}

/// Native stacks as a JSON value: an array of objects, one a thread, in order. `crashed`: whether it got the signal;
/// `python`: whose it is, as `thread_registers::threads_value` has it; `stack`: its stack (`stack_value`), or null
/// where its record does not tell where it stands; `guessed`: what follows that by a guess, or null; `system_id`.
///
/// The keys of an object stand in the order of their bytes. The one error is out of memory.
pub fn native_value(alloc: Global, limit: usize, stacks: &NativeStacks) -> Result<Value, AllocError>
    ensures value { IfOk result (λ value. view value ≡ stacks_tree limit (stacks_shown stacks.now)) }
    ensures no_float { has_float (stacks_tree limit (stacks_shown stacks.now)) ≡ false }
{
    threads_value(alloc, &stacks.files, limit, &stacks.threads)
}
