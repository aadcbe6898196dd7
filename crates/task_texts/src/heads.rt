//! The lines that begin a task.
ghost use Rattle.std.specs.Prelude.{◌≡◌, ◌++◌, OnOk, string_bytes};
ghost use Rattle.py_tasks.specs.Shown.{task_shown};
ghost use Rattle.task_texts.specs.Heads.{cancel_text, condition_text, does_text, fault_text, head_text};
ghost use Rattle.task_texts.specs.Heads.{own_name_text, quoted_text, thread_text, waiter_text};

use crate::members::{push_missing, push_name};
use elf64_core::Text;
use py_tasks::{Condition, Task, TaskName, TasksFault, Waiter, condition_of};
use salvage_texts::push_escaped;
use std::alloc::{AllocError, Global};

/// A name in quotes.
fn push_quoted(alloc: Global, text: &mut String, name: &Text) -> Result<(), AllocError>
    ensures { OnOk result (string_bytes text.new ≡ string_bytes text.old ++ quoted_text name.now) }
{
    text.push_str("\"")?;
    push_escaped(alloc, text, true, name)?;
    text.push_str("\"")
}

/// A task's name in quotes, or its address.
fn push_own_name(
    alloc: Global,
    text: &mut String,
    name: &Option<TaskName>,
    address: u64,
) -> Result<(), AllocError>
    ensures { OnOk result (string_bytes text.new ≡ string_bytes text.old ++ own_name_text name.now address) }
{
    match name {
        Some(TaskName::Text(name)) => push_quoted(alloc, text, name),
        Some(TaskName::Number(number)) => write!(text, "\"Task-{number}\""),
        None => write!(text, "0x{address:x}"),
    }
}

/// The thread in which a task runs.
fn push_thread(text: &mut String, thread_id: Option<u64>) -> Result<(), AllocError>
    ensures { OnOk result (string_bytes text.new ≡ string_bytes text.old ++ thread_text thread_id) }
{
    match thread_id {
        Some(id) => write!(text, "running in thread 0x{id:X}"),
        None => text.push_str("running"),
    }
}

/// What a task waits for.
fn push_waiter(alloc: Global, text: &mut String, waiter: &Option<Waiter>) -> Result<(), AllocError>
    ensures { OnOk result (string_bytes text.new ≡ string_bytes text.old ++ waiter_text waiter.now) }
{
    match waiter {
        Some(waiter) => {
            text.push_str("waits for ")?;
            push_name(alloc, text, &waiter.class)
        }
        None => text.push_str("ready"),
    }
}

/// What a task does, with the thread in which it runs, or what it waits for.
fn push_does(
    alloc: Global,
    text: &mut String,
    condition: Condition,
    thread_id: Option<u64>,
    waiter: &Option<Waiter>,
) -> Result<(), AllocError>
    ensures { OnOk result (string_bytes text.new
        ≡ string_bytes text.old ++ does_text condition thread_id waiter.now) }
{
    match condition {
        Condition::Done => text.push_str("done"),
        Condition::Running => push_thread(text, thread_id),
        Condition::NotStarted => text.push_str("not started"),
        Condition::Ready => text.push_str("ready"),
        Condition::Waiting => push_waiter(alloc, text, waiter),
    }
}

/// What a task does.
fn push_condition(alloc: Global, text: &mut String, task: &Task) -> Result<(), AllocError>
    ensures { OnOk result (string_bytes text.new ≡ string_bytes text.old ++ condition_text (task_shown task.now)) }
{
    push_does(
        alloc,
        text,
        condition_of(task),
        task.thread_id,
        &task.waiter,
    )
}

/// Whether a task is to be cancelled.
fn push_cancel(text: &mut String, must_cancel: bool) -> Result<(), AllocError>
    ensures { OnOk result (string_bytes text.new ≡ string_bytes text.old ++ cancel_text must_cancel) }
{
    if must_cancel {
        return text.push_str(", to be cancelled");
    }
    Ok(())
}

/// The line that begins a task.
pub(crate) fn push_head(alloc: Global, text: &mut String, task: &Task) -> Result<(), AllocError>
    ensures { OnOk result (string_bytes text.new ≡ string_bytes text.old ++ head_text (task_shown task.now)) }
{
    text.push_str("Task ")?;
    push_own_name(alloc, text, &task.name, task.address)?;
    text.push_str(" (")?;
    push_condition(alloc, text, task)?;
    push_cancel(text, task.must_cancel)?;
    text.push_str(")\n")
}

/// Why something is not told.
pub(crate) fn push_fault(text: &mut String, fault: TasksFault) -> Result<(), AllocError>
    ensures { OnOk result (string_bytes text.new ≡ string_bytes text.old ++ fault_text fault) }
{
    match fault {
        TasksFault::Unreadable { addr, len } => push_missing(text, addr, len),
        TasksFault::TooMany => text.push_str("there are more than are looked at"),
        TasksFault::Malformed => text.push_str("something on the way is not what it has to be"),
    }
}
