//! Tasks, as a JSON value.
ghost use Rattle.std.specs.Prelude.{◌≡◌, IfOk, map, string_bytes};
ghost use Rattle.serde_json.specs.View.{members_view, view};
ghost use Rattle.py_tasks.specs.Shown.{chain_shown, entry_shown, task_shown, tasks_shown};
ghost use Rattle.task_texts.specs.Trees.{address_text, address_tree, all_tasks_tree, chain_tree, end_at, end_tree};
ghost use Rattle.task_texts.specs.Trees.{entries_tree, entry_tree, entry_trees, fault_tree, first_members};
ghost use Rattle.task_texts.specs.Trees.{frame_tree, frameworks_tree, interpreter_tree, kind_tree, lost_tree, member_tree};
ghost use Rattle.task_texts.specs.Trees.{members_tree, missing_tree, name_tree, numbered_tree, other_tree};
ghost use Rattle.task_texts.specs.Trees.{own_frame_tree, resized_tree, state_tree, stop_tree, task_tree, tasks_tree};
ghost use Rattle.task_texts.specs.Trees.{text_tree, thread_tree, waiter_tree, word_tree};

use crate::told::InterpreterTasks;
use crate::words::{condition_word, kind_word, state_word};
use coroutine_frames::CoroutineFrame;
use elf64_core::Text;
use py_coroutines::{AwaitEnd, Stop};
use py_fronts::shown_line;
use py_tasks::{
    Chain, Entry, Frameworks, Member, Task, TaskName, TaskState, TasksFault, TasksOf, Waiter,
    condition_of,
};
use serde_json::{Map, Value, json, put};
use std::alloc::{AllocError, Global};

/// An address: `0x` and lower-case hexadecimal digits.
fn address_text(alloc: Global, address: u64) -> Result<String, AllocError>
    ensures { IfOk result (λ text. string_bytes text ≡ address_text address) }
{
    format!(in alloc; "0x{address:x}")
}

/// A text, or null.
fn text_value(alloc: Global, text: &Option<Text>) -> Result<Value, AllocError>
    ensures { IfOk result (λ value. view value ≡ text_tree text.now) }
{
    match text {
        Some(text) => Value::try_from_str(alloc, text.as_str()),
        None => Ok(Value::Null),
    }
}

/// The name of a task that was given none: by its number.
fn numbered_value(alloc: Global, number: u64) -> Result<Value, AllocError>
    ensures { IfOk result (λ value. view value ≡ numbered_tree number) }
{
    let name = format!(in alloc; "Task-{number}")?;
    Value::try_from_str(alloc, name.as_str())
}

/// The name of a task.
fn name_value(alloc: Global, name: &Option<TaskName>) -> Result<Value, AllocError>
    ensures { IfOk result (λ value. view value ≡ name_tree name.now) }
{
    match name {
        Some(TaskName::Text(name)) => Value::try_from_str(alloc, name.as_str()),
        Some(TaskName::Number(number)) => numbered_value(alloc, *number),
        None => Ok(Value::Null),
    }
}

/// A state, or null.
fn state_value(alloc: Global, state: Option<TaskState>) -> Result<Value, AllocError>
    ensures { IfOk result (λ value. view value ≡ state_tree state) }
{
    match state {
        Some(state) => Value::try_from_str(alloc, state_word(state)),
        None => Ok(Value::Null),
    }
}

/// What a task waits for, or null.
fn waiter_value(alloc: Global, waiter: &Option<Waiter>) -> Result<Value, AllocError>
    ensures { IfOk result (λ value. view value ≡ waiter_tree waiter.now) }
{
    match waiter {
        Some(waiter) => {
            let address = address_text(alloc, waiter.address)?;
            let state = state_value(alloc, waiter.state)?;
            let class = text_value(alloc, &waiter.class)?;
            json!(in alloc; {
                "address": address.as_str(),
                "state": state,
                "type": class
            })
        }
        None => Ok(Value::Null),
    }
}

fn frame_value(alloc: Global, frame: &CoroutineFrame) -> Result<Value, AllocError>
    ensures { IfOk result (λ value. view value ≡ frame_tree frame.now) }
{
    let filename = text_value(alloc, &frame.filename)?;
    let name = text_value(alloc, &frame.function)?;
    json!(in alloc; {
        "filename": filename,
        "line": shown_line(frame.line),
        "name": name
    })
}

/// A frame, or null.
fn own_frame_value(alloc: Global, frame: &Option<CoroutineFrame>) -> Result<Value, AllocError>
    ensures { IfOk result (λ value. view value ≡ own_frame_tree frame.now) }
{
    match frame {
        Some(frame) => frame_value(alloc, frame),
        None => Ok(Value::Null),
    }
}

fn member_value(alloc: Global, member: &Member) -> Result<Value, AllocError>
    ensures { IfOk result (λ value. view value ≡ member_tree member.now) }
{
    let address = address_text(alloc, member.address)?;
    let frame = own_frame_value(alloc, &member.frame)?;
    json!(in alloc; {
        "address": address.as_str(),
        "frame": frame,
        "kind": kind_word(member.kind)
    })
}

fn members_value(alloc: Global, members: &[Member]) -> Result<Value, AllocError>
    ensures { IfOk result (λ value. view value ≡ members_tree members.now) }
{
    let mut values = Vec::new(alloc);
    for member in members {
        values.push(member_value(alloc, member)?)?;
    }
    Ok(Value::Array(values))
}

/// An end with an address.
fn end_at(alloc: Global, kind: &str, address: u64) -> Result<Value, AllocError>
    ensures { IfOk result (λ value. view value ≡ end_at kind.now address) }
{
    let address = address_text(alloc, address)?;
    json!(in alloc; {
        "address": address.as_str(),
        "kind": kind
    })
}

/// An end without one.
fn kind_value(alloc: Global, kind: &str) -> Result<Value, AllocError>
    ensures { IfOk result (λ value. view value ≡ kind_tree kind.now) }
{
    json!(in alloc; {"kind": kind})
}

/// A range that is not in memory.
fn missing_value(alloc: Global, addr: u64, len: u64) -> Result<Value, AllocError>
    ensures { IfOk result (λ value. view value ≡ missing_tree addr len) }
{
    let address = address_text(alloc, addr)?;
    json!(in alloc; {
        "address": address.as_str(),
        "kind": "unreadable",
        "length": len
    })
}

fn stop_value(alloc: Global, stop: Stop) -> Result<Value, AllocError>
    ensures { IfOk result (λ value. view value ≡ stop_tree stop) }
{
    match stop {
        Stop::Future { addr } => end_at(alloc, "future", addr),
        Stop::Yielding => kind_value(alloc, "yield"),
        Stop::Created => kind_value(alloc, "created"),
        Stop::Running => kind_value(alloc, "running"),
        Stop::Finished => kind_value(alloc, "finished"),
        Stop::NoTop => kind_value(alloc, "not stored"),
        Stop::Other { addr, .. } => end_at(alloc, "object", addr),
        Stop::Unreadable { addr, len } => missing_value(alloc, addr, len),
    }
}

fn end_value(alloc: Global, end: AwaitEnd) -> Result<Value, AllocError>
    ensures { IfOk result (λ value. view value ≡ end_tree end) }
{
    match end {
        AwaitEnd::Stops(stop) => stop_value(alloc, stop),
        AwaitEnd::Cycle { addr } => end_at(alloc, "cycle", addr),
        AwaitEnd::Cut { addr } => end_at(alloc, "cut", addr),
    }
}

fn chain_value(alloc: Global, chain: &Chain) -> Result<Value, AllocError>
    ensures { IfOk result (λ value. view value ≡ chain_tree (chain_shown chain.now)) }
{
    let end = end_value(alloc, chain.end)?;
    let members = members_value(alloc, &chain.members)?;
    json!(in alloc; {
        "end": end,
        "members": members
    })
}

/// A thread's id, or null.
fn thread_value(thread_id: Option<u64>) -> Value
    ensures { view result ≡ thread_tree thread_id }
{
    match thread_id {
        Some(id) => Value::from(id),
        None => Value::Null,
    }
}

/// An address as a text.
fn address_value(alloc: Global, address: u64) -> Result<Value, AllocError>
    ensures { IfOk result (λ value. view value ≡ address_tree address) }
{
    let text = address_text(alloc, address)?;
    Ok(Value::String(text))
}

fn word_value(alloc: Global, word: &str) -> Result<Value, AllocError>
    ensures { IfOk result (λ value. view value ≡ word_tree word.now) }
{
    Value::try_from_str(alloc, word)
}

/// The members of a task whose keys stand first in the order of their bytes.
fn first_members(alloc: Global, task: &Task) -> Result<Map<String, Value>, AllocError>
    ensures { IfOk result (λ map. members_view map.entries ≡ first_members (task_shown task.now)) }
{
    let address = address_value(alloc, task.address)?;
    let chain = chain_value(alloc, &task.chain)?;
    let condition = word_value(alloc, condition_word(condition_of(task)))?;
    let kind = word_value(alloc, "task")?;
    let event_loop = address_value(alloc, task.event_loop)?;
    let mut map = Map::new(alloc);
    put(&mut map, alloc, "address", address)?;
    put(&mut map, alloc, "chain", chain)?;
    put(&mut map, alloc, "condition", condition)?;
    put(&mut map, alloc, "kind", kind)?;
    put(&mut map, alloc, "loop", event_loop)?;
    Ok(map)
}

fn task_value(alloc: Global, task: &Task) -> Result<Value, AllocError>
    ensures { IfOk result (λ value. view value ≡ task_tree (task_shown task.now)) }
{
    let mut map = first_members(alloc, task)?;
    let name = name_value(alloc, &task.name)?;
    let state = word_value(alloc, state_word(task.state))?;
    let thread_id = thread_value(task.thread_id);
    let waiter = waiter_value(alloc, &task.waiter)?;
    put(
        &mut map,
        alloc,
        "must_cancel",
        Value::Bool(task.must_cancel),
    )?;
    put(&mut map, alloc, "name", name)?;
    put(&mut map, alloc, "state", state)?;
    put(&mut map, alloc, "thread_id", thread_id)?;
    put(&mut map, alloc, "waiter", waiter)?;
    Ok(Value::Object(map))
}

fn fault_value(alloc: Global, fault: TasksFault) -> Result<Value, AllocError>
    ensures { IfOk result (λ value. view value ≡ fault_tree fault) }
{
    match fault {
        TasksFault::Unreadable { addr, len } => missing_value(alloc, addr, len),
        TasksFault::TooMany => kind_value(alloc, "too many"),
        TasksFault::Malformed => kind_value(alloc, "malformed"),
    }
}

fn lost_value(alloc: Global, address: u64, fault: TasksFault) -> Result<Value, AllocError>
    ensures { IfOk result (λ value. view value ≡ lost_tree address fault) }
{
    let address = address_text(alloc, address)?;
    let fault = fault_value(alloc, fault)?;
    json!(in alloc; {
        "address": address.as_str(),
        "fault": fault,
        "kind": "lost"
    })
}

fn other_value(alloc: Global, address: u64, class: &Option<Text>) -> Result<Value, AllocError>
    ensures { IfOk result (λ value. view value ≡ other_tree address class.now) }
{
    let address = address_text(alloc, address)?;
    let class = text_value(alloc, class)?;
    json!(in alloc; {
        "address": address.as_str(),
        "kind": "other",
        "type": class
    })
}

fn entry_value(alloc: Global, entry: &Entry) -> Result<Value, AllocError>
    ensures { IfOk result (λ value. view value ≡ entry_tree (entry_shown entry.now)) }
{
    match entry {
        Entry::Task(task) => task_value(alloc, task),
        Entry::Lost { address, fault } => lost_value(alloc, *address, *fault),
        Entry::Other { address, class } => other_value(alloc, *address, class),
    }
}

fn entry_values(alloc: Global, entries: &[Entry]) -> Result<Value, AllocError>
    ensures { IfOk result (λ value. view value ≡ entry_trees (map entry_shown entries.now)) }
{
    let mut values = Vec::new(alloc);
    for entry in entries {
        values.push(entry_value(alloc, entry)?)?;
    }
    Ok(Value::Array(values))
}

fn entries_value(alloc: Global, entries: &[Entry]) -> Result<Value, AllocError>
    ensures { IfOk result (λ value. view value ≡ entries_tree (map entry_shown entries.now)) }
{
    let entries = entry_values(alloc, entries)?;
    json!(in alloc; {
        "entries": entries,
        "kind": "read"
    })
}

fn resized_value(alloc: Global, size: u64) -> Result<Value, AllocError>
    ensures { IfOk result (λ value. view value ≡ resized_tree size) }
{
    json!(in alloc; {
        "kind": "another size",
        "size": size
    })
}

/// The tasks of an interpreter, or null.
fn own_value(alloc: Global, tasks: &TasksOf) -> Result<Value, AllocError>
    ensures { IfOk result (λ value. view value ≡ tasks_tree (tasks_shown tasks.now)) }
{
    match tasks {
        TasksOf::Without => Ok(Value::Null),
        TasksOf::NotDescribed => kind_value(alloc, "not described"),
        TasksOf::Resized { size } => resized_value(alloc, *size),
        TasksOf::Lost(fault) => fault_value(alloc, *fault),
        TasksOf::Read(entries) => entries_value(alloc, entries),
    }
}

/// Which other frameworks an interpreter has, or null.
fn frameworks_value(alloc: Global, frameworks: Option<Frameworks>) -> Result<Value, AllocError>
    ensures { IfOk result (λ value. view value ≡ frameworks_tree frameworks) }
{
    match frameworks {
        Some(frameworks) => json!(in alloc; {
            "curio": frameworks.curio,
            "greenlet": frameworks.greenlet,
            "trio": frameworks.trio
        }),
        None => Ok(Value::Null),
    }
}

fn interpreter_value(alloc: Global, told: &InterpreterTasks) -> Result<Value, AllocError>
    ensures { IfOk result (λ value. view value ≡ interpreter_tree told.now) }
{
    let frameworks = frameworks_value(alloc, told.frameworks)?;
    let address = address_text(alloc, told.interpreter)?;
    let tasks = own_value(alloc, &told.tasks)?;
    json!(in alloc; {
        "frameworks": frameworks,
        "interpreter": address.as_str(),
        "tasks": tasks
    })
}

/// The tasks as a JSON value: an array of an object for each interpreter, in order, with its address, the other
/// `frameworks` that it has (`curio`, `greenlet`, `trio`; null where its modules can't be read) and its `tasks`: null where
/// it has no asyncio, and else an object whose `kind` says which: `read`, with `entries`; `not described`;
/// `another size`, with the `size` of a task there; or why they are not told: `unreadable`, `too many`, `malformed`.
///
/// An entry is a `task`, one that is `lost`, with its `fault`, or an `other` object. A task has its `address`, its `name`
/// or null, its `state` and its `condition`, whether it `must_cancel`, its `loop`, the `thread_id` of one that runs or
/// null, the `waiter` or null, and its `chain`: the `members`, the innermost first, each with its `kind` and its `frame`
/// or null, and the `end`. The keys of an object stand in the order of their bytes. The one error is out of memory.
pub fn tasks_value(alloc: Global, tasks: &[InterpreterTasks]) -> Result<Value, AllocError>
    ensures { IfOk result (λ value. view value ≡ all_tasks_tree tasks.now) }
{
    let mut values = Vec::new(alloc);
    for interpreter in tasks {
        values.push(interpreter_value(alloc, interpreter)?)?;
    }
    Ok(Value::Array(values))
}
