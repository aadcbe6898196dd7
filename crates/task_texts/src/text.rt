//! The lines of tasks.
ghost use Rattle.std.specs.Prelude.{◌≡◌, ◌++◌, OnOk, map, string_bytes};
ghost use Rattle.py_tasks.specs.Shown.{entry_shown, task_shown, tasks_shown};
ghost use Rattle.task_texts.specs.Text.{all_tasks_text, by_condition, class_text, comma_text, count_text};
ghost use Rattle.task_texts.specs.Text.{counts_text, done_text, each_text, entries_text, entry_text, framework_text};
ghost use Rattle.task_texts.specs.Text.{curio_line, frameworks_text, greenlet_line, has_lines, known_text};
ghost use Rattle.task_texts.specs.Text.{interpreter_text, is_titled, lost_text, none_is_new, none_is_ready};
ghost use Rattle.task_texts.specs.Text.{none_text, other_lead, other_text, place_text, read_text, shown_text, summary_text};
ghost use Rattle.task_texts.specs.Text.{task_text, tasks_text, title_text, trio_line};

use crate::counts::{Counts, counts_of};
use crate::heads::{push_fault, push_head};
use crate::members::{push_chain, push_name};
use crate::told::InterpreterTasks;
use elf64_core::Text;
use py_tasks::{Condition, Entry, Frameworks, Task, TasksFault, TasksOf, condition_of};
use std::alloc::{AllocError, Global};

/// What stands in front of a number, but of the first one.
fn push_comma(text: &mut String, is_first: bool) -> Result<(), AllocError>
    ensures { OnOk result (string_bytes text.new ≡ string_bytes text.old ++ comma_text is_first) }
{
    if is_first {
        return Ok(());
    }
    text.push_str(", ")
}

/// How many tasks do something, with its word, where there are any.
fn push_count(
    text: &mut String,
    is_first: bool,
    number: usize,
    word: &str,
) -> Result<(), AllocError>
    ensures { OnOk result (string_bytes text.new ≡ string_bytes text.old ++ count_text is_first number word.now) }
{
    if number == 0 {
        return Ok(());
    }
    push_comma(text, is_first)?;
    write!(text, "{number}")?;
    text.push_str(word)
}

/// That there is no task that is not done.
fn push_none(text: &mut String, pending: usize) -> Result<(), AllocError>
    ensures { OnOk result (string_bytes text.new ≡ string_bytes text.old ++ none_text pending) }
{
    if pending == 0 {
        return text.push_str("none that isn't done");
    }
    Ok(())
}

/// How many tasks are done, where there are any.
fn push_done(text: &mut String, done: usize) -> Result<(), AllocError>
    ensures { OnOk result (string_bytes text.new ≡ string_bytes text.old ++ done_text done) }
{
    if done == 0 {
        return Ok(());
    }
    if done == 1 {
        return text.push_str("; 1 finished isn't shown");
    }
    write!(text, "; {done} finished aren't shown")
}

/// Whether no task runs or is ready.
fn none_is_ready(counts: Counts) -> bool
    ensures { result ≡ none_is_ready counts }
{
    counts.running == 0 && counts.ready == 0
}

/// Whether no task runs, is ready or has not started.
fn none_is_new(counts: Counts) -> bool
    ensures { result ≡ none_is_new counts }
{
    none_is_ready(counts) && counts.not_started == 0
}

/// How many tasks run, are ready, have not started, and wait.
fn push_counts(text: &mut String, counts: Counts) -> Result<(), AllocError>
    ensures { OnOk result (string_bytes text.new ≡ string_bytes text.old ++ counts_text counts) }
{
    push_count(text, true, counts.running, " running")?;
    push_count(text, counts.running == 0, counts.ready, " ready")?;
    push_count(
        text,
        none_is_ready(counts),
        counts.not_started,
        " not started",
    )?;
    push_count(text, none_is_new(counts), counts.waiting, " waiting")
}

/// The line that says how many tasks there are.
fn push_summary(text: &mut String, counts: Counts) -> Result<(), AllocError>
    ensures { OnOk result (string_bytes text.new ≡ string_bytes text.old ++ summary_text counts) }
{
    let pending = counts.pending;
    write!(text, "Tasks {pending} (")?;
    push_counts(text, counts)?;
    push_none(text, pending)?;
    push_done(text, counts.done)?;
    text.push_str(")\n")
}

/// The lines of a task that is not done.
fn push_shown(alloc: Global, text: &mut String, task: &Task) -> Result<(), AllocError>
    ensures { OnOk result (string_bytes text.new ≡ string_bytes text.old ++ shown_text (task_shown task.now)) }
{
    push_head(alloc, text, task)?;
    push_chain(alloc, text, &task.chain)
}

/// The lines of a task, by what it does; none of one that is done.
fn push_by(
    alloc: Global,
    text: &mut String,
    condition: Condition,
    task: &Task,
) -> Result<(), AllocError>
    ensures { OnOk result (string_bytes text.new
        ≡ string_bytes text.old ++ by_condition condition (task_shown task.now)) }
{
    match condition {
        Condition::Done => Ok(()),
        Condition::Running => push_shown(alloc, text, task),
        Condition::NotStarted => push_shown(alloc, text, task),
        Condition::Ready => push_shown(alloc, text, task),
        Condition::Waiting => push_shown(alloc, text, task),
    }
}

fn push_task(alloc: Global, text: &mut String, task: &Task) -> Result<(), AllocError>
    ensures { OnOk result (string_bytes text.new ≡ string_bytes text.old ++ task_text (task_shown task.now)) }
{
    push_by(alloc, text, condition_of(task), task)
}

/// The line of a task of which something is not in memory.
fn push_lost(text: &mut String, address: u64, fault: TasksFault) -> Result<(), AllocError>
    ensures { OnOk result (string_bytes text.new ≡ string_bytes text.old ++ lost_text address fault) }
{
    write!(text, "Task 0x{address:x} is not told: ")?;
    push_fault(text, fault)?;
    text.push_str("\n")
}

/// What stands in front of an object that is no task.
#[tactic(auto, unfolding(crate::specs::Text::other_lead))]
fn push_other_lead(text: &mut String) -> Result<(), AllocError>
    ensures { OnOk result (string_bytes text.new ≡ string_bytes text.old ++ other_lead) }
{
    text.push_str("Registered, and no task: <")
}

/// The same, and the name of its type.
fn push_class(alloc: Global, text: &mut String, class: &Option<Text>) -> Result<(), AllocError>
    ensures { OnOk result (string_bytes text.new ≡ string_bytes text.old ++ class_text class.now) }
{
    push_other_lead(text)?;
    push_name(alloc, text, class)
}

/// Where it stands.
fn push_place(text: &mut String, address: u64) -> Result<(), AllocError>
    ensures { OnOk result (string_bytes text.new ≡ string_bytes text.old ++ place_text address) }
{
    write!(text, " at 0x{address:x}>\n")
}

/// The line of an object that is no task.
fn push_other(
    alloc: Global,
    text: &mut String,
    address: u64,
    class: &Option<Text>,
) -> Result<(), AllocError>
    ensures { OnOk result (string_bytes text.new ≡ string_bytes text.old ++ other_text address class.now) }
{
    push_class(alloc, text, class)?;
    push_place(text, address)
}

/// The lines of a registered object.
fn push_entry(alloc: Global, text: &mut String, entry: &Entry) -> Result<(), AllocError>
    ensures { OnOk result (string_bytes text.new ≡ string_bytes text.old ++ entry_text (entry_shown entry.now)) }
{
    match entry {
        Entry::Task(task) => push_task(alloc, text, task),
        Entry::Lost { address, fault } => push_lost(text, *address, *fault),
        Entry::Other { address, class } => push_other(alloc, text, *address, class),
    }
}

/// The lines of registered objects, in order.
fn push_entries(alloc: Global, text: &mut String, entries: &[Entry]) -> Result<(), AllocError>
    ensures { OnOk result (string_bytes text.new
        ≡ string_bytes text.old ++ entries_text (map entry_shown entries.now)) }
{
    for entry in entries {
        push_entry(alloc, text, entry)?;
    }
    Ok(())
}

/// The lines of an interpreter's tasks, where they were read.
fn push_read(alloc: Global, text: &mut String, entries: &[Entry]) -> Result<(), AllocError>
    ensures { OnOk result (string_bytes text.new
        ≡ string_bytes text.old ++ read_text (map entry_shown entries.now)) }
{
    push_summary(text, counts_of(entries))?;
    push_entries(alloc, text, entries)
}

/// The lines of an interpreter's tasks; none where it has no asyncio.
fn push_own(alloc: Global, text: &mut String, tasks: &TasksOf) -> Result<(), AllocError>
    ensures { OnOk result (string_bytes text.new ≡ string_bytes text.old ++ tasks_text (tasks_shown tasks.now)) }
{
    match tasks {
        TasksOf::Without => Ok(()),
        TasksOf::NotDescribed => text.push_str(
            "Tasks are not told: not described for this version\n",
        ),
        TasksOf::Resized { size } => {
            write!(
                text,
                "Tasks are not told: they have {size} bytes, which is not described\n"
            )
        }
        TasksOf::Lost(fault) => {
            text.push_str("Tasks are not told: ")?;
            push_fault(text, *fault)?;
            text.push_str("\n")
        }
        TasksOf::Read(entries) => push_read(alloc, text, entries),
    }
}

/// Whether an interpreter's tasks have lines.
fn has_lines(tasks: &TasksOf) -> bool
    ensures { result ≡ has_lines (tasks_shown tasks.now) }
{
    match tasks {
        TasksOf::Without => false,
        TasksOf::NotDescribed => true,
        TasksOf::Resized { .. } => true,
        TasksOf::Lost(_) => true,
        TasksOf::Read(_) => true,
    }
}

/// Whose tasks they are, where there are several interpreters.
fn push_title(text: &mut String, is_titled: bool, interpreter: u64) -> Result<(), AllocError>
    ensures { OnOk result (string_bytes text.new ≡ string_bytes text.old ++ title_text is_titled interpreter) }
{
    if is_titled {
        return write!(text, "Interpreter 0x{interpreter:x}: ");
    }
    Ok(())
}

/// The line of a framework, where the interpreter has it.
#[tactic(auto, unfolding(crate::specs::Text::framework_text))]
fn push_framework(
    text: &mut String,
    are_several: bool,
    interpreter: u64,
    has: bool,
    line: &str,
) -> Result<(), AllocError>
    ensures { OnOk result (string_bytes text.new
        ≡ string_bytes text.old ++ framework_text are_several interpreter has line.now) }
{
    if !has {
        return Ok(());
    }
    push_title(text, are_several, interpreter)?;
    text.push_str(line)
}

/// That the tasks of `curio` are not read.
#[tactic(auto, unfolding(crate::specs::Text::curio_line))]
fn push_curio(
    text: &mut String,
    are_several: bool,
    interpreter: u64,
    has: bool,
) -> Result<(), AllocError>
    ensures { OnOk result (string_bytes text.new
        ≡ string_bytes text.old ++ framework_text are_several interpreter has curio_line) }
{
    push_framework(
        text,
        are_several,
        interpreter,
        has,
        "Tasks of curio are not read\n",
    )
}

/// That the tasks of `greenlet` are not read.
#[tactic(auto, unfolding(crate::specs::Text::greenlet_line))]
fn push_greenlet(
    text: &mut String,
    are_several: bool,
    interpreter: u64,
    has: bool,
) -> Result<(), AllocError>
    ensures { OnOk result (string_bytes text.new
        ≡ string_bytes text.old ++ framework_text are_several interpreter has greenlet_line) }
{
    push_framework(
        text,
        are_several,
        interpreter,
        has,
        "Greenlets are not read\n",
    )
}

/// That the tasks of `trio` are not read.
#[tactic(auto, unfolding(crate::specs::Text::trio_line))]
fn push_trio(
    text: &mut String,
    are_several: bool,
    interpreter: u64,
    has: bool,
) -> Result<(), AllocError>
    ensures { OnOk result (string_bytes text.new
        ≡ string_bytes text.old ++ framework_text are_several interpreter has trio_line) }
{
    push_framework(
        text,
        are_several,
        interpreter,
        has,
        "Tasks of trio are not read\n",
    )
}

/// The lines of the frameworks that an interpreter has.
fn push_known(
    text: &mut String,
    are_several: bool,
    interpreter: u64,
    frameworks: Frameworks,
) -> Result<(), AllocError>
    ensures { OnOk result (string_bytes text.new
        ≡ string_bytes text.old ++ known_text are_several interpreter frameworks) }
{
    push_curio(text, are_several, interpreter, frameworks.curio)?;
    push_greenlet(text, are_several, interpreter, frameworks.greenlet)?;
    push_trio(text, are_several, interpreter, frameworks.trio)
}

/// The same, where its modules can be read.
fn push_frameworks(
    text: &mut String,
    are_several: bool,
    interpreter: u64,
    frameworks: Option<Frameworks>,
) -> Result<(), AllocError>
    ensures { OnOk result (string_bytes text.new
        ≡ string_bytes text.old ++ frameworks_text are_several interpreter frameworks) }
{
    match frameworks {
        Some(frameworks) => push_known(text, are_several, interpreter, frameworks),
        None => Ok(()),
    }
}

/// Whether whose they are is told.
fn is_titled(are_several: bool, tasks: &TasksOf) -> bool
    ensures { result ≡ is_titled are_several (tasks_shown tasks.now) }
{
    are_several && has_lines(tasks)
}

fn push_interpreter(
    alloc: Global,
    text: &mut String,
    are_several: bool,
    told: &InterpreterTasks,
) -> Result<(), AllocError>
    ensures { OnOk result (string_bytes text.new ≡ string_bytes text.old ++ interpreter_text are_several told.now) }
{
    push_title(text, is_titled(are_several, &told.tasks), told.interpreter)?;
    push_own(alloc, text, &told.tasks)?;
    push_frameworks(text, are_several, told.interpreter, told.frameworks)
}

/// Those of each interpreter, in order.
fn push_each(
    alloc: Global,
    text: &mut String,
    are_several: bool,
    tasks: &[InterpreterTasks],
) -> Result<(), AllocError>
    ensures { OnOk result (string_bytes text.new ≡ string_bytes text.old ++ each_text are_several tasks.now) }
{
    for interpreter in tasks {
        push_interpreter(alloc, text, are_several, interpreter)?;
    }
    Ok(())
}

/// Appends the lines of the tasks of some interpreters, in order; none of one that has no asyncio. Where there are several
/// interpreters the first line of each begins with its address.
///
/// That line says how many tasks there are that are not done, how many of these run, are ready, have not started and
/// wait, and how many are done. Of each that is not done there is a line with its name or address and what it does, one
/// that says how its chain breaks off, where it does, and one for each frame of its chain, the innermost first. A task of
/// which something is not in memory has one line that says so, and so has an object that is registered and no task. Where
/// no tasks are told, one line says why. Of each other framework that an interpreter has one line says that its tasks are
/// not read. The one error is out of memory.
pub fn push_tasks(
    alloc: Global,
    text: &mut String,
    tasks: &[InterpreterTasks],
) -> Result<(), AllocError>
    ensures { OnOk result (string_bytes text.new ≡ string_bytes text.old ++ all_tasks_text tasks.now) }
{
    push_each(alloc, text, tasks.len() > 1, tasks)
}
