//! What is shown of a thread: what it raises, and what each of its items handles.
ghost use Rattle.std.specs.Prelude.{◌≡◌, ◌++◌, [], ◌∷◌, IfOk, OnOk, map, position};
ghost use Rattle.exception_texts.specs.Plan.{is_at};
ghost use Rattle.exception_texts.specs.Roots.{each_handled, end_todo, handled_todo, is_exception, is_exception_at};
ghost use Rattle.exception_texts.specs.Roots.{parts_todo, raised_todo, roots_of, show_if, two};

use crate::plan::{Line, Todo, place_of};
use std::alloc::{AllocError, Global};
use thread_exceptions::{Handled, LinkEnd, Met, Raised, ThreadExceptions, Value, What};

/// Two lines.
fn push_two(todo: &mut Vec<Todo>, first: Todo, second: Todo) -> Result<(), AllocError>
    ensures { OnOk result (todo.new.items ≡ todo.old.items ++ two first second) }
{
    todo.push(first)?;
    todo.push(second)?;
    Ok(())
}

/// Whether an object is an exception.
fn is_exception(what: &What) -> bool
    ensures { result ≡ is_exception what.now }
{
    match what {
        What::Exception { .. } => true,
        What::Other => false,
        What::Unreadable(_) => false,
    }
}

/// Whether an exception was met at an address.
fn is_exception_at(met: &[Met], addr: u64) -> bool
    ensures { result ≡ is_exception_at met.now addr }
{
    let Some(number) = place_of(met, addr) else {
        return false;
    };
    match met.get(number) {
        Some(one) => is_exception(&one.what),
        None => false,
    }
}

/// The exception at an address, where there is one.
fn push_if(todo: &mut Vec<Todo>, met: &[Met], addr: u64) -> Result<(), AllocError>
    ensures { OnOk result (todo.new.items ≡ todo.old.items ++ show_if met.now addr) }
{
    if is_exception_at(met, addr) {
        todo.push(Todo::Show { depth: 0, addr })?;
    }
    Ok(())
}

/// What is raised by its type and what it is made of.
fn push_parts(todo: &mut Vec<Todo>, met: &[Met], value: u64) -> Result<(), AllocError>
    ensures { OnOk result (todo.new.items ≡ todo.old.items ++ parts_todo met.now value) }
{
    push_two(todo, Todo::Say(Line::Raised), Todo::Say(Line::Parts))?;
    push_if(todo, met, value)
}

/// What is raised.
fn push_raised(todo: &mut Vec<Todo>, met: &[Met], raised: Raised) -> Result<(), AllocError>
    ensures { OnOk result (todo.new.items ≡ todo.old.items ++ raised_todo met.now raised) }
{
    match raised {
        Raised::Nothing => Ok(()),
        Raised::Exception { addr } => {
            push_two(todo, Todo::Say(Line::Raised), Todo::Show { depth: 0, addr })
        }
        Raised::Parts { value, .. } => push_parts(todo, met, value),
        Raised::Unreadable(lost) => push_two(
            todo,
            Todo::Say(Line::Raised),
            Todo::Say(Line::Missing(lost)),
        ),
    }
}

/// What an item handles, where it names an exception.
fn push_handled(todo: &mut Vec<Todo>, item: &Handled) -> Result<(), AllocError>
    ensures { OnOk result (todo.new.items ≡ todo.old.items ++ handled_todo item.now) }
{
    match item.value {
        Value::At(addr) => {
            if addr == 0 {
                return Ok(());
            }
            push_two(
                todo,
                Todo::Say(Line::Handled(item.owner)),
                Todo::Show { depth: 0, addr },
            )
        }
        Value::Unreadable(lost) => push_two(
            todo,
            Todo::Say(Line::Handled(item.owner)),
            Todo::Say(Line::Missing(lost)),
        ),
    }
}

/// What each item handles, in order.
fn push_each(todo: &mut Vec<Todo>, items: &[Handled]) -> Result<(), AllocError>
    ensures { OnOk result (todo.new.items ≡ todo.old.items ++ each_handled items.now) }
{
    for item in items {
        push_handled(todo, item)?;
    }
    Ok(())
}

/// How the chain of items breaks off, where it does.
fn push_end(todo: &mut Vec<Todo>, end: LinkEnd) -> Result<(), AllocError>
    ensures { OnOk result (todo.new.items ≡ todo.old.items ++ end_todo end) }
{
    match end {
        LinkEnd::Null => Ok(()),
        LinkEnd::Unreadable(_) => {
            todo.push(Todo::Say(Line::End(end)))?;
            Ok(())
        }
        LinkEnd::Cycle { .. } => {
            todo.push(Todo::Say(Line::End(end)))?;
            Ok(())
        }
        LinkEnd::Cut { .. } => {
            todo.push(Todo::Say(Line::End(end)))?;
            Ok(())
        }
    }
}

/// What is shown of a thread.
pub(crate) fn roots_of(alloc: Global, thread: &ThreadExceptions) -> Result<Vec<Todo>, AllocError>
    ensures { IfOk result (λ todo. todo.items ≡ roots_of thread.now) }
{
    let mut todo = Vec::new(alloc);
    push_raised(&mut todo, &thread.met, thread.raised)?;
    push_each(&mut todo, &thread.handled)?;
    push_end(&mut todo, thread.end)?;
    Ok(todo)
}
