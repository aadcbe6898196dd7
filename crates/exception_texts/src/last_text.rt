//! The lines of exceptions: those of each interpreter's threads, and the last exception that no code handled.
ghost use Rattle.std.specs.Prelude.{◌≡◌, ◌++◌, OnOk, string_bytes};
ghost use Rattle.exception_texts.specs.LastText.{all_exceptions_text, alone_lines, found_text, last_lead, last_text};
ghost use Rattle.exception_texts.specs.LastText.{last_title, lost_end, lost_last, whole_text};

use crate::plan::{Todo, lines_of};
use crate::text::{push_interpreter, push_lines};
use crate::told::InterpreterExceptions;
use py_exceptions::{LastException, LastFound, LastName, ToldThread, key_of};
use std::alloc::{AllocError, Global};

/// What stands in front of where it stands.
#[tactic(auto, unfolding(crate::specs::LastText::last_lead))]
fn push_last_lead(text: &mut String) -> Result<(), AllocError>
    ensures { OnOk result (string_bytes text.new ≡ string_bytes text.old ++ last_lead) }
{
    text.push_str("Last exception that no code handled")
}

/// That what follows stands in `sys`, and under which name.
fn push_last_title(text: &mut String, name: LastName) -> Result<(), AllocError>
    ensures { OnOk result (string_bytes text.new ≡ string_bytes text.old ++ last_title name) }
{
    push_last_lead(text)?;
    text.push_str(" (sys.")?;
    text.push_str(key_of(name))?;
    text.push_str("):\n")
}

/// That something can't be read.
#[tactic(auto, unfolding(crate::specs::LastText::lost_end))]
fn push_lost_end(text: &mut String) -> Result<(), AllocError>
    ensures { OnOk result (string_bytes text.new ≡ string_bytes text.old ++ lost_end) }
{
    text.push_str(" can't be read\n")
}

/// That what `sys` has can't be read.
fn push_lost_last(text: &mut String, name: LastName) -> Result<(), AllocError>
    ensures { OnOk result (string_bytes text.new ≡ string_bytes text.old ++ lost_last name) }
{
    push_last_lead(text)?;
    text.push_str(": sys.")?;
    text.push_str(key_of(name))?;
    push_lost_end(text)
}

/// The lines of the exception at an address, with what it leads to.
fn push_alone(
    alloc: Global,
    text: &mut String,
    addr: u64,
    told: &ToldThread,
) -> Result<(), AllocError>
    ensures { OnOk result (string_bytes text.new ≡ string_bytes text.old ++ alone_lines addr told.now) }
{
    let mut roots = Vec::new(alloc);
    roots.push(Todo::Show { depth: 0, addr })?;
    let lines = lines_of(alloc, &told.thread.met, roots)?;
    push_lines(alloc, text, told, &lines)
}

/// The same, with where it stands.
fn push_titled_last(
    alloc: Global,
    text: &mut String,
    name: LastName,
    addr: u64,
    told: &ToldThread,
) -> Result<(), AllocError>
    ensures { OnOk result (string_bytes text.new
        ≡ string_bytes text.old ++ (last_title name ++ alone_lines addr told.now)) }
{
    push_last_title(text, name)?;
    push_alone(alloc, text, addr, told)
}

/// The lines of what `sys` has.
fn push_found(
    alloc: Global,
    text: &mut String,
    name: LastName,
    found: &LastFound,
) -> Result<(), AllocError>
    ensures { OnOk result (string_bytes text.new ≡ string_bytes text.old ++ found_text name found.now) }
{
    match found {
        LastFound::Nothing => Ok(()),
        LastFound::Exception { addr, told } => push_titled_last(alloc, text, name, *addr, told),
        LastFound::Unreadable => push_lost_last(text, name),
    }
}

/// The same, where it is described.
fn push_last(
    alloc: Global,
    text: &mut String,
    last: &Option<LastException>,
) -> Result<(), AllocError>
    ensures { OnOk result (string_bytes text.new ≡ string_bytes text.old ++ last_text last.now) }
{
    match last {
        Some(last) => push_found(alloc, text, last.name, &last.found),
        None => Ok(()),
    }
}

/// The lines of an interpreter.
fn push_whole(
    alloc: Global,
    text: &mut String,
    told: &InterpreterExceptions,
) -> Result<(), AllocError>
    ensures { OnOk result (string_bytes text.new ≡ string_bytes text.old ++ whole_text told.now) }
{
    push_interpreter(alloc, text, told)?;
    push_last(alloc, text, &told.last)
}

/// Appends the lines of the exceptions of some interpreters, in order.
///
/// Of a thread that neither raises nor handles any there are none. Of another one the first line is `Exceptions of
/// thread 0x7F..:`, and behind `Raised:` and each `Handling:` stand the exceptions, indented: the cause of each before
/// it, or its context unless that is suppressed, with the sentence that Python has between them; behind its own line
/// its notes in quotes, its traceback, the oldest call first, and the members of a group, indented further. An
/// exception has its lines once, and is named by its class and address elsewhere. What can't be read has a line that
/// begins with three points.
///
/// Behind an interpreter's threads stands the last exception that no code handled, where its `sys` has one, below a
/// line that says under which name, or the line that this can't be read. The one error is out of memory.
pub fn push_exceptions(
    alloc: Global,
    text: &mut String,
    exceptions: &[InterpreterExceptions],
) -> Result<(), AllocError>
    ensures { OnOk result (string_bytes text.new ≡ string_bytes text.old ++ all_exceptions_text exceptions.now) }
{
    for interpreter in exceptions {
        push_whole(alloc, text, interpreter)?;
    }
    Ok(())
}
