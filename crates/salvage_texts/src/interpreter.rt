//! The lines of interpreters.
ghost use Rattle.std.specs.Prelude.{◌≡◌, ◌++◌, OnOk, string_bytes};
ghost use Rattle.thread_names.specs.Lookup.{threads_named};
ghost use Rattle.salvage_texts.specs.Salvaged.{heading_text, interpreter_text, interpreters_text, lock_text};
ghost use Rattle.salvage_texts.specs.Salvaged.{searched_text};

use crate::ends::{push_missing, push_threads_end};
use crate::thread::push_threads;
use py_fronts::{Crash, InterpreterFront, LockState, SalvagedInterpreter};
use repr_json::ShownValues;
use std::alloc::{AllocError, Global};
use thread_names::{InterpreterNames, threads_named};

/// How an interpreter was found, where by search alone.
fn push_searched(text: &mut String, searched: bool) -> Result<(), AllocError>
    ensures { OnOk result (string_bytes text.new ≡ string_bytes text.old ++ searched_text searched) }
{
    if searched {
        return text.push_str(" (found by search)");
    }
    Ok(())
}

/// The line of an interpreter, where there are several.
fn push_heading(
    text: &mut String,
    is_several: bool,
    front: &InterpreterFront,
) -> Result<(), AllocError>
    ensures { OnOk result (string_bytes text.new ≡ string_bytes text.old ++ heading_text is_several front.now) }
{
    if !is_several {
        return Ok(());
    }
    let address = front.address;
    write!(text, "Interpreter 0x{address:x}")?;
    push_searched(text, front.searched)?;
    text.push_str("\n")
}

/// The line of a lock that can't be read.
fn push_lock(text: &mut String, lock: LockState) -> Result<(), AllocError>
    ensures { OnOk result (string_bytes text.new ≡ string_bytes text.old ++ lock_text lock) }
{
    match lock {
        LockState::Holder(_) => Ok(()),
        LockState::Unreadable { addr, len } => {
            text.push_str("... lock ")?;
            push_missing(text, addr, len)?;
            text.push_str("\n")
        }
    }
}

/// The lines of an interpreter.
fn push_interpreter(
    alloc: Global,
    text: &mut String,
    values: &ShownValues,
    is_several: bool,
    crash: Option<Crash>,
    names: &[InterpreterNames],
    interpreter: &SalvagedInterpreter,
) -> Result<(), AllocError>
    ensures { OnOk result (string_bytes text.new
        ≡ string_bytes text.old ++ interpreter_text values.now is_several crash names.now interpreter.now) }
{
    push_heading(text, is_several, &interpreter.front)?;
    push_lock(text, interpreter.lock)?;
    push_threads_end(text, interpreter.front.threads.end)?;
    push_threads(
        alloc,
        text,
        values,
        interpreter.lock,
        crash,
        threads_named(names, interpreter.front.address),
        &interpreter.front.threads.threads,
    )
}

/// The lines of some interpreters, in order.
pub(crate) fn push_interpreters(
    alloc: Global,
    text: &mut String,
    values: &ShownValues,
    is_several: bool,
    crash: Option<Crash>,
    names: &[InterpreterNames],
    interpreters: &[SalvagedInterpreter],
) -> Result<(), AllocError>
    ensures { OnOk result (string_bytes text.new
        ≡ string_bytes text.old ++ interpreters_text values.now is_several crash names.now interpreters.now) }
{
    for interpreter in interpreters {
        push_interpreter(alloc, text, values, is_several, crash, names, interpreter)?;
    }
    Ok(())
}
