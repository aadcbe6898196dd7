//! The text of what is left of a process's stacks.
ghost use Rattle.std.specs.Prelude.{◌≡◌, ◌++◌, IfOk, OnOk, string_bytes};
ghost use Rattle.py_stacks.specs.declared.trace.Frame.{Frame};
ghost use Rattle.salvage_texts.specs.Marks.{IsNoMark};
ghost use Rattle.salvage_texts.specs.Salvaged.{ended_text, more_text, ordered_text, salvaged_text};
ghost use Rattle.salvage_texts.specs.Standings.{frame_line};

use crate::interpreter::push_interpreters;
use py_fronts::{Crash, Looked, Salvaged, SalvagedInterpreter, first_crashed};
use repr_json::ShownValues;
use std::alloc::{AllocError, Global};
use thread_names::InterpreterNames;

/// The lines of all interpreters: of the first one of which a thread got the signal, and then of the others.
fn push_ordered(
    alloc: Global,
    text: &mut String,
    values: &ShownValues,
    crash: Option<Crash>,
    names: &[InterpreterNames],
    interpreters: &[SalvagedInterpreter],
) -> Result<(), AllocError>
    ensures { OnOk result (string_bytes text.new
        ≡ string_bytes text.old ++ ordered_text values.now crash names.now interpreters.now) }
{
    let is_several = interpreters.len() > 1;
    let Some(index) = first_crashed(crash, interpreters) else {
        return push_interpreters(alloc, text, values, is_several, crash, names, interpreters);
    };
    let first = &interpreters[index..index + 1];
    push_interpreters(alloc, text, values, is_several, crash, names, first)?;
    push_interpreters(
        alloc,
        text,
        values,
        is_several,
        crash,
        names,
        &interpreters[..index],
    )?;
    push_interpreters(
        alloc,
        text,
        values,
        is_several,
        crash,
        names,
        &interpreters[index + 1..],
    )
}

/// The line that there are more interpreters, where there are.
fn push_more(text: &mut String, more: bool) -> Result<(), AllocError>
    ensures { OnOk result (string_bytes text.new ≡ string_bytes text.old ++ more_text more) }
{
    if more {
        return text.push_str("... more than 16 interpreters\n");
    }
    Ok(())
}

/// The line that the search ended before all was looked at, where it did.
fn push_ended(text: &mut String, looked: &Looked) -> Result<(), AllocError>
    ensures { OnOk result (string_bytes text.new ≡ string_bytes text.old ++ ended_text looked.now) }
{
    if looked.ended {
        let (addresses, members) = (looked.addresses, looked.members);
        return write!(
            text,
            "... the search ended after {members} members and {addresses} addresses\n"
        );
    }
    Ok(())
}

/// The lines of what is left.
fn push_salvaged(
    alloc: Global,
    text: &mut String,
    values: &ShownValues,
    names: &[InterpreterNames],
    salvaged: &Salvaged,
) -> Result<(), AllocError>
    ensures { OnOk result (string_bytes text.new
        ≡ string_bytes text.old ++ salvaged_text values.now names.now salvaged.now) }
{
    push_ordered(
        alloc,
        text,
        values,
        salvaged.crash,
        names,
        &salvaged.interpreters,
    )?;
    push_more(text, salvaged.more)?;
    push_ended(text, &salvaged.looked)
}

/// The text of what is left: each interpreter with the line of its address, where there are several, the lines of what
/// is missing of its lock and of its threads, and its threads, each with its frames and how these end; and last, where
/// there are more than 16 interpreters, or the search for them ended before all was looked at, a line that says so.
///
/// A thread is marked where it holds the lock of its interpreter, and where it got the signal, and has the name that is
/// told of its id in its interpreter, if one is. A local has the text that is kept for the address of its value, or a
/// question mark. The first interpreter with such a thread stands first, and in it that thread; else interpreters stand
/// in order, and the threads of each from the last to the first. The one error is out of memory.
pub fn salvaged_text(
    alloc: Global,
    values: &ShownValues,
    names: &[InterpreterNames],
    salvaged: &Salvaged,
) -> Result<String, AllocError>
    ensures shows { IfOk result (λ text. string_bytes text ≡ salvaged_text values.now names.now salvaged.now) }
    // whatever the names of a frame are, its line is none of those that say what is missing among frames
    ensures unforged { (frame : Frame) → IsNoMark (frame_line frame) }
{
    let mut text = String::new(alloc);
    push_salvaged(alloc, &mut text, values, names, salvaged)?;
    Ok(text)
}
