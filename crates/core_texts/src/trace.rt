//! The text of a thread.
ghost use Rattle.std.specs.Prelude.{◌≡◌, ◌++◌, OnOk, string_bytes};
ghost use Rattle.py_stacks.specs.Shown.{id_text};
ghost use Rattle.core_texts.specs.Printed.{IsPrinted};
ghost use Rattle.core_texts.specs.Text.{mark_text, name_text, thread_line, trace_text};

use crate::frame::push_frames;
use crate::print_error::PrintError;
use elf64_core::Text;
use outside::Sink;
use py_stacks::StackTrace;
use std::alloc::{AllocError, Global};

/// Prints a thread, by one write of its whole text: a line with its id and name, and those of its frames and of
/// their locals, where they were asked for.
///
/// With activity the thread's state stands behind its id, and else a mark where it held the interpreter lock.
///
/// - `Sink` where the stream failed: its count of faults rose, and a front of the text was written.
/// - `OutOfMemory` where there was no memory left; nothing was written.
pub fn write_trace<S: Sink>(
    alloc: Global,
    out: &mut S,
    trace: &StackTrace,
    include_activity: bool,
) -> Result<(), PrintError>
    ensures { IsPrinted (S.seen out.old) (S.seen out.new) (trace_text include_activity trace.now) result }
{
    let mut text = String::new(alloc);
    push_trace(&mut text, trace, include_activity)?;
    match out.write(text.as_bytes()) {
        Ok(()) => Ok(()),
        Err(fault) => Err(PrintError::Sink(fault)),
    }
}

/// The line of a thread, and those of its frames.
pub(crate) fn push_trace(
    text: &mut String,
    trace: &StackTrace,
    activity: bool,
) -> Result<(), AllocError>
    ensures { OnOk result (string_bytes text.new ≡ string_bytes text.old ++ trace_text activity trace.now) }
{
    push_thread_line(text, trace, activity)?;
    push_frames(text, &trace.frames)?;
    Ok(())
}

fn push_thread_line(text: &mut String, trace: &StackTrace, activity: bool) -> Result<(), AllocError>
    ensures { OnOk result (string_bytes text.new ≡ string_bytes text.old ++ thread_line activity trace.now) }
{
    text.push_str("Thread ")?;
    push_id(text, trace.os_thread_id, trace.thread_id)?;
    push_mark(text, trace, activity)?;
    push_name(text, &trace.thread_name)?;
    text.push_str("\n")
}

/// The id that the system gave in decimal, where there is one, else the interpreter's in hexadecimal.
fn push_id(text: &mut String, os: Option<u64>, id: u64) -> Result<(), AllocError>
    ensures { OnOk result (string_bytes text.new ≡ string_bytes text.old ++ id_text os id) }
{
    match os {
        Some(os) => write!(text, "{os}"),
        None => write!(text, "0x{id:X}"),
    }
}

/// The thread's state, where activity is asked for, else whether it held the interpreter lock.
fn push_mark(text: &mut String, trace: &StackTrace, activity: bool) -> Result<(), AllocError>
    ensures { OnOk result (string_bytes text.new ≡ string_bytes text.old ++ mark_text activity trace.now) }
{
    if activity {
        text.push_str(" (")?;
        text.push_str(trace.status_str())?;
        return text.push_str(")");
    }
    if trace.owns_gil {
        return text.push_str(" (gil)");
    }
    Ok(())
}

fn push_name(text: &mut String, name: &Option<Text>) -> Result<(), AllocError>
    ensures { OnOk result (string_bytes text.new ≡ string_bytes text.old ++ name_text name.now) }
{
    let Some(name) = name else {
        return Ok(());
    };
    text.push_str(": \"")?;
    text.push_str(name.as_str())?;
    text.push_str("\"")
}
