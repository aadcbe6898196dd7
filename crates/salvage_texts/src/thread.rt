//! The lines of threads.
ghost use Rattle.std.specs.Prelude.{◌≡◌, ◌++◌, OnOk, string_bytes};
ghost use Rattle.py_stacks.specs.Shown.{id_text};
ghost use Rattle.thread_names.specs.Lookup.{name_of};
ghost use Rattle.salvage_texts.specs.Threads.{frames_text, mark_text, name_text, reversed_text, thread_line};
ghost use Rattle.salvage_texts.specs.Threads.{thread_text, threads_text};

use crate::ends::{push_frames_end, push_more};
use crate::escape::push_escaped;
use crate::standing::push_standings;
use py_fronts::{Crash, FramesFront, LockState, ThreadFront, crashed_at, holds_lock, is_crashed};
use repr_json::ShownValues;
use std::alloc::{AllocError, Global};
use thread_names::{ThreadName, name_of};

/// The id that the system gave in decimal, where there is one, else the interpreter's in hexadecimal.
fn push_id(text: &mut String, thread: &ThreadFront) -> Result<(), AllocError>
    ensures { OnOk result (string_bytes text.new
        ≡ string_bytes text.old ++ id_text thread.now.os_thread_id thread.now.thread_id) }
{
    match thread.os_thread_id {
        Some(os) => write!(text, "{os}"),
        None => {
            let id = thread.thread_id;
            write!(text, "0x{id:X}")
        }
    }
}

/// A mark, where it is one.
fn push_mark(text: &mut String, is_marked: bool, mark: &str) -> Result<(), AllocError>
    ensures { OnOk result (string_bytes text.new ≡ string_bytes text.old ++ mark_text is_marked mark.now) }
{
    if is_marked {
        return text.push_str(mark);
    }
    Ok(())
}

/// The name that is told of a thread, where one is; what could end it, or the line, is escaped.
fn push_name(
    alloc: Global,
    text: &mut String,
    names: &[ThreadName],
    thread_id: u64,
) -> Result<(), AllocError>
    ensures { OnOk result (string_bytes text.new
        ≡ string_bytes text.old ++ name_text (name_of names.now thread_id)) }
{
    let Some(name) = name_of(names, thread_id) else {
        return Ok(());
    };
    text.push_str(": \"")?;
    push_escaped(alloc, text, true, name)?;
    text.push_str("\"")
}

/// The line of a thread.
fn push_thread_line(
    alloc: Global,
    text: &mut String,
    lock: LockState,
    crash: Option<Crash>,
    names: &[ThreadName],
    thread: &ThreadFront,
) -> Result<(), AllocError>
    ensures { OnOk result (string_bytes text.new
        ≡ string_bytes text.old ++ thread_line lock crash names.now thread.now) }
{
    text.push_str("Thread ")?;
    push_id(text, thread)?;
    push_mark(text, holds_lock(lock, thread), " (gil)")?;
    push_mark(text, is_crashed(crash, thread), " (crashed)")?;
    push_name(alloc, text, names, thread.thread_id)?;
    text.push_str("\n")
}

/// The lines of a thread's frames, and of their end.
fn push_frames(
    alloc: Global,
    text: &mut String,
    values: &ShownValues,
    frames: &FramesFront,
) -> Result<(), AllocError>
    ensures { OnOk result (string_bytes text.new ≡ string_bytes text.old ++ frames_text values.now frames.now) }
{
    push_standings(alloc, text, values, &frames.first)?;
    push_more(text, frames.between)?;
    push_standings(alloc, text, values, &frames.last)?;
    push_frames_end(text, frames.end, frames.met)
}

/// The lines of a thread.
fn push_thread(
    alloc: Global,
    text: &mut String,
    values: &ShownValues,
    lock: LockState,
    crash: Option<Crash>,
    names: &[ThreadName],
    thread: &ThreadFront,
) -> Result<(), AllocError>
    ensures { OnOk result (string_bytes text.new
        ≡ string_bytes text.old ++ thread_text values.now lock crash names.now thread.now) }
{
    push_thread_line(alloc, text, lock, crash, names, thread)?;
    push_frames(alloc, text, values, &thread.frames)
}

/// The lines of some threads, from the last to the first.
fn push_reversed(
    alloc: Global,
    text: &mut String,
    values: &ShownValues,
    lock: LockState,
    crash: Option<Crash>,
    names: &[ThreadName],
    threads: &[ThreadFront],
) -> Result<(), AllocError>
    ensures { OnOk result (string_bytes text.new
        ≡ string_bytes text.old ++ reversed_text values.now lock crash names.now threads.now) }
{
    for thread in threads.iter().rev() {
        push_thread(alloc, text, values, lock, crash, names, thread)?;
    }
    Ok(())
}

/// The lines of an interpreter's threads: of the first one that got the signal, and then of the others, from the last
/// to the first.
pub(crate) fn push_threads(
    alloc: Global,
    text: &mut String,
    values: &ShownValues,
    lock: LockState,
    crash: Option<Crash>,
    names: &[ThreadName],
    threads: &[ThreadFront],
) -> Result<(), AllocError>
    ensures { OnOk result (string_bytes text.new
        ≡ string_bytes text.old ++ threads_text values.now lock crash names.now threads.now) }
{
    let Some(index) = crashed_at(crash, threads) else {
        return push_reversed(alloc, text, values, lock, crash, names, threads);
    };
    push_reversed(
        alloc,
        text,
        values,
        lock,
        crash,
        names,
        &threads[index..index + 1],
    )?;
    push_reversed(
        alloc,
        text,
        values,
        lock,
        crash,
        names,
        &threads[index + 1..],
    )?;
    push_reversed(alloc, text, values, lock, crash, names, &threads[..index])
}
