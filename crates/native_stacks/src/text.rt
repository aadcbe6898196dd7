//! The lines of native stacks.
ghost use Rattle.std.specs.Prelude.{◌≡◌, ◌++◌, OnOk, map, string_bytes};
ghost use Rattle.native_frames.specs.Threads.{stack_shown_if};
ghost use Rattle.native_stacks.specs.Stacks.{stacks_shown};
ghost use Rattle.native_stacks.specs.Text.{crash_text, head_text, part_text, stacks_text, thread_head, thread_text};
ghost use Rattle.native_stacks.specs.Threads.{thread_shown};

use crate::stacks::{NativeStacks, NativeThread};
use elf64_core::Name;
use native_frames::{ThreadStack, push_stack};
use std::alloc::{AllocError, Global};
use thread_registers::Whose;

/// Whose thread it is, and the id that the system gave.
fn push_head(text: &mut String, id: u32, whose: Whose) -> Result<(), AllocError>
    ensures { OnOk result (string_bytes text.new ≡ string_bytes text.old ++ head_text id whose) }
{
    match whose {
        Whose::Python(found) => {
            let own = found.thread_id;
            write!(text, "Thread {id} (Python's 0x{own:X})")
        }
        Whose::Other => write!(text, "Native thread {id}"),
        Whose::Untold => write!(text, "Thread {id} (whose is not told)"),
    }
}

/// That the thread got the signal, if it did, and the end of the line.
fn push_crash(text: &mut String, is_crashed: bool) -> Result<(), AllocError>
    ensures { OnOk result (string_bytes text.new ≡ string_bytes text.old ++ crash_text is_crashed) }
{
    if is_crashed {
        return text.push_str(" (crashed)\n");
    }
    text.push_str("\n")
}

/// The lines of a stack, if there is one.
fn push_part(
    alloc: Global,
    text: &mut String,
    files: &[Name],
    is_guess: bool,
    limit: usize,
    stack: &Option<ThreadStack>,
) -> Result<(), AllocError>
    ensures { OnOk result (string_bytes text.new ≡ string_bytes text.old
        ++ part_text files.now is_guess limit (stack_shown_if stack.now)) }
{
    match stack {
        Some(stack) => push_stack(alloc, text, files, is_guess, limit, stack),
        None => Ok(()),
    }
}

/// Appends the line of a thread: whose it is, the id that the system gave it, and whether it got the signal. The one
/// error is out of memory.
pub fn push_thread_head(text: &mut String, thread: &NativeThread) -> Result<(), AllocError>
    ensures { OnOk result (string_bytes text.new ≡ string_bytes text.old ++ thread_head (thread_shown thread.now)) }
{
    push_head(text, thread.system_id, thread.whose)?;
    push_crash(text, thread.is_crashed)
}

/// Appends the lines of a thread's native stack: whose it is, and the lines of its stack (`push_stack`), of which the
/// first and the last `limit` frames are shown; and then those that follow by a guess, each with a mark. `files` are
/// the paths by which frames name files. The one error is out of memory.
pub fn push_thread(
    alloc: Global,
    text: &mut String,
    files: &[Name],
    limit: usize,
    thread: &NativeThread,
) -> Result<(), AllocError>
    ensures { OnOk result (string_bytes text.new ≡ string_bytes text.old
        ++ thread_text files.now limit (thread_shown thread.now)) }
{
    push_thread_head(text, thread)?;
    push_part(alloc, text, files, false, limit, &thread.stack)?;
    push_part(alloc, text, files, true, limit, &thread.guessed)
}

/// The lines of threads, in order.
fn push_threads(
    alloc: Global,
    text: &mut String,
    files: &[Name],
    limit: usize,
    threads: &[NativeThread],
) -> Result<(), AllocError>
    ensures { OnOk result (string_bytes text.new ≡ string_bytes text.old
        ++ stacks_text limit (record { files = files.now; threads = map thread_shown threads.now })) }
{
    for thread in threads {
        push_thread(alloc, text, files, limit, thread)?;
    }
    Ok(())
}

/// Appends the lines of native stacks: for each thread whose it is, and the lines of its stack (`push_stack`), of which
/// the first and the last `limit` frames are shown; and then those that follow by a guess, each with a mark. The one
/// error is out of memory.
pub fn push_native_stacks(
    alloc: Global,
    text: &mut String,
    limit: usize,
    stacks: &NativeStacks,
) -> Result<(), AllocError>
    ensures { OnOk result (string_bytes text.new ≡ string_bytes text.old
        ++ stacks_text limit (stacks_shown stacks.now)) }
{
    push_threads(alloc, text, &stacks.files, limit, &stacks.threads)
}
