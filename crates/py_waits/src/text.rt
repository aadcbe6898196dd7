//! The lines of threads that wait.
ghost use Rattle.std.specs.Prelude.{◌≡◌, ◌++◌, OnOk, string_bytes};
ghost use Rattle.py_waits.specs.Text.{lead_text, line_text, owner_text, rlock_text, thread_text, threads_text};
ghost use Rattle.py_waits.specs.Text.{wait_text, waits_text};

use crate::told::{InterpreterWaits, ThreadWait};
use crate::wait::Wait;
use std::alloc::AllocError;

/// The owner of a reentrant lock, where it has one.
fn push_owner(text: &mut String, owner: Option<u64>) -> Result<(), AllocError>
    ensures { OnOk result (string_bytes text.new ≡ string_bytes text.old ++ owner_text owner) }
{
    match owner {
        Some(owner) => write!(text, " of thread 0x{owner:X}"),
        None => Ok(()),
    }
}

/// A reentrant lock, without its owner.
fn push_rlock(text: &mut String, address: u64) -> Result<(), AllocError>
    ensures { OnOk result (string_bytes text.new ≡ string_bytes text.old ++ rlock_text address) }
{
    write!(text, "RLock 0x{address:x}")
}

/// What a thread waits for.
fn push_wait(text: &mut String, wait: Wait) -> Result<(), AllocError>
    ensures { OnOk result (string_bytes text.new ≡ string_bytes text.old ++ wait_text wait) }
{
    match wait {
        Wait::Interpreter => text.push_str("the GIL"),
        Wait::Lock { address } => write!(text, "Lock 0x{address:x}"),
        Wait::Queue { address } => write!(text, "SimpleQueue 0x{address:x}"),
        Wait::Rlock { address, owner } => {
            push_rlock(text, address)?;
            push_owner(text, owner)
        }
    }
}

/// What stands in front of it.
fn push_lead(text: &mut String, thread_id: u64) -> Result<(), AllocError>
    ensures { OnOk result (string_bytes text.new ≡ string_bytes text.old ++ lead_text thread_id) }
{
    write!(text, "Thread 0x{thread_id:X} waits for ")
}

/// A thread's line.
fn push_line(text: &mut String, thread_id: u64, wait: Wait) -> Result<(), AllocError>
    ensures { OnOk result (string_bytes text.new ≡ string_bytes text.old ++ line_text thread_id wait) }
{
    push_lead(text, thread_id)?;
    push_wait(text, wait)?;
    text.push_str("\n")
}

/// The same, where it is known what it waits for.
fn push_thread(text: &mut String, thread: &ThreadWait) -> Result<(), AllocError>
    ensures { OnOk result (string_bytes text.new ≡ string_bytes text.old ++ thread_text thread.now) }
{
    match thread.wait {
        Some(wait) => push_line(text, thread.thread_id, wait),
        None => Ok(()),
    }
}

fn push_threads(text: &mut String, threads: &[ThreadWait]) -> Result<(), AllocError>
    ensures { OnOk result (string_bytes text.new ≡ string_bytes text.old ++ threads_text threads.now) }
{
    for thread in threads {
        push_thread(text, thread)?;
    }
    Ok(())
}

/// Appends a line for each thread of which it is known what it waits for, in the order of the interpreters and of their
/// chains: `Thread 0x7F.. waits for the GIL`, or for `Lock 0x..`, `RLock 0x.. of thread 0x7F..` or `SimpleQueue 0x..`.
/// The one error is out of memory.
pub fn push_waits(text: &mut String, waits: &[InterpreterWaits]) -> Result<(), AllocError>
    ensures { OnOk result (string_bytes text.new ≡ string_bytes text.old ++ waits_text waits.now) }
{
    for interpreter in waits {
        push_threads(text, &interpreter.threads)?;
    }
    Ok(())
}
