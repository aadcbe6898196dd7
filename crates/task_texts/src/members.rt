//! The lines of a task's chain.
ghost use Rattle.std.specs.Prelude.{◌≡◌, ◌++◌, OnOk, string_bytes};
ghost use Rattle.py_tasks.specs.Shown.{chain_shown};
ghost use Rattle.salvage_texts.specs.Ends.{missing_text};
ghost use Rattle.salvage_texts.specs.Lines.{line_text};
ghost use Rattle.task_texts.specs.Members.{chain_text, end_text, frame_text, member_text};
ghost use Rattle.task_texts.specs.Members.{members_text, name_text, own_frame_text, stop_text};

use coroutine_frames::CoroutineFrame;
use elf64_core::Text;
use py_coroutines::{AwaitEnd, Kind, Stop};
use py_fronts::shown_line;
use py_tasks::{Chain, Member};
use salvage_texts::push_escaped;
use std::alloc::{AllocError, Global};

/// A name, or a question mark where there is none.
pub(crate) fn push_name(
    alloc: Global,
    text: &mut String,
    name: &Option<Text>,
) -> Result<(), AllocError>
    ensures { OnOk result (string_bytes text.new ≡ string_bytes text.old ++ name_text name.now) }
{
    match name {
        Some(name) => push_escaped(alloc, text, true, name),
        None => text.push_str("?"),
    }
}

/// A range that is not in memory.
pub(crate) fn push_missing(text: &mut String, addr: u64, len: u64) -> Result<(), AllocError>
    ensures { OnOk result (string_bytes text.new ≡ string_bytes text.old ++ missing_text addr len) }
{
    write!(text, "unreadable at 0x{addr:x}, {len} bytes")
}

/// A line's number, where it is known.
fn push_line(text: &mut String, line: u32) -> Result<(), AllocError>
    ensures { OnOk result (string_bytes text.new ≡ string_bytes text.old ++ line_text line) }
{
    if line == 0 {
        return Ok(());
    }
    write!(text, ":{line}")
}

/// The line of a frame.
fn push_frame(alloc: Global, text: &mut String, frame: &CoroutineFrame) -> Result<(), AllocError>
    ensures { OnOk result (string_bytes text.new ≡ string_bytes text.old ++ frame_text frame.now) }
{
    text.push_str("    ")?;
    push_name(alloc, text, &frame.function)?;
    text.push_str(" (")?;
    push_name(alloc, text, &frame.filename)?;
    push_line(text, shown_line(frame.line))?;
    text.push_str(")\n")
}

/// The line of a member that has a frame, or had one.
fn push_own_frame(
    alloc: Global,
    text: &mut String,
    frame: &Option<CoroutineFrame>,
) -> Result<(), AllocError>
    ensures { OnOk result (string_bytes text.new ≡ string_bytes text.old ++ own_frame_text frame.now) }
{
    match frame {
        Some(frame) => push_frame(alloc, text, frame),
        None => text.push_str("    ? no frame\n"),
    }
}

/// The line of a member; what stands between two coroutines has none.
fn push_member(alloc: Global, text: &mut String, member: &Member) -> Result<(), AllocError>
    ensures { OnOk result (string_bytes text.new ≡ string_bytes text.old ++ member_text member.now) }
{
    match member.kind {
        Some(_) => push_own_frame(alloc, text, &member.frame),
        None => Ok(()),
    }
}

/// The lines of some members, in order.
fn push_members(alloc: Global, text: &mut String, members: &[Member]) -> Result<(), AllocError>
    ensures { OnOk result (string_bytes text.new ≡ string_bytes text.old ++ members_text members.now) }
{
    for member in members {
        push_member(alloc, text, member)?;
    }
    Ok(())
}

/// The line of how a chain breaks off, where it does by itself.
fn push_stop(text: &mut String, stop: Stop) -> Result<(), AllocError>
    ensures { OnOk result (string_bytes text.new ≡ string_bytes text.old ++ stop_text stop) }
{
    match stop {
        Stop::Future { .. } => Ok(()),
        Stop::Yielding => Ok(()),
        Stop::Created => Ok(()),
        Stop::Running => Ok(()),
        Stop::Finished => Ok(()),
        Stop::NoTop => text.push_str("    ... what it awaits is not stored\n"),
        Stop::Other { addr, .. } => write!(text, "    ... awaits an object at 0x{addr:x}\n"),
        Stop::Unreadable { addr, len } => {
            text.push_str("    ... ")?;
            push_missing(text, addr, len)?;
            text.push_str("\n")
        }
    }
}

/// The line of how a chain breaks off, where it does.
fn push_end(text: &mut String, end: AwaitEnd) -> Result<(), AllocError>
    ensures { OnOk result (string_bytes text.new ≡ string_bytes text.old ++ end_text end) }
{
    match end {
        AwaitEnd::Stops(stop) => push_stop(text, stop),
        AwaitEnd::Cycle { addr } => write!(text, "    ... awaits the one at 0x{addr:x} again\n"),
        AwaitEnd::Cut { addr } => write!(text, "    ... and more, from 0x{addr:x} on\n"),
    }
}

/// The lines of a chain, the last member first: how it breaks off, where it does, and then the members.
pub(crate) fn push_chain(alloc: Global, text: &mut String, chain: &Chain) -> Result<(), AllocError>
    ensures { OnOk result (string_bytes text.new ≡ string_bytes text.old ++ chain_text (chain_shown chain.now)) }
{
    push_end(text, chain.end)?;
    push_members(alloc, text, &chain.members)
}
