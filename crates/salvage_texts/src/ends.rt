//! The lines that say how a chain ends.
ghost use Rattle.std.specs.Prelude.{◌≡◌, ◌++◌, OnOk, string_bytes};
ghost use Rattle.salvage_texts.specs.Ends.{frames_end_text, missing_text, more_text, threads_end_text};

use py_fronts::ChainEnd;
use std::alloc::AllocError;

/// A range that is not in memory.
pub(crate) fn push_missing(text: &mut String, addr: u64, len: u64) -> Result<(), AllocError>
    ensures { OnOk result (string_bytes text.new ≡ string_bytes text.old ++ missing_text addr len) }
{
    write!(text, "unreadable at 0x{addr:x}, {len} bytes")
}

/// The line of the end of a thread's frames, of which so many members were met; none where it is null.
pub(crate) fn push_frames_end(text: &mut String, end: ChainEnd, met: u64) -> Result<(), AllocError>
    ensures { OnOk result (string_bytes text.new ≡ string_bytes text.old ++ frames_end_text end met) }
{
    match end {
        ChainEnd::Whole => Ok(()),
        ChainEnd::Cut => write!(text, "    ... cut after {met} members\n"),
        ChainEnd::Unreadable { addr, len } => {
            text.push_str("    ... ")?;
            push_missing(text, addr, len)?;
            text.push_str("\n")
        }
        ChainEnd::Stray { interpreter } => {
            write!(text, "    ... of the interpreter at 0x{interpreter:x}\n")
        }
    }
}

/// The line of the end of an interpreter's threads; none where it is null.
pub(crate) fn push_threads_end(text: &mut String, end: ChainEnd) -> Result<(), AllocError>
    ensures { OnOk result (string_bytes text.new ≡ string_bytes text.old ++ threads_end_text end) }
{
    match end {
        ChainEnd::Whole => Ok(()),
        ChainEnd::Cut => text.push_str("... more than 4096 threads\n"),
        ChainEnd::Unreadable { addr, len } => {
            text.push_str("... threads ")?;
            push_missing(text, addr, len)?;
            text.push_str("\n")
        }
        ChainEnd::Stray { interpreter } => {
            write!(
                text,
                "... threads of the interpreter at 0x{interpreter:x}\n"
            )
        }
    }
}

/// The line of the frames that stand between the first and the last; none where there are none.
pub(crate) fn push_more(text: &mut String, between: u64) -> Result<(), AllocError>
    ensures { OnOk result (string_bytes text.new ≡ string_bytes text.old ++ more_text between) }
{
    if between == 0 {
        return Ok(());
    }
    write!(text, "    ... {between} more frames\n")
}
