//! The lines of an exception: its own, its traceback, its notes and its members.
ghost use Rattle.std.specs.Prelude.{◌≡◌, ◌++◌, OnOk, string_bytes};
ghost use Rattle.exception_texts.specs.Frames.{address_end, behind_text, end_text, entries_text, entry_text};
ghost use Rattle.exception_texts.specs.Frames.{frame_text};
ghost use Rattle.exception_texts.specs.Frames.{indent_text, left_out_line, shown_line, line_number, lost_line};
ghost use Rattle.exception_texts.specs.Frames.{lost_notes, lost_text};
ghost use Rattle.exception_texts.specs.Frames.{more_text, note_line, note_lines, notes_text, on_line, own_frame_text};
ghost use Rattle.exception_texts.specs.Frames.{some_notes, steps_text, trace_text};

use crate::values::{push_name, push_str_of};
use py_exceptions::{CalledFrame, Entry, Notes, Traceback, Value, Values};
use std::alloc::{AllocError, Global};
use thread_exceptions::{LinkEnd, Lost};

/// So many steps from the margin.
fn push_steps(text: &mut String, count: u64) -> Result<(), AllocError>
    ensures { OnOk result (string_bytes text.new ≡ string_bytes text.old ++ steps_text count) }
{
    for _ in 0..count {
        text.push_str("        ")?;
    }
    Ok(())
}

/// What stands in front of each line at a depth.
pub(crate) fn push_indent(text: &mut String, depth: u64) -> Result<(), AllocError>
    ensures { OnOk result (string_bytes text.new ≡ string_bytes text.old ++ indent_text depth) }
{
    text.push_str("        ")?;
    push_steps(text, depth)
}

/// The same in front of a line of an exception's own.
pub(crate) fn push_behind(text: &mut String, depth: u64) -> Result<(), AllocError>
    ensures { OnOk result (string_bytes text.new ≡ string_bytes text.old ++ behind_text depth) }
{
    push_indent(text, depth)?;
    text.push_str("    ")
}

/// A range that is not in memory.
pub(crate) fn push_lost(text: &mut String, lost: Lost) -> Result<(), AllocError>
    ensures { OnOk result (string_bytes text.new ≡ string_bytes text.old ++ lost_text lost) }
{
    let (addr, len) = (lost.addr, lost.len);
    write!(text, "unreadable at 0x{addr:x}, {len} bytes")
}

/// A line's number as it is shown: from 1 on, and 0 where none is known.
pub(crate) fn shown_line(line: i32) -> u32
    ensures { result ≡ shown_line line }
{
    if line < 0 {
        return 0;
    }
    line as u32
}

/// A line's number, where it is known.
fn push_line_number(text: &mut String, line: u32) -> Result<(), AllocError>
    ensures { OnOk result (string_bytes text.new ≡ string_bytes text.old ++ line_number line) }
{
    if line == 0 {
        return Ok(());
    }
    write!(text, ":{line}")
}

/// A frame.
fn push_frame(alloc: Global, text: &mut String, frame: &CalledFrame) -> Result<(), AllocError>
    ensures { OnOk result (string_bytes text.new ≡ string_bytes text.old ++ frame_text frame.now) }
{
    push_name(alloc, text, &frame.function)?;
    text.push_str(" (")?;
    push_name(alloc, text, &frame.filename)?;
    push_line_number(text, shown_line(frame.line))?;
    text.push_str(")\n")
}

/// A frame, or that it can't be read.
fn push_own_frame(
    alloc: Global,
    text: &mut String,
    frame: &Option<CalledFrame>,
) -> Result<(), AllocError>
    ensures { OnOk result (string_bytes text.new ≡ string_bytes text.old ++ own_frame_text frame.now) }
{
    match frame {
        Some(frame) => push_frame(alloc, text, frame),
        None => text.push_str("? unreadable\n"),
    }
}

/// The line of an entry of a traceback.
fn push_entry(alloc: Global, text: &mut String, depth: u64, entry: &Entry) -> Result<(), AllocError>
    ensures { OnOk result (string_bytes text.new ≡ string_bytes text.old ++ entry_text depth entry.now) }
{
    push_behind(text, depth)?;
    push_own_frame(alloc, text, &entry.frame)
}

/// The lines of some entries, in order.
fn push_entries(
    alloc: Global,
    text: &mut String,
    depth: u64,
    entries: &[Entry],
) -> Result<(), AllocError>
    ensures { OnOk result (string_bytes text.new ≡ string_bytes text.old ++ entries_text depth entries.now) }
{
    for entry in entries {
        push_entry(alloc, text, depth, entry)?;
    }
    Ok(())
}

/// How many of something there are that are left out.
fn push_more(text: &mut String, left_out: u64, what: &str) -> Result<(), AllocError>
    ensures { OnOk result (string_bytes text.new ≡ string_bytes text.old ++ more_text left_out what.now) }
{
    write!(text, "... {left_out}")?;
    text.push_str(what)
}

/// The line that says how many are left out, where any are.
pub(crate) fn push_left_out(
    text: &mut String,
    depth: u64,
    left_out: u64,
    what: &str,
) -> Result<(), AllocError>
    ensures { OnOk result (string_bytes text.new ≡ string_bytes text.old ++ left_out_line depth left_out what.now) }
{
    if left_out == 0 {
        return Ok(());
    }
    push_behind(text, depth)?;
    push_more(text, left_out, what)
}

/// The line of a range that is not in memory.
pub(crate) fn push_lost_line(text: &mut String, depth: u64, lost: Lost) -> Result<(), AllocError>
    ensures { OnOk result (string_bytes text.new ≡ string_bytes text.old ++ lost_line depth lost) }
{
    push_behind(text, depth)?;
    text.push_str("... ")?;
    push_lost(text, lost)?;
    text.push_str("\n")
}

/// The line that says where a chain of entries goes on that are not told.
fn push_on(text: &mut String, depth: u64, lead: &str, addr: u64) -> Result<(), AllocError>
    ensures { OnOk result (string_bytes text.new ≡ string_bytes text.old ++ on_line depth lead.now addr) }
{
    push_behind(text, depth)?;
    text.push_str(lead)?;
    push_address(text, addr)
}

/// An address at the end of a line.
fn push_address(text: &mut String, addr: u64) -> Result<(), AllocError>
    ensures { OnOk result (string_bytes text.new ≡ string_bytes text.old ++ address_end addr) }
{
    write!(text, "0x{addr:x}\n")
}

/// How a traceback breaks off, where it does.
fn push_end(text: &mut String, depth: u64, end: LinkEnd) -> Result<(), AllocError>
    ensures { OnOk result (string_bytes text.new ≡ string_bytes text.old ++ end_text depth end) }
{
    match end {
        LinkEnd::Null => Ok(()),
        LinkEnd::Unreadable(lost) => push_lost_line(text, depth, lost),
        LinkEnd::Cycle { addr } => push_on(text, depth, "... and again from ", addr),
        LinkEnd::Cut { addr } => push_on(text, depth, "... and more from ", addr),
    }
}

/// The lines of a traceback, the oldest call first.
pub(crate) fn push_traceback(
    alloc: Global,
    text: &mut String,
    depth: u64,
    trace: &Traceback,
) -> Result<(), AllocError>
    ensures { OnOk result (string_bytes text.new ≡ string_bytes text.old ++ trace_text depth trace.now) }
{
    push_entries(alloc, text, depth, &trace.first)?;
    push_left_out(text, depth, trace.left_out, " more frames\n")?;
    push_entries(alloc, text, depth, &trace.last)?;
    push_end(text, depth, trace.end)
}

/// A note, in quotes; one that is no text is told as values are.
fn push_note(
    alloc: Global,
    text: &mut String,
    depth: u64,
    note: &Option<Value>,
) -> Result<(), AllocError>
    ensures { OnOk result (string_bytes text.new ≡ string_bytes text.old ++ note_line depth note.now) }
{
    push_behind(text, depth)?;
    text.push_str("Note: \"")?;
    push_str_of(alloc, text, false, note)?;
    text.push_str("\"\n")
}

/// The lines of some notes, in order.
fn push_each_note(
    alloc: Global,
    text: &mut String,
    depth: u64,
    notes: &[Option<Value>],
) -> Result<(), AllocError>
    ensures { OnOk result (string_bytes text.new ≡ string_bytes text.old ++ note_lines depth notes.now) }
{
    for note in notes {
        push_note(alloc, text, depth, note)?;
    }
    Ok(())
}

/// The lines of some notes, and how many more there are.
fn push_some_notes(
    alloc: Global,
    text: &mut String,
    depth: u64,
    notes: &Values,
) -> Result<(), AllocError>
    ensures { OnOk result (string_bytes text.new ≡ string_bytes text.old ++ some_notes depth notes.now) }
{
    push_each_note(alloc, text, depth, &notes.values)?;
    push_left_out(text, depth, notes.left_out, " more notes\n")
}

/// That notes can't be read.
fn push_no_notes(text: &mut String, depth: u64) -> Result<(), AllocError>
    ensures { OnOk result (string_bytes text.new ≡ string_bytes text.old ++ lost_notes depth) }
{
    push_behind(text, depth)?;
    text.push_str("... its notes are unreadable\n")
}

/// The lines of an exception's notes.
pub(crate) fn push_notes(
    alloc: Global,
    text: &mut String,
    depth: u64,
    notes: &Notes,
) -> Result<(), AllocError>
    ensures { OnOk result (string_bytes text.new ≡ string_bytes text.old ++ notes_text depth notes.now) }
{
    match notes {
        Notes::Without => Ok(()),
        Notes::Listed(values) => push_some_notes(alloc, text, depth, values),
        Notes::Unreadable => push_no_notes(text, depth),
    }
}
