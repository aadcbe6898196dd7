//! The lines of frames, and of members that have none.
ghost use Rattle.std.specs.Prelude.{◌≡◌, ◌++◌, OnOk, map, string_bytes};
ghost use Rattle.std.specs.List.{concat};
ghost use Rattle.repr_json.specs.Shown.{text_in};
ghost use Rattle.salvage_texts.specs.Standings.{fault_text, frame_line, kept_text, local_text, locals_fault};
ghost use Rattle.salvage_texts.specs.Standings.{locals_text, member_line, shown_locals, standing_line, standing_text};
ghost use Rattle.salvage_texts.specs.Standings.{standings_text, value_text, why_text};

use crate::ends::push_missing;
use crate::escape::push_escaped;
use crate::line::push_line;
use elf64_core::Text;
use py_builtins::ObjectError;
use py_fronts::{Standing, shown_line};
use py_stacks::{Frame, LocalVariable, StackError};
use repr_json::ShownValues;
use std::alloc::{AllocError, Global};

/// A frame's function, file and line.
fn push_frame_line(alloc: Global, text: &mut String, frame: &Frame) -> Result<(), AllocError>
    ensures { OnOk result (string_bytes text.new ≡ string_bytes text.old ++ frame_line frame.now) }
{
    text.push_str("    ")?;
    push_escaped(alloc, text, true, &frame.name)?;
    text.push_str(" (")?;
    push_escaped(alloc, text, true, &frame.filename)?;
    push_line(text, shown_line(frame.line))?;
    text.push_str(")\n")
}

/// A value, or a question mark where it is not shown.
fn push_value(alloc: Global, text: &mut String, value: &Option<Text>) -> Result<(), AllocError>
    ensures { OnOk result (string_bytes text.new ≡ string_bytes text.old ++ value_text value.now) }
{
    match value {
        Some(value) => push_escaped(alloc, text, false, value),
        None => text.push_str("?"),
    }
}

/// The value of a local, where one is kept for its address.
fn push_kept(
    alloc: Global,
    text: &mut String,
    values: &ShownValues,
    local: &LocalVariable,
) -> Result<(), AllocError>
    ensures { OnOk result (string_bytes text.new ≡ string_bytes text.old
        ++ kept_text (text_in values.now local.now.addr) (value_text local.now.repr)) }
{
    match values.text_at(local.addr) {
        Some(kept) => text.push_str(kept),
        None => push_value(alloc, text, &local.repr),
    }
}

/// The line of a local.
fn push_local(
    alloc: Global,
    text: &mut String,
    values: &ShownValues,
    local: &LocalVariable,
) -> Result<(), AllocError>
    ensures { OnOk result (string_bytes text.new ≡ string_bytes text.old ++ local_text values.now local.now) }
{
    text.push_str("        ")?;
    push_escaped(alloc, text, true, &local.name)?;
    text.push_str(": ")?;
    push_kept(alloc, text, values, local)?;
    text.push_str("\n")
}

/// The lines of locals.
fn push_locals(
    alloc: Global,
    text: &mut String,
    values: &ShownValues,
    locals: &[LocalVariable],
) -> Result<(), AllocError>
    ensures { OnOk result (string_bytes text.new ≡ string_bytes text.old ++ locals_text values.now locals.now) }
{
    for local in locals {
        push_local(alloc, text, values, local)?;
    }
    Ok(())
}

/// The lines of locals, where they were asked for and are there.
fn push_shown_locals(
    alloc: Global,
    text: &mut String,
    values: &ShownValues,
    locals: &Option<Vec<LocalVariable>>,
) -> Result<(), AllocError>
    ensures { OnOk result (string_bytes text.new ≡ string_bytes text.old ++ shown_locals values.now locals.now) }
{
    match locals {
        Some(locals) => push_locals(alloc, text, values, locals),
        None => Ok(()),
    }
}

/// Why a frame's locals can't be read.
fn push_fault(text: &mut String, fault: &StackError) -> Result<(), AllocError>
    ensures { OnOk result (string_bytes text.new ≡ string_bytes text.old ++ fault_text fault.now) }
{
    match fault {
        StackError::Unreadable { addr, len } => push_missing(text, *addr, *len),
        StackError::LocalsLimit { .. } => text.push_str("more than 65535"),
        _ => text.push_str("with a bad name or count"),
    }
}

/// The line of why a frame's locals were asked for and are not there.
fn push_locals_fault(text: &mut String, fault: &Option<StackError>) -> Result<(), AllocError>
    ensures { OnOk result (string_bytes text.new ≡ string_bytes text.old ++ locals_fault fault.now) }
{
    let Some(fault) = fault else {
        return Ok(());
    };
    text.push_str("        ... locals ")?;
    push_fault(text, fault)?;
    text.push_str("\n")
}

/// Why a member has no names.
fn push_why(text: &mut String, why: &ObjectError) -> Result<(), AllocError>
    ensures { OnOk result (string_bytes text.new ≡ string_bytes text.old ++ why_text why.now) }
{
    match why {
        ObjectError::Unreadable { addr, len } => push_missing(text, *addr, *len),
        ObjectError::TooLong { .. } => text.push_str("a name that is too long"),
        _ => text.push_str("a name that is no text"),
    }
}

/// The line of a member without names. No frame's line is one, whatever its names are.
fn push_member(text: &mut String, why: &ObjectError) -> Result<(), AllocError>
    ensures { OnOk result (string_bytes text.new ≡ string_bytes text.old ++ member_line why.now) }
{
    text.push_str("    ? ")?;
    push_why(text, why)?;
    text.push_str("\n")
}

/// Appends the line of what stands for a member of a chain of frames: a frame's function, file and line, or why the
/// member has no names. The one error is out of memory.
pub fn push_standing_line(
    alloc: Global,
    text: &mut String,
    standing: &Standing,
) -> Result<(), AllocError>
    ensures { OnOk result (string_bytes text.new ≡ string_bytes text.old ++ standing_line standing.now) }
{
    match standing {
        Standing::Frame { frame, .. } => push_frame_line(alloc, text, frame),
        Standing::Member { why, .. } => push_member(text, why),
    }
}

/// The lines of what stands for a member.
fn push_standing(
    alloc: Global,
    text: &mut String,
    values: &ShownValues,
    standing: &Standing,
) -> Result<(), AllocError>
    ensures { OnOk result (string_bytes text.new ≡ string_bytes text.old ++ standing_text values.now standing.now) }
{
    match standing {
        Standing::Frame { frame, fault } => {
            push_frame_line(alloc, text, frame)?;
            push_shown_locals(alloc, text, values, &frame.locals)?;
            push_locals_fault(text, fault)
        }
        Standing::Member { why, .. } => push_member(text, why),
    }
}

/// The lines of what stands for some members, in order.
pub(crate) fn push_standings(
    alloc: Global,
    text: &mut String,
    values: &ShownValues,
    standings: &[Standing],
) -> Result<(), AllocError>
    ensures { OnOk result (string_bytes text.new
        ≡ string_bytes text.old ++ standings_text values.now standings.now) }
{
    for standing in standings {
        push_standing(alloc, text, values, standing)?;
    }
    Ok(())
}
