//! The texts of frames and of their locals.
ghost use Rattle.std.specs.Prelude.{◌≡◌, ◌++◌, IfOk, OnOk, encode_utf8_all, string_bytes, unwrap_or};
ghost use Rattle.core_texts.specs.Text.{frame_line, frame_text, frames_text, heading_of, line_text, local_text};
ghost use Rattle.core_texts.specs.Text.{locals_text, repr_text, shown_locals};

use elf64_core::Text;
use py_stacks::{Frame, LocalVariable};
use std::alloc::{AllocError, Global};

/// The line of a frame, and those of its locals, where they were asked for.
pub(crate) fn push_frame(text: &mut String, frame: &Frame) -> Result<(), AllocError>
    ensures { OnOk result (string_bytes text.new ≡ string_bytes text.old ++ frame_text frame.now) }
{
    push_frame_line(text, frame)?;
    push_shown(text, &frame.locals)
}

/// The lines of frames, and those of their locals, where they were asked for.
pub(crate) fn push_frames(text: &mut String, frames: &[Frame]) -> Result<(), AllocError>
    ensures { OnOk result (string_bytes text.new ≡ string_bytes text.old ++ frames_text frames.now) }
{
    for frame in frames {
        push_frame(text, frame)?;
    }
    Ok(())
}

/// The lines of frames, and those of their locals, where they were asked for. The one error is out of memory.
pub fn frames_text(alloc: Global, frames: &[Frame]) -> Result<String, AllocError>
    ensures { IfOk result (λ text. string_bytes text ≡ frames_text frames.now) }
{
    let mut text = String::new(alloc);
    push_frames(&mut text, frames)?;
    Ok(text)
}

fn push_frame_line(text: &mut String, frame: &Frame) -> Result<(), AllocError>
    ensures { OnOk result (string_bytes text.new ≡ string_bytes text.old ++ frame_line frame.now) }
{
    text.push_str("    ")?;
    text.push_str(frame.name.as_str())?;
    text.push_str(" (")?;
    text.push_str(file_of(frame))?;
    push_line(text, frame.line)?;
    text.push_str(")\n")
}

/// The shorter name of a frame's file, where there is one.
fn file_of(frame: &Frame) -> &str
    ensures { result.now ≡ encode_utf8_all (unwrap_or frame.now.short_filename frame.now.filename) }
{
    match &frame.short_filename {
        Some(file) => file.as_str(),
        None => frame.filename.as_str(),
    }
}

/// A line's number, where it is known.
fn push_line(text: &mut String, line: i32) -> Result<(), AllocError>
    ensures { OnOk result (string_bytes text.new ≡ string_bytes text.old ++ line_text line) }
{
    if line == 0 {
        return Ok(());
    }
    write!(text, ":{line}")
}

/// The lines of locals, where they were asked for.
fn push_shown(text: &mut String, locals: &Option<Vec<LocalVariable>>) -> Result<(), AllocError>
    ensures { OnOk result (string_bytes text.new ≡ string_bytes text.old ++ shown_locals locals.now) }
{
    match locals {
        Some(locals) => push_locals(text, locals),
        None => Ok(()),
    }
}

/// The lines of locals, with a heading before the first argument, and one before the first that is none.
fn push_locals(text: &mut String, locals: &[LocalVariable]) -> Result<(), AllocError>
    ensures { OnOk result (string_bytes text.new ≡ string_bytes text.old ++ locals_text locals.now) }
{
    let mut arguments = false;
    let mut others = false;
    for local in locals {
        push_heading(text, local.arg, arguments, others)?;
        push_local(text, local)?;
        arguments = arguments || local.arg;
        others = others || !local.arg;
    }
    Ok(())
}

/// The heading of arguments or of others, where none stands before.
fn push_heading(
    text: &mut String,
    arg: bool,
    arguments: bool,
    others: bool,
) -> Result<(), AllocError>
    ensures { OnOk result (string_bytes text.new ≡ string_bytes text.old ++ heading_of arg arguments others) }
{
    if arg && !arguments {
        return text.push_str("        Arguments:\n");
    }
    if !arg && !others {
        return text.push_str("        Locals:\n");
    }
    Ok(())
}

/// The line of a local.
fn push_local(text: &mut String, local: &LocalVariable) -> Result<(), AllocError>
    ensures { OnOk result (string_bytes text.new ≡ string_bytes text.old ++ local_text local.now) }
{
    text.push_str("            ")?;
    text.push_str(local.name.as_str())?;
    text.push_str(": ")?;
    push_repr(text, &local.repr)?;
    text.push_str("\n")
}

/// A value, or a question mark where it is not shown.
fn push_repr(text: &mut String, repr: &Option<Text>) -> Result<(), AllocError>
    ensures { OnOk result (string_bytes text.new ≡ string_bytes text.old ++ repr_text repr.now) }
{
    match repr {
        Some(repr) => text.push_str(repr.as_str()),
        None => text.push_str("?"),
    }
}
