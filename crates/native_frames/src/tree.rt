//! A native stack as a JSON value.
ghost use Rattle.std.specs.Prelude.{◌≡◌, IfOk, option_copied, string_bytes};
ghost use Rattle.serde_json.specs.View.{view};
ghost use Rattle.native_frames.specs.Text.{address_text, guess_text};
ghost use Rattle.native_frames.specs.Threads.{stack_shown};
ghost use Rattle.native_frames.specs.Trees.{address_tree, end_address, end_kind, file_tree, frame_tree, frames_tree};
ghost use Rattle.native_frames.specs.Trees.{end_tree, function_name_tree, mark_tree, missing_tree, name_tree};
ghost use Rattle.native_frames.specs.Trees.{offset_tree};
ghost use Rattle.native_frames.specs.Trees.{place_address, place_file, stack_tree};

use crate::files::path_of;
use crate::stacks::{Function, NativeFrame, ThreadStack};
use crate::text::{first_frames, frames_between, guess_text, last_frames};
use core_unwind::{CodePlace, End, Limit, Mark, Refusal};
use elf64_core::Name;
use serde_json::{Value, json};
use std::alloc::{AllocError, Global};

/// An address: `0x` and lower-case hexadecimal digits.
fn address_text(alloc: Global, address: u64) -> Result<String, AllocError>
    ensures { IfOk result (λ text. string_bytes text ≡ address_text address) }
{
    format!(in alloc; "0x{address:x}")
}

/// An address, or null.
fn address_value(alloc: Global, address: Option<u64>) -> Result<Value, AllocError>
    ensures { IfOk result (λ value. view value ≡ address_tree address) }
{
    match address {
        Some(address) => {
            let text = address_text(alloc, address)?;
            Value::try_from_str(alloc, text.as_str())
        }
        None => Ok(Value::Null),
    }
}

/// A name as text.
fn name_value(alloc: Global, name: &Name) -> Result<Value, AllocError>
    ensures { IfOk result (λ value. view value ≡ name_tree name.now) }
{
    let text = name.lossy(alloc)?;
    Value::try_from_str(alloc, text.as_str())
}

/// A path, or null.
fn path_value(alloc: Global, path: Option<&Name>) -> Result<Value, AllocError>
    ensures { IfOk result (λ value. view value ≡ missing_tree (option_copied path.entry)) }
{
    match path {
        Some(path) => name_value(alloc, path),
        None => Ok(Value::Null),
    }
}

/// The path of the file of a number, or null.
fn file_value(alloc: Global, files: &[Name], file: Option<usize>) -> Result<Value, AllocError>
    ensures { IfOk result (λ value. view value ≡ file_tree files.now file) }
{
    match file {
        Some(file) => path_value(alloc, path_of(files, file)),
        None => Ok(Value::Null),
    }
}

/// The name of a function, or null.
fn function_value(alloc: Global, function: &Option<Function>) -> Result<Value, AllocError>
    ensures { IfOk result (λ value. view value ≡ function_name_tree function.now) }
{
    match function {
        Some(function) => name_value(alloc, &function.name),
        None => Ok(Value::Null),
    }
}

/// How far behind the start of its function a frame stands, or null.
fn offset_value(function: &Option<Function>) -> Value
    ensures { view result ≡ offset_tree function.now }
{
    match function {
        Some(function) => Value::from(function.offset),
        None => Value::Null,
    }
}

/// The file of a place.
fn place_file(place: Option<CodePlace>) -> Option<usize>
    ensures { result ≡ place_file place }
{
    match place {
        Some(place) => Some(place.file),
        None => None,
    }
}

/// The address of a place in its file.
fn place_address(place: Option<CodePlace>) -> Option<u64>
    ensures { result ≡ place_address place }
{
    match place {
        Some(place) => Some(place.address),
        None => None,
    }
}

/// By what something was found, or null.
fn mark_value(alloc: Global, mark: Option<Mark>) -> Result<Value, AllocError>
    ensures { IfOk result (λ value. view value ≡ mark_tree mark) }
{
    match mark {
        Some(mark) => Value::try_from_str(alloc, guess_text(mark)),
        None => Ok(Value::Null),
    }
}

/// A frame.
fn frame_value(alloc: Global, files: &[Name], frame: &NativeFrame) -> Result<Value, AllocError>
    ensures { IfOk result (λ value. view value ≡ frame_tree files.now frame.now) }
{
    let address = address_value(alloc, place_address(frame.frame.place))?;
    let cfa = address_value(alloc, frame.frame.cfa)?;
    let file = file_value(alloc, files, place_file(frame.frame.place))?;
    let function = function_value(alloc, &frame.function)?;
    let mark = mark_value(alloc, frame.frame.mark)?;
    let offset = offset_value(&frame.function);
    let pc = address_value(alloc, Some(frame.frame.pc))?;
    json!(in alloc; {
        "address": address,
        "cfa": cfa,
        "exact": frame.frame.is_exact,
        "file": file,
        "function": function,
        "mark": mark,
        "offset": offset,
        "pc": pc,
        "signal": frame.frame.is_signal
    })
}

/// Frames, in order.
fn frames_value(alloc: Global, files: &[Name], frames: &[NativeFrame]) -> Result<Value, AllocError>
    ensures { IfOk result (λ value. view value ≡ frames_tree files.now frames.now) }
{
    let mut values = Vec::new(alloc);
    for frame in frames {
        values.push(frame_value(alloc, files, frame)?)?;
    }
    Ok(Value::Array(values))
}

/// How a stack ends, as a word.
fn end_kind(end: End) -> &'static str
    ensures { result.now ≡ end_kind end }
{
    match end {
        End::Whole => "whole",
        End::NoTable { .. } => "no table",
        End::NoFile { .. } => "no file",
        End::Unreadable { .. } => "unreadable",
        End::Refused(Refusal::Table(_)) => "bad table",
        End::Refused(Refusal::Record(_)) => "bad record",
        End::Refused(Refusal::Row(_)) => "bad rules",
        End::Refused(Refusal::Cfa) => "no frame address",
        End::Refused(Refusal::ReturnAddress) => "no return address",
        End::NotAbove => "not above",
        End::Cut(Limit::Frames) => "cut at frames",
        End::Cut(Limit::Signals) => "cut at signals",
        End::Cut(Limit::Bytes) => "cut at rules",
    }
}

/// The address at which a stack ends, where its end names one.
fn end_address(end: End) -> Option<u64>
    ensures { result ≡ end_address end }
{
    match end {
        End::NoTable { at } => Some(at),
        End::NoFile { at } => Some(at),
        End::Unreadable { at } => Some(at),
        End::Whole => None,
        End::Refused(_) => None,
        End::NotAbove => None,
        End::Cut(_) => None,
    }
}

/// How a stack ends.
fn end_value(
    alloc: Global,
    files: &[Name],
    end: End,
    missing: Option<usize>,
) -> Result<Value, AllocError>
    ensures { IfOk result (λ value. view value ≡ end_tree files.now end missing) }
{
    let at = address_value(alloc, end_address(end))?;
    let file = file_value(alloc, files, missing)?;
    let kind = end_kind(end);
    json!(in alloc; {
        "at": at,
        "file": file,
        "kind": kind
    })
}

/// A stack as a JSON value: `frames`, its first `limit` frames; `between`, how many stand behind them; `last`, its last
/// `limit`; `end`, how it ends; `guess`, by what its newest frame was guessed, or null. `files` are the paths by which
/// frames name files.
///
/// The keys of an object stand in the order of their bytes. The one error is out of memory.
pub fn stack_value(
    alloc: Global,
    files: &[Name],
    limit: usize,
    stack: &ThreadStack,
) -> Result<Value, AllocError>
    ensures { IfOk result (λ value. view value ≡ stack_tree files.now limit (stack_shown stack.now)) }
{
    let frames = stack.frames.as_slice();
    let between = frames_between(frames, limit) as u64;
    let end = end_value(alloc, files, stack.end, stack.missing)?;
    let guess = mark_value(alloc, stack.guess)?;
    let first = frames_value(alloc, files, first_frames(frames, limit))?;
    let last = frames_value(alloc, files, last_frames(frames, limit))?;
    json!(in alloc; {
        "between": between,
        "end": end,
        "frames": first,
        "guess": guess,
        "last": last
    })
}
