//! Traces as JSON.
ghost use Rattle.std.specs.Prelude.{◌≡◌, false, IfOk, string_bytes};
ghost use Rattle.serde_json.specs.View.{view};
ghost use Rattle.serde_json.specs.Written.{has_float};
ghost use Rattle.core_texts.specs.Tree.{frame_tree, frames_tree, local_tree, locals_tree, pretty_text, report_json};
ghost use Rattle.core_texts.specs.Tree.{report_tree, shown_tree, text_tree, trace_tree};

use elf64_core::Text;
use py_stacks::{Frame, LocalVariable, StackTrace};
use serde_json::{Value, json};
use std::alloc::{AllocError, Global};

/// The traces as JSON, on lines, with a line feed at the end: an array with an object for each thread, in
/// order.
///
/// The keys of an object are those of `py_stacks`' fields, in the order of their bytes, and a thread has besides
/// `process_info`, which is null. What is None is null. The one error is out of memory.
pub fn report_json(alloc: Global, traces: &[StackTrace]) -> Result<String, AllocError>
    ensures { IfOk result (λ text. string_bytes text ≡ report_json traces.now) }
{
    let value = traces_value(alloc, traces)?;
    let mut text = pretty(alloc, &value)?;
    text.push_str("\n")?;
    Ok(text)
}

/// The text of a value that has no float.
fn pretty(alloc: Global, value: &Value) -> Result<String, AllocError>
    requires { has_float (view value.now) ≡ false }
    ensures { IfOk result (λ text. string_bytes text ≡ pretty_text (view value.now)) }
{
    value.to_string_pretty(alloc)
}

fn traces_value(alloc: Global, traces: &[StackTrace]) -> Result<Value, AllocError>
    ensures { IfOk result (λ value. view value ≡ report_tree traces.now) }
{
    let mut values = Vec::new(alloc);
    for trace in traces {
        values.push(trace_value(alloc, trace)?)?;
    }
    Ok(Value::Array(values))
}

fn trace_value(alloc: Global, trace: &StackTrace) -> Result<Value, AllocError>
    ensures { IfOk result (λ value. view value ≡ trace_tree trace.now) }
{
    let frames = frames_value(alloc, &trace.frames)?;
    let thread_name = text_value(alloc, &trace.thread_name)?;
    json!(in alloc; {
        "active": trace.active,
        "frames": frames,
        "os_thread_id": trace.os_thread_id,
        "owns_gil": trace.owns_gil,
        "pid": trace.pid,
        "process_info": null,
        "thread_id": trace.thread_id,
        "thread_name": thread_name
    })
}

fn frames_value(alloc: Global, frames: &[Frame]) -> Result<Value, AllocError>
    ensures { IfOk result (λ value. view value ≡ frames_tree frames.now) }
{
    let mut values = Vec::new(alloc);
    for frame in frames {
        values.push(frame_value(alloc, frame)?)?;
    }
    Ok(Value::Array(values))
}

fn frame_value(alloc: Global, frame: &Frame) -> Result<Value, AllocError>
    ensures { IfOk result (λ value. view value ≡ frame_tree frame.now) }
{
    let locals = shown_value(alloc, &frame.locals)?;
    let module = text_value(alloc, &frame.module)?;
    let short_filename = text_value(alloc, &frame.short_filename)?;
    json!(in alloc; {
        "filename": frame.filename.as_str(),
        "is_entry": frame.is_entry,
        "is_shim_entry": frame.is_shim_entry,
        "line": frame.line,
        "locals": locals,
        "module": module,
        "name": frame.name.as_str(),
        "short_filename": short_filename
    })
}

/// The locals, where they were asked for.
fn shown_value(alloc: Global, locals: &Option<Vec<LocalVariable>>) -> Result<Value, AllocError>
    ensures { IfOk result (λ value. view value ≡ shown_tree locals.now) }
{
    match locals {
        Some(locals) => locals_value(alloc, locals),
        None => Ok(Value::Null),
    }
}

fn locals_value(alloc: Global, locals: &[LocalVariable]) -> Result<Value, AllocError>
    ensures { IfOk result (λ value. view value ≡ locals_tree locals.now) }
{
    let mut values = Vec::new(alloc);
    for local in locals {
        values.push(local_value(alloc, local)?)?;
    }
    Ok(Value::Array(values))
}

fn local_value(alloc: Global, local: &LocalVariable) -> Result<Value, AllocError>
    ensures { IfOk result (λ value. view value ≡ local_tree local.now) }
{
    let repr = text_value(alloc, &local.repr)?;
    json!(in alloc; {
        "addr": local.addr,
        "arg": local.arg,
        "name": local.name.as_str(),
        "repr": repr
    })
}

/// A text, or null.
fn text_value(alloc: Global, text: &Option<Text>) -> Result<Value, AllocError>
    ensures { IfOk result (λ value. view value ≡ text_tree text.now) }
{
    match text {
        Some(text) => Value::try_from_str(alloc, text.as_str()),
        None => Ok(Value::Null),
    }
}
