//! The values of locals, as text.
ghost use Rattle.std.specs.Prelude.{◌≡◌, ◌<◌, ◌*◌, ◌^◌, IfErr, OnOk, map};
ghost use Rattle.py_fields.specs.Sound.{IsSound};
ghost use Rattle.py_builtins.specs.Consulted.{ConsultingBy};
ghost use Rattle.py_stacks.specs.Frames.{call_of};
ghost use Rattle.py_stacks.specs.Threads.{trace_of};
ghost use Rattle.py_stacks.specs.Values.{IsOrLost, MarkedAs, StandsFor, by_value, call_visits, locals_visits};
ghost use Rattle.py_stacks.specs.Values.{trace_visits, traces_visits, value_text, value_visits, value_width};
ghost use Rattle.py_stacks.specs.Values.{with_value, with_values};

use crate::{Frame, LocalVariable, StackError, StackTrace};
use elf64_core::Text;
use process_memory::ProcessMemory;
use py_fields::Layout;
use py_objects::{ObjectError, format_variable};
use std::alloc::Global;

/// How wide values are shown for each level that is asked for.
const LEVEL_WIDTH: u64 = 128;

/// How wide values are shown at most.
const MOST_WIDTH: u64 = i64::MAX as u64;

/// How wide values are shown.
pub(crate) fn value_width(levels: u64) -> u64
    ensures { result ≡ value_width levels }
{
    let width = levels.saturating_mul(LEVEL_WIDTH);
    if width < MOST_WIDTH {
        width
    } else {
        MOST_WIDTH
    }
}

/// A question mark in place of an error. The one error is out of memory.
fn mark_for(alloc: Global, error: ObjectError) -> Result<Text, StackError>
    ensures { StandsFor error result }
{
    match error {
        ObjectError::OutOfMemory => Err(StackError::OutOfMemory),
        _ => Ok(Text::of(alloc, "?")?),
    }
}

/// The text, or a question mark in place of an error. The one error is out of memory.
fn text_or_mark(alloc: Global, shown: Result<Text, ObjectError>) -> Result<Text, StackError>
    ensures { MarkedAs shown result }
{
    match shown {
        Ok(text) => Ok(text),
        Err(error) => mark_for(alloc, error),
    }
}

/// The text of the value at an address within a width. At most 8 reads for each of its visits.
fn value_text<P: ProcessMemory>(
    alloc: Global,
    process: &mut P,
    layout: &Layout,
    addr: u64,
    width: u64,
) -> Result<Text, StackError>
    requires sound { IsSound layout.now }
    requires narrow { width < 2 ^ 63 }
    ensures { ConsultingBy layout.now (λ m. 8 * value_visits layout.now m width addr)
        (P.seen process.old) (P.seen process.new)
        (λ m. IsOrLost (value_text layout.now m width addr) result) }
{
    let mut visits = 0;
    let shown = format_variable(alloc, process, layout, addr, width as i64, &mut visits);
    text_or_mark(alloc, shown)
}

/// Gives a local the text of its value.
fn show_local<P: ProcessMemory>(
    alloc: Global,
    process: &mut P,
    layout: &Layout,
    width: u64,
    local: &mut LocalVariable,
) -> Result<(), StackError>
    requires sound { IsSound layout.now }
    requires narrow { width < 2 ^ 63 }
    ensures shown { ConsultingBy layout.now (λ m. 8 * value_visits layout.now m width local.old.addr)
        (P.seen process.old) (P.seen process.new)
        (λ m. OnOk result (local.new ≡ with_value (value_text layout.now m width) local.old)) }
    ensures lost { IfErr result (λ error. error ≡ StackError.OutOfMemory) }
{
    let text = value_text(alloc, process, layout, local.addr, width)?;
    local.repr = Some(text);
    Ok(())
}

/// Gives each local the text of its value.
fn show_locals<P: ProcessMemory>(
    alloc: Global,
    process: &mut P,
    layout: &Layout,
    width: u64,
    locals: &mut Vec<LocalVariable>,
) -> Result<(), StackError>
    requires sound { IsSound layout.now }
    requires narrow { width < 2 ^ 63 }
    ensures shown { ConsultingBy layout.now
        (λ m. 8 * locals_visits (value_visits layout.now m width) locals.old.items)
        (P.seen process.old) (P.seen process.new)
        (λ m. OnOk result (locals.new.items
        ≡ map (with_value (value_text layout.now m width)) locals.old.items)) }
    ensures lost { IfErr result (λ error. error ≡ StackError.OutOfMemory) }
{
    for local in locals.iter_mut() {
        show_local(alloc, process, layout, width, local)?;
    }
    Ok(())
}

/// Gives each local of a frame the text of its value.
fn show_frame<P: ProcessMemory>(
    alloc: Global,
    process: &mut P,
    layout: &Layout,
    width: u64,
    frame: &mut Frame,
) -> Result<(), StackError>
    requires sound { IsSound layout.now }
    requires narrow { width < 2 ^ 63 }
    ensures shown { ConsultingBy layout.now
        (λ m. 8 * call_visits (value_visits layout.now m width) (call_of frame.old))
        (P.seen process.old) (P.seen process.new)
        (λ m. OnOk result (call_of frame.new
        ≡ with_values (value_text layout.now m width) (call_of frame.old))) }
    ensures lost { IfErr result (λ error. error ≡ StackError.OutOfMemory) }
{
    match &mut frame.locals {
        None => Ok(()),
        Some(locals) => show_locals(alloc, process, layout, width, locals),
    }
}

/// Gives each local of a trace's frames the text of its value.
fn show_trace<P: ProcessMemory>(
    alloc: Global,
    process: &mut P,
    layout: &Layout,
    width: u64,
    trace: &mut StackTrace,
) -> Result<(), StackError>
    requires sound { IsSound layout.now }
    requires narrow { width < 2 ^ 63 }
    ensures shown { ConsultingBy layout.now
        (λ m. 8 * trace_visits (value_visits layout.now m width) (trace_of trace.old))
        (P.seen process.old) (P.seen process.new)
        (λ m. OnOk result (trace_of trace.new
        ≡ by_value (value_text layout.now m width) (trace_of trace.old))) }
    ensures lost { IfErr result (λ error. error ≡ StackError.OutOfMemory) }
{
    for frame in trace.frames.iter_mut() {
        show_frame(alloc, process, layout, width, frame)?;
    }
    Ok(())
}

/// Gives each local of traces the text of its value. At most 8 reads for each visit of these values.
pub(crate) fn show_traces<P: ProcessMemory>(
    alloc: Global,
    process: &mut P,
    layout: &Layout,
    width: u64,
    traces: &mut Vec<StackTrace>,
) -> Result<(), StackError>
    requires sound { IsSound layout.now }
    requires narrow { width < 2 ^ 63 }
    ensures shown { ConsultingBy layout.now
        (λ m. 8 * traces_visits (value_visits layout.now m width) (map trace_of traces.old.items))
        (P.seen process.old) (P.seen process.new)
        (λ m. OnOk result (map trace_of traces.new.items
        ≡ map (by_value (value_text layout.now m width)) (map trace_of traces.old.items))) }
    ensures lost { IfErr result (λ error. error ≡ StackError.OutOfMemory) }
{
    for trace in traces.iter_mut() {
        show_trace(alloc, process, layout, width, trace)?;
    }
    Ok(())
}
