//! What a native frame tells of the Python frames that it runs.
ghost use Rattle.std.specs.Prelude.{◌≡◌, ◌++◌, IfOk, OnOk, map};
ghost use Rattle.native_frames.specs.Threads.{stack_shown_if};
ghost use Rattle.native_pairs.specs.Kinds.{function_kind, is_hidden};
ghost use Rattle.native_stacks.specs.Threads.{thread_shown};
ghost use Rattle.paired_stacks.specs.Frames.{code_at, frames_of, hidden_of, is_left_out, is_loop, is_step, name_of};
ghost use Rattle.paired_stacks.specs.Frames.{part_of, parts_from, parts_of, steps_of};

use crate::code::{OwnCode, is_own};
use core_unwind::Frame;
use native_frames::{NativeFrame, ThreadStack};
use native_pairs::{FunctionKind, Part, function_kind, is_hidden};
use native_stacks::NativeThread;
use std::alloc::{AllocError, Global};

/// The address by which the code of a frame is found: of a return address that of the last byte of the call.
fn code_at(frame: Frame) -> u64
    ensures { result ≡ code_at frame }
{
    if frame.is_exact {
        frame.pc
    } else {
        frame.pc.saturating_sub(1)
    }
}

/// What a frame of Python's own code is.
fn kind_of(native: &NativeFrame) -> FunctionKind
    ensures { result ≡ function_kind (name_of native.now) }
{
    match &native.function {
        Some(function) => function_kind(Some(function.name.as_bytes())),
        None => function_kind(None),
    }
}

fn is_loop(kind: FunctionKind) -> bool
    ensures { result ≡ is_loop kind }
{
    match kind {
        FunctionKind::Step => true,
        FunctionKind::Native => false,
        FunctionKind::LeftOut => false,
    }
}

/// Whether a frame is a call of the interpreter's loop, by its function's name.
fn is_step(own: OwnCode, native: &NativeFrame) -> bool
    ensures { result ≡ is_step own native.now }
{
    is_own(own, code_at(native.frame)) && is_loop(kind_of(native))
}

/// Whether a frame is hidden among Python's frames.
fn is_left_out(own: OwnCode, native: &NativeFrame) -> bool
    ensures { result ≡ is_left_out own native.now }
{
    let is_own = is_own(own, code_at(native.frame));
    match &native.function {
        Some(function) => is_hidden(is_own, Some(function.name.as_bytes())),
        None => is_hidden(is_own, None),
    }
}

/// The part of the stack that a frame has, which begins at this stack pointer.
fn part_of(own: OwnCode, from: Option<u64>, native: &NativeFrame) -> Part
    ensures { result ≡ part_of own from native.now }
{
    Part {
        is_own: is_own(own, code_at(native.frame)),
        from,
        to: native.frame.cfa,
    }
}

/// The frames of a stack; none where there is no stack.
pub fn frames_of(stack: &Option<ThreadStack>) -> &[NativeFrame]
    ensures { result.now ≡ frames_of (stack_shown_if stack.now) }
{
    match stack {
        Some(stack) => &stack.frames,
        None => &[],
    }
}

/// Adds the parts of frames, of which the newest begins at this stack pointer; each other one begins where the one
/// before it ends.
fn push_parts(
    parts: &mut Vec<Part>,
    own: OwnCode,
    start: Option<u64>,
    frames: &[NativeFrame],
) -> Result<(), AllocError>
    ensures { OnOk result (parts.new.items ≡ parts.old.items ++ parts_from own start frames.now) }
{
    let mut from = start;
    for native in frames {
        parts.push(part_of(own, from, native))?;
        from = native.frame.cfa;
    }
    Ok(())
}

/// The parts of the frames of a thread whose stack pointer is this.
pub(crate) fn parts_of(
    alloc: Global,
    own: OwnCode,
    start: Option<u64>,
    thread: &NativeThread,
) -> Result<Vec<Part>, AllocError>
    ensures { IfOk result (λ parts. parts.items ≡ parts_of own start (thread_shown thread.now)) }
{
    let mut parts = Vec::new(alloc);
    push_parts(&mut parts, own, start, frames_of(&thread.stack))?;
    push_parts(&mut parts, own, None, frames_of(&thread.guessed))?;
    Ok(parts)
}

/// Adds of each frame whether it is a call of the interpreter's loop.
fn push_steps(steps: &mut Vec<bool>, own: OwnCode, frames: &[NativeFrame]) -> Result<(), AllocError>
    ensures { OnOk result (steps.new.items ≡ steps.old.items ++ map (is_step own) frames.now) }
{
    for native in frames {
        steps.push(is_step(own, native))?;
    }
    Ok(())
}

/// The same of the frames of a thread.
pub(crate) fn steps_of(
    alloc: Global,
    own: OwnCode,
    thread: &NativeThread,
) -> Result<Vec<bool>, AllocError>
    ensures { IfOk result (λ steps. steps.items ≡ steps_of own (thread_shown thread.now)) }
{
    let mut steps = Vec::new(alloc);
    push_steps(&mut steps, own, frames_of(&thread.stack))?;
    push_steps(&mut steps, own, frames_of(&thread.guessed))?;
    Ok(steps)
}

/// Adds of each frame whether it is hidden.
fn push_hidden(
    hidden: &mut Vec<bool>,
    own: OwnCode,
    frames: &[NativeFrame],
) -> Result<(), AllocError>
    ensures { OnOk result (hidden.new.items ≡ hidden.old.items ++ map (is_left_out own) frames.now) }
{
    for native in frames {
        hidden.push(is_left_out(own, native))?;
    }
    Ok(())
}

/// The same of the frames of a thread.
pub(crate) fn hidden_of(
    alloc: Global,
    own: OwnCode,
    thread: &NativeThread,
) -> Result<Vec<bool>, AllocError>
    ensures { IfOk result (λ hidden. hidden.items ≡ hidden_of own (thread_shown thread.now)) }
{
    let mut hidden = Vec::new(alloc);
    push_hidden(&mut hidden, own, frames_of(&thread.stack))?;
    push_hidden(&mut hidden, own, frames_of(&thread.guessed))?;
    Ok(hidden)
}
