//! Threads, as they are laid: the record, the C frame where there is one, and the frames.
ghost use Rattle.std.specs.Prelude.{◌≡◌, ◌<◌, ◌++◌, ◌^◌, ◌+◌, map, IfOk};
ghost use Rattle.std.specs.List.{AllByRecursion, sum_by};
ghost use Rattle.py_fields.specs.Sound.{IsSound};
ghost use Rattle.py_stacks.specs.Lines.{family_of};
ghost use Rattle.memory_builder.specs.Chains.{head_of, laid_chain};
ghost use Rattle.memory_builder.specs.Frames.{laid_frame};
ghost use Rattle.memory_builder.specs.Mirror.{frame_in, program_thread};
ghost use Rattle.object_builder.specs.Objects.{aligned, object};
ghost use Rattle.memory_builder.specs.Program.{Thread};
ghost use Rattle.memory_builder.specs.Sizes.{cframe_size, frame_size, rounded, thread_size};
ghost use Rattle.memory_builder.specs.Threads.{frame_field, laid_cframe, laid_thread, laid_threads, thread_writes};
ghost use Rattle.memory_builder.specs.Validity.{IsValidFrame};

use crate::frames::add_frame;
use crate::parts::{ProgramFrame, ProgramThread};
use crate::sizes::{cframe_size, frame_size, thread_size};
use crate::values::TypesAt;
use object_builder::{Value, Write, add_object, optional_write, rounded};
use py_fields::{CframeAt, Layout};
use std::alloc::{AllocError, Global};

/// The address of the first of frames that are laid from an address on, or 0 where there is none.
fn frames_head(at: u64, frames: &[ProgramFrame]) -> u64
    ensures { result ≡ head_of at (map frame_in frames.now) }
{
    match frames.first() {
        Some(_) => at,
        None => 0,
    }
}

/// Adds the frames of a thread, of which the first is to stand at an address. The one error is out of memory.
fn add_frames(
    alloc: Global,
    out: &mut Vec<u8>,
    layout: &Layout,
    types: TypesAt,
    at: u64,
    frames: &[ProgramFrame],
) -> Result<(), AllocError>
    requires sound { IsSound layout.now }
    requires valid { AllByRecursion (IsValidFrame (family_of layout.now.lines)) (map frame_in frames.now) }
    requires fits { at + sum_by (frame_size layout.now) (map frame_in frames.now) < 2 ^ 63 }
    ensures { IfOk result (λ _. out.new.items ≡ out.old.items
        ++ laid_chain (frame_size layout.now) (laid_frame layout.now types) at (map frame_in frames.now)) }
{
    let mut rest = frames;
    let mut here = at;
    while let Some((frame, later)) = rest.split_first() {
        let next = here + frame_size(alloc, layout, frame)?;
        add_frame(
            alloc,
            out,
            layout,
            types,
            here,
            frames_head(next, later),
            frame,
        )?;
        here = next;
        rest = later;
    }
    Ok(())
}

/// Adds a C frame that names the first frame. The one error is out of memory.
fn add_cframe(out: &mut Vec<u8>, cframe: Option<CframeAt>, first: u64) -> Result<(), AllocError>
    ensures { IfOk result (λ _. out.new.items ≡ out.old.items ++ laid_cframe cframe first) }
{
    let Some(at) = cframe else {
        return Ok(());
    };
    let writes = [Write {
        at: at.current,
        value: Value::U64(first),
    }];
    add_object(out, at.current as usize + 8, &writes)
}

/// Adds the record of a thread. The one error is out of memory.
fn add_thread_record(
    out: &mut Vec<u8>,
    layout: &Layout,
    next: u64,
    interp: u64,
    id: u64,
    frame: u64,
) -> Result<(), AllocError>
    requires { IsSound layout.now }
    ensures { IfOk result (λ _. out.new.items ≡ out.old.items
        ++ aligned (object layout.now.thread.size (thread_writes layout.now next interp id frame))) }
{
    let at = &layout.thread;
    let writes = [
        Write {
            at: at.next,
            value: Value::U64(next),
        },
        Write {
            at: at.interp,
            value: Value::U64(interp),
        },
        Write {
            at: at.id,
            value: Value::U64(id),
        },
        Write {
            at: at.frame,
            value: Value::U64(frame),
        },
        optional_write(at.native_id, Value::U64(id)),
    ];
    add_object(out, at.size as usize, &writes)
}

/// What the record of a thread says: the first frame, or where the C frame is that says it.
fn frame_field(cframe: Option<CframeAt>, cframe_at: u64, first: u64) -> u64
    ensures { result ≡ frame_field cframe cframe_at first }
{
    match cframe {
        Some(_) => cframe_at,
        None => first,
    }
}

/// Adds a thread that is to stand at an address, with its frames; `next` is the address of the one behind it in the
/// interpreter's chain, or 0. The one error is out of memory.
fn add_thread(
    alloc: Global,
    out: &mut Vec<u8>,
    layout: &Layout,
    types: TypesAt,
    interp: u64,
    at: u64,
    next: u64,
    thread: &ProgramThread,
) -> Result<(), AllocError>
    requires sound { IsSound layout.now }
    requires valid { AllByRecursion (IsValidFrame (family_of layout.now.lines)) (program_thread thread.now).frames }
    requires fits { at + thread_size layout.now (program_thread thread.now) < 2 ^ 63 }
    ensures { IfOk result (λ _. out.new.items ≡ out.old.items
        ++ laid_thread layout.now types interp at next (program_thread thread.now)) }
{
    let cframe_at = at + rounded(u64::from(layout.thread.size));
    let frames_at = cframe_at + cframe_size(layout.cframe);
    let first = frames_head(frames_at, &thread.frames);
    let frame = frame_field(layout.cframe, cframe_at, first);
    add_thread_record(out, layout, next, interp, thread.id, frame)?;
    add_cframe(out, layout.cframe, first)?;
    add_frames(alloc, out, layout, types, frames_at, &thread.frames)
}

/// The address of the first of threads that are laid from an address on, or 0 where there is none.
pub(crate) fn threads_head(at: u64, threads: &[ProgramThread]) -> u64
    ensures { result ≡ head_of at (map program_thread threads.now) }
{
    match threads.first() {
        Some(_) => at,
        None => 0,
    }
}

/// Adds threads, of which the first is to stand at an address. The one error is out of memory.
pub(crate) fn add_threads(
    alloc: Global,
    out: &mut Vec<u8>,
    layout: &Layout,
    types: TypesAt,
    interp: u64,
    at: u64,
    threads: &[ProgramThread],
) -> Result<(), AllocError>
    requires sound { IsSound layout.now }
    requires valid { AllByRecursion (λ (t : Thread).
        AllByRecursion (IsValidFrame (family_of layout.now.lines)) t.frames) (map program_thread threads.now) }
    requires fits { at + sum_by (thread_size layout.now) (map program_thread threads.now) < 2 ^ 63 }
    ensures { IfOk result (λ _. out.new.items ≡ out.old.items
        ++ laid_threads layout.now types interp at (map program_thread threads.now)) }
{
    let mut rest = threads;
    let mut here = at;
    while let Some((thread, later)) = rest.split_first() {
        let end = here + thread_size(alloc, layout, thread)?;
        let next = threads_head(end, later);
        add_thread(alloc, out, layout, types, interp, here, next, thread)?;
        here = end;
        rest = later;
    }
    Ok(())
}
