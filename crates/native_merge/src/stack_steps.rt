//! The Python frames that a step of the interpreter takes.
ghost use Rattle.std.specs.Prelude.{◌≡◌, ◌+◌, ◌≤◌, ◌++◌, ◌<◌, ◌^◌, length, drop, IfOk, IfErr, OnOk};
ghost use Rattle.native_merge.specs.Gathered.{capped, taken_at, width_at};
ghost use Rattle.native_merge.specs.PythonFrames.{calls, is_marked};
ghost use Rattle.native_merge.specs.StackParts.{step_len};

use crate::MergeError;
use crate::frame_copies::copy_frame;
use py_stacks::Frame;
use std::alloc::Global;

/// Whether a frame ends a part: a C call entered it, or its caller is not shown.
fn is_marked(frame: &Frame) -> bool
    ensures { result ≡ is_marked frame.now }
{
    frame.is_entry || frame.is_shim_entry
}

/// The place behind the next marked frame from a place on; one past the end where none is left.
fn step_end(frames: &[Frame], from: usize) -> usize
    requires { from ≤ length frames.now }
    ensures { result ≡ from + step_len is_marked (drop from frames.now) }
{
    let mut at = from;
    while at < frames.len() {
        if is_marked(&frames[at]) {
            return at + 1;
        }
        at += 1;
    }
    frames.len() + 1
}

/// Adds copies of Python frames.
pub(crate) fn add_copies(
    alloc: Global,
    frames: &[Frame],
    made: &mut Vec<Frame>,
) -> Result<(), MergeError>
    ensures added { OnOk result (calls made.new.items ≡ calls made.old.items ++ calls frames.now) }
    ensures refused { IfErr result (λ error. error ≡ MergeError.OutOfMemory) }
{
    for frame in frames {
        made.push(copy_frame(alloc, frame)?)?;
    }
    Ok(())
}

/// Takes the Python frames of a step: those from the cursor on, up to and with the next marked one, or all that are
/// left. The answer is where the cursor then stands.
pub(crate) fn take_step(
    alloc: Global,
    frames: &[Frame],
    cursor: u64,
    made: &mut Vec<Frame>,
) -> Result<u64, MergeError>
    ensures next { IfOk result (λ next. next ≡ capped (cursor + width_at frames.now cursor)) }
    ensures taken { OnOk result (calls made.new.items ≡ calls made.old.items ++ taken_at frames.now cursor) }
    ensures refused { IfErr result (λ error. error ≡ MergeError.OutOfMemory) }
    ensures short { length frames.now < 2 ^ 64 }
{
    if cursor >= frames.len() as u64 {
        return Ok(cursor.saturating_add(1));
    }
    let from = cursor as usize;
    let end = step_end(frames, from);
    add_copies(alloc, &frames[from..end.min(frames.len())], made)?;
    Ok(end as u64)
}
