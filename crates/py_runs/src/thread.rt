//! The runs of a thread.
ghost use Rattle.std.specs.Prelude.{◌≡◌, ◌+◌, ◌*◌, IfOk, Some};
ghost use Rattle.process_memory.specs.Seen.{Reading};
ghost use Rattle.py_runs.specs.Members.{current_of};
ghost use Rattle.py_runs.specs.Runs.{bordered, has_shims, runs_at, runs_by, spans_by};

use crate::c_frame::read_c_frames;
use crate::cut::{Run, Span, c_runs, plain_runs, shim_runs, spans_of};
use crate::found::word_known;
use crate::member::read_members;
use crate::run_rule::RunEnd;
use process_memory::ProcessMemory;
use py_fields::{CframeAt, Layout};
use std::alloc::{AllocError, Global};

/// How many C frames more than frames are met at most: a run has one at least, and a few C frames may have no run.
const MORE_C_FRAMES: u128 = 16;

/// Whether frames at which a run ends are no Python function's.
fn has_shims(end: RunEnd) -> bool
    ensures { result ≡ has_shims end }
{
    match end {
        RunEnd::Each => false,
        RunEnd::Entry { .. } => false,
        RunEnd::Shim { .. } => true,
    }
}

/// The newest frame, by what a thread names. At most one read.
fn current_of<P: ProcessMemory>(
    process: &mut P,
    at: Option<CframeAt>,
    named: u64,
) -> Result<Option<u64>, AllocError>
    ensures { Reading 1 (P.seen process.old) (P.seen process.new)
        (λ m. IfOk result (λ first. first ≡ current_of m at named)) }
{
    match at {
        Some(at) => word_known(process, named, at.current),
        None => Ok(Some(named)),
    }
}

/// The runs from a frame on, without their borders.
fn spans_by<P: ProcessMemory>(
    alloc: Global,
    process: &mut P,
    layout: &Layout,
    end: RunEnd,
    count: u64,
    first: Option<u64>,
) -> Result<Vec<Span>, AllocError>
    ensures { Reading (2 * count) (P.seen process.old) (P.seen process.new)
        (λ m. IfOk result (λ spans. spans.items ≡ spans_by layout.now end m count first)) }
{
    match first {
        Some(first) => {
            let members = read_members(alloc, process, layout, end, count, first)?;
            spans_of(alloc, has_shims(end), &members)
        }
        None => Ok(Vec::new(alloc)),
    }
}

/// Runs with their borders, of a thread of whose frames so many are asked for.
fn bordered<P: ProcessMemory>(
    alloc: Global,
    process: &mut P,
    end: RunEnd,
    count: u64,
    named: u64,
    spans: &[Span],
) -> Result<Vec<Run>, AllocError>
    ensures { Reading (2 * count + 32) (P.seen process.old) (P.seen process.new)
        (λ m. IfOk result (λ runs. runs.items ≡ bordered end m count named spans.now)) }
{
    match end {
        RunEnd::Each => plain_runs(alloc, spans),
        RunEnd::Entry {
            current,
            previous,
            ..
        } => {
            let most = count as u128 + MORE_C_FRAMES;
            let frames = read_c_frames(alloc, process, current, previous, most, named)?;
            c_runs(alloc, &frames, spans)
        }
        RunEnd::Shim { .. } => shim_runs(alloc, spans),
    }
}

/// The runs of a thread that names this.
fn runs_by<P: ProcessMemory>(
    alloc: Global,
    process: &mut P,
    layout: &Layout,
    end: RunEnd,
    count: u64,
    named: u64,
) -> Result<Vec<Run>, AllocError>
    ensures { Reading (4 * count + 33) (P.seen process.old) (P.seen process.new)
        (λ m. IfOk result (λ runs. runs.items ≡ runs_by layout.now end m count (Some named))) }
{
    let first = current_of(process, layout.cframe, named)?;
    let spans = spans_by(alloc, process, layout, end, count, first)?;
    bordered(alloc, process, end, count, named, &spans)
}

/// The runs of the thread whose record stands at an address, from the newest on, of its first `count` frames: how many
/// Python frames each has, and the address of its border, where it has one. Frames that stand for no Python function,
/// at which runs end from 3.12 on, don't count among the frames of a run.
///
/// The runs end early where a member can't be read. The one error is out of memory. At most four reads for each frame
/// that is asked for, and 34 more: in 3.11 at most 16 C frames more than frames are met.
pub fn read_runs<P: ProcessMemory>(
    alloc: Global,
    process: &mut P,
    layout: &Layout,
    end: RunEnd,
    thread: u64,
    count: u64,
) -> Result<Vec<Run>, AllocError>
    ensures { Reading (4 * count + 34) (P.seen process.old) (P.seen process.new)
        (λ m. IfOk result (λ runs. runs.items ≡ runs_at layout.now end m thread count)) }
{
    match word_known(process, thread, layout.thread.frame)? {
        Some(named) => runs_by(alloc, process, layout, end, count, named),
        None => Ok(Vec::new(alloc)),
    }
}
