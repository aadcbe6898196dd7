//! What a core's stacks are compared by.
ghost use Rattle.std.specs.Prelude.{◌≡◌, IfOk};
ghost use Rattle.core_triage.specs.Keys.{compared_in, compared_of, compared_frame, frame_compared, thread_compared};
ghost use Rattle.core_triage.specs.Keys.{compared_thread};

use elf64_core::Text;
use py_stacks::{Frame, StackTrace};
use std::alloc::{AllocError, Global};

/// What a frame is compared by.
#[derive(Debug, Drop, PartialEq, Eq, PartialOrd, Ord, Hash)]
pub struct FrameKey {
    /// The function's name.
    pub name: Text,
    /// The file's name.
    pub filename: Text,
    /// The line, as the frame has it.
    pub line: i32,
}

/// What a core's stacks are compared by: for each thread, in order, the function name, the file name and the line of
/// each of its frames. Ids of threads, their names, marks and locals are no part of it.
///
/// Keys are equal exactly where these lists are, texts by their bytes in UTF-8.
#[derive(Debug, Drop, PartialEq, Eq, PartialOrd, Ord, Hash)]
pub struct StackKey {
    /// The frames of each thread, the newest first.
    pub threads: Vec<Vec<FrameKey>>,
}

fn frame_key(frame: &Frame) -> Result<FrameKey, AllocError>
    ensures { IfOk result (λ key. frame_compared key ≡ compared_frame frame.now) }
{
    let name = frame.name.share()?;
    let filename = frame.filename.share()?;
    let line = frame.line;
    Ok(FrameKey {
        name,
        filename,
        line,
    })
}

fn thread_key(alloc: Global, trace: &StackTrace) -> Result<Vec<FrameKey>, AllocError>
    ensures { IfOk result (λ frames. thread_compared frames ≡ compared_thread trace.now) }
{
    let mut frames = Vec::new(alloc);
    for frame in &trace.frames {
        frames.push(frame_key(frame)?)?;
    }
    Ok(frames)
}

/// The key of a core's traces: the names and lines of their frames, copied. The one error is out of memory.
pub fn key_of(alloc: Global, traces: &[StackTrace]) -> Result<StackKey, AllocError>
    ensures { IfOk result (λ key. compared_in key ≡ compared_of traces.now) }
{
    let mut threads = Vec::new(alloc);
    for trace in traces {
        threads.push(thread_key(alloc, trace)?)?;
    }
    Ok(StackKey { threads })
}
