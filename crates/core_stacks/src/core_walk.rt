//! The walk over a core's threads.
ghost use Rattle.core_stacks.specs.Answer.{Means, traced};
ghost use Rattle.core_stacks.specs.Sole.{Settles};

use image_memory::CoreDump;
use py_layout::{Layouts, Version};
use py_process::CoreError;
use py_stacks::{Addresses, StackTrace, get_stack_traces};
use std::alloc::Global;

/// The traces of the threads of the interpreter at a handed-in address, in the order of their chain.
///
/// The bytes are those of a core's file, and the layout is the one that covers the version. The threads
/// are the whole chain from the one that the interpreter names, to null, and the frames of each its whole
/// chain, to null, less the members that are skipped (`py_stacks::get_stack_traces`). A thread holds the lock
/// exactly where its id is the holder's (`py_stacks::get_gil_threadid`, by the handed-in address of the
/// lock). Lines are 0, and there are no locals and no names of threads.
///
/// The error is the first of these: `NotElf64`, `BadHeader`, `NoNotes` and `BadNote`
/// (`image_memory::CoreDump::new`); `UnsupportedVersion` where no layout covers the version; `Unreadable`,
/// `FrameLimit`, `ChainLimit` and
/// `ThreadLimit`, as `py_stacks::get_stack_traces` orders them: the lock's holder comes before the threads. Else
/// it is out of memory.
pub fn walk(
    alloc: Global,
    bytes: Vec<u8>,
    layouts: &Layouts,
    version: &Version,
    addresses: &Addresses,
) -> Result<Vec<StackTrace>, CoreError>
    // the answer is right, and what is right is the answer, out of memory aside
    ensures { Settles (Means bytes.items layouts.now version.now addresses.now) (traced result) }
{
    let core = CoreDump::new(alloc, bytes)?;
    let Some(layout) = layouts.choose(version) else {
        let version = version.share()?;
        return Err(CoreError::UnsupportedVersion { version });
    };
    let mut view = core.view();
    let (interpreter, lock) = (addresses.interpreter, addresses.lock);
    let traces = get_stack_traces(alloc, interpreter, &mut view, layout, lock, None)?;
    Ok(traces)
}
