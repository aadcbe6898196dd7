//! The threads of an interpreter, each with its frames.
ghost use Rattle.std.specs.Prelude.{◌≡◌, ◌≤◌, ◌+◌, ℕ, Some, length, IsErrOf, IsTrue};
ghost use Rattle.py_fields.specs.Sound.{IsSound};
ghost use Rattle.py_builtins.specs.Consulted.{Consults, ConsultsBy};
ghost use Rattle.py_stacks.specs.StackError.{stack_fault};
ghost use Rattle.py_stacks.specs.Threads.{first_frame_at, native_id, thread_cost, thread_of_result, thread_step};
ghost use Rattle.py_stacks.specs.Threads.{threads_at, threads_cost, traces_at, traces_cost, traces_of_result};

use crate::asked::Asked;
use crate::frames::read_frames;
use crate::records::{Scratch, read_bytes};
use crate::{StackError, StackTrace};
use elf64_core::u64_in;
use process_memory::{ProcessMemory, word_past};
use py_fields::Layout;
use std::alloc::Global;

/// How many threads are walked at most.
const THREAD_LIMIT: usize = 4096;

/// The system's id of a thread, where the layout has it.
pub fn native_id(at: Option<u32>, thread: &[u8]) -> Option<u64>
    requires { (place : ℕ) → at ≡ Some place → place + 8 ≤ length thread.now }
    ensures { result ≡ native_id at thread.now }
{
    match at {
        Some(place) => Some(u64_in(thread, place as usize)),
        None => None,
    }
}

/// The first frame of a thread: the one that its record names, or the one that the C frame names which
/// its record names. `Unreadable` comes with the C frame's word. It takes no memory: out of memory comes only
/// where a read of the process may want it. At most 1 read.
#[tactic(auto, unfolding(crate::specs::Threads::first_frame_at))]
pub fn first_frame<P: ProcessMemory>(
    process: &mut P,
    layout: &Layout,
    thread: &[u8],
) -> Result<u64, StackError>
    requires { layout.now.thread.frame + 8 ≤ length thread.now }
    ensures answer { Consults layout.now stack_fault 1 (P.seen process.old) (P.seen process.new)
        (λ m. first_frame_at layout.now m thread.now) result }
    ensures memory { IsErrOf result StackError.OutOfMemory → IsTrue (P.seen process.old).may_want_memory }
{
    let named = u64_in(thread, layout.thread.frame as usize);
    match layout.cframe {
        None => Ok(named),
        Some(cframe) => {
            let current = word_past(process, named, cframe.current as u64)?;
            Ok(current)
        }
    }
}

/// The trace of the thread at an address, which does not say who holds the lock, and the address of the thread
/// after it. At most 2 reads, and those of its frames.
pub(crate) fn read_trace<P: ProcessMemory>(
    alloc: Global,
    process: &mut P,
    layout: &Layout,
    asked: Asked,
    at: u64,
    scratch: &mut Scratch,
) -> Result<(u64, StackTrace), StackError>
    requires sound { IsSound layout.now }
    ensures { ConsultsBy layout.now stack_fault
        (λ m. thread_cost asked layout.now m tt at) (P.seen process.old) (P.seen process.new)
        (λ m. thread_step asked layout.now m tt at) (thread_of_result result) }
{
    read_bytes(process, at, layout.thread.size, &mut scratch.thread)?;
    let first = first_frame(process, layout, &scratch.thread)?;
    let frames = read_frames(
        alloc,
        process,
        layout,
        asked,
        first,
        &mut scratch.member,
        &mut scratch.texts,
    )?;
    let thread_id = u64_in(&scratch.thread, layout.thread.id as usize);
    let next = u64_in(&scratch.thread, layout.thread.next as usize);
    let os_thread_id = native_id(layout.thread.native_id, &scratch.thread);
    let trace = StackTrace {
        pid: 0,
        thread_id,
        thread_name: None,
        os_thread_id,
        active: true,
        owns_gil: false,
        frames,
    };
    Ok((next, trace))
}

/// Walks the chain of threads from one on.
fn walk_threads<P: ProcessMemory>(
    alloc: Global,
    process: &mut P,
    layout: &Layout,
    asked: Asked,
    head: u64,
) -> Result<Vec<StackTrace>, StackError>
    requires sound { IsSound layout.now }
    ensures { ConsultsBy layout.now stack_fault
        (λ m. threads_cost asked layout.now m head) (P.seen process.old) (P.seen process.new)
        (λ m. threads_at asked layout.now m head) (traces_of_result result) }
{
    let mut scratch = Scratch::new(alloc);
    let mut traces = Vec::new(alloc);
    let mut at = head;
    while at != 0 {
        if traces.len() == THREAD_LIMIT {
            return Err(StackError::ThreadLimit);
        }
        let (next, trace) = read_trace(alloc, process, layout, asked, at, &mut scratch)?;
        traces.push(trace)?;
        at = next;
    }
    Ok(traces)
}

/// The traces of the threads of the interpreter at an address, in the order of their chain; none says who
/// holds the lock. At most 1 read, and those of the threads.
pub(crate) fn read_traces<P: ProcessMemory>(
    alloc: Global,
    process: &mut P,
    layout: &Layout,
    asked: Asked,
    interpreter: u64,
) -> Result<Vec<StackTrace>, StackError>
    requires sound { IsSound layout.now }
    ensures { ConsultsBy layout.now stack_fault (λ m. traces_cost asked layout.now m interpreter)
        (P.seen process.old) (P.seen process.new)
        (λ m. traces_at asked layout.now m interpreter) (traces_of_result result) }
{
    let head = word_past(process, interpreter, layout.interpreter.threads as u64)?;
    walk_threads(alloc, process, layout, asked, head)
}
