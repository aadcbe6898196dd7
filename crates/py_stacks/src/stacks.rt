//! The stacks of an interpreter, with the holder of its lock, and those of one thread.
ghost use Rattle.std.specs.Prelude.{◌≡◌, ◌≤◌, ◌+◌, ◌*◌, IfOk, List, Ok, map};
ghost use Rattle.process_memory.specs.Memory.{byte_at};
ghost use Rattle.process_memory.specs.Seen.{Answers};
ghost use Rattle.process_memory.specs.Walk.{first_fault};
ghost use Rattle.process_memory.specs.Faults.{FaultsAre};
ghost use Rattle.py_fields.specs.Sound.{IsSound};
ghost use Rattle.py_builtins.specs.Consulted.{ConsultingBy, ConsultsBy};
ghost use Rattle.py_stacks.specs.StackError.{stack_fault};
ghost use Rattle.py_stacks.specs.Asking.{asked_by, asks};
ghost use Rattle.py_stacks.specs.Met.{details_walked, locals_walked, members_walked, stacks_bound};
ghost use Rattle.py_stacks.specs.Met.{thread_bound, thread_details, thread_locals, thread_members, trace_most};
ghost use Rattle.py_stacks.specs.Met.{traces_most};
ghost use Rattle.py_stacks.specs.Threads.{IsTraceOf, Trace, thread_cost, thread_faults, trace_at};
ghost use Rattle.py_stacks.specs.Threads.{trace_of, trace_of_result, traces_of_result};
ghost use Rattle.py_stacks.specs.Stacks.{AreStacks, by_holder, stacks_at, stacks_cost, stacks_faults};

use crate::asked::Asked;
use crate::config::{Config, asked_by};
use crate::holder::get_gil_threadid;
use crate::records::Scratch;
use crate::threads::{read_trace, read_traces};
use crate::{LineNo, StackError, StackTrace};
use process_memory::ProcessMemory;
use py_fields::Layout;
use std::alloc::Global;

/// Marks each trace by the id of the thread that holds the lock.
fn mark_holder(traces: &mut Vec<StackTrace>, holder_id: u64)
    ensures { map trace_of traces.new.items ≡ map (by_holder holder_id) (map trace_of traces.old.items) }
{
    for trace in traces.iter_mut() {
        trace.owns_gil = trace.thread_id == holder_id;
    }
}

/// Reads the holder of the lock, walks the threads, and marks them.
fn walk_stack_traces<P: ProcessMemory>(
    alloc: Global,
    process: &mut P,
    layout: &Layout,
    asked: Asked,
    lock: u64,
    interpreter: u64,
) -> Result<Vec<StackTrace>, StackError>
    requires sound { IsSound layout.now }
    ensures { ConsultsBy layout.now stack_fault (λ m. stacks_cost asked layout.now m lock interpreter)
        (P.seen process.old) (P.seen process.new)
        (λ m. stacks_at asked layout.now m lock interpreter) (traces_of_result result) }
{
    let holder_id = get_gil_threadid(lock, process, layout)?;
    let mut traces = read_traces(alloc, process, layout, asked, interpreter)?;
    mark_holder(&mut traces, holder_id);
    Ok(traces)
}

/// The traces of an interpreter's threads, in the order of their chain, each marked by the holder of the
/// lock.
///
/// The holder is the thread that holds the lock at the address `lock` (`get_gil_threadid`), and a trace holds
/// the lock exactly where its id is the holder's; with no holder a thread of id 0 does. The traces are those of
/// the whole chain from the thread that the interpreter names, to null, each with the frames of its whole
/// chain of callers, to null, less the members that are skipped: whose file or function name is no text or is
/// not in memory, or whose file name is empty or `<shim>`. A frame is marked where the next member is skipped
/// or there is none. A trace's process is 0, it counts as active, and it has no name; a frame has no module and
/// no shorter file name.
///
/// A frame's line is 0 where none is asked for or without a `Config`, the first line of its code under `First`,
/// and under `LastInstruction` the line that the line table of its code gives at its last instruction
/// (`py_lines::line_at`): 0 where it gives none there, or where the table is refused
/// (`py_objects::copy_bytes`) or a part of it is not in memory.
///
/// Its locals are there where `dump_locals` is not 0: those of the variables of its code, in order, whose slot is
/// neither 0 nor 1. A slot's lowest bit is no part of the address that it holds; a variable is an argument where
/// there are more arguments than its index, or their count is negative; its name is that which the tuple of names
/// has at its index, whatever length the tuple states (`py_objects::copy_string`). A value is not shown.
///
/// The error is the first of these, in order: those of the holder; `Unreadable` with the word that names the
/// first thread; for each thread `Unreadable` with its record, then with the C frame's word, then for each
/// member of its chain `Unreadable` with its frame record, then with its code record, then, where it is not
/// skipped, `FrameLimit` where 4096 frames are kept, and else those of its locals, where they are asked for;
/// `ChainLimit` where 16384 members were met and the next is not 0; last `ThreadLimit` where 4096 threads were
/// walked and the next is not 0. Those of a frame's locals are, in order: `BadValue` with a negative count of
/// variables, `LocalsLimit` with one above 65535; `Unreadable` with the record of the tuple of names, which is
/// read also where there is no variable; for each variable `Unreadable` with the word that names it, then with
/// its name, `BadValue` with a name that is no text, and `Unreadable` with its slot. Else it is out of memory.
///
/// At most 3 reads, 2 for each thread that is met, 6 for each member, 2 for the line of each member that is kept
/// and 1 for its tuple of names, and 4 for each variable. Of a member that is not kept neither a table nor a
/// variable is read, nor of any member what is not asked for. Where the holder is not known no thread is met. So it
/// is at most 452,993,027 without locals, and with them 4,398,432,395,267 (`traces_most`), whatever the memory holds.
pub fn get_stack_traces<P: ProcessMemory>(
    alloc: Global,
    interpreter: u64,
    process: &mut P,
    layout: &Layout,
    lock: u64,
    config: Option<&Config>,
) -> Result<Vec<StackTrace>, StackError>
    requires sound { IsSound layout.now }
    ensures answer { ConsultsBy layout.now stack_fault
        (λ m. stacks_cost (asked_by config.entry) layout.now m lock interpreter)
        (P.seen process.old) (P.seen process.new)
        (λ m. stacks_at (asked_by config.entry) layout.now m lock interpreter) (traces_of_result result) }
    ensures traces { ConsultingBy layout.now (λ m. stacks_cost (asked_by config.entry) layout.now m lock interpreter)
        (P.seen process.old) (P.seen process.new)
        (λ m. IfOk result (λ traces.
        AreStacks (asked_by config.entry) layout.now m lock interpreter (map trace_of traces.items))) }
    // what is right is the answer, out of memory aside
    ensures only { ConsultingBy layout.now (λ m. stacks_cost (asked_by config.entry) layout.now m lock interpreter)
        (P.seen process.old) (P.seen process.new)
        (λ m. (traces : List Trace) → AreStacks (asked_by config.entry) layout.now m lock interpreter traces
        → Answers stack_fault (Ok traces) (traces_of_result result)) }
    ensures faults { ConsultingBy layout.now (λ m. stacks_cost (asked_by config.entry) layout.now m lock interpreter)
        (P.seen process.old) (P.seen process.new)
        (λ m. FaultsAre stack_fault
        (first_fault (stacks_faults (asked_by config.entry) layout.now m lock interpreter)) result) }
    ensures bound { (P.seen process.new).reads ≤ (P.seen process.old).reads
        + stacks_bound (asked_by config.entry) layout.now (byte_at (P.seen process.old).pieces) lock interpreter }
    ensures details { details_walked (asked_by config.entry) layout.now (byte_at (P.seen process.old).pieces)
        lock interpreter
        ≤ 3 * members_walked (asked_by config.entry) layout.now (byte_at (P.seen process.old).pieces) lock interpreter
        + 4 * locals_walked (asked_by config.entry) layout.now (byte_at (P.seen process.old).pieces) lock interpreter }
    // whatever the memory holds, as cyclic chains
    ensures most { (P.seen process.new).reads ≤ (P.seen process.old).reads
        + traces_most (asked_by config.entry).locals }
{
    let asked = asked_by(config);
    walk_stack_traces(alloc, process, layout, asked, lock, interpreter)
}

/// Reads the trace of one thread.
fn walk_stack_trace<P: ProcessMemory>(
    alloc: Global,
    process: &mut P,
    layout: &Layout,
    asked: Asked,
    thread: u64,
) -> Result<StackTrace, StackError>
    requires sound { IsSound layout.now }
    ensures { ConsultsBy layout.now stack_fault (λ m. thread_cost asked layout.now m tt thread)
        (P.seen process.old) (P.seen process.new)
        (λ m. trace_at asked layout.now m thread) (trace_of_result result) }
{
    let mut scratch = Scratch::new(alloc);
    let (_, trace) = read_trace(alloc, process, layout, asked, thread, &mut scratch)?;
    Ok(trace)
}

/// The trace of the thread at an address, with the frames of its whole chain of callers, their lines and, where
/// `copy_locals` is true, their locals: that which `get_stack_traces` has of this thread, but that it does not
/// say who holds the lock (`owns_gil` is false).
///
/// The error is the first of these, in order: `Unreadable` with the thread's record, then with the C frame's
/// word, and then those of its frames as `get_stack_traces` has them. Else it is out of memory. At most 2
/// reads, 6 for each member that is met, 3 for the line and the tuple of names of each one that is kept, and 4
/// for each variable: at most 110,594 without locals, and with them 1,073,836,034 (`trace_most`).
pub fn get_stack_trace<P: ProcessMemory>(
    alloc: Global,
    thread: u64,
    process: &mut P,
    layout: &Layout,
    copy_locals: bool,
    lineno: LineNo,
) -> Result<StackTrace, StackError>
    requires sound { IsSound layout.now }
    ensures answer { ConsultsBy layout.now stack_fault
        (λ m. thread_cost (asks lineno copy_locals) layout.now m tt thread) (P.seen process.old) (P.seen process.new)
        (λ m. trace_at (asks lineno copy_locals) layout.now m thread) (trace_of_result result) }
    ensures trace { ConsultingBy layout.now (λ m. thread_cost (asks lineno copy_locals) layout.now m tt thread)
        (P.seen process.old) (P.seen process.new)
        (λ m. IfOk result (λ trace. IsTraceOf (asks lineno copy_locals) layout.now m thread (trace_of trace))) }
    // what is right is the answer, out of memory aside
    ensures only { ConsultingBy layout.now (λ m. thread_cost (asks lineno copy_locals) layout.now m tt thread)
        (P.seen process.old) (P.seen process.new)
        (λ m. (trace : Trace) → IsTraceOf (asks lineno copy_locals) layout.now m thread trace
        → Answers stack_fault (Ok trace) (trace_of_result result)) }
    ensures faults { ConsultingBy layout.now (λ m. thread_cost (asks lineno copy_locals) layout.now m tt thread)
        (P.seen process.old) (P.seen process.new)
        (λ m. FaultsAre stack_fault
        (first_fault (thread_faults (asks lineno copy_locals) layout.now m tt thread)) result) }
    ensures bound { (P.seen process.new).reads ≤ (P.seen process.old).reads
        + thread_bound (asks lineno copy_locals) layout.now (byte_at (P.seen process.old).pieces) thread }
    ensures details { thread_details (asks lineno copy_locals) layout.now (byte_at (P.seen process.old).pieces) thread
        ≤ 3 * thread_members (asks lineno copy_locals) layout.now (byte_at (P.seen process.old).pieces) thread
        + 4 * thread_locals (asks lineno copy_locals) layout.now (byte_at (P.seen process.old).pieces) thread }
    // whatever the memory holds, as a cyclic chain
    ensures most { (P.seen process.new).reads
        ≤ (P.seen process.old).reads + trace_most copy_locals }
{
    let asked = Asked {
        lineno,
        locals: copy_locals,
    };
    walk_stack_trace(alloc, process, layout, asked, thread)
}
