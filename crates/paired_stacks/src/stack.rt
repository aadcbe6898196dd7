//! The threads whose Python frames and native ones stand in one stack.
ghost use Rattle.std.specs.Prelude.{◌≡◌, ◌*◌, IfOk, List, Option, length, map};
ghost use Rattle.process_memory.specs.Seen.{Reading};
ghost use Rattle.native_stacks.specs.Threads.{thread_shown};
ghost use Rattle.paired_stacks.specs.Stacks.{ArePaired, IsPairedBy, IsPairedIf, IsPairedStack, most_of_each};
ghost use Rattle.paired_stacks.specs.Stacks.{first_start, other_starts, seen_if, walked_by};
ghost use Rattle.paired_stacks.specs.declared.stack.PairedStack.{PairedStack as Told};
ghost use Rattle.paired_stacks.specs.Walked.{walked_threads};

use crate::code::OwnCode;
use crate::frames::{hidden_of, parts_of, steps_of};
use crate::laid::{OneStack, Pairing, laid, laid_apart};
use crate::walked::{Walked, walked_threads};
use native_pairs::{Item, Part};
use native_stacks::NativeThread;
use process_memory::ProcessMemory;
use py_fields::Layout;
use py_fronts::SalvagedInterpreter;
use py_runs::{RunEnd, read_runs};
use std::alloc::{AllocError, Global};
use thread_registers::Whose;

/// How many members of a chain of frames are met at most.
const MOST_MEMBERS: u64 = 1_048_576;

/// One stack of a thread's Python frames and its native ones.
#[derive(Debug, Drop)]
pub struct PairedStack {
    /// The address of the thread's record.
    pub thread: u64,
    /// By what the two stand in one.
    pub pairing: Pairing,
    /// Both, the newest first: Python's frames by their numbers in the chain of those that are told, and the native
    /// ones by their numbers in the stack, behind which those count that follow it by a guess.
    pub items: Vec<Item>,
    /// Of each native frame whether it is hidden among Python's frames.
    pub hidden: Vec<bool>,
}

/// Both in one, where a run ends so.
fn laid_at<P: ProcessMemory>(
    alloc: Global,
    process: &mut P,
    layout: &Layout,
    end: RunEnd,
    parts: &[Part],
    steps: &[bool],
    walked: Walked,
) -> Result<OneStack, AllocError>
    ensures { Reading most_of_each (P.seen process.old) (P.seen process.new) (λ m. IfOk result (λ laid.
        IsPairedBy (Some end) layout.now m parts.now steps.now walked laid.pairing laid.items.items)) }
{
    let count = walked.met.min(MOST_MEMBERS);
    let runs = read_runs(alloc, process, layout, end, walked.address, count)?;
    laid(alloc, end, parts, steps, &runs, walked.frames)
}

/// The same, where it is known where a run ends.
fn laid_if<P: ProcessMemory>(
    alloc: Global,
    process: &mut P,
    layout: &Layout,
    end: Option<RunEnd>,
    parts: &[Part],
    steps: &[bool],
    walked: Walked,
) -> Result<OneStack, AllocError>
    ensures { Reading most_of_each (P.seen process.old) (P.seen process.new) (λ m. IfOk result (λ laid.
        IsPairedBy end layout.now m parts.now steps.now walked laid.pairing laid.items.items)) }
{
    match end {
        Some(end) => laid_at(alloc, process, layout, end, parts, steps, walked),
        None => laid_apart(alloc, steps.len(), walked.frames),
    }
}

/// A thread of Python's that stands at a stack pointer.
fn pair_thread<P: ProcessMemory>(
    alloc: Global,
    process: &mut P,
    layout: &Layout,
    end: Option<RunEnd>,
    own: OwnCode,
    start: Option<u64>,
    thread: &NativeThread,
    walked: Walked,
) -> Result<PairedStack, AllocError>
    ensures { Reading most_of_each (P.seen process.old) (P.seen process.new) (λ m. IfOk result
        (IsPairedStack end layout.now m own start (thread_shown thread.now) walked)) }
{
    let parts = parts_of(alloc, own, start, thread)?;
    let steps = steps_of(alloc, own, thread)?;
    let hidden = hidden_of(alloc, own, thread)?;
    let laid = laid_if(alloc, process, layout, end, &parts, &steps, walked)?;
    Ok(PairedStack {
        thread: walked.address,
        pairing: laid.pairing,
        items: laid.items,
        hidden,
    })
}

/// Which of Python's threads that are shown a thread is.
fn walked_by(threads: &[Walked], whose: Whose) -> Option<Walked>
    ensures { result ≡ walked_by threads.now whose }
{
    match whose {
        Whose::Python(found) => threads.get(found.index).copied(),
        Whose::Other => None,
        Whose::Untold => None,
    }
}

/// The stack of a thread, where it is one of Python's.
fn pair_if<P: ProcessMemory>(
    alloc: Global,
    process: &mut P,
    layout: &Layout,
    end: Option<RunEnd>,
    own: OwnCode,
    start: Option<u64>,
    thread: &NativeThread,
    threads: &[Walked],
) -> Result<Option<PairedStack>, AllocError>
    ensures { Reading most_of_each (P.seen process.old) (P.seen process.new) (λ m. IfOk result
        (IsPairedIf end layout.now m own start (thread_shown thread.now) (walked_by threads.now thread.now.whose))) }
{
    match walked_by(threads, thread.whose) {
        Some(walked) => {
            let stack = pair_thread(alloc, process, layout, end, own, start, thread, walked)?;
            Ok(Some(stack))
        }
        None => Ok(None),
    }
}

/// The stack pointer of the next thread, and those behind it.
fn next_start(starts: &[Option<u64>]) -> (Option<u64>, &[Option<u64>])
    ensures start { result.0 ≡ first_start starts.now }
    ensures rest { result.1.now ≡ other_starts starts.now }
{
    match starts.split_first() {
        Some((start, rest)) => (*start, rest),
        None => (None, starts),
    }
}

/// See `pair_stacks`.
fn pair_all<P: ProcessMemory>(
    alloc: Global,
    process: &mut P,
    layout: &Layout,
    end: Option<RunEnd>,
    own: OwnCode,
    starts: &[Option<u64>],
    natives: &[NativeThread],
    threads: &[Walked],
) -> Result<Vec<Option<PairedStack>>, AllocError>
    ensures { Reading (most_of_each * length natives.now) (P.seen process.old) (P.seen process.new) (λ m. IfOk result
        (λ stacks. ArePaired end layout.now m own threads.now starts.now (map thread_shown natives.now) stacks.items)) }
{
    let mut stacks = Vec::new(alloc);
    let mut left = starts;
    for native in natives {
        let (start, rest) = next_start(left);
        let stack = pair_if(alloc, process, layout, end, own, start, native, threads)?;
        stacks.push(stack)?;
        left = rest;
    }
    Ok(stacks)
}

/// One stack of the Python frames and the native ones of each thread of a core, the newest first: of its native stacks,
/// in their order, and by the stack pointers of the same status records (`starts_of`); none where a thread is none of
/// Python's. `end` tells where a run ends (`py_runs::run_end`), and `own` where Python's own code is mapped.
///
/// Python's frames stand in front of the native frame that runs them: from 3.11 on the one of Python's own code in
/// whose part of the stack the border of their run lies, and up to 3.10 the call of the interpreter's loop of the same
/// number. A native frame without a run shows none; Python's frames of runs without a native frame stand last, behind a
/// mark. Where the numbers don't allow it, the runs are not all frames that are shown, or it isn't known where runs
/// end, the native frames stand first, and then Python's.
///
/// The one error is out of memory. At most 4,194,338 reads for a thread.
pub fn pair_stacks<P: ProcessMemory>(
    alloc: Global,
    process: &mut P,
    layout: &Layout,
    end: Option<RunEnd>,
    own: OwnCode,
    starts: &[Option<u64>],
    natives: &[NativeThread],
    interpreters: &[SalvagedInterpreter],
) -> Result<Vec<Option<PairedStack>>, AllocError>
    ensures right { Reading (most_of_each * length natives.now) (P.seen process.old) (P.seen process.new) (λ m.
        IfOk result (λ stacks. ArePaired end layout.now m own (walked_threads interpreters.now) starts.now
        (map thread_shown natives.now) stacks.items)) }
    ensures only { Reading (most_of_each * length natives.now) (P.seen process.old) (P.seen process.new) (λ m.
        (other : List (Option Told)) → ArePaired end layout.now m own (walked_threads interpreters.now) starts.now
        (map thread_shown natives.now) other
        → IfOk result (λ stacks. map seen_if stacks.items ≡ map seen_if other)) }
{
    let threads = walked_threads(alloc, interpreters)?;
    pair_all(alloc, process, layout, end, own, starts, natives, &threads)
}
