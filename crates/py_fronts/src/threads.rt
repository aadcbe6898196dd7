//! The front of an interpreter's threads, as it is asked for.
ghost use Rattle.std.specs.Prelude.{◌≡◌, ◌≤◌, ◌+◌, ◌*◌, IfOk, Ok, length};
ghost use Rattle.py_fields.specs.Sound.{IsSound};
ghost use Rattle.py_stacks.specs.Interpreter.{threads_head};
ghost use Rattle.py_fronts.specs.Answers.{IsOrNoMemory};
ghost use Rattle.py_fronts.specs.BesideReports.{AgreesWithReport};
ghost use Rattle.py_fronts.specs.FirstThreads.{AreFirstThreads};
ghost use Rattle.py_fronts.specs.ThreadFronts.{ThreadsShown, front_shown, left_after, threads_front, threads_of};
ghost use Rattle.py_fronts.specs.ThreadFronts.{ReadingThreads, threads_most, threads_result};

use crate::ThreadsFront;
use crate::thread_front::walk_threads;
use process_memory::ProcessMemory;
use py_fields::Layout;
use py_stacks::{Asked, StackError};
use std::alloc::Global;

/// The threads of the interpreter at an address from its first one, `head`, on, as far as their chain goes, each with
/// its frames as far as theirs goes.
///
/// The threads end whole at null, cut where 4096 were met and there is another, and broken where the next one's record
/// is not in memory or names another interpreter. What is broken of one thread costs the others nothing: its frames end
/// whole at null; cut where 1,048,576 members were met in it, or `left` in all, and there is another; and broken where
/// the word that leads to the first, or one of the next one's two records, is not in memory. `left` is how many members
/// may be met, and how many may be met yet after the call.
///
/// A member is left out where the address of its file's name is 0, or that name is empty or `<shim>`. Of the others all
/// are shown where they are at most twice `limit`, which is at most 4096; else the first so many and the last so many
/// before the end, with the number between. One whose file or function name can't be read, is no text or is too long
/// stands as itself. A frame has the locals that `get_stack_traces` has of it, where they are asked for; a fault of
/// them is its own and ends nothing. Its line is that of `frame_lines`, by a table of up to 2^24 bytes and the steps of
/// its version; but one that stands before its first instruction has the first line of its code.
///
/// The one error is out of memory. At most one read, 7 for each thread, and 5 for each member that is met; and for
/// each that is shown 526, 513 of them of its line table, or 262,666 where locals are asked for, 4 for each of 65,535
/// variables. No more are shown than are met.
pub fn get_threads_front<P: ProcessMemory>(
    alloc: Global,
    process: &mut P,
    layout: &Layout,
    asked: Asked,
    limit: usize,
    interpreter: u64,
    head: u64,
    left: &mut u64,
) -> Result<ThreadsFront, StackError>
    requires sound { IsSound layout.now }
    requires few { limit ≤ 4096 }
    ensures answer { ReadingThreads asked layout.now limit left.old interpreter head (P.seen process.old)
        (P.seen process.new) (λ m. IsOrNoMemory
        (front_shown asked layout.now m limit left.old (threads_front layout.now interpreter m head))
        (threads_result result)) }
    ensures right { ReadingThreads asked layout.now limit left.old interpreter head (P.seen process.old)
        (P.seen process.new) (λ m. IfOk result (λ front.
        AreFirstThreads asked layout.now m limit left.old interpreter head (threads_of front))) }
    // what is right is the answer, out of memory aside
    ensures only { ReadingThreads asked layout.now limit left.old interpreter head (P.seen process.old)
        (P.seen process.new) (λ m. (shown : ThreadsShown)
        → AreFirstThreads asked layout.now m limit left.old interpreter head shown
        → IsOrNoMemory shown (threads_result result)) }
    // its threads are those of a report, where there is one
    ensures report { ReadingThreads asked layout.now limit left.old interpreter head (P.seen process.old)
        (P.seen process.new) (λ m. IfOk result (λ front. threads_head layout.now m interpreter ≡ Ok head
        → AgreesWithReport layout.now m interpreter (threads_of front))) }
    ensures left { IfOk result (λ front. left.new ≡ left_after left.old (threads_of front).threads) }
    ensures fewer { left.new ≤ left.old }
    ensures few { IfOk result (λ front. length front.threads.items ≤ 4096) }
    // whatever the memory holds, as cyclic chains
    ensures most { (P.seen process.new).reads ≤ (P.seen process.old).reads + threads_most asked limit left.old }
{
    walk_threads(
        alloc,
        process,
        layout,
        asked,
        limit,
        interpreter,
        head,
        left,
    )
}
