//! Threads that are known as a process's own.
ghost use Rattle.std.specs.Prelude.{◌≡◌, ◌+◌, ◌*◌, MatchOption, Err, Ok, false, length};
ghost use Rattle.process_memory.specs.Memory.{word_at};
ghost use Rattle.process_memory.specs.Seen.{Reading, ReadingBy};
ghost use Rattle.py_fields.specs.Sound.{IsSound};
ghost use Rattle.py_stacks.specs.StackError.{stack_fault};
ghost use Rattle.py_fronts.specs.Answers.{IsOrNoMemory};
ghost use Rattle.py_fronts.specs.ThreadFronts.{threads_front};
ghost use Rattle.heap_search.specs.Known.{code_class_at, has_known, is_among, is_class, is_known_by, newest_class_at};

use elf64_core::u64_in;
use process_memory::{ProcessMemory, ReadFault, word_past};
use py_fields::Layout;
use py_fronts::{Thread, read_thread};
use py_stacks::{Records, StackError, first_frame, read_records};
use std::alloc::Global;

/// How many threads of an interpreter are met at most.
const THREADS: u64 = 4096;

/// No, where a part of a thread can't be read; out of memory is handed on.
fn unread(error: StackError) -> Result<bool, StackError>
    ensures { MatchOption (stack_fault error) (result ≡ Err StackError.OutOfMemory) (λ f. result ≡ Ok false) }
{
    match error {
        StackError::OutOfMemory => Err(StackError::OutOfMemory),
        _ => Ok(false),
    }
}

/// Whether an object is of a class. One read.
fn is_of<P: ProcessMemory>(
    process: &mut P,
    layout: &Layout,
    class: u64,
    at: u64,
) -> Result<bool, StackError>
    ensures { Reading 1 (P.seen process.old) (P.seen process.new)
        (λ m. IsOrNoMemory (is_class class (word_at m (at + layout.now.object.klass))) result) }
{
    match word_past(process, at, layout.object.klass as u64) {
        Ok(found) => Ok(found == class),
        Err(ReadFault::Unreadable { .. }) => Ok(false),
        Err(ReadFault::OutOfMemory) => Err(StackError::OutOfMemory),
    }
}

/// Whether the code of a frame is of a class. At most 3 reads.
fn is_code_of<P: ProcessMemory>(
    process: &mut P,
    layout: &Layout,
    class: u64,
    frame: u64,
    records: &mut Records,
) -> Result<bool, StackError>
    requires sound { IsSound layout.now }
    ensures { Reading 3 (P.seen process.old) (P.seen process.new)
        (λ m. IsOrNoMemory (is_class class (code_class_at layout.now m frame)) result) }
{
    match read_records(process, layout, frame, records) {
        Ok(()) => is_of(process, layout, class, records.code_at),
        Err(error) => unread(error),
    }
}

/// Whether the code of a thread's newest frame is of a class, by the thread's record. At most 4 reads.
fn is_newest_of<P: ProcessMemory>(
    process: &mut P,
    layout: &Layout,
    class: u64,
    thread: &[u8],
    records: &mut Records,
) -> Result<bool, StackError>
    requires sound { IsSound layout.now }
    requires whole { length thread.now ≡ layout.now.thread.size }
    ensures { Reading 4 (P.seen process.old) (P.seen process.new)
        (λ m. IsOrNoMemory (is_class class (newest_class_at layout.now m thread.now)) result) }
{
    match first_frame(process, layout, thread) {
        Ok(frame) => is_code_of(process, layout, class, frame, records),
        Err(error) => unread(error),
    }
}

/// Whether an address is among some.
fn is_among(pointers: &[u64], addr: u64) -> bool
    ensures { result ≡ is_among pointers.now addr }
{
    pointers.iter().any(|pointer| *pointer == addr)
}

/// Whether a thread is known, by its record: its id is one of these thread pointers, and the code of its newest frame
/// is of a class. At most 4 reads.
fn is_known<P: ProcessMemory>(
    process: &mut P,
    layout: &Layout,
    pointers: &[u64],
    class: u64,
    thread: &[u8],
    records: &mut Records,
) -> Result<bool, StackError>
    requires sound { IsSound layout.now }
    requires whole { length thread.now ≡ layout.now.thread.size }
    ensures { Reading 4 (P.seen process.old) (P.seen process.new)
        (λ m. IsOrNoMemory (is_known_by layout.now m pointers.now class thread.now) result) }
{
    let id = u64_in(thread, layout.thread.id as usize);
    if !is_among(pointers, id) {
        return Ok(false);
    }
    is_newest_of(process, layout, class, thread, records)
}

/// Buffers of no bytes yet.
fn new_records(alloc: Global) -> Records {
    Records {
        frame_at: 0,
        frame: Vec::new(alloc),
        code_at: 0,
        code: Vec::new(alloc),
    }
}

/// Whether one of the threads of an interpreter is known, of at most 4096 from its first one on. At most one read, and
/// 5 for each.
pub(crate) fn has_known<P: ProcessMemory>(
    alloc: Global,
    process: &mut P,
    layout: &Layout,
    pointers: &[u64],
    class: u64,
    interpreter: u64,
    head: u64,
) -> Result<bool, StackError>
    requires sound { IsSound layout.now }
    ensures { ReadingBy (λ m. 1 + 5 * length (threads_front layout.now interpreter m head).members)
        (P.seen process.old) (P.seen process.new)
        (λ m. IsOrNoMemory (has_known layout.now m pointers.now class interpreter head) result) }
{
    let mut records = new_records(alloc);
    let mut met = 0;
    let mut at = head;
    while at != 0 {
        if met == THREADS {
            return Ok(false);
        }
        let next = read_thread(alloc, process, layout, interpreter, at)?;
        let thread = match next {
            Thread::At(thread) => thread,
            Thread::Broken(_) => return Ok(false),
        };
        let known = is_known(process, layout, pointers, class, &thread, &mut records)?;
        if known {
            return Ok(true);
        }
        met += 1;
        at = u64_in(&thread, layout.thread.next as usize);
    }
    Ok(false)
}
