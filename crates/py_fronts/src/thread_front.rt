//! The front of an interpreter's threads.
ghost use Rattle.std.specs.Prelude.{◌≡◌, ◌≤◌, ◌+◌, ◌*◌, IfOk, OnOk, length, map, min};
ghost use Rattle.process_memory.specs.Memory.{record_at};
ghost use Rattle.process_memory.specs.Seen.{Reading, ReadingBy};
ghost use Rattle.py_fields.specs.Sound.{IsSound};
ghost use Rattle.py_fronts.specs.Answers.{IsOrNoMemory};
ghost use Rattle.py_fronts.specs.FrameFronts.{thread_members_limit};
ghost use Rattle.py_fronts.specs.ThreadFronts.{IsWholeThread, RecordIs, ThreadIs, front_shown, left_after, thread_by};
ghost use Rattle.py_fronts.specs.ThreadFronts.{thread_front_result, thread_reads, threads_front, threads_of};
ghost use Rattle.py_fronts.specs.ThreadFronts.{ReadingThreads, threads_result};

use crate::frame_front::{read_chain, show_ends};
use crate::{ChainEnd, FramesFront};
use elf64_core::u64_in;
use process_memory::{ProcessMemory, ReadFault, record};
use py_fields::Layout;
use py_stacks::{Asked, Records, StackError, native_id};
use shared_texts::SharedTexts;
use std::alloc::Global;

/// How many threads of an interpreter are met at most.
pub(crate) const THREAD_LIMIT: usize = 4096;

/// How many members of one thread's chain of frames are met at most.
const THREAD_MEMBERS_LIMIT: u64 = 1_048_576;

/// A thread, with its frames as far as they go.
#[derive(Debug, Drop)]
pub struct ThreadFront {
    /// The address of its record.
    pub address: u64,
    /// The id that the interpreter gave.
    pub thread_id: u64,
    /// The id that the system gave, where the layout has it.
    pub os_thread_id: Option<u64>,
    /// Its frames.
    pub frames: FramesFront,
}

/// The threads of an interpreter, in the order of their chain, as far as it goes.
#[derive(Debug, Drop)]
pub struct ThreadsFront {
    /// The threads, at most 4096.
    pub threads: Vec<ThreadFront>,
    /// How their chain ends.
    pub end: ChainEnd,
}

/// What stands at an address of a chain of threads.
#[derive(Debug, Drop)]
pub enum Thread {
    /// A thread of the interpreter, by its record.
    At(Vec<u8>),
    /// None.
    Broken(ChainEnd),
}

/// A record as a thread of the interpreter, which it has to name.
fn thread_of(layout: &Layout, interpreter: u64, thread: Vec<u8>) -> Thread
    requires sound { IsSound layout.now }
    requires whole { length thread.items ≡ layout.now.thread.size }
    ensures { RecordIs layout.now interpreter thread.items result }
{
    let named = u64_in(&thread, layout.thread.interp as usize);
    if named != interpreter {
        return Thread::Broken(ChainEnd::Stray { interpreter: named });
    }
    Thread::At(thread)
}

/// What stands at an address of an interpreter's chain of threads: a thread's record, as long as the layout says, which
/// names the interpreter, or how the chain ends there. The one error is out of memory. One read.
pub fn read_thread<P: ProcessMemory>(
    alloc: Global,
    process: &mut P,
    layout: &Layout,
    interpreter: u64,
    at: u64,
) -> Result<Thread, StackError>
    requires sound { IsSound layout.now }
    ensures answer { Reading 1 (P.seen process.old) (P.seen process.new)
        (λ m. ThreadIs layout.now interpreter (record_at m at layout.now.thread.size) result) }
    ensures whole { IfOk result (IsWholeThread layout.now) }
{
    match record(alloc, process, at, layout.thread.size as u64) {
        Ok(thread) => Ok(thread_of(layout, interpreter, thread)),
        Err(ReadFault::Unreadable { addr, len }) => {
            Ok(Thread::Broken(ChainEnd::Unreadable { addr, len }))
        }
        Err(ReadFault::OutOfMemory) => Err(StackError::OutOfMemory),
    }
}

/// A thread by its record, where `left` members may be met yet.
fn read_thread_front<P: ProcessMemory>(
    alloc: Global,
    process: &mut P,
    layout: &Layout,
    asked: Asked,
    limit: usize,
    left: u64,
    at: u64,
    thread: &[u8],
    records: &mut Records,
    texts: &mut SharedTexts,
) -> Result<ThreadFront, StackError>
    requires sound { IsSound layout.now }
    requires few { limit ≤ 4096 }
    requires whole { length thread.now ≡ layout.now.thread.size }
    ensures answer { ReadingBy (λ m. thread_reads asked (thread_by asked layout.now m limit left at thread.now))
        (P.seen process.old) (P.seen process.new) (λ m.
        IsOrNoMemory (thread_by asked layout.now m limit left at thread.now) (thread_front_result result)) }
    ensures few { IfOk result (λ front. front.frames.met ≤ left) }
{
    let most = left.min(THREAD_MEMBERS_LIMIT);
    let chain = read_chain(alloc, process, layout, most, thread, records)?;
    let frames = show_ends(alloc, process, layout, asked, limit, &chain, records, texts)?;
    let thread_id = u64_in(thread, layout.thread.id as usize);
    let os_thread_id = native_id(layout.thread.native_id, thread);
    Ok(ThreadFront {
        address: at,
        thread_id,
        os_thread_id,
        frames,
    })
}

/// Buffers of no bytes yet.
fn new_records(alloc: Global) -> Records {
    Records {
        frame_at: 0,
        frame: Vec::new(alloc),
        code_at: 0,
        code: Vec::new(alloc),
    }
}

/// The threads of the interpreter from its first one on, where `left` members may be met yet, and as many are left
/// after.
pub(crate) fn walk_threads<P: ProcessMemory>(
    alloc: Global,
    process: &mut P,
    layout: &Layout,
    asked: Asked,
    limit: usize,
    interpreter: u64,
    head: u64,
    left: &mut u64,
) -> Result<ThreadsFront, StackError>
    requires sound { IsSound layout.now }
    requires few { limit ≤ 4096 }
    ensures answer { ReadingThreads asked layout.now limit left.old interpreter head (P.seen process.old)
        (P.seen process.new) (λ m. IsOrNoMemory
        (front_shown asked layout.now m limit left.old (threads_front layout.now interpreter m head))
        (threads_result result)) }
    ensures left { IfOk result (λ front. left.new ≡ left_after left.old (threads_of front).threads) }
    ensures fewer { left.new ≤ left.old }
    ensures few { IfOk result (λ front. length front.threads.items ≤ 4096) }
{
    let mut records = new_records(alloc);
    let mut texts = SharedTexts::new(alloc);
    let mut threads = Vec::new(alloc);
    let mut at = head;
    while at != 0 {
        if threads.len() == THREAD_LIMIT {
            let end = ChainEnd::Cut;
            return Ok(ThreadsFront { threads, end });
        }
        let next = read_thread(alloc, process, layout, interpreter, at)?;
        let thread = match next {
            Thread::At(thread) => thread,
            Thread::Broken(end) => return Ok(ThreadsFront { threads, end }),
        };
        let room = *left;
        let front = read_thread_front(
            alloc,
            process,
            layout,
            asked,
            limit,
            room,
            at,
            &thread,
            &mut records,
            &mut texts,
        )?;
        *left = room - front.frames.met;
        at = u64_in(&thread, layout.thread.next as usize);
        threads.push(front)?;
    }
    let end = ChainEnd::Whole;
    Ok(ThreadsFront { threads, end })
}
