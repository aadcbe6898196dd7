//! The native stacks of all threads.
ghost use Rattle.std.specs.Prelude.{◌≡◌, ◌++◌, IfOk, OnOk, length, map, option_to_list, true};
ghost use Rattle.elf64_core.specs.Notes.{noted};
ghost use Rattle.process_memory.specs.Seen.{Reading};
ghost use Rattle.native_frames.specs.Kept.{AreKept};
ghost use Rattle.native_frames.specs.Limits.{frame_machine, most_reads, thread_most};
ghost use Rattle.native_frames.specs.Threads.{stack_shown_if};
ghost use Rattle.thread_registers.specs.Threads.{thread_noted, thread_shown as known_shown};
ghost use Rattle.native_stacks.specs.Stacks.{AreNativeStacks, MappedAscend, StacksShown, known_shown_if, stacks_shown};
ghost use Rattle.native_stacks.specs.Threads.{AreThreads, HasStacks, IsThread, IsThreadOf, count_of, first_after};
ghost use Rattle.native_stacks.specs.Threads.{is_crash, left_after, state_by, thread_shown, thread_shown_if};

use crate::stacks::{NativeStacks, NativeThread};
use core_unwind::{CodeMap, State, thread_state};
use elf64_core::{Machine, Note, u16_in};
use frame_rows::Machine as FrameMachine;
use image_memory::{CoreDump, Images};
use native_frames::{
    Kept, Mapped, ThreadStack, code_bits, frame_machine, mapped_files, stack_parts,
};
use process_memory::ProcessMemory;
use std::alloc::{AllocError, Global};
use std::collections::BTreeMap;
use thread_registers::{PythonThread, ThreadRegisters, read_threads};

/// How many frames all threads of a process have together at most, beside two of each.
const MOST_FRAMES: usize = 4_194_304;

/// A thread's stack, and what follows that by a guess.
#[derive(Drop)]
struct Halves {
    stack: Option<ThreadStack>,
    guessed: Option<ThreadStack>,
}

/// Where a thread stands by its record, on a machine whose registers are told.
fn state_by(machine: Option<FrameMachine>, status: &[u8]) -> Option<(FrameMachine, State)>
    ensures { result ≡ state_by machine status.now }
{
    match machine {
        Some(machine) => match thread_state(machine, status) {
            Some(state) => Some((machine, state)),
            None => None,
        },
        None => None,
    }
}

/// Whether a record is that of the thread that got the signal: the first one, and it names a signal.
fn is_crash(is_first: bool, status: &[u8]) -> bool
    ensures { result ≡ is_crash is_first status.now }
{
    is_first && status.len() >= 14 && u16_in(status, 12) != 0
}

/// The stacks of a thread that stands where its record tells.
fn halves_of<'a, P: ProcessMemory>(
    alloc: Global,
    process: &mut P,
    mappings: &CodeMap<'a>,
    kept: &mut Kept<'a>,
    code_bits: u64,
    strict: bool,
    left: usize,
    standing: Option<(FrameMachine, State)>,
) -> Result<Halves, AllocError>
    requires kept { AreKept mappings.now kept.old }
    ensures is { Reading thread_most (P.seen process.old) (P.seen process.new) (λ m. IfOk result (λ halves.
        HasStacks mappings.now code_bits m strict left standing (stack_shown_if halves.stack)
        (stack_shown_if halves.guessed))) }
    ensures kept { AreKept mappings.now kept.new }
{
    match standing {
        Some((machine, state)) => {
            let parts = stack_parts(
                alloc, process, mappings, kept, machine, code_bits, strict, left, &state,
            )?;
            Ok(Halves {
                stack: Some(parts.stack),
                guessed: parts.guessed,
            })
        }
        None => Ok(Halves {
            stack: None,
            guessed: None,
        }),
    }
}

/// The thread of a status record, of which so much is known.
fn thread_of<'a, P: ProcessMemory>(
    alloc: Global,
    process: &mut P,
    mappings: &CodeMap<'a>,
    kept: &mut Kept<'a>,
    machine: Machine,
    code_bits: u64,
    strict: bool,
    is_first: bool,
    left: usize,
    known: &ThreadRegisters,
    status: &[u8],
) -> Result<NativeThread, AllocError>
    requires kept { AreKept mappings.now kept.old }
    ensures is { Reading thread_most (P.seen process.old) (P.seen process.new) (λ m. IfOk result (λ thread.
        IsThread machine mappings.now code_bits m strict is_first left (known_shown known.now) status.now
        (thread_shown thread))) }
    ensures kept { AreKept mappings.now kept.new }
{
    let standing = state_by(frame_machine(machine), status);
    let halves = halves_of(
        alloc, process, mappings, kept, code_bits, strict, left, standing,
    )?;
    let is_crashed = is_crash(is_first, status);
    Ok(NativeThread {
        system_id: known.system_id,
        whose: known.whose,
        is_crashed,
        stack: halves.stack,
        guessed: halves.guessed,
    })
}

/// What is known of the thread of a note, if that is a status record.
fn known_of(
    alloc: Global,
    machine: Machine,
    pythons: &[PythonThread],
    note: &Note<'_>,
) -> Result<Option<ThreadRegisters>, AllocError>
    ensures { IfOk result (λ known. known_shown_if known ≡ thread_noted machine pythons.now (noted note.now)) }
{
    let notes = [*note];
    let mut known = read_threads(alloc, machine, &notes, pythons)?;
    Ok(known.pop())
}

/// How many frames a stack has.
fn count_of(stack: &Option<ThreadStack>) -> usize
    ensures { result ≡ count_of (stack_shown_if stack.now) }
{
    match stack {
        Some(stack) => stack.frames.len(),
        None => 0,
    }
}

/// The thread of a note, if that is a status record.
fn thread_noted<'a, P: ProcessMemory>(
    alloc: Global,
    process: &mut P,
    mappings: &CodeMap<'a>,
    kept: &mut Kept<'a>,
    machine: Machine,
    pythons: &[PythonThread],
    code_bits: u64,
    strict: bool,
    is_first: bool,
    left: usize,
    note: &Note<'_>,
) -> Result<Option<NativeThread>, AllocError>
    requires kept { AreKept mappings.now kept.old }
    ensures is { Reading thread_most (P.seen process.old) (P.seen process.new) (λ m. IfOk result (λ thread.
        IsThreadOf machine mappings.now code_bits m strict is_first left (noted note.now).desc
        (thread_noted machine pythons.now (noted note.now)) (thread_shown_if thread))) }
    ensures kept { AreKept mappings.now kept.new }
{
    match known_of(alloc, machine, pythons, note)? {
        Some(known) => {
            let thread = thread_of(
                alloc, process, mappings, kept, machine, code_bits, strict, is_first, left, &known,
                note.desc,
            )?;
            Ok(Some(thread))
        }
        None => Ok(None),
    }
}

/// How many frames are left to the process behind a thread.
fn left_after(left: usize, thread: &Option<NativeThread>) -> usize
    ensures { result ≡ left_after left (thread_shown_if thread.now) }
{
    match thread {
        Some(thread) => left
            .saturating_sub(count_of(&thread.stack))
            .saturating_sub(count_of(&thread.guessed)),
        None => left,
    }
}

/// Whether the thread behind is the first one.
fn first_after(is_first: bool, thread: &Option<NativeThread>) -> bool
    ensures { result ≡ first_after is_first (thread_shown_if thread.now) }
{
    match thread {
        Some(_) => false,
        None => is_first,
    }
}

/// Adds a thread, if there is one.
fn push_if(threads: &mut Vec<NativeThread>, thread: Option<NativeThread>) -> Result<(), AllocError>
    ensures { OnOk result (map thread_shown threads.new.items ≡ map thread_shown threads.old.items
        ++ option_to_list (thread_shown_if thread)) }
{
    if let Some(thread) = thread {
        threads.push(thread)?;
    }
    Ok(())
}

/// The threads of the status records among notes.
fn threads_of<'a, P: ProcessMemory>(
    alloc: Global,
    process: &mut P,
    mappings: &CodeMap<'a>,
    machine: Machine,
    notes: &[Note<'_>],
    pythons: &[PythonThread],
    code_bits: u64,
    strict: bool,
) -> Result<Vec<NativeThread>, AllocError>
    ensures { Reading (most_reads (length notes.now)) (P.seen process.old) (P.seen process.new) (λ m. IfOk result
        (λ threads. AreThreads machine pythons.now mappings.now code_bits m strict (map noted notes.now) true 4194304
        (map thread_shown threads.items))) }
{
    let mut threads = Vec::new(alloc);
    let mut kept = BTreeMap::new(alloc);
    let mut left = MOST_FRAMES;
    let mut is_first = true;
    for note in notes {
        let thread = thread_noted(
            alloc, process, mappings, &mut kept, machine, pythons, code_bits, strict, is_first,
            left, note,
        )?;
        left = left_after(left, &thread);
        is_first = first_after(is_first, &thread);
        push_if(&mut threads, thread)?;
    }
    Ok(threads)
}

/// See `read_native_stacks`.
fn read_stacks<P: ProcessMemory>(
    alloc: Global,
    core: &CoreDump,
    notes: &[Note<'_>],
    images: &Images,
    process: &mut P,
    pythons: &[PythonThread],
    strict: bool,
) -> Result<NativeStacks, AllocError>
    ensures { Reading (most_reads (length notes.now)) (P.seen process.old) (P.seen process.new)
        (λ m. IfOk result (λ stacks. AreNativeStacks core.now (map noted notes.now) images.now m pythons.now strict
        (stacks_shown stacks))) }
{
    let Mapped { files, mappings } = mapped_files(alloc, core, notes, images)?;
    let machine = core.machine();
    let bits = code_bits(machine, notes);
    let threads = threads_of(
        alloc, process, &mappings, machine, notes, pythons, bits, strict,
    )?;
    Ok(NativeStacks { files, threads })
}

/// The native stacks of the threads of a core: one for each status record among its notes in table order, by the files
/// of its file tables and the vdso.
///
/// `images` has the files that are at hand, each under its path; `process` is the memory of the core, and `pythons` are
/// the Python threads that are known: a record is of one of them as `thread_registers::read_threads` has it. With
/// `strict` nothing is guessed. A stack is that of `core_unwind::read_stack`; each frame has the function that covers
/// it (`covering_symbols`). A thread has at most 2^20 frames, and behind the 2^22nd of the process each thread its
/// newest one. Memory is read at most 8549 times for a frame.
///
/// What is right is the answer, where the tables of the files that were mapped ascend. The one error is out of memory,
/// as which a file table counts that is none, which those of a core are not.
pub fn read_native_stacks<P: ProcessMemory>(
    alloc: Global,
    core: &CoreDump,
    notes: &[Note<'_>],
    images: &Images,
    process: &mut P,
    pythons: &[PythonThread],
    strict: bool,
) -> Result<NativeStacks, AllocError>
    ensures right { Reading (most_reads (length notes.now)) (P.seen process.old) (P.seen process.new)
        (λ m. IfOk result (λ stacks. AreNativeStacks core.now (map noted notes.now) images.now m pythons.now strict
        (stacks_shown stacks))) }
    ensures only { MappedAscend core.now (map noted notes.now) images.now → Reading (most_reads (length notes.now))
        (P.seen process.old) (P.seen process.new) (λ m. (other : StacksShown)
        → AreNativeStacks core.now (map noted notes.now) images.now m pythons.now strict other
        → IfOk result (λ stacks. stacks_shown stacks ≡ other)) }
{
    read_stacks(alloc, core, notes, images, process, pythons, strict)
}
