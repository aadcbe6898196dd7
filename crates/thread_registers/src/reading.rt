//! The threads of a process among the notes of its core.
ghost use Rattle.std.specs.Prelude.{◌≡◌, ◌≤◌, ◌++◌, IfOk, OnOk, is_none, length, map, option_to_list, position};
ghost use Rattle.elf64_core.specs.Notes.{noted};
ghost use Rattle.py_fronts.specs.Crashes.{is_native};
ghost use Rattle.thread_registers.specs.Threads.{is_python, is_untold, match_at, python_of, thread_in, thread_noted};
ghost use Rattle.thread_registers.specs.Threads.{thread_shown, threads_told, whose_of};

use crate::registers::registers_in;
use crate::threads::{PythonMatch, PythonThread, ThreadRegisters, Whose};
use elf64_core::{Machine, Note, u32_in};
use py_fronts::{Crash, is_id, status_thread};
use std::alloc::{AllocError, Global};

/// The type of a status record, and how many bytes one has at least.
const STATUS: u32 = 1;

const STATUS_SIZE: usize = 112;

/// Where the thread's id stands in one, of 4 bytes.
const PR_PID: usize = 32;

/// Whether both ids are told, and are the same.
fn is_native(told: Option<u64>, id: Option<u64>) -> bool
    ensures { result ≡ is_native told id }
{
    match id {
        Some(id) => is_id(told, id),
        None => false,
    }
}

/// Whether a thread of Python's is the one that a record is of: by the thread pointer where it is told, else by the
/// system's id.
fn is_python(thread: Crash, python: &PythonThread) -> bool
    ensures { result ≡ is_python thread python.now }
{
    match thread.thread_pointer {
        Some(pointer) => is_id(Some(pointer), python.thread_id),
        None => is_native(thread.native_id, python.native_id),
    }
}

/// The index of the first one that is.
fn first_python(thread: Crash, pythons: &[PythonThread]) -> Option<usize>
    ensures { result ≡ position (λ t. is_python thread t) pythons.now }
{
    pythons.iter().position(|python| is_python(thread, python))
}

/// The one at an index.
fn match_at(pythons: &[PythonThread], index: usize) -> Option<PythonMatch>
    ensures { result ≡ match_at pythons.now index }
{
    match pythons.get(index) {
        Some(python) => Some(PythonMatch {
            index,
            thread_id: python.thread_id,
        }),
        None => None,
    }
}

/// The first one that is.
fn python_of(pythons: &[PythonThread], thread: Crash) -> Option<PythonMatch>
    ensures { result ≡ python_of pythons.now thread }
{
    match first_python(thread, pythons) {
        Some(index) => match_at(pythons, index),
        None => None,
    }
}

/// The index of the first one whose id of the system's is not known.
fn first_nameless(pythons: &[PythonThread]) -> Option<usize>
    ensures { result ≡ position (λ t. is_none t.native_id) pythons.now }
{
    pythons.iter().position(|python| python.native_id.is_none())
}

/// Whether it can't be told that none is.
fn is_untold(pointer: Option<u64>, pythons: &[PythonThread]) -> bool
    ensures { result ≡ is_untold pointer pythons.now }
{
    match pointer {
        Some(_) => false,
        None => first_nameless(pythons).is_some(),
    }
}

/// Whose thread it is that a record is of.
#[tactic(auto, unfolding(crate::specs::Threads::whose_of))]
fn whose_of(pythons: &[PythonThread], thread: Crash) -> Whose
    ensures { result ≡ whose_of pythons.now thread }
{
    if let Some(found) = python_of(pythons, thread) {
        return Whose::Python(found);
    }
    if is_untold(thread.thread_pointer, pythons) {
        return Whose::Untold;
    }
    Whose::Other
}

/// What a status record says of its thread.
#[tactic(auto, unfolding(crate::specs::Threads::thread_in))]
fn thread_in(
    alloc: Global,
    machine: Machine,
    pythons: &[PythonThread],
    status: &[u8],
) -> Result<ThreadRegisters, AllocError>
    requires { 112 ≤ length status.now }
    ensures { IfOk result (λ thread. thread_shown thread ≡ thread_in machine pythons.now status.now) }
{
    let registers = registers_in(alloc, machine, status)?;
    let whose = whose_of(pythons, status_thread(machine, status));
    let system_id = u32_in(status, PR_PID);
    Ok(ThreadRegisters {
        system_id,
        whose,
        registers,
    })
}

/// Adds what a note says, if it is a status record.
#[tactic(auto, unfolding(crate::specs::Threads::thread_noted))]
fn add_thread(
    alloc: Global,
    threads: &mut Vec<ThreadRegisters>,
    machine: Machine,
    pythons: &[PythonThread],
    note: &Note<'_>,
) -> Result<(), AllocError>
    ensures { OnOk result (map thread_shown threads.new.items ≡ map thread_shown threads.old.items
        ++ option_to_list (thread_noted machine pythons.now (noted note.now))) }
{
    if note.kind == STATUS && note.desc.len() >= STATUS_SIZE {
        let thread = thread_in(alloc, machine, pythons, note.desc)?;
        threads.push(thread)?;
    }
    Ok(())
}

/// The threads of a process by the notes of its core in table order: one for each status record (note type 1, of 112
/// bytes at least), in their order.
///
/// Of each: the id that the system gave (`pr_pid`, 4 bytes at 32); its registers, 8 bytes each from 112 on, where the
/// record has 336 bytes on x86-64 or 392 on aarch64, and of no other machine; and which of `pythons` it is, the Python
/// threads that are known: on x86-64, where the record has 288 bytes, the first whose id is `fs_base`; else the first
/// whose `native_id` is the system's id. An id of 0 is nobody's. Where none is and that id is not known of each of
/// them (aarch64 before 3.11), whose it is is not told.
///
/// The one error is out of memory.
pub fn read_threads(
    alloc: Global,
    machine: Machine,
    notes: &[Note<'_>],
    pythons: &[PythonThread],
) -> Result<Vec<ThreadRegisters>, AllocError>
    ensures { IfOk result (λ threads. map thread_shown threads.items
        ≡ threads_told machine pythons.now (map noted notes.now)) }
{
    let mut threads = Vec::new(alloc);
    for note in notes {
        add_thread(alloc, &mut threads, machine, pythons, note)?;
    }
    Ok(threads)
}
