//! The thread that got the signal of a process.
ghost use Rattle.std.specs.Prelude.{◌≡◌, ◌≤◌, length, position};
ghost use Rattle.py_fronts.specs.Crashes.{crash_of, is_crashed, is_id, status_thread, thread_pointer};

use crate::id::names_thread;
use crate::thread_front::ThreadFront;
use elf64_core::{Machine, u16_in, u32_in, u64_in};

/// The thread that got the signal of a process: the one that the first status record of its core is of.
#[derive(Clone, Copy, Debug, PartialEq, Eq)]
pub struct Crash {
    /// The id that the system gave.
    pub native_id: Option<u64>,
    /// The thread pointer among its registers, which on x86-64 is the id that the interpreter gave.
    pub thread_pointer: Option<u64>,
}

/// Where the signal and the thread's id stand in a status record (Linux's `elf_prstatus` of 64-bit processes), in
/// bytes.
const PR_CURSIG: usize = 12;

const PR_PID: usize = 32;

/// Where `fs_base` stands in one of x86-64, and how many bytes such a record has then at least.
const FS_BASE: usize = 280;

const REGISTERS_SIZE: usize = 288;

/// The thread pointer among the registers of a status record; none where they are not there, or the machine has it
/// elsewhere.
fn thread_pointer(machine: Machine, status: &[u8]) -> Option<u64>
    ensures { result ≡ thread_pointer machine status.now }
{
    if status.len() < REGISTERS_SIZE {
        return None;
    }
    match machine {
        Machine::X86_64 => Some(u64_in(status, FS_BASE)),
        _ => None,
    }
}

/// The thread that a status record is of, by the bytes of its descriptor, 112 at least.
pub fn status_thread(machine: Machine, status: &[u8]) -> Crash
    requires whole { 112 ≤ length status.now }
    ensures { result ≡ status_thread machine status.now }
{
    Crash {
        native_id: Some(u64::from(u32_in(status, PR_PID))),
        thread_pointer: thread_pointer(machine, status),
    }
}

/// The same, where its signal isn't 0; else none.
///
/// That is the thread that got the signal, where it is the first record of a core: Linux writes that one first.
pub fn crash_of(machine: Machine, status: &[u8]) -> Option<Crash>
    requires whole { 112 ≤ length status.now }
    ensures { result ≡ crash_of machine status.now }
{
    if u16_in(status, PR_CURSIG) == 0 {
        return None;
    }
    Some(status_thread(machine, status))
}

/// Whether an id is told, and names the thread of this id; 0 names none.
pub fn is_id(told: Option<u64>, id: u64) -> bool
    ensures { result ≡ is_id told id }
{
    match told {
        Some(told) => names_thread(told, id),
        None => false,
    }
}

/// Whether a thread is the one that got the signal, by the system's id or by the interpreter's. None is, where no
/// signal is known; and an id of 0 is no thread's.
pub fn is_crashed(crash: Option<Crash>, thread: &ThreadFront) -> bool
    ensures { result ≡ is_crashed crash thread.now }
{
    let Some(crash) = crash else {
        return false;
    };
    if is_id(crash.thread_pointer, thread.thread_id) {
        return true;
    }
    match thread.os_thread_id {
        Some(id) => is_id(crash.native_id, id),
        None => false,
    }
}

/// The index of the first thread that got the signal, where there is one.
pub fn crashed_at(crash: Option<Crash>, threads: &[ThreadFront]) -> Option<usize>
    ensures { result ≡ position (λ thread. is_crashed crash thread) threads.now }
{
    threads.iter().position(|thread| is_crashed(crash, thread))
}
